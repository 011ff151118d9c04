//! What a line of a text states.

ghost use Rattle.std.specs.Prelude.{◌≡◌, Some, ◌≤◌, ◌<◌, [], length, IsTrue, ◌↔◌, is_some, IfSome, option_map, ◌==◌, ◌&&◌, ◌||◌, not, ◌∷◌, MatchOption};
ghost use Rattle.mufom_titxt.specs.Lines.{has_bytes, hex_after, address_of, byte_of, bytes_of, words_of, line_of, address_line, byte_line};
ghost use Rattle.mufom_titxt.specs.Scans.{shape_of, alone_shape, bytes_from};

use crate::lines::next_word;
use arrayvec::ArrayVec;
use mufom_numbers::hex_digit;

/// What a line states, except for its bytes.
#[derive(Clone, Copy, Debug)]
pub enum Shape {
    Blank,
    Address(u64),
    Bytes,
    End,
    Bad,
}

/// The greatest number of bytes on a short line. Programs that write this form put 16 bytes on a line.
pub(crate) const MOST_SHORT_BYTES: usize = 32;

// The most digits of an address.
const MOST_DIGITS: usize = 16;

// The number that digits spell.
fn hex_number(digits: &[u8]) -> Option<u64>
    requires { length digits.now ≤ 16 }
    ensures { result ≡ hex_after 0 digits.now }
{
    let mut number = 0;
    for byte in digits {
        let Some(digit) = hex_digit(*byte) else {
            return None;
        };
        number = number * 16 + digit as u64;
    }
    Some(number)
}

// The address that digits spell.
fn address_of(digits: &[u8]) -> Option<u64>
    ensures { result ≡ address_of digits.now }
{
    if digits.is_empty() || digits.len() > MOST_DIGITS {
        return None;
    }
    hex_number(digits)
}

/// The byte that a word spells.
pub(crate) fn byte_of(word: &[u8]) -> Option<u8>
    ensures { result ≡ byte_of word.now }
{
    let [high, low] = word else {
        return None;
    };
    match (hex_digit(*high), hex_digit(*low)) {
        (Some(high), Some(low)) => Some(high * 16 + low),
        _ => None,
    }
}

// The byte that two digits at the beginning of a line spell, with the rest of the line after the space that
// follows them. Most words of a text are such digits.
fn spaced_byte(line: &[u8]) -> Option<(u8, &[u8])>
    ensures bytes { IfSome result (λ r. bytes_of (words_of line.now) ≡ option_map (λ bytes. r.0 ∷ bytes) (bytes_of (words_of r.1.now))) }
    ensures rest { IfSome result (λ r. length r.1.now < length line.now) }
{
    let [high, low, b' ', after @ ..] = line else {
        return None;
    };
    match (hex_digit(*high), hex_digit(*low)) {
        (Some(high), Some(low)) => Some((high * 16 + low, after)),
        _ => None,
    }
}

// The byte that the first word of a line spells, or none if it spells none, with the rest of the line after
// that word.
fn next_byte(line: &[u8]) -> Option<(Option<u8>, &[u8])>
    ensures bytes { MatchOption result (words_of line.now ≡ []) (λ r. bytes_of (words_of line.now) ≡ bytes_from r.0 (bytes_of (words_of r.1.now))) }
    ensures rest { IfSome result (λ r. length r.1.now < length line.now) }
{
    if let Some((byte, after)) = spaced_byte(line) {
        return Some((Some(byte), after));
    }
    let (word, after) = next_word(line)?;
    Some((byte_of(word), after))
}

/// Returns the bytes of a line that has only bytes, and not too many. Most lines of a text are like that, and
/// this reads them in a single pass.
pub(crate) fn short_bytes(line: &[u8]) -> Option<ArrayVec<u8, MOST_SHORT_BYTES>>
    ensures { IfSome result (λ bytes. line_of line.now ≡ Some (byte_line bytes.items)) }
{
    let mut bytes: ArrayVec<u8, MOST_SHORT_BYTES> = ArrayVec::new();
    let mut rest = line;
    while let Some((byte, after)) = next_byte(rest) {
        let Some(byte) = byte else {
            return None;
        };
        if bytes.try_push(byte).is_err() {
            return None;
        }
        rest = after;
    }
    if bytes.is_empty() {
        return None;
    }
    Some(bytes)
}

// Whether every word of a line spells a byte.
fn has_bytes_alone(line: &[u8]) -> bool
    ensures { result ≡ is_some (bytes_of (words_of line.now)) }
{
    let mut rest = line;
    while let Some((byte, after)) = next_byte(rest) {
        if byte.is_none() {
            return false;
        }
        rest = after;
    }
    true
}

// This shape if the line has no more words, and `Bad` otherwise.
fn alone(after: &[u8], shape: Shape) -> Shape
    ensures { result ≡ alone_shape (words_of after.now) shape }
{
    match next_word(after) {
        Some(_) => Shape::Bad,
        None => shape,
    }
}

fn address_shape(digits: &[u8]) -> Shape
    ensures { result ≡ shape_of (option_map address_line (address_of digits.now)) }
{
    match address_of(digits) {
        Some(address) => Shape::Address(address),
        None => Shape::Bad,
    }
}

fn bytes_shape(line: &[u8]) -> Shape
    ensures { result ≡ shape_of (option_map byte_line (bytes_of (words_of line.now))) }
{
    if has_bytes_alone(line) {
        Shape::Bytes
    } else {
        Shape::Bad
    }
}

// Whether a word, given as its first byte and the others, ends a text.
fn is_end(first: u8, more: &[u8]) -> bool
    ensures { result ≡ ((first == 113 || first == 81) && not (has_bytes more.now)) }
{
    match first {
        b'q' | b'Q' => more.is_empty(),
        _ => false,
    }
}

/// What a line states.
pub(crate) fn shape_of(line: &[u8]) -> Shape
    ensures { result ≡ shape_of (line_of line.now) }
{
    let Some((word, after)) = next_word(line) else {
        return Shape::Blank;
    };
    let Some((first, more)) = word.split_first() else {
        return Shape::Bad;
    };
    if *first == b'@' {
        return alone(after, address_shape(more));
    }
    if is_end(*first, more) {
        return alone(after, Shape::End);
    }
    bytes_shape(line)
}
