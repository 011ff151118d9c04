//! A word with a number after it, and addresses in hexadecimal.

ghost use Rattle.std.specs.Prelude.{◌≡◌, ◌-◌, ◌*◌, ◌/◌, ◌%◌, slice_index};
ghost use Rattle.std.specs.Fmt.{decimal};
ghost use Rattle.std.specs.Int.{bytes_high_first};
ghost use Rattle.hex.specs.Hex.{encode_upper, upper_digits};
ghost use Rattle.mufom_text.specs.Fitting.{IsUnitCount};
ghost use Rattle.mufom_text.specs.Digits.{counted, hex, without_zeros};

use crate::output::Output;
use itoa::Buffer;

/// The upper-case hexadecimal digits.
pub(crate) const DIGITS: &[u8; 16] = b"0123456789ABCDEF";

/// Puts a word and, right after it, a number of up to 128 bits in decimal.
pub fn counted<K: Output>(out: &mut K, word: &[u8], value: u128)
    ensures { K.takes out.old out.new (counted word.now value) }
{
    out.put(word);
    let mut buffer = Buffer::new();
    out.put(buffer.format(value).as_bytes());
}

// The first digit of a byte.
fn high_digit(byte: u8) -> u8
    ensures { result ≡ slice_index upper_digits (byte / 16) }
{
    DIGITS[(byte / 16) as usize]
}

// The second digit of a byte.
fn low_digit(byte: u8) -> u8
    ensures { result ≡ slice_index upper_digits (byte % 16) }
{
    DIGITS[(byte % 16) as usize]
}

// All digits of an address.
fn digits_of(at: u64) -> [u8; 16]
    ensures { result ≡ encode_upper (bytes_high_first 8 at) }
{
    let bytes = at.to_be_bytes();
    [
        high_digit(bytes[0]),
        low_digit(bytes[0]),
        high_digit(bytes[1]),
        low_digit(bytes[1]),
        high_digit(bytes[2]),
        low_digit(bytes[2]),
        high_digit(bytes[3]),
        low_digit(bytes[3]),
        high_digit(bytes[4]),
        low_digit(bytes[4]),
        high_digit(bytes[5]),
        low_digit(bytes[5]),
        high_digit(bytes[6]),
        low_digit(bytes[6]),
        high_digit(bytes[7]),
        low_digit(bytes[7]),
    ]
}

// The digits without leading zeros, of which at most `most` are left out.
fn without_zeros(digits: &[u8], most: usize) -> &[u8]
    ensures { result.now ≡ without_zeros most digits.now }
{
    let mut rest = digits;
    let mut count = most;
    while count > 0 {
        let [first, after @ ..] = rest else {
            return rest;
        };
        if *first > b'0' {
            return rest;
        }
        rest = after;
        count -= 1;
    }
    rest
}

/// Puts an address: two digits for each of `maus` units, and more if the number needs them.
pub fn hex<K: Output>(out: &mut K, maus: u8, at: u64)
    requires { IsUnitCount maus }
    ensures { K.takes out.old out.new (hex maus at) }
{
    let digits = digits_of(at);
    out.put(without_zeros(&digits, 16 - 2 * maus as usize));
}
