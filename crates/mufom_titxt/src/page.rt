//! A buffer for the text of a run on its way to a sink.

ghost use Rattle.std.specs.Prelude.{◌≡◌, ◌+◌, ◌*◌, ◌≤◌, ◌<◌, ◌++◌, ◌∷◌, [], ◌%◌, ◌==◌, ◌||◌, if◌then◌else◌, length, take, flat_map};
ghost use Rattle.std.specs.Int.{w64, to_be_bytes};
ghost use Rattle.mufom_titxt.specs.Written.{byte_digits, byte_lines, upper_digit, without_zeros, address_digits};
ghost use Rattle.mufom_titxt.specs.declared.page.TheConstants.{SIZE};

use std::marker::Model;

// The size of the buffer, in bytes.
const SIZE: usize = 4096;

/// The number of bytes of a run that are written at once, in whole lines.
pub(crate) const MOST_BYTES: usize = 1024;

// The number of bytes on a line.
const LINE_BYTES: usize = 16;

// The greatest number of leading zeros of an address that are left out, so that four digits remain.
const MOST_ZEROS: usize = 12;

// A hexadecimal digit in upper case.
fn upper_digit(value: u8) -> u8
    requires { value < 16 }
    ensures { result ≡ upper_digit value }
{
    if value < 10 {
        b'0' + value
    } else {
        b'A' - 10 + value
    }
}

// What follows a byte of a run: a space, or the end of the line.
fn separator(place: usize, is_last: bool) -> u8
    ensures { result ≡ (if is_last || place % 16 == 15 then 10 else 32) }
{
    if is_last || place % LINE_BYTES == LINE_BYTES - 1 {
        b'\n'
    } else {
        b' '
    }
}

// The digits without the zeros at their beginning, of which at most `most` are left out.
fn without_zeros(digits: &[u8], most: usize) -> &[u8]
    ensures { result.now ≡ without_zeros most digits.now }
{
    let mut rest = digits;
    let mut left = most;
    while left > 0 {
        let Some((first, after)) = rest.split_first() else {
            return rest;
        };
        if *first != b'0' {
            return rest;
        }
        rest = after;
        left -= 1;
    }
    rest
}

/// A buffer for text. Contracts see the text that it holds.
#[derive(Drop)]
pub(crate) struct Page {
    bytes: [u8; SIZE],
    used: usize,
}

impl Model for Page {
    ghost use Rattle.std.specs.Prelude.{List, ℕ, ◌≤◌, take};
    ghost use Rattle.mufom_titxt.specs.declared.page.TheConstants.{SIZE};

    ghost Value = { List ℕ };

    ghost view = { λ page. take page.used page.bytes };

    ghost invariant = { λ page. page.used ≤ SIZE };
}

impl Page {
    /// Returns an empty buffer.
    pub(crate) fn new() -> Page
        ensures { result ≡ [] }
    {
        Page {
            bytes: [0; SIZE],
            used: 0,
        }
    }

    /// Returns the text that it holds.
    pub(crate) fn as_slice(&self) -> &[u8]
        ensures { result.now ≡ self.now }
    {
        &self.bytes[..self.used]
    }

    /// Removes all text.
    pub(crate) fn clear(&mut self)
        ensures { self.new ≡ [] }
    {
        self.used = 0;
    }

    /// Adds a byte of text.
    pub(crate) fn push(&mut self, byte: u8)
        requires { length self.old < SIZE }
        ensures { self.new ≡ self.old ++ byte ∷ [] }
    {
        self.bytes[self.used] = byte;
        self.used += 1;
    }

    /// Adds the two digits of a byte.
    pub(crate) fn push_digits(&mut self, byte: u8)
        requires { length self.old + 1 < SIZE }
        ensures { self.new ≡ self.old ++ byte_digits byte }
    {
        self.push(upper_digit(byte / 16));
        self.push(upper_digit(byte % 16));
    }

    /// Adds the lines of bytes.
    pub(crate) fn push_lines(&mut self, bytes: &[u8])
        requires { length self.old + 3 * length bytes.now ≤ SIZE }
        ensures { self.new ≡ self.old ++ byte_lines 0 bytes.now }
    {
        for i in 0..bytes.len() {
            self.push_digits(bytes[i]);
            self.push(separator(i, i + 1 == bytes.len()));
        }
    }

    // Adds text.
    fn push_text(&mut self, text: &[u8])
        requires { length self.old + length text.now ≤ SIZE }
        ensures { self.new ≡ self.old ++ text.now }
    {
        for byte in text {
            self.push(*byte);
        }
    }

    /// Adds the line of an address.
    pub(crate) fn push_address(&mut self, address: u64)
        requires { length self.old + 18 ≤ SIZE }
        ensures text { self.new ≡ self.old ++ 64 ∷ (address_digits address ++ 10 ∷ []) }
        ensures length { length self.new ≤ length self.old + 18 }
    {
        let digits = all_digits(address);
        self.push(b'@');
        self.push_text(without_zeros(digits.as_slice(), MOST_ZEROS));
        self.push(b'\n');
    }
}

// The sixteen digits of an address.
fn all_digits(address: u64) -> Page
    ensures digits { result ≡ flat_map byte_digits (to_be_bytes w64 address) }
    ensures length { length result ≡ 16 }
{
    let bytes = address.to_be_bytes();
    let mut digits = Page::new();
    for byte in &bytes {
        digits.push_digits(*byte);
    }
    digits
}
