//! Reads the fields of records. Each function reads at an offset of the input, and returns the value and the
//! offset after it.

ghost use Rattle.std.specs.Prelude.{◌≡◌, ◌<◌, ◌≤◌, length, IfOk};
ghost use Rattle.mufom_numbers.specs.declared.limits.TheConstants.{MOST_STRING_BYTES};
ghost use Rattle.mufom_records.specs.Fields.{is_one_of, letter as letters, optional_number as an_optional_number, numbers as some_numbers};
ghost use Rattle.mufom_records.specs.Fields.{string as a_string, run as a_run, byte as a_byte};
ghost use Rattle.mufom_records.specs.Layouts.{any_number, index as an_index, count as a_count, block_kind as a_block_kind};
ghost use Rattle.mufom_records.specs.Layouts.{debug_attribute as a_debug_attribute, field_size as a_field_size, offset_number as an_offset_number};
ghost use Rattle.mufom_records.specs.Parts.{LiesIn};
ghost use Rattle.mufom_records.specs.Reading.{field_at, plain_number_at};

use crate::stop::Stop;
use arrayvec::ArrayVec;
use mufom_numbers::limits::MOST_STRING_BYTES;
use mufom_numbers::{Reason, Span, Taken, codes, read_number, read_string};

// The smallest lead byte of a number. All smaller bytes are numbers by themselves.
const FIRST_LEAD: u8 = 0x80;

/// An error at an offset.
pub(crate) fn bad(offset: usize, reason: Reason) -> Stop
    ensures { result ≡ Stop.Bad offset reason }
{
    Stop::Bad { offset, reason }
}

/// Any byte.
pub(crate) fn byte(input: &[u8], at: usize) -> Result<(u8, usize), Stop>
    requires { at ≤ length input.now }
    ensures exact { result ≡ field_at a_byte input.now at }
    ensures within { IfOk result (λ r. (at < r.1) × (r.1 ≤ length input.now)) }
{
    if at < input.len() {
        Ok((input[at], at + 1))
    } else {
        Err(Stop::More)
    }
}

// Reads any number, with a shortcut for those of one byte, which are the most frequent.
fn plain_number(input: &[u8], at: usize) -> Result<(u64, usize), Stop>
    requires { at ≤ length input.now }
    ensures exact { result ≡ plain_number_at input.now at }
    ensures within { IfOk result (λ r. r.1 ≤ length input.now) }
{
    if at < input.len() && input[at] < FIRST_LEAD {
        return Ok((input[at] as u64, at + 1));
    }
    number_with_lead(input, at)
}

// Reads any number.
#[inline(never)]
fn number_with_lead(input: &[u8], at: usize) -> Result<(u64, usize), Stop>
    requires { at ≤ length input.now }
    ensures exact { result ≡ plain_number_at input.now at }
    ensures within { IfOk result (λ r. r.1 ≤ length input.now) }
{
    match read_number(&input[at..]) {
        Taken::Got(value, used) => Ok((value, at + used)),
        Taken::More => Err(Stop::More),
        Taken::Bad { offset, reason } => Err(bad(at + offset, reason)),
    }
}

/// Any number.
pub(crate) fn number(input: &[u8], at: usize) -> Result<(u64, usize), Stop>
    requires { at ≤ length input.now }
    ensures exact { result ≡ field_at any_number input.now at }
    ensures within { IfOk result (λ r. r.1 ≤ length input.now) }
{
    plain_number(input, at)
}

/// A number below 2^32.
pub(crate) fn index(input: &[u8], at: usize) -> Result<(u32, usize), Stop>
    requires { at ≤ length input.now }
    ensures exact { result ≡ field_at an_index input.now at }
    ensures within { IfOk result (λ r. r.1 ≤ length input.now) }
{
    let (value, after) = plain_number(input, at)?;
    if value < 1 << 32 {
        Ok((value as u32, after))
    } else {
        Err(bad(at, Reason::BadNumber))
    }
}

/// The count of literal bytes: at most 65,535.
pub(crate) fn count(input: &[u8], at: usize) -> Result<(usize, usize), Stop>
    requires { at ≤ length input.now }
    ensures exact { result ≡ field_at a_count input.now at }
    ensures within { IfOk result (λ r. (r.0 ≤ MOST_STRING_BYTES) × (r.1 ≤ length input.now)) }
{
    let (value, after) = plain_number(input, at)?;
    if value <= MOST_STRING_BYTES as u64 {
        Ok((value as usize, after))
    } else {
        Err(bad(at, Reason::LongRun))
    }
}

/// A supported kind of block.
pub(crate) fn block_kind(input: &[u8], at: usize) -> Result<(u64, usize), Stop>
    requires { at ≤ length input.now }
    ensures exact { result ≡ field_at a_block_kind input.now at }
    ensures within { IfOk result (λ r. r.1 ≤ length input.now) }
{
    let (value, after) = plain_number(input, at)?;
    match value {
        3 | 4 | 5 | 6 | 11 => Ok((value, after)),
        _ => Err(bad(at, Reason::UnsupportedBlock)),
    }
}

/// A supported attribute of a debug note.
pub(crate) fn debug_attribute(input: &[u8], at: usize) -> Result<(u64, usize), Stop>
    requires { at ≤ length input.now }
    ensures exact { result ≡ field_at a_debug_attribute input.now at }
    ensures within { IfOk result (λ r. r.1 ≤ length input.now) }
{
    let (value, after) = plain_number(input, at)?;
    match value {
        1 | 2 | 3 | 4 | 5 | 7 | 8 | 10 => Ok((value, after)),
        _ => Err(bad(at, Reason::UnsupportedAttribute)),
    }
}

/// The size of a field: 1 to 8 MAUs.
pub(crate) fn field_size(input: &[u8], at: usize) -> Result<(u8, usize), Stop>
    requires { at ≤ length input.now }
    ensures exact { result ≡ field_at a_field_size input.now at }
    ensures within { IfOk result (λ r. r.1 ≤ length input.now) }
{
    let (value, after) = plain_number(input, at)?;
    if 1 <= value && value <= 8 {
        Ok((value as u8, after))
    } else {
        Err(bad(at, Reason::BadFieldSize))
    }
}

/// The number of a part, which must be `number`. A wrong one is reported at the record's first byte.
pub(crate) fn offset_number(number: u8, input: &[u8], at: usize) -> Result<(u64, usize), Stop>
    requires { at ≤ length input.now }
    ensures exact { result ≡ field_at (an_offset_number number) input.now at }
    ensures within { IfOk result (λ r. r.1 ≤ length input.now) }
{
    let (value, after) = plain_number(input, at)?;
    if value == number as u64 {
        Ok((value, after))
    } else {
        Err(bad(0, Reason::BadHeader))
    }
}

/// A string: the position of its bytes, without the length before them.
pub(crate) fn string(input: &[u8], at: usize) -> Result<(Span, usize), Stop>
    requires { at ≤ length input.now }
    ensures exact { result ≡ field_at a_string input.now at }
    ensures part { IfOk result (λ r. LiesIn input.now r.0) }
    ensures within { IfOk result (λ r. r.1 ≤ length input.now) }
{
    match read_string(&input[at..]) {
        Taken::Got(span, used) => {
            let span = Span {
                start: at + span.start,
                len: span.len,
            };
            Ok((span, at + used))
        }
        Taken::More => Err(Stop::More),
        Taken::Bad { offset, reason } => Err(bad(at + offset, reason)),
    }
}

/// The position of `count` bytes. The bytes themselves are not checked.
pub(crate) fn run(count: usize, input: &[u8], at: usize) -> Result<(Span, usize), Stop>
    requires { at ≤ length input.now }
    ensures exact { result ≡ field_at (a_run count) input.now at }
    ensures part { IfOk result (λ r. LiesIn input.now r.0) }
    ensures within { IfOk result (λ r. r.1 ≤ length input.now) }
{
    if input.len() - at < count {
        return Err(Stop::More);
    }
    let span = Span {
        start: at,
        len: count,
    };
    Ok((span, at + count))
}

fn is_among(known: &[u8], b: u8) -> bool
    ensures { result ≡ is_one_of known.now b }
{
    known.iter().any(|letter| *letter == b)
}

/// One of these letters, or none if the next byte is another one.
pub(crate) fn letter(known: &[u8], input: &[u8], at: usize) -> Result<(Option<u8>, usize), Stop>
    requires { at ≤ length input.now }
    ensures exact { result ≡ field_at (letters known.now) input.now at }
    ensures within { IfOk result (λ r. r.1 ≤ length input.now) }
{
    let (b, after) = byte(input, at)?;
    if is_among(known, b) {
        Ok((Some(b), after))
    } else {
        Ok((None, at))
    }
}

/// A number, or none if the next byte cannot begin one.
pub(crate) fn optional_number(input: &[u8], at: usize) -> Result<(Option<u64>, usize), Stop>
    requires { at ≤ length input.now }
    ensures exact { result ≡ field_at an_optional_number input.now at }
    ensures within { IfOk result (λ r. r.1 ≤ length input.now) }
{
    let (b, _) = byte(input, at)?;
    if b <= codes::LAST_NUMBER {
        let (value, after) = plain_number(input, at)?;
        Ok((Some(value), after))
    } else {
        Ok((None, at))
    }
}

/// All numbers that follow, but at most `N`.
pub(crate) fn numbers<const N: usize>(
    input: &[u8],
    start: usize,
) -> Result<(ArrayVec<u64, N>, usize), Stop>
    requires { start ≤ length input.now }
    ensures exact { result ≡ field_at (some_numbers N) input.now start }
    ensures within { IfOk result (λ r. r.1 ≤ length input.now) }
{
    let mut all: ArrayVec<u64, N> = ArrayVec::new();
    let mut at = start;
    while !all.is_full() {
        let (value, after) = optional_number(input, at)?;
        let Some(value) = value else {
            return Ok((all, after));
        };
        all.push(value);
        at = after;
    }
    Ok((all, at))
}
