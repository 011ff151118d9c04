//! Reads a record before bytes that are not records.

ghost use Rattle.std.specs.Prelude.{◌≡◌, ◌<◌, ◌≤◌, ◌+◌, length, take, replicate, IfOk};
ghost use Rattle.mufom_numbers.specs.declared.codes.TheConstants.{MODULE_END};
ghost use Rattle.mufom_records.specs.Layouts.{IsWholeRecord, layout_of};
ghost use Rattle.mufom_records.specs.Parts.{HasTokens};
ghost use Rattle.mufom_records.specs.Reading.{in_place, as_taken, closed_at, read as read_layout, record_within, next_seen, record_before};

use crate::expression_tokens::ExpressionTokens;
use crate::next::read_record;
use crate::record::{Mode, Record};
use crate::rows::Read;
use crate::stop::Stop;
use mufom_numbers::codes;

// An input that needs more bytes is shorter than this.
const FEWEST_BYTES: usize = 131077;

// The first `count` bytes.
fn first(bytes: &[u8], count: usize) -> &[u8]
    requires { count ≤ length bytes.now }
    ensures { result.now ≡ take count bytes.now }
{
    &bytes[..count]
}

// Copies the first bytes of the input, up to `end`, to the start of these bytes, all of which are the code of the module's end.
fn put_before(input: &[u8], end: usize, bytes: &mut [u8])
    requires within { end < length input.now }
    requires short { end < 131077 }
    requires codes { bytes.old ≡ replicate 131077 MODULE_END }
    ensures closed { take (end + 1) bytes.new ≡ closed_at end input.now }
    ensures length { length bytes.new ≡ 131077 }
{
    bytes[..end].copy_from_slice(first(input, end));
}

// Reads a record, whose expression is within its own bytes.
fn own_record(input: &[u8], mode: Mode, row: &mut Record, tokens: &mut ExpressionTokens) -> Read
    ensures exact { in_place row.new result ≡ read_layout (layout_of mode) input.now 0 }
    ensures tokens { IfOk result (λ used. HasTokens (take used input.now) row.new tokens.new) }
    ensures within { IfOk result (λ used. used ≤ length input.now) }
{
    read_record(input, mode, row, tokens)
}

// Reads the record as if the code of the module's end were at `end`.
#[inline(never)]
fn closed(
    input: &[u8],
    end: usize,
    mode: Mode,
    row: &mut Record,
    tokens: &mut ExpressionTokens,
) -> Read
    requires within { end < length input.now }
    requires short { end < 131077 }
    ensures exact { as_taken (in_place row.new result) ≡ record_before end mode input.now }
    ensures tokens { IfOk result (λ used. HasTokens (take used input.now) row.new tokens.new) }
{
    let mut bytes = [codes::MODULE_END; FEWEST_BYTES];
    put_before(input, end, &mut bytes);
    match own_record(first(&bytes, end + 1), mode, row, tokens) {
        Ok(used) => {
            if used <= end {
                Ok(used)
            } else {
                own_record(input, mode, row, tokens)
            }
        }
        Err(Stop::More) => own_record(input, mode, row, tokens),
        Err(Stop::Bad { offset, reason }) => Err(Stop::Bad { offset, reason }),
    }
}

fn before(
    input: &[u8],
    end: usize,
    mode: Mode,
    row: &mut Record,
    tokens: &mut ExpressionTokens,
) -> Read
    requires within { end < length input.now }
    ensures exact { as_taken (in_place row.new result) ≡ record_before end mode input.now }
    ensures tokens { IfOk result (λ used. HasTokens (take used input.now) row.new tokens.new) }
{
    match own_record(first(input, end), mode, row, tokens) {
        Ok(used) => Ok(used),
        Err(Stop::More) => closed(input, end, mode, row, tokens),
        Err(Stop::Bad { offset, reason }) => Err(Stop::Bad { offset, reason }),
    }
}

fn within(
    input: &[u8],
    end: Option<usize>,
    mode: Mode,
    row: &mut Record,
    tokens: &mut ExpressionTokens,
) -> Read
    ensures exact { as_taken (in_place row.new result) ≡ record_within end mode input.now }
    ensures tokens { IfOk result (λ used. HasTokens (take used input.now) row.new tokens.new) }
{
    match end {
        None => own_record(input, mode, row, tokens),
        Some(end) => {
            if end < input.len() {
                before(input, end, mode, row, tokens)
            } else {
                own_record(input, mode, row, tokens)
            }
        }
    }
}

/// Reads the record at the start of the input as [`read_record`] does, if the byte at the offset `end`, where it is
/// given, belongs to no record: as if that byte were the code of the module's end, at which every record ends. A
/// record that takes that byte in as its own is read as it is. Does not allocate.
///
/// `end` is counted from the start of the input. The byte there may be still to come.
pub fn read_record_before(
    input: &[u8],
    end: Option<usize>,
    mode: Mode,
    row: &mut Record,
    tokens: &mut ExpressionTokens,
) -> Result<usize, Stop>
    // The bytes read are a prefix of the input, and form a complete record, given the byte that follows or the code in its place.
    ensures whole { IfOk result (λ used. (used ≤ length input.now)
        × IsWholeRecord mode row.new (take used input.now) (next_seen end used input.now)) }
    // The tokens are those of the record's expression, which is within the bytes read.
    ensures tokens { IfOk result (λ used. HasTokens (take used input.now) row.new tokens.new) }
    ensures exact { as_taken (in_place row.new result) ≡ record_within end mode input.now }
{
    within(input, end, mode, row, tokens)
}
