//! The line of an error of syntax.

ghost use Rattle.std.specs.Prelude.{◌≡◌, ◌<◌, ◌≤◌, ℕ, IfOk, length, take, is_some, false};
ghost use Rattle.mufom_plan_faults.specs.Lines.{IsLastWhole, IsSyntaxLine, begins_line, is_document, is_whole, line_number};

use crate::document::document;
use mufom_numbers::NoMemory;
use std::alloc::Global;

/// The byte at the end of a line.
const LINE_END: u8 = b'\n';

fn is_document(alloc: Global, text: &[u8]) -> Result<bool, NoMemory>
    ensures { IfOk result (λ is. is ≡ is_document text.now) }
{
    Ok(document(alloc, text)?.is_some())
}

// Whether a line begins at a position of the text, or where the text ends.
fn begins_line(text: &[u8], at: usize) -> bool
    requires { at ≤ length text.now }
    ensures { result ≡ begins_line text.now at }
{
    at == 0 || text[at - 1] == LINE_END
}

// Whether the text up to a position has whole lines alone, and is a document.
fn is_whole(alloc: Global, text: &[u8], end: usize) -> Result<bool, NoMemory>
    requires { end ≤ length text.now }
    ensures { IfOk result (λ is. is ≡ is_whole text.now end) }
{
    if !begins_line(text, end) {
        return Ok(false);
    }
    is_document(alloc, &text[..end])
}

// The end of the longest run of leading lines that is a document.
fn last_whole(alloc: Global, text: &[u8]) -> Result<usize, NoMemory>
    ensures { IfOk result (IsLastWhole text.now) }
{
    for passed in 0..text.len() {
        let end = text.len() - passed;
        if is_whole(alloc, text, end)? {
            return Ok(end);
        }
    }
    Ok(0)
}

// The number of the line that begins after these bytes, from 1.
fn line_number(before: &[u8]) -> usize
    ensures { result ≡ line_number before.now }
{
    let mut line = 1;
    for at in 0..before.len() {
        if before[at] == LINE_END {
            line += 1;
        }
    }
    line
}

/// Returns the line of an error of syntax, from 1: the one after the longest run of leading lines that is a
/// document by itself. So it is the line on which the first statement begins that makes the text no document;
/// a statement may go on over several lines.
///
/// The text is parsed once for each line from that one on. The only error is out of memory.
pub fn syntax_line(alloc: Global, text: &[u8]) -> Result<usize, NoMemory>
    ensures { IfOk result (IsSyntaxLine text.now) }
{
    let end = last_whole(alloc, text)?;
    Ok(line_number(&text[..end]))
}
