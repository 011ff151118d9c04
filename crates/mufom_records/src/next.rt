//! Reads the next record, by its code.

ghost use Rattle.std.specs.Prelude.{◌≡◌, ◌↔◌, ◌≤◌, ℕ, List, ◌++◌, length, take, drop, None, Ok, Err, IfOk};
ghost use Rattle.mufom_numbers.specs.declared.codes.TheConstants.{ASSIGNMENT, DESCRIPTOR, LETTER_W, MODULE_BEGIN};
ghost use Rattle.mufom_numbers.specs.declared.reason.Reason.{Reason};
ghost use Rattle.mufom_numbers.specs.Spelling.{IfGot};
ghost use Rattle.mufom_records.specs.declared.record.Record.{Record};
ghost use Rattle.mufom_records.specs.Fields.{first_of};
ghost use Rattle.mufom_records.specs.Layouts.{IsWholeRecord};
ghost use Rattle.mufom_records.specs.Layouts as layouts;
ghost use Rattle.mufom_expr.specs.declared.token.Token.{Token};
ghost use Rattle.mufom_records.specs.Parts.{HasParts, HasTokens};
ghost use Rattle.mufom_records.specs.Reading.{in_place, read, record_at};
ghost use Rattle.mufom_records.specs.Faults.{IsFaulty, IsCutOffRecord};

use crate::brackets::{gnu_item, item, start_address};
use crate::expression_tokens::ExpressionTokens;
use crate::fields::{bad, byte};
use crate::record::{Mode, Record};
use crate::rows::{
    Read, alignment, block_begin, block_end, constant, debug_name, debug_note, debug_value,
    descriptor, module_begin, numbered_offset, offset, public_name, public_note, public_value,
    reference_name, reference_note, repeat, section_base, section_size, section_type, set_counter,
    set_section, weak_reference,
};
use crate::stop::Stop;
use mufom_numbers::{Reason, Taken, codes};

// The record after the byte E2, which a second byte selects.
fn assigned(input: &[u8], at: usize, row: &mut Record, tokens: &mut ExpressionTokens) -> Read
    requires low { 1 ≤ at }
    requires within { at ≤ length input.now }
    ensures exact { in_place row.new result ≡ read layouts.assigned input.now at }
    ensures parts { IfOk result (λ _. HasParts input.now row.new) }
    ensures tokens { IfOk result (λ _. HasTokens input.now row.new tokens.new) }
{
    let (second, at) = byte(input, at)?;
    match second {
        codes::LETTER_W => offset(input, at, row),
        codes::LETTER_S => section_size(input, at, row),
        codes::LETTER_L => section_base(input, at, row),
        codes::LETTER_I => public_value(input, at, row, tokens),
        codes::LETTER_N => debug_value(input, at, row, tokens),
        codes::LETTER_P => set_counter(input, at, row, tokens),
        codes::LETTER_G => start_address(input, at, row, tokens),
        codes::LETTER_A | codes::LETTER_B | codes::LETTER_F | codes::LETTER_M | codes::LETTER_R =>
            Err(bad(at - 2, Reason::UnsupportedRecord)),
        _ => Err(bad(at - 1, Reason::BadRecord)),
    }
}

// The record after the byte F1, which a second byte selects.
fn note(input: &[u8], at: usize, row: &mut Record) -> Read
    requires { at ≤ length input.now }
    ensures exact { in_place row.new result ≡ read layouts.any_note input.now at }
    ensures parts { IfOk result (λ _. HasParts input.now row.new) }
    ensures tokens { (any : List Token) → IfOk result (λ _. HasTokens input.now row.new any) }
{
    let (second, at) = byte(input, at)?;
    match second {
        codes::LETTER_I => public_note(input, at, row),
        codes::LETTER_X => reference_note(input, at, row),
        codes::LETTER_N => debug_note(input, at, row),
        _ => Err(bad(at - 1, Reason::BadRecord)),
    }
}

// The record after its first byte, which is this code.
fn coded(code: u8, input: &[u8], at: usize, row: &mut Record, tokens: &mut ExpressionTokens) -> Read
    requires low { 1 ≤ at }
    requires within { at ≤ length input.now }
    ensures exact { in_place row.new result ≡ read (layouts.coded code) input.now at }
    ensures parts { IfOk result (λ _. HasParts input.now row.new) }
    ensures tokens { IfOk result (λ _. HasTokens input.now row.new tokens.new) }
{
    match code {
        codes::MODULE_BEGIN => module_begin(input, at, row),
        codes::MODULE_END => {
            *row = Record::ModuleEnd;
            Ok(at)
        }
        codes::ASSIGNMENT => assigned(input, at, row, tokens),
        codes::RELOCATE => {
            *row = Record::Relocate;
            Ok(at)
        }
        codes::SET_SECTION => set_section(input, at, row),
        codes::SECTION_TYPE => section_type(input, at, row),
        codes::SECTION_ALIGNMENT => alignment(input, at, row),
        codes::PUBLIC_NAME => public_name(input, at, row),
        codes::REFERENCE_NAME => reference_name(input, at, row),
        codes::DESCRIPTOR => descriptor(input, at, row),
        codes::CONSTANT => constant(input, at, row),
        codes::DEBUG_NAME => debug_name(input, at, row),
        codes::NOTE => note(input, at, row),
        codes::TYPE => Err(bad(at - 1, Reason::UnsupportedRecord)),
        codes::WEAK_REFERENCE => weak_reference(input, at, row),
        codes::REPEAT => repeat(input, at, row),
        codes::BLOCK_BEGIN => block_begin(input, at, row, tokens),
        codes::BLOCK_END => block_end(input, at, row, tokens),
        _ => Err(bad(at - 1, Reason::BadRecord)),
    }
}

// MB, the only record that may come first.
fn header_begin(input: &[u8], row: &mut Record) -> Read
    ensures exact { in_place row.new result ≡ read (layouts.begins_with 1 MODULE_BEGIN layouts.module_begin) input.now 0 }
    ensures parts { IfOk result (λ _. HasParts input.now row.new) }
    ensures tokens { (any : List Token) → IfOk result (λ _. HasTokens input.now row.new any) }
{
    let (code, at) = byte(input, 0)?;
    if code == codes::MODULE_BEGIN {
        module_begin(input, at, row)
    } else {
        Err(bad(0, Reason::BadHeader))
    }
}

// AD, the only record that may come second.
fn header_descriptor(input: &[u8], row: &mut Record) -> Read
    ensures exact { in_place row.new result ≡ read (layouts.begins_with 1 DESCRIPTOR layouts.descriptor) input.now 0 }
    ensures parts { IfOk result (λ _. HasParts input.now row.new) }
    ensures tokens { (any : List Token) → IfOk result (λ _. HasTokens input.now row.new any) }
{
    let (code, at) = byte(input, 0)?;
    if code == codes::DESCRIPTOR {
        descriptor(input, at, row)
    } else {
        Err(bad(0, Reason::BadHeader))
    }
}

fn header_letter(part: u8, input: &[u8], at: usize, row: &mut Record) -> Read
    requires low { 1 ≤ at }
    requires within { at ≤ length input.now }
    ensures exact { in_place row.new result ≡ read (layouts.begins_with 2 LETTER_W (layouts.numbered_offset part)) input.now at }
    ensures parts { IfOk result (λ _. HasParts input.now row.new) }
    ensures tokens { (any : List Token) → IfOk result (λ _. HasTokens input.now row.new any) }
{
    let (second, after) = byte(input, at)?;
    if second == codes::LETTER_W {
        numbered_offset(part, input, after, row)
    } else {
        Err(bad(at - 1, Reason::BadHeader))
    }
}

// ASW with the offset of this part, the only record that may come at this point of the header.
fn header_offset(part: u8, input: &[u8], row: &mut Record) -> Read
    ensures exact { let layout = layouts.begins_with 1 ASSIGNMENT (layouts.begins_with 2 LETTER_W (layouts.numbered_offset part)) in
        in_place row.new result ≡ read layout input.now 0 }
    ensures parts { IfOk result (λ _. HasParts input.now row.new) }
    ensures tokens { (any : List Token) → IfOk result (λ _. HasTokens input.now row.new any) }
{
    let (code, at) = byte(input, 0)?;
    if code == codes::ASSIGNMENT {
        header_letter(part, input, at, row)
    } else {
        Err(bad(0, Reason::BadHeader))
    }
}

fn record(input: &[u8], mode: Mode, row: &mut Record, tokens: &mut ExpressionTokens) -> Read
    ensures exact { in_place row.new result ≡ read (layouts.layout_of mode) input.now 0 }
    ensures parts { IfOk result (λ _. HasParts input.now row.new) }
    ensures tokens { IfOk result (λ _. HasTokens input.now row.new tokens.new) }
{
    match mode {
        Mode::Begin => header_begin(input, row),
        Mode::Descriptor => header_descriptor(input, row),
        Mode::Offset(part) => header_offset(part, input, row),
        Mode::Body => {
            let (code, at) = byte(input, 0)?;
            coded(code, input, at, row, tokens)
        }
        Mode::Items => item(input, 0, row, tokens),
        Mode::GnuItems => gnu_item(input, 0, row, tokens),
    }
}

/// Reads the record at the start of the input that is expected in this mode, stores it through `row`, and
/// returns its length in bytes. If the record has an expression, the tokens of that expression replace those
/// in `tokens`. Does not allocate.
///
/// This is [`next_record`] for callers that use the record at once. A record is large; storing it through
/// `row` avoids moving it. The error is `More` if the input ends too early, and otherwise the first error
/// from the left with its offset. After an error, `row` may hold any record, and `tokens` any tokens.
pub fn read_record(
    input: &[u8],
    mode: Mode,
    row: &mut Record,
    tokens: &mut ExpressionTokens,
) -> Result<usize, Stop>
    // The bytes read are a prefix of the input, and form a complete record, given the byte that follows.
    ensures whole { IfOk result (λ used. (used ≤ length input.now)
        × IsWholeRecord mode row.new (take used input.now) (first_of (drop used input.now) None)) }
    // If the input begins with a complete record, that record is stored.
    ensures only { (stored : Record) (text rest : List ℕ) → IsWholeRecord mode stored text (first_of rest None) → input.now ≡ text ++ rest
        → (result ≡ Ok (length text)) × (row.new ≡ stored) }
    ensures bad { (offset : ℕ) (reason : Reason) → (result ≡ Err (Stop.Bad offset reason)) ↔ IsFaulty mode input.now offset reason }
    ensures more { (result ≡ Err Stop.More) ↔ IsCutOffRecord mode input.now }
    // The positions in the record are within the input, and those of expressions are positions of expressions.
    ensures parts { IfOk result (λ _. HasParts input.now row.new) }
    // The tokens are those of the record's expression.
    ensures tokens { IfOk result (λ _. HasTokens input.now row.new tokens.new) }
    ensures exact { in_place row.new result ≡ read (layouts.layout_of mode) input.now 0 }
{
    record(input, mode, row, tokens)
}

fn next(input: &[u8], mode: Mode) -> Taken<Record>
    ensures exact { result ≡ record_at mode input.now }
    ensures parts { IfGot result (λ row used. HasParts input.now row) }
{
    // Any record: `read_record` stores the one that it reads here.
    let mut row = Record::ModuleEnd;
    let mut tokens = ExpressionTokens::new();
    match read_record(input, mode, &mut row, &mut tokens) {
        Ok(used) => Taken::Got(row, used),
        Err(Stop::More) => Taken::More,
        Err(Stop::Bad { offset, reason }) => Taken::Bad { offset, reason },
    }
}

/// Reads the record at the start of the input that is expected in this mode, and returns it with its length
/// in bytes. Does not allocate.
///
/// `Bad` is the first error from the left, with the offset of the byte at which it is reported. Errors in a
/// number or a token are reported once it is complete, all others as soon as their byte is there. `More` is
/// returned for the start of a record without an error: if the input ends within a field, before a required
/// field, or where an optional field could begin. Strings, literal bytes and expressions are returned as
/// positions in the input, and the literal bytes are not checked.
pub fn next_record(input: &[u8], mode: Mode) -> Taken<Record>
    // The bytes read are a prefix of the input, and form a complete record, given the byte that follows.
    ensures got { IfGot result (λ row used. (used ≤ length input.now)
        × IsWholeRecord mode row (take used input.now) (first_of (drop used input.now) None)) }
    // If the input begins with a complete record, that record is returned.
    ensures only { (row : Record) (text rest : List ℕ) → IsWholeRecord mode row text (first_of rest None) → input.now ≡ text ++ rest
        → result ≡ Taken.Got row (length text) }
    ensures bad { (place : ℕ) (reason : Reason) → (result ≡ Taken.Bad place reason) ↔ IsFaulty mode input.now place reason }
    ensures more { (result ≡ Taken.More) ↔ IsCutOffRecord mode input.now }
    // The positions in the record are within the input, and those of expressions are positions of expressions.
    ensures parts { IfGot result (λ row used. HasParts input.now row) }
    ensures exact { result ≡ record_at mode input.now }
{
    next(input, mode)
}
