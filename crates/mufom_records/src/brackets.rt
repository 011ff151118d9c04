//! Reads what may be in brackets: a field of an LR, and a start address.

ghost use Rattle.std.specs.Prelude.{◌≡◌, ◌≤◌, List, length, IfOk, Some};
ghost use Rattle.mufom_expr.specs.declared.token.Token.{Token};
ghost use Rattle.mufom_records.specs.declared.record.Record.{Record};
ghost use Rattle.mufom_records.specs.declared.record.Record.TheVariants as r;
ghost use Rattle.mufom_records.specs.Layouts as layouts;
ghost use Rattle.mufom_records.specs.Parts.{AreTokensIn, HasParts, HasTokens, IsExpressionIn};
ghost use Rattle.mufom_records.specs.Reading.{in_place, read};

use crate::expression::{expression, sized_expression};
use crate::expression_tokens::ExpressionTokens;
use crate::fields::{bad, byte, count, field_size, letter, run};
use crate::record::Record;
use crate::rows::Read;
use crate::size::PlainSize;
use crate::stop::Stop;
use mufom_expr::FieldKind;
use mufom_numbers::{Reason, Span, codes};

fn kind_of(opening: u8) -> FieldKind
    ensures { result ≡ layouts.kind_of opening }
{
    match opening {
        codes::OPEN_SIGNED => FieldKind::Signed,
        codes::OPEN_UNSIGNED => FieldKind::Unsigned,
        _ => FieldKind::Either,
    }
}

// Reads the closing bracket for this opening one. The record ends after it.
fn closed_by(opening: u8, input: &[u8], at: usize) -> Read
    requires within { at ≤ length input.now }
    ensures exact { (row : Record) → in_place row result ≡ read (layouts.closed_by opening (layouts.whole row)) input.now at }
{
    let (b, after) = byte(input, at)?;
    if b as u32 == opening as u32 + 1 {
        Ok(after)
    } else {
        Err(bad(at, Reason::BracketMismatch))
    }
}

fn sized_field(opening: u8, value: Span, input: &[u8], at: usize, row: &mut Record) -> Read
    requires within { at ≤ length input.now }
    requires part { IsExpressionIn input.now value }
    ensures exact { in_place row.new result ≡ read (layouts.item_by_comma opening value (Some layouts.comma)) input.now at }
    ensures parts { IfOk result (λ _. HasParts input.now row.new) }
    ensures tokens { (any : List Token) → AreTokensIn input.now value any → IfOk result (λ _. HasTokens input.now row.new any) }
{
    let (size, at) = field_size(input, at)?;
    *row = Record::FieldItem(kind_of(opening), value, Some(size));
    closed_by(opening, input, at)
}

fn field_by_comma(
    opening: u8,
    value: Span,
    comma: Option<u8>,
    input: &[u8],
    at: usize,
    row: &mut Record,
) -> Read
    requires within { at ≤ length input.now }
    requires part { IsExpressionIn input.now value }
    ensures exact { in_place row.new result ≡ read (layouts.item_by_comma opening value comma) input.now at }
    ensures parts { IfOk result (λ _. HasParts input.now row.new) }
    ensures tokens { (any : List Token) → AreTokensIn input.now value any → IfOk result (λ _. HasTokens input.now row.new any) }
{
    match comma {
        None => {
            *row = Record::FieldItem(kind_of(opening), value, None);
            closed_by(opening, input, at)
        }
        Some(_) => sized_field(opening, value, input, at, row),
    }
}

fn field_item(
    opening: u8,
    input: &[u8],
    at: usize,
    row: &mut Record,
    tokens: &mut ExpressionTokens,
) -> Read
    requires { at ≤ length input.now }
    ensures exact { in_place row.new result ≡ read (layouts.item_by_bracket (Some opening)) input.now at }
    ensures parts { IfOk result (λ _. HasParts input.now row.new) }
    ensures tokens { IfOk result (λ _. HasTokens input.now row.new tokens.new) }
{
    let (value, at) = expression(input, at, tokens)?;
    let (comma, at) = letter(&[codes::COMMA], input, at)?;
    field_by_comma(opening, value, comma, input, at, row)
}

fn constant_item(input: &[u8], at: usize, row: &mut Record) -> Read
    requires { at ≤ length input.now }
    ensures exact { in_place row.new result ≡ read (layouts.constant r.ConstantItem) input.now at }
    ensures parts { IfOk result (λ _. HasParts input.now row.new) }
    ensures tokens { (any : List Token) → IfOk result (λ _. HasTokens input.now row.new any) }
{
    let (length, at) = count(input, at)?;
    let (bytes, at) = run(length, input, at)?;
    *row = Record::ConstantItem(bytes);
    Ok(at)
}

fn item_by_bracket(
    opening: Option<u8>,
    input: &[u8],
    at: usize,
    row: &mut Record,
    tokens: &mut ExpressionTokens,
) -> Read
    requires { at ≤ length input.now }
    ensures exact { in_place row.new result ≡ read (layouts.item_by_bracket opening) input.now at }
    ensures parts { IfOk result (λ _. HasParts input.now row.new) }
    ensures tokens { IfOk result (λ _. HasTokens input.now row.new tokens.new) }
{
    match opening {
        None => constant_item(input, at, row),
        Some(opening) => field_item(opening, input, at, row, tokens),
    }
}

/// Reads an item of an LR: literal bytes, or a field in brackets.
pub(crate) fn item(input: &[u8], at: usize, row: &mut Record, tokens: &mut ExpressionTokens) -> Read
    requires { at ≤ length input.now }
    ensures exact { in_place row.new result ≡ read layouts.item input.now at }
    ensures parts { IfOk result (λ _. HasParts input.now row.new) }
    ensures tokens { IfOk result (λ _. HasTokens input.now row.new tokens.new) }
{
    let (opening, at) = letter(
        &[codes::OPEN_SIGNED, codes::OPEN_UNSIGNED, codes::OPEN_EITHER],
        input,
        at,
    )?;
    item_by_bracket(opening, input, at, row, tokens)
}

// The kind of a field whose size has no comma.
fn kind_without_comma(opening: u8, uses_pc: bool) -> FieldKind
    ensures { result ≡ layouts.kind_without_comma opening uses_pc }
{
    if uses_pc && opening == codes::OPEN_EITHER {
        FieldKind::Signed
    } else {
        kind_of(opening)
    }
}

fn item_by_size(
    opening: u8,
    value: Span,
    size: Option<PlainSize>,
    input: &[u8],
    at: usize,
    row: &mut Record,
) -> Read
    requires within { at ≤ length input.now }
    requires part { IsExpressionIn input.now value }
    ensures exact { in_place row.new result ≡ read (layouts.item_by_size opening value size) input.now at }
    ensures parts { IfOk result (λ _. HasParts input.now row.new) }
    ensures tokens { (any : List Token) → AreTokensIn input.now value any → IfOk result (λ _. HasTokens input.now row.new any) }
{
    match size {
        None => {
            let (comma, at) = letter(&[codes::COMMA], input, at)?;
            field_by_comma(opening, value, comma, input, at, row)
        }
        Some(last) => {
            let kind = kind_without_comma(opening, last.uses_pc);
            *row = Record::FieldItem(kind, value, Some(last.size));
            closed_by(opening, input, at)
        }
    }
}

fn gnu_field_item(
    opening: u8,
    input: &[u8],
    at: usize,
    row: &mut Record,
    tokens: &mut ExpressionTokens,
) -> Read
    requires { at ≤ length input.now }
    ensures exact { in_place row.new result ≡ read (layouts.gnu_item_by_bracket (Some opening)) input.now at }
    ensures parts { IfOk result (λ _. HasParts input.now row.new) }
    ensures tokens { IfOk result (λ _. HasTokens input.now row.new tokens.new) }
{
    let ((value, size), at) = sized_expression(input, at, tokens)?;
    item_by_size(opening, value, size, input, at, row)
}

fn gnu_item_by_bracket(
    opening: Option<u8>,
    input: &[u8],
    at: usize,
    row: &mut Record,
    tokens: &mut ExpressionTokens,
) -> Read
    requires { at ≤ length input.now }
    ensures exact { in_place row.new result ≡ read (layouts.gnu_item_by_bracket opening) input.now at }
    ensures parts { IfOk result (λ _. HasParts input.now row.new) }
    ensures tokens { IfOk result (λ _. HasTokens input.now row.new tokens.new) }
{
    match opening {
        None => constant_item(input, at, row),
        Some(opening) => gnu_field_item(opening, input, at, row, tokens),
    }
}

/// Reads an item of an LR, in whose fields the comma before the size is optional.
pub(crate) fn gnu_item(
    input: &[u8],
    at: usize,
    row: &mut Record,
    tokens: &mut ExpressionTokens,
) -> Read
    requires { at ≤ length input.now }
    ensures exact { in_place row.new result ≡ read layouts.gnu_item input.now at }
    ensures parts { IfOk result (λ _. HasParts input.now row.new) }
    ensures tokens { IfOk result (λ _. HasTokens input.now row.new tokens.new) }
{
    let (opening, at) = letter(
        &[codes::OPEN_SIGNED, codes::OPEN_UNSIGNED, codes::OPEN_EITHER],
        input,
        at,
    )?;
    gnu_item_by_bracket(opening, input, at, row, tokens)
}

fn start_by_bracket(
    opening: Option<u8>,
    input: &[u8],
    at: usize,
    row: &mut Record,
    tokens: &mut ExpressionTokens,
) -> Read
    requires { at ≤ length input.now }
    ensures exact { in_place row.new result ≡ read (layouts.start_by_bracket opening) input.now at }
    ensures parts { IfOk result (λ _. HasParts input.now row.new) }
    ensures tokens { IfOk result (λ _. HasTokens input.now row.new tokens.new) }
{
    let (value, at) = expression(input, at, tokens)?;
    *row = Record::Start(value);
    match opening {
        None => Ok(at),
        Some(opening) => closed_by(opening, input, at),
    }
}

/// Reads a start address, with or without brackets.
pub(crate) fn start_address(
    input: &[u8],
    at: usize,
    row: &mut Record,
    tokens: &mut ExpressionTokens,
) -> Read
    requires { at ≤ length input.now }
    ensures exact { in_place row.new result ≡ read layouts.start_address input.now at }
    ensures parts { IfOk result (λ _. HasParts input.now row.new) }
    ensures tokens { IfOk result (λ _. HasTokens input.now row.new tokens.new) }
{
    let (opening, at) = letter(
        &[codes::OPEN_SIGNED, codes::OPEN_UNSIGNED, codes::OPEN_EITHER],
        input,
        at,
    )?;
    start_by_bracket(opening, input, at, row, tokens)
}
