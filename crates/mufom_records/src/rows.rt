//! Reads the fields of each kind of record, which follow its code.

ghost use Rattle.std.specs.Prelude.{◌≡◌, ◌≤◌, List, length, IfOk};
ghost use Rattle.mufom_expr.specs.declared.token.Token.{Token};
ghost use Rattle.mufom_records.specs.declared.record.Record.TheVariants as r;
ghost use Rattle.mufom_records.specs.Layouts as layouts;
ghost use Rattle.mufom_records.specs.Parts.{HasParts, HasTokens, LiesIn};
ghost use Rattle.mufom_records.specs.Reading.{in_place, read};

use crate::expression::{expression, optional_expression};
use crate::expression_tokens::ExpressionTokens;
use crate::fields::{
    bad, block_kind, byte, count, debug_attribute, index, letter, number, numbers, offset_number,
    optional_number, run, string,
};
use crate::record::{BlockTail, Record};
use crate::stop::Stop;
use mufom_numbers::{Reason, Span, codes};

/// The offset after a record that was stored through `row`, or why there is none.
pub(crate) type Read = Result<usize, Stop>;

pub(crate) fn module_begin(input: &[u8], at: usize, row: &mut Record) -> Read
    requires { at ≤ length input.now }
    ensures exact { in_place row.new result ≡ read layouts.module_begin input.now at }
    ensures parts { IfOk result (λ _. HasParts input.now row.new) }
    ensures tokens { (any : List Token) → IfOk result (λ _. HasTokens input.now row.new any) }
{
    let (processor, at) = string(input, at)?;
    let (name, at) = string(input, at)?;
    *row = Record::ModuleBegin(processor, name);
    Ok(at)
}

pub(crate) fn descriptor(input: &[u8], at: usize, row: &mut Record) -> Read
    requires { at ≤ length input.now }
    ensures exact { in_place row.new result ≡ read layouts.descriptor input.now at }
    ensures parts { IfOk result (λ _. HasParts input.now row.new) }
    ensures tokens { (any : List Token) → IfOk result (λ _. HasTokens input.now row.new any) }
{
    let (bits, at) = number(input, at)?;
    let (maus, at) = number(input, at)?;
    let (order, at) = letter(&[codes::LETTER_L, codes::LETTER_M], input, at)?;
    *row = Record::Descriptor(bits, maus, order);
    Ok(at)
}

pub(crate) fn offset(input: &[u8], at: usize, row: &mut Record) -> Read
    requires { at ≤ length input.now }
    ensures exact { in_place row.new result ≡ read layouts.offset input.now at }
    ensures parts { IfOk result (λ _. HasParts input.now row.new) }
    ensures tokens { (any : List Token) → IfOk result (λ _. HasTokens input.now row.new any) }
{
    let (part, at) = number(input, at)?;
    let (value, at) = number(input, at)?;
    *row = Record::Offset(part, value);
    Ok(at)
}

pub(crate) fn numbered_offset(part: u8, input: &[u8], at: usize, row: &mut Record) -> Read
    requires { at ≤ length input.now }
    ensures exact { in_place row.new result ≡ read (layouts.numbered_offset part) input.now at }
    ensures parts { IfOk result (λ _. HasParts input.now row.new) }
    ensures tokens { (any : List Token) → IfOk result (λ _. HasTokens input.now row.new any) }
{
    let (part, at) = offset_number(part, input, at)?;
    let (value, at) = number(input, at)?;
    *row = Record::Offset(part, value);
    Ok(at)
}

fn named_section(i: u32, absolute: bool, input: &[u8], at: usize, row: &mut Record) -> Read
    requires { at ≤ length input.now }
    ensures exact { in_place row.new result ≡ read (layouts.named_section i absolute) input.now at }
    ensures parts { IfOk result (λ _. HasParts input.now row.new) }
    ensures tokens { (any : List Token) → IfOk result (λ _. HasTokens input.now row.new any) }
{
    let (purpose, at) = letter(
        &[codes::LETTER_P, codes::LETTER_D, codes::LETTER_R],
        input,
        at,
    )?;
    let (name, at) = string(input, at)?;
    let (a, at) = optional_number(input, at)?;
    let (b, at) = optional_number(input, at)?;
    let (c, at) = optional_number(input, at)?;
    *row = Record::SectionType(i, absolute, purpose, name, a, b, c);
    Ok(at)
}

fn absolute_section(i: u32, input: &[u8], at: usize, row: &mut Record) -> Read
    requires low { 1 ≤ at }
    requires within { at ≤ length input.now }
    ensures exact { in_place row.new result ≡ read (layouts.absolute_section i) input.now at }
    ensures parts { IfOk result (λ _. HasParts input.now row.new) }
    ensures tokens { (any : List Token) → IfOk result (λ _. HasTokens input.now row.new any) }
{
    let (second, after) = byte(input, at)?;
    if second == codes::LETTER_S {
        named_section(i, true, input, after, row)
    } else {
        Err(bad(at - 1, Reason::BadSectionType))
    }
}

pub(crate) fn section_type(input: &[u8], at: usize, row: &mut Record) -> Read
    requires { at ≤ length input.now }
    ensures exact { in_place row.new result ≡ read layouts.section_type input.now at }
    ensures parts { IfOk result (λ _. HasParts input.now row.new) }
    ensures tokens { (any : List Token) → IfOk result (λ _. HasTokens input.now row.new any) }
{
    let (i, at) = index(input, at)?;
    let (first, after) = byte(input, at)?;
    match first {
        codes::LETTER_C => named_section(i, false, input, after, row),
        codes::LETTER_A => absolute_section(i, input, after, row),
        _ => Err(bad(at, Reason::BadSectionType)),
    }
}

pub(crate) fn alignment(input: &[u8], at: usize, row: &mut Record) -> Read
    requires { at ≤ length input.now }
    ensures exact { in_place row.new result ≡ read layouts.alignment input.now at }
    ensures parts { IfOk result (λ _. HasParts input.now row.new) }
    ensures tokens { (any : List Token) → IfOk result (λ _. HasTokens input.now row.new any) }
{
    let (i, at) = index(input, at)?;
    let (value, at) = number(input, at)?;
    let (other, at) = optional_number(input, at)?;
    *row = Record::Alignment(i, value, other);
    Ok(at)
}

pub(crate) fn section_size(input: &[u8], at: usize, row: &mut Record) -> Read
    requires { at ≤ length input.now }
    ensures exact { in_place row.new result ≡ read (layouts.index_and_number r.SectionSize) input.now at }
    ensures parts { IfOk result (λ _. HasParts input.now row.new) }
    ensures tokens { (any : List Token) → IfOk result (λ _. HasTokens input.now row.new any) }
{
    let (i, at) = index(input, at)?;
    let (size, at) = number(input, at)?;
    *row = Record::SectionSize(i, size);
    Ok(at)
}

pub(crate) fn section_base(input: &[u8], at: usize, row: &mut Record) -> Read
    requires { at ≤ length input.now }
    ensures exact { in_place row.new result ≡ read (layouts.index_and_number r.SectionBase) input.now at }
    ensures parts { IfOk result (λ _. HasParts input.now row.new) }
    ensures tokens { (any : List Token) → IfOk result (λ _. HasTokens input.now row.new any) }
{
    let (i, at) = index(input, at)?;
    let (base, at) = number(input, at)?;
    *row = Record::SectionBase(i, base);
    Ok(at)
}

pub(crate) fn public_name(input: &[u8], at: usize, row: &mut Record) -> Read
    requires { at ≤ length input.now }
    ensures exact { in_place row.new result ≡ read (layouts.index_and_string r.PublicName) input.now at }
    ensures parts { IfOk result (λ _. HasParts input.now row.new) }
    ensures tokens { (any : List Token) → IfOk result (λ _. HasTokens input.now row.new any) }
{
    let (i, at) = index(input, at)?;
    let (name, at) = string(input, at)?;
    *row = Record::PublicName(i, name);
    Ok(at)
}

pub(crate) fn reference_name(input: &[u8], at: usize, row: &mut Record) -> Read
    requires { at ≤ length input.now }
    ensures exact { in_place row.new result ≡ read (layouts.index_and_string r.ReferenceName) input.now at }
    ensures parts { IfOk result (λ _. HasParts input.now row.new) }
    ensures tokens { (any : List Token) → IfOk result (λ _. HasTokens input.now row.new any) }
{
    let (i, at) = index(input, at)?;
    let (name, at) = string(input, at)?;
    *row = Record::ReferenceName(i, name);
    Ok(at)
}

pub(crate) fn debug_name(input: &[u8], at: usize, row: &mut Record) -> Read
    requires { at ≤ length input.now }
    ensures exact { in_place row.new result ≡ read (layouts.index_and_string r.DebugName) input.now at }
    ensures parts { IfOk result (λ _. HasParts input.now row.new) }
    ensures tokens { (any : List Token) → IfOk result (λ _. HasTokens input.now row.new any) }
{
    let (i, at) = index(input, at)?;
    let (name, at) = string(input, at)?;
    *row = Record::DebugName(i, name);
    Ok(at)
}

pub(crate) fn public_value(
    input: &[u8],
    at: usize,
    row: &mut Record,
    tokens: &mut ExpressionTokens,
) -> Read
    requires { at ≤ length input.now }
    ensures exact { in_place row.new result ≡ read (layouts.index_and_expression r.PublicValue) input.now at }
    ensures parts { IfOk result (λ _. HasParts input.now row.new) }
    ensures tokens { IfOk result (λ _. HasTokens input.now row.new tokens.new) }
{
    let (i, at) = index(input, at)?;
    let (value, at) = expression(input, at, tokens)?;
    *row = Record::PublicValue(i, value);
    Ok(at)
}

pub(crate) fn debug_value(
    input: &[u8],
    at: usize,
    row: &mut Record,
    tokens: &mut ExpressionTokens,
) -> Read
    requires { at ≤ length input.now }
    ensures exact { in_place row.new result ≡ read (layouts.index_and_expression r.DebugValue) input.now at }
    ensures parts { IfOk result (λ _. HasParts input.now row.new) }
    ensures tokens { IfOk result (λ _. HasTokens input.now row.new tokens.new) }
{
    let (i, at) = index(input, at)?;
    let (value, at) = expression(input, at, tokens)?;
    *row = Record::DebugValue(i, value);
    Ok(at)
}

pub(crate) fn set_counter(
    input: &[u8],
    at: usize,
    row: &mut Record,
    tokens: &mut ExpressionTokens,
) -> Read
    requires { at ≤ length input.now }
    ensures exact { in_place row.new result ≡ read (layouts.index_and_expression r.SetPc) input.now at }
    ensures parts { IfOk result (λ _. HasParts input.now row.new) }
    ensures tokens { IfOk result (λ _. HasTokens input.now row.new tokens.new) }
{
    let (i, at) = index(input, at)?;
    let (value, at) = expression(input, at, tokens)?;
    *row = Record::SetPc(i, value);
    Ok(at)
}

pub(crate) fn public_note(input: &[u8], at: usize, row: &mut Record) -> Read
    requires { at ≤ length input.now }
    ensures exact { in_place row.new result ≡ read (layouts.note r.PublicNote) input.now at }
    ensures parts { IfOk result (λ _. HasParts input.now row.new) }
    ensures tokens { (any : List Token) → IfOk result (λ _. HasTokens input.now row.new any) }
{
    let (i, at) = index(input, at)?;
    let (type_index, at) = number(input, at)?;
    let (attribute, at) = number(input, at)?;
    let (more, at) = numbers::<4>(input, at)?;
    *row = Record::PublicNote(i, type_index, attribute, more);
    Ok(at)
}

pub(crate) fn reference_note(input: &[u8], at: usize, row: &mut Record) -> Read
    requires { at ≤ length input.now }
    ensures exact { in_place row.new result ≡ read (layouts.note r.ReferenceNote) input.now at }
    ensures parts { IfOk result (λ _. HasParts input.now row.new) }
    ensures tokens { (any : List Token) → IfOk result (λ _. HasTokens input.now row.new any) }
{
    let (i, at) = index(input, at)?;
    let (type_index, at) = number(input, at)?;
    let (attribute, at) = number(input, at)?;
    let (more, at) = numbers::<4>(input, at)?;
    *row = Record::ReferenceNote(i, type_index, attribute, more);
    Ok(at)
}

pub(crate) fn debug_note(input: &[u8], at: usize, row: &mut Record) -> Read
    requires { at ≤ length input.now }
    ensures exact { in_place row.new result ≡ read layouts.debug_note input.now at }
    ensures parts { IfOk result (λ _. HasParts input.now row.new) }
    ensures tokens { (any : List Token) → IfOk result (λ _. HasTokens input.now row.new any) }
{
    let (i, at) = index(input, at)?;
    let (type_index, at) = number(input, at)?;
    let (attribute, at) = debug_attribute(input, at)?;
    let (more, at) = numbers::<4>(input, at)?;
    *row = Record::DebugNote(i, type_index, attribute, more);
    Ok(at)
}

pub(crate) fn weak_reference(input: &[u8], at: usize, row: &mut Record) -> Read
    requires { at ≤ length input.now }
    ensures exact { in_place row.new result ≡ read layouts.weak_reference input.now at }
    ensures parts { IfOk result (λ _. HasParts input.now row.new) }
    ensures tokens { (any : List Token) → IfOk result (λ _. HasTokens input.now row.new any) }
{
    let (i, at) = index(input, at)?;
    let (size, at) = number(input, at)?;
    let (default, at) = optional_number(input, at)?;
    *row = Record::WeakReference(i, size, default);
    Ok(at)
}

fn scope_begin(
    kind: u64,
    size: u64,
    name: Span,
    input: &[u8],
    at: usize,
    row: &mut Record,
    tokens: &mut ExpressionTokens,
) -> Read
    requires within { at ≤ length input.now }
    requires name { LiesIn input.now name }
    ensures exact { in_place row.new result ≡ read (layouts.scope_begin kind size name) input.now at }
    ensures parts { IfOk result (λ _. HasParts input.now row.new) }
    ensures tokens { IfOk result (λ _. HasTokens input.now row.new tokens.new) }
{
    let (stack, at) = number(input, at)?;
    let (type_index, at) = number(input, at)?;
    let (offset, at) = expression(input, at, tokens)?;
    let tail = BlockTail::Scope {
        stack,
        type_index,
        offset,
    };
    *row = Record::BlockBegin(kind, size, name, tail);
    Ok(at)
}

fn source_begin(kind: u64, size: u64, name: Span, input: &[u8], at: usize, row: &mut Record) -> Read
    requires within { at ≤ length input.now }
    requires name { LiesIn input.now name }
    ensures exact { in_place row.new result ≡ read (layouts.source_begin kind size name) input.now at }
    ensures parts { IfOk result (λ _. HasParts input.now row.new) }
    ensures tokens { (any : List Token) → IfOk result (λ _. HasTokens input.now row.new any) }
{
    let (more, at) = numbers::<6>(input, at)?;
    *row = Record::BlockBegin(kind, size, name, BlockTail::Source(more));
    Ok(at)
}

fn section_begin(
    kind: u64,
    size: u64,
    name: Span,
    input: &[u8],
    at: usize,
    row: &mut Record,
    tokens: &mut ExpressionTokens,
) -> Read
    requires within { at ≤ length input.now }
    requires name { LiesIn input.now name }
    ensures exact { in_place row.new result ≡ read (layouts.section_begin kind size name) input.now at }
    ensures parts { IfOk result (λ _. HasParts input.now row.new) }
    ensures tokens { IfOk result (λ _. HasTokens input.now row.new tokens.new) }
{
    let (section_type, at) = number(input, at)?;
    let (section, at) = index(input, at)?;
    let (offset, at) = expression(input, at, tokens)?;
    let tail = BlockTail::Section {
        section_type,
        section,
        offset,
    };
    *row = Record::BlockBegin(kind, size, name, tail);
    Ok(at)
}

fn block_by_kind(
    kind: u64,
    size: u64,
    name: Span,
    input: &[u8],
    at: usize,
    row: &mut Record,
    tokens: &mut ExpressionTokens,
) -> Read
    requires within { at ≤ length input.now }
    requires name { LiesIn input.now name }
    ensures exact { in_place row.new result ≡ read (layouts.block_by_kind kind size name) input.now at }
    ensures parts { IfOk result (λ _. HasParts input.now row.new) }
    ensures tokens { IfOk result (λ _. HasTokens input.now row.new tokens.new) }
{
    match kind {
        3 => {
            *row = Record::BlockBegin(kind, size, name, BlockTail::Module);
            Ok(at)
        }
        5 => source_begin(kind, size, name, input, at, row),
        11 => section_begin(kind, size, name, input, at, row, tokens),
        _ => scope_begin(kind, size, name, input, at, row, tokens),
    }
}

pub(crate) fn block_begin(
    input: &[u8],
    at: usize,
    row: &mut Record,
    tokens: &mut ExpressionTokens,
) -> Read
    requires { at ≤ length input.now }
    ensures exact { in_place row.new result ≡ read layouts.block_begin input.now at }
    ensures parts { IfOk result (λ _. HasParts input.now row.new) }
    ensures tokens { IfOk result (λ _. HasTokens input.now row.new tokens.new) }
{
    let (kind, at) = block_kind(input, at)?;
    let (size, at) = number(input, at)?;
    let (name, at) = string(input, at)?;
    block_by_kind(kind, size, name, input, at, row, tokens)
}

pub(crate) fn block_end(
    input: &[u8],
    at: usize,
    row: &mut Record,
    tokens: &mut ExpressionTokens,
) -> Read
    requires { at ≤ length input.now }
    ensures exact { in_place row.new result ≡ read layouts.block_end input.now at }
    ensures parts { IfOk result (λ _. HasParts input.now row.new) }
    ensures tokens { IfOk result (λ _. HasTokens input.now row.new tokens.new) }
{
    let (value, at) = optional_expression(input, at, tokens)?;
    *row = Record::BlockEnd(value);
    Ok(at)
}

pub(crate) fn set_section(input: &[u8], at: usize, row: &mut Record) -> Read
    requires { at ≤ length input.now }
    ensures exact { in_place row.new result ≡ read layouts.set_section input.now at }
    ensures parts { IfOk result (λ _. HasParts input.now row.new) }
    ensures tokens { (any : List Token) → IfOk result (λ _. HasTokens input.now row.new any) }
{
    let (i, at) = index(input, at)?;
    *row = Record::SetSection(i);
    Ok(at)
}

pub(crate) fn constant(input: &[u8], at: usize, row: &mut Record) -> Read
    requires { at ≤ length input.now }
    ensures exact { in_place row.new result ≡ read (layouts.constant r.Constant) input.now at }
    ensures parts { IfOk result (λ _. HasParts input.now row.new) }
    ensures tokens { (any : List Token) → IfOk result (λ _. HasTokens input.now row.new any) }
{
    let (length, at) = count(input, at)?;
    let (bytes, at) = run(length, input, at)?;
    *row = Record::Constant(bytes);
    Ok(at)
}

fn repeat_constant(times: u64, input: &[u8], at: usize, row: &mut Record) -> Read
    requires { at ≤ length input.now }
    ensures exact { in_place row.new result ≡ read (layouts.constant (r.RepeatConstant times)) input.now at }
    ensures parts { IfOk result (λ _. HasParts input.now row.new) }
    ensures tokens { (any : List Token) → IfOk result (λ _. HasTokens input.now row.new any) }
{
    let (length, at) = count(input, at)?;
    let (bytes, at) = run(length, input, at)?;
    *row = Record::RepeatConstant(times, bytes);
    Ok(at)
}

pub(crate) fn repeat(input: &[u8], at: usize, row: &mut Record) -> Read
    requires { at ≤ length input.now }
    ensures exact { in_place row.new result ≡ read layouts.repeat input.now at }
    ensures parts { IfOk result (λ _. HasParts input.now row.new) }
    ensures tokens { (any : List Token) → IfOk result (λ _. HasTokens input.now row.new any) }
{
    let (times, at) = number(input, at)?;
    let (code, after) = byte(input, at)?;
    match code {
        codes::CONSTANT => repeat_constant(times, input, after, row),
        codes::RELOCATE => {
            *row = Record::RepeatRelocate(times);
            Ok(after)
        }
        _ => Err(bad(at, Reason::BadRecord)),
    }
}
