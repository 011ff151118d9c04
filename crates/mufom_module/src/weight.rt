//! The weight of a module: an upper bound on the length of its written form, in bytes. Sums stop at the
//! greatest `u64`, so that none wraps before the weight is found to be too much.

ghost use Rattle.std.specs.Prelude.{◌≡◌, sum_by};
ghost use Rattle.mufom_module.specs.declared.module.Defect.{Defect};
ghost use Rattle.mufom_module.specs.Weights.{capped, frame_weight, token_weight, expression_weight, optional_expression_weight, alignment_weight};
ghost use Rattle.mufom_module.specs.Weights.{size_weight, base_weight, section_weight, note_weight, notes_weight, public_weight, reference_weight};
ghost use Rattle.mufom_module.specs.Weights.{default_weight, weak_weight, head_weight, mark_weight, marks_weight, item_weight, items_weight};
ghost use Rattle.mufom_module.specs.Weights.{load_weight, start_weight, parts_weight};
ghost use Rattle.mufom_module.specs.Written.{weight};
ghost use Rattle.mufom_module.specs.Defects.{has_defect};
ghost use Rattle.mufom_debug.specs.Marks.{block_begin, block_end, marks_of, marks_of_item};

use crate::module::Parts;
use mufom_debug::{BlockHead, DebugItem};
use mufom_expr::{Postfix, Token};
use mufom_loads::{Item, Load};
use mufom_names::{Note, Public, Reference, Weak};
use mufom_sections::Section;

fn token_weight(token: Token) -> u64
    ensures { result ≡ capped (token_weight token) }
{
    match token {
        Token::Number(_) => 9,
        Token::Var(_, _) => 10,
        Token::Fun(_) => 1,
    }
}

fn tokens_weight(tokens: &[Token]) -> u64
    ensures { result ≡ capped (sum_by token_weight tokens.now) }
{
    let mut total: u64 = 0;
    for token in tokens {
        total = total.saturating_add(token_weight(*token));
    }
    total
}

fn expression_weight(value: &Postfix) -> u64
    ensures { result ≡ capped (expression_weight value.now) }
{
    tokens_weight(value.tokens())
}

// ---- sections

fn section_weight(section: &Section) -> u64
    ensures { result ≡ capped (section_weight section.now) }
{
    let letters: u64 = if section.absolute { 2 } else { 1 };
    let purpose: u64 = if section.purpose.is_some() { 1 } else { 0 };
    let align: u64 = if section.align == 1 { 0 } else { 19 };
    let size: u64 = if section.size == 0 { 0 } else { 20 };
    let base: u64 = if section.base.is_some() { 20 } else { 0 };
    let fixed = 13 + letters + purpose + align + size + base;
    fixed.saturating_add(section.name.len() as u64)
}

/// The total weight of sections, in bytes, or the greatest `u64` if that is less.
pub fn sections_weight(sections: &[Section]) -> u64
    ensures { result ≡ capped (sum_by section_weight sections.now) }
{
    let mut total: u64 = 0;
    for section in sections {
        total = total.saturating_add(section_weight(section));
    }
    total
}

// ---- names

fn note_weight(note: &Note) -> u64
    ensures { result ≡ capped (note_weight note.now) }
{
    29 + 9 * note.numbers.len() as u64
}

/// The total weight of the notes of a name, in bytes, or the greatest `u64` if that is less.
pub fn notes_weight(notes: &[Note]) -> u64
    ensures { result ≡ capped (notes_weight notes.now) }
{
    let mut total: u64 = 0;
    for note in notes {
        total = total.saturating_add(note_weight(note));
    }
    total
}

fn public_weight(public: &Public) -> u64
    ensures { result ≡ capped (public_weight public.now) }
{
    let name = 24u64.saturating_add(public.name.len() as u64);
    name.saturating_add(notes_weight(public.notes.as_slice()))
        .saturating_add(expression_weight(&public.value))
}

fn publics_weight(publics: &[Public]) -> u64
    ensures { result ≡ capped (sum_by public_weight publics.now) }
{
    let mut total: u64 = 0;
    for public in publics {
        total = total.saturating_add(public_weight(public));
    }
    total
}

fn weak_weight(weak: Option<Weak>) -> u64
    ensures { result ≡ capped (weak_weight weak) }
{
    match weak {
        Some(weak) if weak.default == 0 => 19,
        Some(_) => 28,
        None => 0,
    }
}

fn reference_weight(reference: &Reference) -> u64
    ensures { result ≡ capped (reference_weight reference.now) }
{
    let name = 13u64.saturating_add(reference.name.len() as u64);
    name.saturating_add(notes_weight(reference.notes.as_slice()))
        .saturating_add(weak_weight(reference.weak))
}

fn references_weight(references: &[Reference]) -> u64
    ensures { result ≡ capped (sum_by reference_weight references.now) }
{
    let mut total: u64 = 0;
    for reference in references {
        total = total.saturating_add(reference_weight(reference));
    }
    total
}

// ---- debug items

fn end_weight(end: &Option<Postfix>) -> u64
    ensures { result ≡ capped (mark_weight (block_end end.now)) }
{
    match end {
        Some(value) => 1u64.saturating_add(expression_weight(value)),
        None => 1,
    }
}

fn head_weight(head: &BlockHead) -> u64
    ensures { result ≡ capped (head_weight head.now) }
{
    match head {
        BlockHead::Module => 0,
        BlockHead::Global { offset, .. } => 18u64.saturating_add(expression_weight(offset)),
        BlockHead::Source { numbers } => 9 * numbers.len() as u64,
        BlockHead::Local { offset, .. } => 18u64.saturating_add(expression_weight(offset)),
        BlockHead::Section { offset, .. } => 18u64.saturating_add(expression_weight(offset)),
    }
}

fn begin_weight(head: &BlockHead, name: &[u8]) -> u64
    ensures { result ≡ capped (mark_weight (block_begin head.now name.now)) }
{
    let name = 22u64.saturating_add(name.len() as u64);
    name.saturating_add(head_weight(head))
}

#[cycle(weighing)]
fn debug_item_weight(item: &DebugItem) -> u64
    ensures { result ≡ capped (marks_weight (marks_of_item item.now)) }
{
    match item {
        DebugItem::Block(block) => {
            let block = block.get();
            let begin = begin_weight(&block.head, block.name.as_slice());
            let items = debug_items_weight(block.items.as_slice());
            begin
                .saturating_add(items)
                .saturating_add(end_weight(&block.end))
        }
        DebugItem::Name(name) => 13u64.saturating_add(name.len() as u64),
        DebugItem::Note { note, .. } => note_weight(note),
        DebugItem::Value { value, .. } => 11u64.saturating_add(expression_weight(value)),
    }
}

/// The total weight of debug items, with everything inside blocks, in bytes, or the greatest `u64` if
/// that is less.
#[cycle(weighing)]
pub fn debug_items_weight(items: &[DebugItem]) -> u64
    ensures { result ≡ capped (marks_weight (marks_of items.now)) }
{
    let mut total: u64 = 0;
    for item in items {
        total = total.saturating_add(debug_item_weight(item));
    }
    total
}

// ---- loads

fn item_weight(item: &Item) -> u64
    ensures { result ≡ capped (item_weight item.now) }
{
    match item {
        Item::Literal(bytes) => 9u64.saturating_add(bytes.len() as u64),
        Item::Field { value, .. } => 12u64.saturating_add(expression_weight(value)),
    }
}

fn items_weight(items: &[Item]) -> u64
    ensures { result ≡ capped (items_weight items.now) }
{
    let mut total: u64 = 0;
    for item in items {
        total = total.saturating_add(item_weight(item));
    }
    total
}

fn load_weight(load: &Load) -> u64
    ensures { result ≡ capped (load_weight load.now) }
{
    match load {
        Load::SetSection(_) => 10,
        Load::SetPc { value, .. } => 11u64.saturating_add(expression_weight(value)),
        Load::One(item) => 1u64.saturating_add(item_weight(item)),
        Load::Repeat { items, .. } => 11u64.saturating_add(items_weight(items.as_slice())),
    }
}

fn loads_weight(loads: &[Load]) -> u64
    ensures { result ≡ capped (sum_by load_weight loads.now) }
{
    let mut total: u64 = 0;
    for load in loads {
        total = total.saturating_add(load_weight(load));
    }
    total
}

// ---- the whole

fn start_weight(start: &Option<Postfix>) -> u64
    ensures { result ≡ capped (start_weight start.now) }
{
    match start {
        Some(value) => 4u64.saturating_add(expression_weight(value)),
        None => 0,
    }
}

// The weight of the header, the raw parts and ME.
fn frame_weight(parts: &Parts) -> u64
    ensures { result ≡ capped (frame_weight parts.now) }
{
    156u64
        .saturating_add(parts.processor.len() as u64)
        .saturating_add(parts.name.len() as u64)
        .saturating_add(parts.ext.len() as u64)
        .saturating_add(parts.env.len() as u64)
}

// The weight of the parts, or the greatest `u64` if that is less.
pub(crate) fn module_weight(parts: &Parts) -> u64
    ensures { result ≡ capped (parts_weight parts.now) }
{
    frame_weight(parts)
        .saturating_add(sections_weight(parts.sections.as_slice()))
        .saturating_add(publics_weight(parts.names.publics.as_slice()))
        .saturating_add(references_weight(parts.names.references.as_slice()))
        .saturating_add(debug_items_weight(parts.debug.as_slice()))
        .saturating_add(loads_weight(parts.loads.as_slice()))
        .saturating_add(start_weight(&parts.start))
}

/// Whether the weight is 2^32 or more.
pub(crate) fn is_too_heavy(parts: &Parts) -> bool
    ensures { result ≡ has_defect parts.now Defect.Weight }
{
    module_weight(parts) >= 1 << 32
}
