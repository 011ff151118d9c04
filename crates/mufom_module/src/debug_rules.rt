//! Checks of the debug items: whether one of their marks breaks a rule.

ghost use Rattle.std.specs.Prelude.{◌≡◌, ◌||◌, ℕ, option_map, is_none};
ghost use Rattle.std.specs.List.{list_any};
ghost use Rattle.mufom_debug.specs.Marks.{offset_of, block_begin, block_end, name_mark, note_mark, value_mark, marks_of, marks_of_item};
ghost use Rattle.mufom_module.specs.Contents.{any_of, blocks_of, blocks_of_item};
ghost use Rattle.mufom_module.specs.Defects.{breaks, ends_plainly, names_bad_section, has_bad_end, declared_after};
ghost use Rattle.mufom_module.specs.Weights.{capped};

use crate::rules::{Counts, Rule, has_other_counter, is_long, names_outside};
use mufom_debug::{BlockHead, DebugItem};
use mufom_expr::Postfix;
use mufom_names::Note;

// Whether the note of a debug name breaks the rule.
fn note_breaks(rule: Rule, name: u32, note: &Note) -> bool
    ensures { result ≡ breaks rule (note_mark name note.now) }
{
    match rule {
        Rule::Attribute => ![1, 2, 3, 4, 5, 7, 8, 10].contains(&note.attribute),
        Rule::Length => false,
        Rule::Position(_) => false,
        Rule::Counter => false,
    }
}

// Whether the value of a debug name breaks the rule.
fn value_breaks(rule: Rule, name: u32, value: &Postfix) -> bool
    ensures { result ≡ breaks rule (value_mark name value.now) }
{
    match rule {
        Rule::Position(counts) => names_outside(counts, value),
        Rule::Counter => has_other_counter(None, value),
        Rule::Length => false,
        Rule::Attribute => false,
    }
}

// Whether a debug name breaks the rule.
fn name_breaks(rule: Rule, name: &[u8]) -> bool
    ensures { result ≡ breaks rule (name_mark name.now) }
{
    match rule {
        Rule::Length => is_long(name),
        Rule::Position(_) => false,
        Rule::Counter => false,
        Rule::Attribute => false,
    }
}

// Whether the end of a block breaks the rule.
fn end_breaks(rule: Rule, end: &Option<Postfix>) -> bool
    ensures { result ≡ breaks rule (block_end end.now) }
{
    match end {
        Some(value) => value_breaks(rule, 0, value),
        None => false,
    }
}

// Whether the block names a section that the module does not have.
fn names_bad_section(counts: Counts, head: &BlockHead) -> bool
    ensures { result ≡ names_bad_section counts head.now }
{
    match head {
        BlockHead::Section { section, .. } => counts.sections <= *section as usize,
        BlockHead::Module => false,
        BlockHead::Global { .. } => false,
        BlockHead::Source { .. } => false,
        BlockHead::Local { .. } => false,
    }
}

// Whether the expression at the start of a block breaks the rule.
fn offset_breaks(rule: Rule, head: &BlockHead) -> bool
    ensures { result ≡ breaks rule (block_end (offset_of head.now)) }
{
    match head.offset() {
        Some(value) => value_breaks(rule, 0, value),
        None => false,
    }
}

// Whether the start of a block breaks the rule.
fn begin_breaks(rule: Rule, head: &BlockHead, name: &[u8]) -> bool
    ensures { result ≡ breaks rule (block_begin head.now name.now) }
{
    match rule {
        Rule::Length => is_long(name),
        Rule::Position(counts) => names_bad_section(counts, head) || offset_breaks(rule, head),
        Rule::Counter => offset_breaks(rule, head),
        Rule::Attribute => false,
    }
}

// Whether a mark of the item breaks the rule.
#[cycle(breaking)]
fn item_breaks(rule: Rule, item: &DebugItem) -> bool
    ensures { result ≡ list_any (breaks rule) (marks_of_item item.now) }
{
    match item {
        DebugItem::Block(block) => {
            let block = block.get();
            begin_breaks(rule, &block.head, block.name.as_slice())
                || any_breaks(rule, block.items.as_slice())
                || end_breaks(rule, &block.end)
        }
        DebugItem::Name(name) => name_breaks(rule, name.as_slice()),
        DebugItem::Note { name, note } => note_breaks(rule, *name, note),
        DebugItem::Value { name, value } => value_breaks(rule, *name, value),
    }
}

/// Whether a mark of the items breaks the rule.
#[cycle(breaking)]
pub(crate) fn any_breaks(rule: Rule, items: &[DebugItem]) -> bool
    ensures { result ≡ list_any (breaks rule) (marks_of items.now) }
{
    for item in items {
        if item_breaks(rule, item) {
            return true;
        }
    }
    false
}

// Whether blocks of this kind have no expression at their end, by the format.
fn ends_plainly(head: &BlockHead) -> bool
    ensures { result ≡ ends_plainly head.now }
{
    match head {
        BlockHead::Module => true,
        BlockHead::Source { .. } => true,
        BlockHead::Global { .. } => false,
        BlockHead::Local { .. } => false,
        BlockHead::Section { .. } => false,
    }
}

// Whether a block in the item has an expression at its end that its kind does not have.
#[cycle(ending)]
fn item_ends_badly(item: &DebugItem) -> bool
    ensures { result ≡ list_any has_bad_end (blocks_of_item item.now) }
{
    match item {
        DebugItem::Block(block) => {
            let block = block.get();
            (ends_plainly(&block.head) && block.end.is_some())
                || any_ends_badly(block.items.as_slice())
        }
        DebugItem::Name(_) => false,
        DebugItem::Note { .. } => false,
        DebugItem::Value { .. } => false,
    }
}

/// Whether a block in the items has an expression at its end that its kind does not have.
#[cycle(ending)]
pub(crate) fn any_ends_badly(items: &[DebugItem]) -> bool
    ensures { result ≡ list_any has_bad_end (blocks_of items.now) }
{
    for item in items {
        if item_ends_badly(item) {
            return true;
        }
    }
    false
}

// The number of names that are declared after the item, or `None` if it uses one that is not declared
// yet. The count stops at the greatest `u64`.
#[cycle(declaring)]
fn item_declares(item: &DebugItem, declared: u64) -> Option<u64>
    ensures { (n : ℕ) → capped n ≡ declared → result ≡ option_map capped (declared_after n (marks_of_item item.now)) }
{
    match item {
        DebugItem::Block(block) => all_declare(block.get().items.as_slice(), declared),
        DebugItem::Name(_) => Some(declared.saturating_add(1)),
        DebugItem::Note { name, .. } if (*name as u64) < declared => Some(declared),
        DebugItem::Value { name, .. } if (*name as u64) < declared => Some(declared),
        DebugItem::Note { .. } => None,
        DebugItem::Value { .. } => None,
    }
}

// The same for items, one after another.
#[cycle(declaring)]
fn all_declare(items: &[DebugItem], mut declared: u64) -> Option<u64>
    ensures { (n : ℕ) → capped n ≡ declared → result ≡ option_map capped (declared_after n (marks_of items.now)) }
{
    for item in items {
        declared = item_declares(item, declared)?;
    }
    Some(declared)
}

/// Whether a note or a value comes before the declaration of its debug name.
pub(crate) fn uses_name_early(items: &[DebugItem]) -> bool
    ensures { result ≡ is_none (declared_after 0 (marks_of items.now)) }
{
    all_declare(items, 0).is_none()
}
