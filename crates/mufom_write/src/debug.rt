//! The records of debug items.

ghost use Rattle.std.specs.Prelude.{◌≡◌, ◌∷◌, ◌++◌, ◌+◌, ◌<◌, ◌^◌, false, ℕ, length, OnOk};
ghost use Rattle.std.specs.List.{list_any};
ghost use Rattle.mufom_debug.specs.Marks.{block_begin, block_end, name_mark, note_mark, value_mark, marks_of, marks_of_item, names_after_all};
ghost use Rattle.mufom_module.specs.Written as written;
ghost use Rattle.mufom_module.specs.Written.{shortest};
ghost use Rattle.mufom_module.specs.Defects.{is_long, has_long_name};

use crate::fields::{
    FIRST_DEBUG_NAME, FIRST_SECTION, expression, number, numbered, numbers, string,
};
use crate::names::{name_record, note};
use crate::output::Output;
use mufom_debug::{BlockHead, DebugItem};
use mufom_expr::Postfix;
use mufom_host::Failed;
use mufom_names::Note;
use mufom_numbers::{Bytes, codes};

// Two numbers, and the expression of a block's start.
fn scope<K: Output>(out: &mut K, first: u64, second: u64, offset: &Postfix) -> Result<(), Failed>
    ensures { K.takes out.old out.new
        (written.number shortest first ++ (written.number shortest second ++ written.expression shortest offset.now)) result }
{
    number(out, first)?;
    number(out, second)?;
    expression(out, offset)
}

// What the kind of a block adds to the record of its start.
fn head_fields<K: Output>(out: &mut K, head: &BlockHead) -> Result<(), Failed>
    ensures { K.takes out.old out.new (written.head_fields shortest head.now) result }
{
    match head {
        BlockHead::Module => Ok(()),
        BlockHead::Source { numbers: all } => numbers(out, all.as_slice()),
        BlockHead::Global {
            stack,
            type_index,
            offset,
        } => scope(out, *stack, *type_index, offset),
        BlockHead::Local {
            stack,
            type_index,
            offset,
        } => scope(out, *stack, *type_index, offset),
        BlockHead::Section {
            section_type,
            section,
            offset,
        } => scope(out, *section_type, *section as u64 + FIRST_SECTION, offset),
    }
}

// The BB record, with the size 0.
fn block_begin<K: Output>(out: &mut K, head: &BlockHead, name: &Bytes) -> Result<(), Failed>
    requires { is_long name.now ≡ false }
    ensures { (n : ℕ) → K.takes out.old out.new (written.debug_record shortest n (block_begin head.now name.now)) result }
{
    numbered(out, &[codes::BLOCK_BEGIN], head.kind() as u64)?;
    number(out, 0)?;
    string(out, name)?;
    head_fields(out, head)
}

// The expression at the end of a block, if there is one.
fn end_expression<K: Output>(out: &mut K, end: &Option<Postfix>) -> Result<(), Failed>
    ensures { K.takes out.old out.new (written.end_expression shortest end.now) result }
{
    match end {
        Some(value) => expression(out, value),
        None => Ok(()),
    }
}

// The BE record.
fn block_end<K: Output>(out: &mut K, end: &Option<Postfix>) -> Result<(), Failed>
    ensures { (n : ℕ) → K.takes out.old out.new (written.debug_record shortest n (block_end end.now)) result }
{
    out.record(&[codes::BLOCK_END])?;
    end_expression(out, end)
}

// The ASN record.
fn value_record<K: Output>(out: &mut K, name: u32, value: &Postfix) -> Result<(), Failed>
    ensures { (n : ℕ) → K.takes out.old out.new (written.debug_record shortest n (value_mark name value.now)) result }
{
    numbered(
        out,
        &[codes::ASSIGNMENT, codes::LETTER_N],
        name as u64 + FIRST_DEBUG_NAME,
    )?;
    expression(out, value)
}

// Writes an item. `names` is the number of debug names declared before it, and then after it.
#[cycle(writing)]
fn debug_item<K: Output>(out: &mut K, item: &DebugItem, names: &mut u64) -> Result<(), Failed>
    requires short { list_any has_long_name (marks_of_item item.now) ≡ false }
    requires few { names.old + length (marks_of_item item.now) < 2 ^ 63 }
    ensures takes { K.takes out.old out.new (written.debug_records shortest names.old (marks_of_item item.now)) result }
    ensures names { OnOk result (names.new ≡ names_after_all names.old (marks_of_item item.now)) }
{
    match item {
        DebugItem::Block(block) => {
            let block = block.get();
            block_begin(out, &block.head, &block.name)?;
            debug_items(out, block.items.as_slice(), names)?;
            block_end(out, &block.end)
        }
        DebugItem::Name(name) => {
            let index = *names + FIRST_DEBUG_NAME;
            *names += 1;
            name_record(out, codes::DEBUG_NAME, index, name)
        }
        DebugItem::Note { name, note: its } => note(
            out,
            codes::LETTER_N,
            *name as u64 + FIRST_DEBUG_NAME,
            its,
        ),
        DebugItem::Value { name, value } => value_record(out, *name, value),
    }
}

/// Writes the items, one after another. `names` is the number of debug names declared before them, and
/// then after them.
#[cycle(writing)]
pub(crate) fn debug_items<K: Output>(
    out: &mut K,
    items: &[DebugItem],
    names: &mut u64,
) -> Result<(), Failed>
    requires short { list_any has_long_name (marks_of items.now) ≡ false }
    requires few { names.old + length (marks_of items.now) < 2 ^ 63 }
    ensures takes { K.takes out.old out.new (written.debug_records shortest names.old (marks_of items.now)) result }
    ensures names { OnOk result (names.new ≡ names_after_all names.old (marks_of items.now)) }
{
    for place in 0..items.len() {
        debug_item(out, &items[place], names)?;
    }
    Ok(())
}
