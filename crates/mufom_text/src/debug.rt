//! The lines of debug items.

ghost use Rattle.std.specs.Prelude.{◌≡◌, ◌+◌, ◌<◌, ◌^◌, ◌++◌, ℕ, length};
ghost use Rattle.mufom_debug.specs.Marks.{block_begin, marks_of, marks_of_item, name_mark, note_mark, value_mark, names_after_all};
ghost use Rattle.mufom_text.specs.Words.{indent, line};
ghost use Rattle.mufom_text.specs.Show.{end_text, end_value, head_text, mark_line, mark_lines, part_text, scope_text};

use crate::infix::expression;
use crate::names::note_text;
use crate::output::Output;
use crate::words::{indent, number, quoted, spaced_numbers};
use mufom_debug::{BlockHead, DebugItem};
use mufom_expr::Postfix;
use mufom_names::Note;

// ---- blocks

fn scope<K: Output>(out: &mut K, stack: u64, type_index: u64, offset: &Postfix)
    ensures { K.takes out.old out.new (scope_text stack type_index offset.now) }
{
    out.put(b" stack ");
    number(out, stack);
    out.put(b" type ");
    number(out, type_index);
    out.put(b" offset ");
    expression(out, offset);
}

fn part_text<K: Output>(out: &mut K, section_type: u64, section: u32, offset: &Postfix)
    ensures { K.takes out.old out.new (part_text section_type section offset.now) }
{
    out.put(b" section-type ");
    number(out, section_type);
    out.put(b" section ");
    number(out, section as u64);
    out.put(b" offset ");
    expression(out, offset);
}

// What the kind of a block adds to its line.
fn head_text<K: Output>(out: &mut K, head: &BlockHead)
    ensures { K.takes out.old out.new (head_text head.now) }
{
    match head {
        BlockHead::Module => {}
        BlockHead::Source { numbers } => spaced_numbers(out, numbers.as_slice()),
        BlockHead::Global {
            stack,
            type_index,
            offset,
        } => scope(out, *stack, *type_index, offset),
        BlockHead::Local {
            stack,
            type_index,
            offset,
        } => scope(out, *stack, *type_index, offset),
        BlockHead::Section {
            section_type,
            section,
            offset,
        } => part_text(out, *section_type, *section, offset),
    }
}

fn block_line<K: Output>(out: &mut K, depth: u32, head: &BlockHead, name: &[u8])
    ensures { (n : ℕ) → K.takes out.old out.new (mark_line depth n (block_begin head.now name.now)) }
{
    indent(out, depth);
    out.put(b"block ");
    number(out, head.kind() as u64);
    out.put(b" ");
    quoted(out, name);
    head_text(out, head);
    out.put(b"\n");
}

fn end_value<K: Output>(out: &mut K, value: &Postfix)
    ensures { K.takes out.old out.new (end_value value.now) }
{
    out.put(b"end = ");
    expression(out, value);
}

fn end_text<K: Output>(out: &mut K, end: &Option<Postfix>)
    ensures { K.takes out.old out.new (end_text end.now) }
{
    match end {
        Some(value) => end_value(out, value),
        None => out.put(b"end"),
    }
}

// The line of the end of a block, which is indented as its start is.
fn end_line<K: Output>(out: &mut K, depth: u32, end: &Option<Postfix>)
    ensures { K.takes out.old out.new (line (indent depth ++ end_text end.now)) }
{
    indent(out, depth);
    end_text(out, end);
    out.put(b"\n");
}

// ---- names, notes and values

fn name_line<K: Output>(out: &mut K, depth: u32, position: u64, name: &[u8])
    ensures { K.takes out.old out.new (mark_line depth position (name_mark name.now)) }
{
    indent(out, depth);
    out.put(b"name ");
    number(out, position);
    out.put(b" ");
    quoted(out, name);
    out.put(b"\n");
}

fn note_line<K: Output>(out: &mut K, depth: u32, name: u32, note: &Note)
    ensures { (n : ℕ) → K.takes out.old out.new (mark_line depth n (note_mark name note.now)) }
{
    indent(out, depth);
    out.put(b"note ");
    number(out, name as u64);
    note_text(out, note);
    out.put(b"\n");
}

fn value_line<K: Output>(out: &mut K, depth: u32, name: u32, value: &Postfix)
    ensures { (n : ℕ) → K.takes out.old out.new (mark_line depth n (value_mark name value.now)) }
{
    indent(out, depth);
    out.put(b"value ");
    number(out, name as u64);
    out.put(b" = ");
    expression(out, value);
    out.put(b"\n");
}

// ---- items

// An item in `depth` open blocks; `names` counts the names that are before it, and then after
// it.
#[cycle(showing)]
fn debug_item<K: Output>(out: &mut K, depth: u32, item: &DebugItem, names: &mut u64)
    requires deep { depth + length (marks_of_item item.now) < 2 ^ 32 }
    requires few { names.old + length (marks_of_item item.now) < 2 ^ 63 }
    ensures takes { K.takes out.old out.new (mark_lines depth names.old (marks_of_item item.now)) }
    ensures names { names.new ≡ names_after_all names.old (marks_of_item item.now) }
{
    match item {
        DebugItem::Block(block) => {
            let block = block.get();
            block_line(out, depth, &block.head, block.name.as_slice());
            debug_items(out, depth + 1, block.items.as_slice(), names);
            end_line(out, depth, &block.end);
        }
        DebugItem::Name(name) => {
            name_line(out, depth, *names, name.as_slice());
            *names += 1;
        }
        DebugItem::Note { name, note } => note_line(out, depth, *name, note),
        DebugItem::Value { name, value } => value_line(out, depth, *name, value),
    }
}

/// The lines of the items, in `depth` open blocks; `names` counts the names that are before
/// them, and then after them.
#[cycle(showing)]
pub(crate) fn debug_items<K: Output>(out: &mut K, depth: u32, items: &[DebugItem], names: &mut u64)
    requires deep { depth + length (marks_of items.now) < 2 ^ 32 }
    requires few { names.old + length (marks_of items.now) < 2 ^ 63 }
    ensures takes { K.takes out.old out.new (mark_lines depth names.old (marks_of items.now)) }
    ensures names { names.new ≡ names_after_all names.old (marks_of items.now) }
{
    for place in 0..items.len() {
        debug_item(out, depth, &items[place], names);
    }
}
