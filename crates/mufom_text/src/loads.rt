//! The lines of loads and of the start address.

ghost use Rattle.std.specs.Prelude.{◌≡◌, ◌<◌, ◌++◌, codes, flat_map, length};
ghost use Rattle.std.specs.Fmt.{decimal};
ghost use Rattle.mufom_expr.specs.InfixText.{infix_text};
ghost use Rattle.mufom_text.specs.Words.{hex_bytes, line};
ghost use Rattle.mufom_text.specs.Show.{bytes_text, item_text, kind_text, load_lines, repeat_end, start_line};

use crate::form::TextForm;
use crate::infix::expression;
use crate::output::Output;
use crate::words::{hex_bytes, number};
use mufom_expr::{FieldKind, Postfix};
use mufom_loads::{Item, Load};

fn kind_text(kind: FieldKind) -> &'static [u8]
    ensures { result.now ≡ kind_text kind }
{
    match kind {
        FieldKind::Signed => b"signed",
        FieldKind::Unsigned => b"unsigned",
        FieldKind::Either => b"either",
    }
}

// Writes a `bytes` line with at least one byte, without the line end.
fn some_bytes<K: Output>(out: &mut K, bytes: &[u8])
    ensures { K.takes out.old out.new (((codes "bytes " ++ decimal (length bytes.now)) ++ codes " ") ++ hex_bytes bytes.now) }
{
    out.put(b"bytes ");
    number(out, bytes.len() as u64);
    out.put(b" ");
    hex_bytes(out, bytes);
}

fn bytes_text<K: Output>(out: &mut K, bytes: &[u8])
    ensures { K.takes out.old out.new (bytes_text bytes.now) }
{
    match bytes {
        [] => out.put(b"bytes 0"),
        _ => some_bytes(out, bytes),
    }
}

fn field_text<K: Output>(out: &mut K, kind: FieldKind, value: &Postfix, size: u8)
    ensures { K.takes out.old out.new (((((codes "field " ++ kind_text kind) ++ codes " ") ++ decimal size) ++ codes " = ") ++ infix_text value.now) }
{
    out.put(b"field ");
    out.put(kind_text(kind));
    out.put(b" ");
    number(out, size as u64);
    out.put(b" = ");
    expression(out, value);
}

fn item_text<K: Output>(out: &mut K, item: &Item)
    ensures { K.takes out.old out.new (item_text item.now) }
{
    match item {
        Item::Literal(bytes) => bytes_text(out, bytes.as_slice()),
        Item::Field { kind, value, size } => field_text(out, *kind, value, *size),
    }
}

fn item_line<K: Output>(out: &mut K, item: &Item)
    ensures { K.takes out.old out.new (line (item_text item.now)) }
{
    item_text(out, item);
    out.put(b"\n");
}

fn repeated_line<K: Output>(out: &mut K, item: &Item)
    ensures { K.takes out.old out.new (line (codes "  " ++ item_text item.now)) }
{
    out.put(b"  ");
    item_text(out, item);
    out.put(b"\n");
}

fn repeated_lines<K: Output>(out: &mut K, items: &[Item])
    ensures { K.takes out.old out.new (flat_map (λ item. line (codes "  " ++ item_text item)) items.now) }
{
    for item in items {
        repeated_line(out, item);
    }
}

// A word and a number, on a line.
fn number_line<K: Output>(out: &mut K, word: &[u8], value: u64)
    ensures { K.takes out.old out.new (line (word.now ++ decimal value)) }
{
    out.put(word);
    number(out, value);
    out.put(b"\n");
}

fn counter_line<K: Output>(out: &mut K, section: u32, value: &Postfix)
    ensures { K.takes out.old out.new (line (((codes "counter " ++ decimal section) ++ codes " = ") ++ infix_text value.now)) }
{
    out.put(b"counter ");
    number(out, section as u64);
    out.put(b" = ");
    expression(out, value);
    out.put(b"\n");
}

// The line after the items of a repeat, which only a listing has.
fn repeat_end<K: Output>(out: &mut K, form: TextForm)
    ensures { K.takes out.old out.new (repeat_end form) }
{
    match form {
        TextForm::Summary => {}
        TextForm::Listing => out.put(b"end\n"),
    }
}

fn repeat<K: Output>(out: &mut K, form: TextForm, count: u64, items: &[Item])
    ensures { K.takes out.old out.new (line (codes "repeat " ++ decimal count)
        ++ flat_map (λ item. line (codes "  " ++ item_text item)) items.now ++ repeat_end form) }
{
    number_line(out, b"repeat ", count);
    repeated_lines(out, items);
    repeat_end(out, form);
}

fn load<K: Output>(out: &mut K, form: TextForm, load: &Load)
    ensures { K.takes out.old out.new (load_lines form load.now) }
{
    match load {
        Load::SetSection(section) => number_line(out, b"select ", *section as u64),
        Load::SetPc { section, value } => counter_line(out, *section, value),
        Load::One(item) => item_line(out, item),
        Load::Repeat { count, items } => repeat(out, form, *count, items.as_slice()),
    }
}

/// The lines of the loads.
pub(crate) fn loads<K: Output>(out: &mut K, form: TextForm, loads: &[Load])
    ensures { K.takes out.old out.new (flat_map (load_lines form) loads.now) }
{
    for one in loads {
        load(out, form, one);
    }
}

fn start_text<K: Output>(out: &mut K, value: &Postfix)
    ensures { K.takes out.old out.new (line (codes "start = " ++ infix_text value.now)) }
{
    out.put(b"start = ");
    expression(out, value);
    out.put(b"\n");
}

/// The line of the start address, if there is one.
pub(crate) fn start<K: Output>(out: &mut K, start: &Option<Postfix>)
    ensures { K.takes out.old out.new (start_line start.now) }
{
    match start {
        Some(value) => start_text(out, value),
        None => {}
    }
}
