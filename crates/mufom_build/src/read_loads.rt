//! Reads the lines of loads, and of the start address.

ghost use Rattle.std.specs.Prelude.{◌≡◌, List, IfOk};
ghost use Rattle.mufom_text.specs.Show.{kind_text};
ghost use Rattle.mufom_build_text.specs.Loosely.{ReadsLoosely, Anything};
ghost use Rattle.mufom_build_text.specs.Pieces.{words};
ghost use Rattle.mufom_build.specs.Order.{State};
ghost use Rattle.mufom_build.specs.ReadKinds.{ReadsCounted, ReadsOf};
ghost use Rattle.mufom_build.specs.Rows.{on_select, on_counter, on_bytes, on_field, on_repeat, on_start};

use crate::ahead::is_end_ahead;
use crate::row::Row;
use mufom_build_text::Cursor;
use mufom_expr::FieldKind;
use mufom_loads::Item;
use mufom_numbers::{Bytes, NoMemory};
use mufom_refusals::BuildReason;
use std::alloc::Global;

/// Reads the line that makes a section the current one.
pub(crate) fn read_select(cursor: &mut Cursor) -> Row
    ensures reads { (s : State) → ReadsOf s on_select result cursor.old cursor.new }
{
    cursor.words(b"select ");
    Row::Select(cursor.place())
}

/// Reads the line that sets a program counter.
pub(crate) fn read_counter(alloc: Global, cursor: &mut Cursor) -> Result<Row, NoMemory>
    ensures reads { IfOk result (λ row. (s : State) → ReadsOf s on_counter row cursor.old cursor.new) }
{
    cursor.words(b"counter ");
    let section = cursor.place();
    cursor.words(b" = ");
    let value = cursor.value(alloc)?;
    Ok(Row::Counter { section, value })
}

// Reads bytes after a space, if the line has any. Returns them, and their number according to the digits on
// the line.
fn read_spaced_bytes(alloc: Global, cursor: &mut Cursor) -> Result<(Bytes, u32), NoMemory>
    ensures reads { IfOk result (λ r. ReadsCounted r.0 r.1 cursor.old cursor.new) }
{
    if is_end_ahead(cursor) {
        return Ok((Bytes::new(alloc), 0));
    }
    cursor.words(b" ");
    let first = cursor.column();
    let bytes = cursor.hex(alloc)?;
    // Each byte has two digits.
    let count = (cursor.column() - first) / 2;
    Ok((bytes, count))
}

/// Reads the line of literal bytes, with their number.
pub(crate) fn read_bytes(alloc: Global, cursor: &mut Cursor) -> Result<Row, NoMemory>
    ensures reads { IfOk result (λ row. (s : State) → ReadsOf s on_bytes row cursor.old cursor.new) }
{
    cursor.words(b"bytes ");
    let column = cursor.column();
    let stated = cursor.numeral();
    let (bytes, count) = read_spaced_bytes(alloc, cursor)?;
    cursor.judge(column, stated, u64::MAX, count as u64, BuildReason::Count);
    Ok(Row::Item(Item::Literal(bytes)))
}

// Reads the word for the kind of a field.
fn read_kind(cursor: &mut Cursor) -> FieldKind
    ensures reads { ReadsLoosely (λ kind. words (kind_text kind)) Anything result cursor.old cursor.new }
{
    if cursor.is_next(b"s") {
        cursor.words(b"signed");
        return FieldKind::Signed;
    }
    if cursor.is_next(b"u") {
        cursor.words(b"unsigned");
        return FieldKind::Unsigned;
    }
    cursor.words(b"either");
    FieldKind::Either
}

/// Reads the line of a field.
pub(crate) fn read_field(alloc: Global, cursor: &mut Cursor) -> Result<Row, NoMemory>
    ensures reads { IfOk result (λ row. (s : State) → ReadsOf s on_field row cursor.old cursor.new) }
{
    cursor.words(b"field ");
    let kind = read_kind(cursor);
    cursor.words(b" ");
    let size = cursor.small();
    cursor.words(b" = ");
    let value = cursor.value(alloc)?;
    Ok(Row::Item(Item::Field { kind, value, size }))
}

/// Reads the line of the beginning of a repeat.
pub(crate) fn read_repeat(cursor: &mut Cursor) -> Row
    ensures reads { (s : State) → ReadsOf s on_repeat result cursor.old cursor.new }
{
    cursor.words(b"repeat ");
    Row::Repeat(cursor.number())
}

/// Reads the line of the start address.
pub(crate) fn read_start(alloc: Global, cursor: &mut Cursor) -> Result<Row, NoMemory>
    ensures reads { IfOk result (λ row. (s : State) → ReadsOf s on_start row cursor.old cursor.new) }
{
    cursor.words(b"start = ");
    let value = cursor.value(alloc)?;
    Ok(Row::Start(value))
}
