//! Reads the lines of the module as a whole, of its parts that are kept as bytes, and of its sections.

ghost use Rattle.std.specs.Prelude.{◌≡◌, List, IfOk};
ghost use Rattle.mufom_text.specs.Show.{order_letter, type_letters, purpose_letter};
ghost use Rattle.mufom_build_text.specs.Pieces.{words};
ghost use Rattle.mufom_build_text.specs.Loosely.{ReadsLoosely, Nothing, Anything};
ghost use Rattle.mufom_build.specs.Lines.{base_pieces};
ghost use Rattle.mufom_build.specs.Order.{State};
ghost use Rattle.mufom_build.specs.ReadKinds.{BeginsWithSpace, ReadsLast, ReadsOf};
ghost use Rattle.mufom_build.specs.Rows.{on_module, on_extension, on_environment, on_section};

use crate::ahead::is_ahead;
use crate::row::{Row, Title};
use mufom_build_text::Cursor;
use mufom_module::Order;
use mufom_numbers::NoMemory;
use mufom_sections::{Purpose, Section};
use std::alloc::Global;

// Reads the letter of an order of bytes.
fn read_order(cursor: &mut Cursor) -> Order
    ensures reads { ReadsLoosely (λ order. words (order_letter order)) Nothing result cursor.old cursor.new }
{
    if cursor.is_next(b"L") {
        cursor.words(b"L");
        return Order::Least;
    }
    cursor.words(b"M");
    Order::Most
}

/// Reads the first line.
pub(crate) fn read_title(alloc: Global, cursor: &mut Cursor) -> Result<Row, NoMemory>
    ensures reads { IfOk result (λ row. (s : State) → ReadsOf s on_module row cursor.old cursor.new) }
{
    cursor.words(b"module ");
    let name = cursor.name(alloc)?;
    cursor.words(b" processor ");
    let processor = cursor.name(alloc)?;
    cursor.words(b" maus ");
    let maus = cursor.small();
    cursor.words(b" order ");
    let order = read_order(cursor);
    Ok(Row::Title(Title {
        name,
        processor,
        maus,
        order,
    }))
}

/// Reads the line of the bytes of an extension.
pub(crate) fn read_extension(alloc: Global, cursor: &mut Cursor) -> Result<Row, NoMemory>
    ensures reads { IfOk result (λ row. (s : State) → ReadsOf s on_extension row cursor.old cursor.new) }
{
    cursor.words(b"extension ");
    Ok(Row::Extension(cursor.hex(alloc)?))
}

/// Reads the line of the bytes of an environment.
pub(crate) fn read_environment(alloc: Global, cursor: &mut Cursor) -> Result<Row, NoMemory>
    ensures reads { IfOk result (λ row. (s : State) → ReadsOf s on_environment row cursor.old cursor.new) }
{
    cursor.words(b"environment ");
    Ok(Row::Environment(cursor.hex(alloc)?))
}

// Reads the letters that tell whether a section is absolute.
fn read_type(cursor: &mut Cursor) -> bool
    ensures reads { ReadsLoosely (λ absolute. words (type_letters absolute)) Anything result cursor.old cursor.new }
{
    if cursor.is_next(b"C") {
        cursor.words(b"C");
        return false;
    }
    cursor.words(b"AS");
    true
}

// Reads the letter of what a section is for, if there is one.
fn read_purpose(cursor: &mut Cursor) -> Option<Purpose>
    ensures reads { ReadsLoosely (λ purpose. words (purpose_letter purpose)) BeginsWithSpace result cursor.old cursor.new }
{
    if cursor.is_next(b"P") {
        cursor.words(b"P");
        return Some(Purpose::Code);
    }
    if cursor.is_next(b"D") {
        cursor.words(b"D");
        return Some(Purpose::Data);
    }
    if cursor.is_next(b"R") {
        cursor.words(b"R");
        return Some(Purpose::Rom);
    }
    None
}

// Reads the base of a section, if it has one.
fn read_base(cursor: &mut Cursor) -> Option<u64>
    ensures reads { ReadsLast base_pieces result cursor.old cursor.new }
{
    if !is_ahead(cursor, b'b') {
        return None;
    }
    cursor.words(b" base ");
    Some(cursor.number())
}

/// Reads the line of a section, with its position.
pub(crate) fn read_section(
    alloc: Global,
    cursor: &mut Cursor,
    count: usize,
) -> Result<Row, NoMemory>
    ensures reads { IfOk result (λ row. (s : State) → s.sections ≡ count → ReadsOf s on_section row cursor.old cursor.new) }
{
    cursor.words(b"section ");
    cursor.position(count);
    cursor.words(b" ");
    let name = cursor.name(alloc)?;
    cursor.words(b" ");
    let absolute = read_type(cursor);
    let purpose = read_purpose(cursor);
    cursor.words(b" size ");
    let size = cursor.number();
    cursor.words(b" align ");
    let align = cursor.number();
    let base = read_base(cursor);
    Ok(Row::Section(Section {
        name,
        absolute,
        purpose,
        size,
        align,
        base,
    }))
}
