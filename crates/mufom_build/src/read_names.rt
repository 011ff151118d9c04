//! Reads the lines of public symbols and references, and of notes.

ghost use Rattle.std.specs.Prelude.{◌≡◌, ◌≤◌, List, length, IfOk};
ghost use Rattle.mufom_build_text.specs.Loosely.{Nothing};
ghost use Rattle.mufom_build.specs.Lines.{spaced_pieces, note_pieces, weak_pieces, HasFewNumbers};
ghost use Rattle.mufom_build.specs.Order.{State};
ghost use Rattle.mufom_build.specs.ReadKinds.{ReadsFew, ReadsLast, ReadsNumbers, ReadsOf};
ghost use Rattle.mufom_build.specs.Rows.{on_public, on_reference, on_note};

use crate::ahead::{is_ahead, is_figure_ahead};
use crate::row::Row;
use arrayvec::ArrayVec;
use mufom_build_text::Cursor;
use mufom_names::{Note, Weak};
use mufom_numbers::NoMemory;
use std::alloc::Global;

/// Reads all numbers that come next, each after a space. If there are more than N, notes that a piece is
/// missing.
pub(crate) fn read_numbers<const N: usize>(cursor: &mut Cursor) -> ArrayVec<u64, N>
    ensures reads { ReadsNumbers N spaced_pieces result.items cursor.old cursor.new }
{
    let mut numbers: ArrayVec<u64, N> = ArrayVec::new();
    while is_figure_ahead(cursor) {
        cursor.words(b" ");
        let number = cursor.number();
        if numbers.is_full() {
            cursor.bad();
            return numbers;
        }
        if cursor.is_bad() {
            return numbers;
        }
        numbers.push(number);
    }
    numbers
}

// Reads what a note states after the name to which it belongs.
fn read_note(cursor: &mut Cursor) -> Note
    ensures reads { ReadsFew note_pieces HasFewNumbers Nothing result cursor.old cursor.new }
{
    cursor.words(b" type ");
    let type_index = cursor.number();
    cursor.words(b" attribute ");
    let attribute = cursor.number();
    let numbers = read_numbers(cursor);
    Note {
        type_index,
        attribute,
        numbers,
    }
}

/// Reads the line of a note, which belongs to the name before it, or to the debug name at a stated position.
pub(crate) fn read_note_line(cursor: &mut Cursor) -> Row
    ensures reads { (s : State) → ReadsOf s on_note result cursor.old cursor.new }
{
    cursor.words(b"note");
    if is_ahead(cursor, b't') {
        return Row::Note(read_note(cursor));
    }
    cursor.words(b" ");
    let name = cursor.place();
    let note = read_note(cursor);
    Row::DebugNote { name, note }
}

/// Reads the line of a public symbol, with its position.
pub(crate) fn read_public(alloc: Global, cursor: &mut Cursor, count: usize) -> Result<Row, NoMemory>
    ensures reads { IfOk result (λ row. (s : State) → s.publics ≡ count → ReadsOf s on_public row cursor.old cursor.new) }
{
    cursor.words(b"public ");
    cursor.position(count);
    cursor.words(b" ");
    let name = cursor.name(alloc)?;
    cursor.words(b" = ");
    let value = cursor.value(alloc)?;
    Ok(Row::Public { name, value })
}

// Reads the size and the default of a weak reference. Returns `None` if the reference is strong.
fn read_weak(cursor: &mut Cursor) -> Option<Weak>
    ensures reads { ReadsLast weak_pieces result cursor.old cursor.new }
{
    if !is_ahead(cursor, b'w') {
        return None;
    }
    cursor.words(b" weak size ");
    let size = cursor.number();
    cursor.words(b" default ");
    let default = cursor.number();
    Some(Weak { size, default })
}

/// Reads the line of a reference, with its position.
pub(crate) fn read_reference(
    alloc: Global,
    cursor: &mut Cursor,
    count: usize,
) -> Result<Row, NoMemory>
    ensures reads { IfOk result (λ row. (s : State) → s.references ≡ count → ReadsOf s on_reference row cursor.old cursor.new) }
{
    cursor.words(b"reference ");
    cursor.position(count);
    cursor.words(b" ");
    let name = cursor.name(alloc)?;
    let weak = read_weak(cursor);
    Ok(Row::Reference { name, weak })
}
