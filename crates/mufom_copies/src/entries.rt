//! Copies of byte strings, notes, sections, names and loads.

ghost use Rattle.std.specs.Prelude.{◌≡◌, IfOk};

use mufom_expr::Postfix;
use mufom_loads::{Item, Load};
use mufom_names::{Note, Public, Reference};
use mufom_numbers::{Bytes, List, NoMemory};
use mufom_sections::Section;
use std::alloc::Global;

/// A copy of a string of bytes.
pub fn copy_bytes(alloc: Global, bytes: &Bytes) -> Result<Bytes, NoMemory>
    ensures { IfOk result (λ copy. copy ≡ bytes.now) }
{
    Bytes::from_slice(alloc, bytes.as_slice())
}

/// A copy of a note.
pub fn copy_note(note: &Note) -> Result<Note, NoMemory>
    ensures { IfOk result (λ copy. copy ≡ note.now) }
{
    Ok(Note {
        type_index: note.type_index,
        attribute: note.attribute,
        numbers: note.numbers.clone()?,
    })
}

/// A copy of the notes of a name.
pub fn copy_notes(alloc: Global, notes: &[Note]) -> Result<List<Note>, NoMemory>
    ensures { IfOk result (λ copies. copies ≡ notes.now) }
{
    let mut copies = List::new(alloc);
    for note in notes {
        copies.push(copy_note(note)?)?;
    }
    Ok(copies)
}

/// A copy of a section.
pub fn copy_section(alloc: Global, section: &Section) -> Result<Section, NoMemory>
    ensures { IfOk result (λ copy. copy ≡ section.now) }
{
    Ok(Section {
        name: copy_bytes(alloc, &section.name)?,
        absolute: section.absolute,
        purpose: section.purpose,
        size: section.size,
        align: section.align,
        base: section.base,
    })
}

/// A copy of a public.
pub fn copy_public(alloc: Global, public: &Public) -> Result<Public, NoMemory>
    ensures { IfOk result (λ copy. copy ≡ public.now) }
{
    Ok(Public {
        name: copy_bytes(alloc, &public.name)?,
        value: public.value.copy(alloc)?,
        notes: copy_notes(alloc, public.notes.as_slice())?,
    })
}

/// A copy of a reference.
pub fn copy_reference(alloc: Global, reference: &Reference) -> Result<Reference, NoMemory>
    ensures { IfOk result (λ copy. copy ≡ reference.now) }
{
    Ok(Reference {
        name: copy_bytes(alloc, &reference.name)?,
        weak: reference.weak,
        notes: copy_notes(alloc, reference.notes.as_slice())?,
    })
}

// A copy of an expression, if there is one.
pub(crate) fn copy_optional(
    alloc: Global,
    value: &Option<Postfix>,
) -> Result<Option<Postfix>, NoMemory>
    ensures { IfOk result (λ copy. copy ≡ value.now) }
{
    match value {
        Some(value) => Ok(Some(value.copy(alloc)?)),
        None => Ok(None),
    }
}

fn copy_item(alloc: Global, item: &Item) -> Result<Item, NoMemory>
    ensures { IfOk result (λ copy. copy ≡ item.now) }
{
    match item {
        Item::Literal(bytes) => Ok(Item::Literal(copy_bytes(alloc, bytes)?)),
        Item::Field { kind, value, size } => Ok(Item::Field {
            kind: *kind,
            value: value.copy(alloc)?,
            size: *size,
        }),
    }
}

fn copy_items(alloc: Global, items: &[Item]) -> Result<List<Item>, NoMemory>
    ensures { IfOk result (λ copies. copies ≡ items.now) }
{
    let mut copies = List::with_capacity(alloc, items.len())?;
    for item in items {
        copies.push(copy_item(alloc, item)?)?;
    }
    Ok(copies)
}

/// A copy of a load.
pub fn copy_load(alloc: Global, load: &Load) -> Result<Load, NoMemory>
    ensures { IfOk result (λ copy. copy ≡ load.now) }
{
    match load {
        Load::SetSection(section) => Ok(Load::SetSection(*section)),
        Load::SetPc { section, value } => Ok(Load::SetPc {
            section: *section,
            value: value.copy(alloc)?,
        }),
        Load::One(item) => Ok(Load::One(copy_item(alloc, item)?)),
        Load::Repeat { count, items } => Ok(Load::Repeat {
            count: *count,
            items: copy_items(alloc, items.as_slice())?,
        }),
    }
}
