//! The key of a reference: equal references have equal keys.

ghost use Rattle.std.specs.Prelude.{◌≡◌, ◌++◌, length, flat_map, OnOk, IfOk};
ghost use Rattle.mufom_names.specs.Keys.{number_key, numbers_key, note_key, notes_key, weak_key, reference_key, EqualKeysAreEqualReferences};

use crate::name::{Note, Reference, Weak};
use mufom_numbers::NoMemory;
use std::alloc::Global;

// Appends a number as eight bytes, the most significant first.
#[tactic(auto, unfolding(crate::specs::Keys::number_key))]
fn add_number(key: &mut Vec<u8>, number: u64) -> Result<(), NoMemory>
    ensures { OnOk result (key.new.items ≡ key.old.items ++ number_key number) }
{
    key.extend_from_slice(&number.to_be_bytes())?;
    Ok(())
}

// Appends numbers, one after another.
fn add_numbers(key: &mut Vec<u8>, numbers: &[u64]) -> Result<(), NoMemory>
    ensures { OnOk result (key.new.items ≡ key.old.items ++ numbers_key numbers.now) }
{
    for number in numbers {
        add_number(key, *number)?;
    }
    Ok(())
}

// Appends the type, the attribute and the numbers of a note.
fn add_note(key: &mut Vec<u8>, note: &Note) -> Result<(), NoMemory>
    ensures { OnOk result (key.new.items ≡ key.old.items ++ note_key note.now) }
{
    add_number(key, note.type_index)?;
    add_number(key, note.attribute)?;
    let numbers = note.numbers.as_slice();
    add_number(key, numbers.len() as u64)?;
    add_numbers(key, numbers)
}

// Appends notes, one after another.
fn add_notes(key: &mut Vec<u8>, notes: &[Note]) -> Result<(), NoMemory>
    ensures { OnOk result (key.new.items ≡ key.old.items ++ notes_key notes.now) }
{
    for note in notes {
        add_note(key, note)?;
    }
    Ok(())
}

// Appends the weak part of a reference: 0 if there is none.
fn add_weak(key: &mut Vec<u8>, weak: Option<Weak>) -> Result<(), NoMemory>
    ensures { OnOk result (key.new.items ≡ key.old.items ++ weak_key weak) }
{
    let Some(weak) = weak else {
        return add_number(key, 0);
    };
    add_number(key, 1)?;
    add_number(key, weak.size)?;
    add_number(key, weak.default)
}

/// The key by which an index finds a reference. Two references have equal keys if and only if their names,
/// their weak parts and their notes are equal.
///
/// A key consists of the length of the name and the name; 0 for a strong reference, or 1, the size
/// and the default of a weak one; the count of the notes, and for each note its type, its attribute,
/// the count of its numbers and the numbers. Each of these numbers is eight bytes, the most
/// significant first.
pub fn reference_key(alloc: Global, reference: &Reference) -> Result<Vec<u8>, NoMemory>
    ensures { IfOk result (λ key. key.items ≡ reference_key reference.now) }
{
    // The name and three numbers: all that the key of a strong reference without notes contains.
    let name = reference.name.as_slice();
    let mut key = Vec::with_capacity(alloc, 24 + name.len())?;
    add_number(&mut key, name.len() as u64)?;
    key.extend_from_slice(name)?;
    add_weak(&mut key, reference.weak)?;
    let notes = reference.notes.as_slice();
    add_number(&mut key, notes.len() as u64)?;
    add_notes(&mut key, notes)?;
    Ok(key)
}

/// A law that a proof can cite: two references have equal keys if and only if their names, their weak
/// parts and their notes are equal.
pub fn equal_keys_are_equal_references()
    ensures { EqualKeysAreEqualReferences }
{}
