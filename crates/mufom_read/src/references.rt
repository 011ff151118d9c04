//! The references read so far, with what was stated about each.

ghost use Rattle.std.specs.Prelude.{◌≡◌, ◌<◌, ◌++◌, ◌∷◌, [], List, length, slice_get, slice_set, None, Some, OnOk};
ghost use Rattle.mufom_names.specs.declared.name.Reference as name_reference;
ghost use Rattle.mufom_module.specs.SpelledRecords as records;
ghost use Rattle.mufom_module.specs.Gathered as gathered;
ghost use Rattle.mufom_read.specs.Kept.{record_of_seen, HasOwnParts};
ghost use Rattle.mufom_read.specs.NamesSoFar.{AreBefore};

use crate::publics::{declared_position, note};
use crate::seen::SeenRecord;
use mufom_names::{Note, Reference, Weak};
use mufom_numbers::{Bytes, List, NoMemory};
use mufom_records::Record;
use mufom_sections::IndexTable;
use std::alloc::Global;

// Adds a reference about which nothing was stated yet.
fn add(alloc: Global, references: &mut Vec<Reference>, name: Bytes) -> Result<(), NoMemory>
    ensures { OnOk result (references.new.items ≡ references.old.items ++ record { name = name; weak = None; notes = [] } ∷ []) }
{
    references.push(Reference {
        name,
        weak: None,
        notes: List::new(alloc),
    })?;
    Ok(())
}

// Makes the reference at a position weak.
fn set_weak(references: &mut Vec<Reference>, position: usize, weak: Weak)
    requires { position < length references.old.items }
    ensures { (reference : name_reference.Reference) → slice_get references.old.items position ≡ Some reference
        → references.new.items ≡ slice_set references.old.items position (record reference { weak = Some weak }) }
{
    references[position].weak = Some(weak);
}

// Adds a note to the reference at a position.
fn push_note(references: &mut Vec<Reference>, position: usize, note: Note) -> Result<(), NoMemory>
    requires { position < length references.old.items }
    ensures { OnOk result ((reference : name_reference.Reference) → slice_get references.old.items position ≡ Some reference
        → references.new.items ≡ slice_set references.old.items position (record reference { notes = reference.notes ++ note ∷ [] })) }
{
    references[position].notes.push(note)
}

/// Adds what a record states about the references.
pub(crate) fn take(
    alloc: Global,
    references: &mut Vec<Reference>,
    table: &IndexTable,
    seen: &SeenRecord,
) -> Result<(), NoMemory>
    requires own { HasOwnParts seen.now }
    requires known { (before : List records.SpelledRecord)
        × AreBefore references.old.items table.now before (record_of_seen seen.now) }
    ensures { OnOk result ((before : List records.SpelledRecord)
        → AreBefore references.old.items table.now before (record_of_seen seen.now)
        → references.new.items ≡ gathered.references_of (before ++ record_of_seen seen.now ∷ [])) }
{
    match seen.row {
        Record::ReferenceName(_, name) => {
            let name = seen.copy_text(alloc, *name)?;
            add(alloc, references, name)
        }
        Record::WeakReference(index, size, default) => {
            let position = declared_position(table, *index);
            let weak = Weak {
                size: *size,
                default: default.unwrap_or(0),
            };
            set_weak(references, position, weak);
            Ok(())
        }
        Record::ReferenceNote(index, type_index, attribute, numbers) => {
            let position = declared_position(table, *index);
            let note = note(*type_index, *attribute, numbers)?;
            push_note(references, position, note)
        }
        _ => Ok(()),
    }
}
