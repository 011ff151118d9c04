//! Writes the records of publics, references and their notes.

ghost use Rattle.std.specs.Prelude.{◌≡◌, ◌∷◌, ◌++◌, ◌<◌, ◌^◌, false, Some};
ghost use Rattle.mufom_numbers.specs.declared.codes.TheConstants.{ASSIGNMENT, LETTER_I};
ghost use Rattle.std.specs.List.{list_any};
ghost use Rattle.mufom_module.specs.Written as written;
ghost use Rattle.mufom_module.specs.Written.{shortest, each};
ghost use Rattle.mufom_module.specs.Defects.{is_long};

use crate::fields::{FIRST_PUBLIC, FIRST_REFERENCE, expression, number, numbered, numbers, string};
use crate::output::Output;
use mufom_expr::Postfix;
use mufom_host::Failed;
use mufom_names::{Note, Public, Reference, Weak};
use mufom_numbers::{Bytes, codes};

/// Writes an ATI, ATX or ATN record; the letter selects the kind of name.
pub(crate) fn note<K: Output>(
    out: &mut K,
    letter: u8,
    index: u64,
    note: &Note,
) -> Result<(), Failed>
    ensures { K.takes out.old out.new (written.note shortest letter index note.now) result }
{
    numbered(out, &[codes::NOTE, letter], index)?;
    number(out, note.type_index)?;
    number(out, note.attribute)?;
    numbers(out, note.numbers.as_slice())
}

fn notes<K: Output>(out: &mut K, letter: u8, index: u64, notes: &[Note]) -> Result<(), Failed>
    ensures { K.takes out.old out.new (each (λ _. written.note shortest letter index) notes.now) result }
{
    for place in 0..notes.len() {
        note(out, letter, index, &notes[place])?;
    }
    Ok(())
}

// ---- publics

/// Writes an NI, NX or NN record: the byte of its command, the index of a name, and the name.
pub(crate) fn name_record<K: Output>(
    out: &mut K,
    command: u8,
    index: u64,
    name: &Bytes,
) -> Result<(), Failed>
    requires { is_long name.now ≡ false }
    ensures { K.takes out.old out.new (command ∷ (written.number shortest index ++ written.string shortest name.now)) result }
{
    numbered(out, &[command], index)?;
    string(out, name)
}

// The ASI record.
fn value_record<K: Output>(out: &mut K, index: u64, value: &Postfix) -> Result<(), Failed>
    ensures { K.takes out.old out.new (ASSIGNMENT ∷ LETTER_I ∷ (written.number shortest index ++ written.expression shortest value.now)) result }
{
    numbered(out, &[codes::ASSIGNMENT, codes::LETTER_I], index)?;
    expression(out, value)
}

fn public<K: Output>(out: &mut K, position: usize, public: &Public) -> Result<(), Failed>
    requires short { is_long public.now.name ≡ false }
    requires few { position < 2 ^ 63 }
    ensures { K.takes out.old out.new (written.public shortest position public.now) result }
{
    let index = position as u64 + FIRST_PUBLIC;
    name_record(out, codes::PUBLIC_NAME, index, &public.name)?;
    notes(out, codes::LETTER_I, index, public.notes.as_slice())?;
    value_record(out, index, &public.value)
}

/// Writes the publics of the external part.
pub(crate) fn publics<K: Output>(out: &mut K, publics: &[Public]) -> Result<(), Failed>
    requires { list_any (λ p. is_long p.name) publics.now ≡ false }
    ensures { K.takes out.old out.new (each (written.public shortest) publics.now) result }
{
    for place in 0..publics.len() {
        public(out, place, &publics[place])?;
    }
    Ok(())
}

// ---- references

// The default of a weak reference, if it is not 0.
fn default_number<K: Output>(out: &mut K, default: u64) -> Result<(), Failed>
    ensures { K.takes out.old out.new (written.default_number shortest default) result }
{
    if default == 0 {
        return Ok(());
    }
    number(out, default)
}

// The WX record.
fn weak_record<K: Output>(out: &mut K, index: u64, weak: Weak) -> Result<(), Failed>
    ensures { K.takes out.old out.new (written.weak shortest index (Some weak)) result }
{
    numbered(out, &[codes::WEAK_REFERENCE], index)?;
    number(out, weak.size)?;
    default_number(out, weak.default)
}

// The WX record, if the reference is weak.
fn weak<K: Output>(out: &mut K, index: u64, weak: Option<Weak>) -> Result<(), Failed>
    ensures { K.takes out.old out.new (written.weak shortest index weak) result }
{
    match weak {
        Some(weak) => weak_record(out, index, weak),
        None => Ok(()),
    }
}

fn reference<K: Output>(out: &mut K, position: usize, reference: &Reference) -> Result<(), Failed>
    requires short { is_long reference.now.name ≡ false }
    requires few { position < 2 ^ 63 }
    ensures { K.takes out.old out.new (written.reference shortest position reference.now) result }
{
    let index = position as u64 + FIRST_REFERENCE;
    name_record(out, codes::REFERENCE_NAME, index, &reference.name)?;
    notes(out, codes::LETTER_X, index, reference.notes.as_slice())?;
    weak(out, index, reference.weak)
}

/// Writes the references of the external part.
pub(crate) fn references<K: Output>(out: &mut K, references: &[Reference]) -> Result<(), Failed>
    requires { list_any (λ r. is_long r.name) references.now ≡ false }
    ensures { K.takes out.old out.new (each (written.reference shortest) references.now) result }
{
    for place in 0..references.len() {
        reference(out, place, &references[place])?;
    }
    Ok(())
}
