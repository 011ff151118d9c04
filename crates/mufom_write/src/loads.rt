//! Writes the records of loads and of the start address.

ghost use Rattle.std.specs.Prelude.{◌∷◌, ◌++◌, [], Some};
ghost use Rattle.mufom_numbers.specs.declared.codes.TheConstants.{ASSIGNMENT, CONSTANT, LETTER_P, RELOCATE, REPEAT};
ghost use Rattle.mufom_records.specs.Layouts.{comma, closing};
ghost use Rattle.mufom_module.specs.Written as written;
ghost use Rattle.mufom_module.specs.Written.{shortest, each};

use crate::fields::{FIRST_SECTION, closing, counted, expression, numbered, opening, prefixed};
use crate::output::Output;
use mufom_expr::{FieldKind, Postfix};
use mufom_host::Failed;
use mufom_loads::{Item, Load};
use mufom_numbers::{Bytes, codes};

// Writes what follows the expression of a field: a comma, the size, and the closing bracket.
fn field_end<K: Output>(out: &mut K, kind: FieldKind, size: u8) -> Result<(), Failed>
    ensures { K.takes out.old out.new (comma ∷ (written.number shortest size ++ closing kind ∷ [])) result }
{
    prefixed(out, &[codes::COMMA], size as u64)?;
    out.put(&[closing(kind)])
}

fn field<K: Output>(out: &mut K, kind: FieldKind, value: &Postfix, size: u8) -> Result<(), Failed>
    ensures { K.takes out.old out.new (written.field shortest kind value.now size) result }
{
    out.put(&[opening(kind)])?;
    expression(out, value)?;
    field_end(out, kind, size)
}

// An item of an LR.
fn item<K: Output>(out: &mut K, item: &Item) -> Result<(), Failed>
    ensures { K.takes out.old out.new (written.item shortest item.now) result }
{
    match item {
        Item::Literal(bytes) => counted(out, bytes),
        Item::Field { kind, value, size } => field(out, *kind, value, *size),
    }
}

fn items<K: Output>(out: &mut K, items: &[Item]) -> Result<(), Failed>
    ensures { K.takes out.old out.new (each (λ _. written.item shortest) items.now) result }
{
    for place in 0..items.len() {
        item(out, &items[place])?;
    }
    Ok(())
}

// The LD record.
fn literal_record<K: Output>(out: &mut K, bytes: &Bytes) -> Result<(), Failed>
    ensures { K.takes out.old out.new (CONSTANT ∷ written.counted shortest bytes.now) result }
{
    out.record(&[codes::CONSTANT])?;
    counted(out, bytes)
}

// The LR record of one field.
fn field_record<K: Output>(
    out: &mut K,
    kind: FieldKind,
    value: &Postfix,
    size: u8,
) -> Result<(), Failed>
    ensures { K.takes out.old out.new (RELOCATE ∷ written.field shortest kind value.now size) result }
{
    out.record(&[codes::RELOCATE])?;
    field(out, kind, value, size)
}

// The LD record of a literal, or the LR record of a field.
fn single<K: Output>(out: &mut K, item: &Item) -> Result<(), Failed>
    ensures { K.takes out.old out.new (written.single shortest item.now) result }
{
    match item {
        Item::Literal(bytes) => literal_record(out, bytes),
        Item::Field { kind, value, size } => field_record(out, *kind, value, *size),
    }
}

// The LR record of items.
fn items_record<K: Output>(out: &mut K, list: &[Item]) -> Result<(), Failed>
    ensures { K.takes out.old out.new (RELOCATE ∷ each (λ _. written.item shortest) list.now) result }
{
    out.record(&[codes::RELOCATE])?;
    items(out, list)
}

// What is repeated: exactly one literal as LD, anything else as LR of its items.
fn repeated<K: Output>(out: &mut K, list: &[Item]) -> Result<(), Failed>
    ensures { K.takes out.old out.new (written.repeated shortest list.now) result }
{
    match list {
        [first] => single(out, first),
        _ => items_record(out, list),
    }
}

// The ASP record.
fn counter_record<K: Output>(out: &mut K, section: u32, value: &Postfix) -> Result<(), Failed>
    ensures { K.takes out.old out.new
        (ASSIGNMENT ∷ LETTER_P ∷ (written.number shortest (written.section_index section) ++ written.expression shortest value.now)) result }
{
    numbered(
        out,
        &[codes::ASSIGNMENT, codes::LETTER_P],
        section as u64 + FIRST_SECTION,
    )?;
    expression(out, value)
}

// The RE record, and what is repeated.
fn repeat<K: Output>(out: &mut K, count: u64, items: &[Item]) -> Result<(), Failed>
    ensures { K.takes out.old out.new (REPEAT ∷ (written.number shortest count ++ written.repeated shortest items.now)) result }
{
    numbered(out, &[codes::REPEAT], count)?;
    repeated(out, items)
}

fn load<K: Output>(out: &mut K, load: &Load) -> Result<(), Failed>
    ensures { K.takes out.old out.new (written.load shortest load.now) result }
{
    match load {
        Load::SetSection(section) => numbered(
            out,
            &[codes::SET_SECTION],
            *section as u64 + FIRST_SECTION,
        ),
        Load::SetPc { section, value } => counter_record(out, *section, value),
        Load::One(one) => single(out, one),
        Load::Repeat { count, items } => repeat(out, *count, items.as_slice()),
    }
}

/// Writes the data part.
pub(crate) fn loads<K: Output>(out: &mut K, loads: &[Load]) -> Result<(), Failed>
    ensures { K.takes out.old out.new (each (λ _. written.load shortest) loads.now) result }
{
    for place in 0..loads.len() {
        load(out, &loads[place])?;
    }
    Ok(())
}

// The ASG record, with the expression in brackets.
fn start_record<K: Output>(out: &mut K, value: &Postfix) -> Result<(), Failed>
    ensures { K.takes out.old out.new (written.start shortest (Some value.now)) result }
{
    out.record(&[codes::ASSIGNMENT, codes::LETTER_G, codes::OPEN_EITHER])?;
    expression(out, value)?;
    out.put(&[codes::CLOSE_EITHER])
}

/// Writes the ASG record, if there is a start address.
pub(crate) fn start<K: Output>(out: &mut K, start: &Option<Postfix>) -> Result<(), Failed>
    ensures { K.takes out.old out.new (written.start shortest start.now) result }
{
    match start {
        Some(value) => start_record(out, value),
        None => Ok(()),
    }
}
