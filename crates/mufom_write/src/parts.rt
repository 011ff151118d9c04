//! Writes the header and the parts of a file.

ghost use Rattle.std.specs.Prelude.{◌≡◌, ◌∷◌, ◌++◌, ◌<◌, ◌^◌, [], All, length, get_or};
ghost use Rattle.mufom_numbers.specs.declared.codes.TheConstants.{DESCRIPTOR, MODULE_BEGIN};
ghost use Rattle.mufom_debug.specs.Marks.{joined};
ghost use Rattle.mufom_module.specs.Written as written;
ghost use Rattle.mufom_module.specs.Written.{shortest, each};
ghost use Rattle.mufom_module.specs.Defects.{is_long, IsValid};

use crate::debug::debug_items;
use crate::fields::{number, numbered, string};
use crate::loads::{loads, start};
use crate::names::{publics, references};
use crate::output::Output;
use crate::sections::sections;
use mufom_host::Failed;
use mufom_module::{Order, Parts};
use mufom_numbers::codes;

// ---- the header

fn order_letter(order: Order) -> u8
    ensures { result ≡ written.order_letter order }
{
    match order {
        Order::Least => codes::LETTER_L,
        Order::Most => codes::LETTER_M,
    }
}

// The MB record.
fn begin_record<K: Output>(out: &mut K, parts: &Parts) -> Result<(), Failed>
    requires { IsValid parts.now }
    ensures { K.takes out.old out.new (MODULE_BEGIN ∷ written.string shortest parts.now.processor ++ written.string shortest parts.now.name) result }
{
    out.record(&[codes::MODULE_BEGIN])?;
    string(out, &parts.processor)?;
    string(out, &parts.name)
}

// The AD record.
fn descriptor_record<K: Output>(out: &mut K, parts: &Parts) -> Result<(), Failed>
    ensures { K.takes out.old out.new
        (DESCRIPTOR ∷ (written.number shortest 8 ++ (written.number shortest parts.now.maus ++ written.order_letter parts.now.order ∷ []))) result }
{
    numbered(out, &[codes::DESCRIPTOR], 8)?;
    number(out, parts.maus as u64)?;
    out.put(&[order_letter(parts.order)])
}

/// Writes the MB and AD records.
pub(crate) fn module_begin<K: Output>(out: &mut K, parts: &Parts) -> Result<(), Failed>
    requires { IsValid parts.now }
    ensures { K.takes out.old out.new (written.module_begin shortest parts.now) result }
{
    begin_record(out, parts)?;
    descriptor_record(out, parts)
}

// The ASW record of one part.
fn offset_record<K: Output>(out: &mut K, part: usize, offset: u64) -> Result<(), Failed>
    requires { offset < 2 ^ 32 }
    ensures { K.takes out.old out.new (written.offset_record shortest part offset) result }
{
    numbered(out, &[codes::ASSIGNMENT, codes::LETTER_W], part as u64)?;
    out.put(&[codes::NUMBER_OF_FOUR_BYTES])?;
    out.put(&(offset as u32).to_be_bytes())
}

/// Writes the ASW records, which contain the offsets of the parts.
pub(crate) fn offset_records<K: Output>(out: &mut K, offsets: &[u64]) -> Result<(), Failed>
    requires { All (λ offset. offset < 2 ^ 32) offsets.now }
    ensures { K.takes out.old out.new (each (written.offset_record shortest) offsets.now) result }
{
    for part in 0..offsets.len() {
        offset_record(out, part, offsets[part])?;
    }
    Ok(())
}

// ---- the parts

// The publics, then the references.
fn external<K: Output>(out: &mut K, parts: &Parts) -> Result<(), Failed>
    requires { IsValid parts.now }
    ensures { K.takes out.old out.new (written.external shortest parts.now) result }
{
    publics(out, parts.names.publics.as_slice())?;
    references(out, parts.names.references.as_slice())
}

/// Writes the part with this number, from 0: extension, environment, section, external, debug, data, trailer.
pub(crate) fn part<K: Output>(out: &mut K, parts: &Parts, number: usize) -> Result<(), Failed>
    requires valid { IsValid parts.now }
    requires inside { number < 7 }
    ensures { K.takes out.old out.new (get_or (written.parts shortest parts.now) number []) result }
{
    match number {
        0 => out.record(parts.ext.as_slice()),
        1 => out.record(parts.env.as_slice()),
        2 => sections(out, parts.sections.as_slice()),
        3 => external(out, parts),
        4 => debug_items(out, parts.debug.as_slice(), &mut 0),
        5 => loads(out, parts.loads.as_slice()),
        _ => start(out, &parts.start),
    }
}

/// Writes all parts, one after another.
pub(crate) fn all_parts<K: Output>(out: &mut K, parts: &Parts) -> Result<(), Failed>
    requires { IsValid parts.now }
    ensures { K.takes out.old out.new (joined (written.parts shortest parts.now)) result }
{
    for number in 0..7 {
        part(out, parts, number)?;
    }
    Ok(())
}
