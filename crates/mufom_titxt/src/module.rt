//! The module of the runs of a text.

ghost use Rattle.std.specs.Prelude.{◌≡◌, ◌+◌, ◌*◌, ◌≤◌, ◌<◌, ◌^◌, ◌++◌, ◌∷◌, [], map, take, length, IfOk, OnOk};
ghost use Rattle.mufom_module.specs.declared.module.Order.TheVariants.{Most};
ghost use Rattle.mufom_module.specs.Bare.{bare_parts};
ghost use Rattle.mufom_titxt.specs.TextModules.{run_section, literals, loads_from, text_parts, HaveModule};

use mufom_loads::{Item, Load};
use mufom_meaning::Run;
use mufom_module::{Module, Order, Parts};
use mufom_numbers::limits::MOST_STRING_BYTES;
use mufom_numbers::{Bytes, List, NoMemory};
use mufom_sections::Section;
use std::alloc::Global;

// The section of a run.
fn run_section(alloc: Global, run: &Run) -> Result<Section, NoMemory>
    ensures { IfOk result (λ section. section ≡ run_section run.now) }
{
    Ok(Section {
        name: Bytes::from_slice(alloc, b"txt")?,
        absolute: true,
        purpose: None,
        size: run.bytes.len() as u64,
        align: 1,
        base: Some(run.address),
    })
}

// The sections of runs.
fn sections(alloc: Global, runs: &[Run]) -> Result<List<Section>, NoMemory>
    ensures { IfOk result (λ sections. sections ≡ map run_section runs.now) }
{
    let mut sections = List::with_capacity(alloc, runs.len())?;
    for run in runs {
        sections.push(run_section(alloc, run)?)?;
    }
    Ok(sections)
}

// Adds bytes as literals.
fn add_literals(alloc: Global, loads: &mut List<Load>, bytes: &[u8]) -> Result<(), NoMemory>
    ensures { OnOk result (loads.new ≡ loads.old ++ literals (length bytes.now) bytes.now) }
{
    let mut rest = bytes;
    while !rest.is_empty() {
        let (part, after) = rest.split_at(rest.len().min(MOST_STRING_BYTES));
        loads.push(Load::One(Item::Literal(Bytes::from_slice(alloc, part)?)))?;
        rest = after;
    }
    Ok(())
}

// The loads of runs.
fn loads(alloc: Global, runs: &[Run]) -> Result<List<Load>, NoMemory>
    requires { length runs.now < 2 ^ 32 }
    ensures { IfOk result (λ loads. loads ≡ loads_from 0 runs.now) }
{
    let mut loads = List::new(alloc);
    for (i, run) in runs.iter().enumerate() {
        loads.push(Load::SetSection(i as u32))?;
        add_literals(alloc, &mut loads, run.bytes.as_slice())?;
    }
    Ok(loads)
}

// Fills empty parts with the entries of the module of runs.
fn state_module(alloc: Global, parts: &mut Parts, runs: &[Run], maus: u8) -> Result<(), NoMemory>
    requires few { length runs.now < 2 ^ 32 }
    requires bare { parts.old ≡ bare_parts maus Most }
    ensures { OnOk result (parts.new ≡ text_parts maus runs.now) }
{
    parts.processor = Bytes::from_slice(alloc, b"TXT")?;
    parts.name = Bytes::from_slice(alloc, b"text")?;
    parts.sections = sections(alloc, runs)?;
    parts.loads = loads(alloc, runs)?;
    Ok(())
}

/// Returns the module of runs, with an absolute section `txt` for each of them. An address has `maus`
/// addressable units of eight bits, 1 to 8.
///
/// The runs must be as [`read_txt`](crate::read_txt) returns them: maximal, in increasing order, below the
/// end of the address space, and at most 33,554,432 with at most as many bytes in all. The only error is
/// out of memory.
pub fn text_module(alloc: Global, runs: &[Run], maus: u8) -> Result<Module, NoMemory>
    requires low { 1 ≤ maus }
    requires high { maus ≤ 8 }
    requires runs { HaveModule (8 * maus) runs.now }
    ensures { IfOk result (λ m. m ≡ text_parts maus runs.now) }
{
    let mut parts = Parts::new(alloc, maus, Order::Most);
    state_module(alloc, &mut parts, runs, maus)?;
    Ok(Module::sound(parts))
}
