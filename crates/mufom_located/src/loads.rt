//! The loads of an absolute module.

ghost use Rattle.std.specs.Prelude.{◌≡◌, ◌≤◌, ◌<◌, ◌++◌, ◌∷◌, [], ◌||◌, ℕ, ◌^◌, length, map, flat_map, take, drop, OnOk, IfOk, Some};
ghost use Rattle.std.specs.List.{enumerate_from};
ghost use Rattle.mufom_numbers.specs.declared.limits.TheConstants.{MOST_STRING_BYTES as most};
ghost use Rattle.mufom_loads.specs.declared.load.Item.TheVariants.{Literal};
ghost use Rattle.mufom_loads.specs.declared.load.Load.TheVariants.{One};
ghost use Rattle.mufom_meaning.specs.Absolute.{chunks, loads_between, loads_of_bytes, loads_of_run, run_within as part_within};
ghost use Rattle.mufom_meaning.specs.Absolute.{section_loads, section_loads_at, with_section};
ghost use Rattle.mufom_located.specs.Located.{AreRuns};
ghost use Rattle.mufom_located.specs.Opened.{opened, opens};

use crate::runs::{run_within, runs_between};
use mufom_expr::Postfix;
use mufom_loads::{Item, Load};
use mufom_meaning::Run;
use mufom_numbers::limits::MOST_STRING_BYTES;
use mufom_numbers::{Bytes, List, NoMemory};
use mufom_sections::Section;
use std::alloc::Global;

// Appends the literals of some bytes, each as long as possible.
fn push_literals(alloc: Global, loads: &mut List<Load>, bytes: &[u8]) -> Result<(), NoMemory>
    ensures { OnOk result (loads.new ≡ loads.old ++ map (λ chunk. One (Literal chunk)) (chunks most bytes.now)) }
{
    let mut rest = bytes;
    while !rest.is_empty() {
        let (chunk, after) = rest.split_at(rest.len().min(MOST_STRING_BYTES));
        loads.push(Load::One(Item::Literal(Bytes::from_slice(alloc, chunk)?)))?;
        rest = after;
    }
    Ok(())
}

// Appends the loads of a run of bytes in a section: one that sets the program counter, and then literals.
fn push_part(
    alloc: Global,
    loads: &mut List<Load>,
    section: u32,
    address: u64,
    bytes: &[u8],
) -> Result<(), NoMemory>
    ensures { OnOk result (loads.new ≡ loads.old ++ loads_of_run section (record { address = address; bytes = bytes.now })) }
{
    let value = Postfix::constant(alloc, address)?;
    loads.push(Load::SetPc { section, value })?;
    push_literals(alloc, loads, bytes)
}

// Appends the loads of the bytes of a run from one address up to another. If there are any, and the section
// is not `open` (the current one) yet, sets the section first. Returns whether it is open afterwards.
fn push_run(
    alloc: Global,
    loads: &mut List<Load>,
    open: bool,
    section: u32,
    run: &Run,
    from: u64,
    to: u128,
) -> Result<bool, NoMemory>
    ensures loads { let its = loads_between section (run.now ∷ []) from to in OnOk result (loads.new ≡ loads.old ++ opened «open» section its) }
    ensures open { let its = loads_between section (run.now ∷ []) from to in IfOk result (λ after. after ≡ «open» || opens its) }
{
    let (address, bytes) = run_within(run, from, to);
    if bytes.is_empty() {
        return Ok(open);
    }
    if !open {
        loads.push(Load::SetSection(section))?;
    }
    push_part(alloc, loads, section, address, bytes)?;
    Ok(true)
}

// Appends the loads of a section that lies from one address up to another.
fn push_section(
    alloc: Global,
    loads: &mut List<Load>,
    section: u32,
    runs: &[Run],
    from: u64,
    to: u128,
) -> Result<(), NoMemory>
    ensures { OnOk result (loads.new ≡ loads.old ++ with_section section (loads_between section runs.now from to)) }
{
    let mut open = false;
    for run in runs {
        open = push_run(alloc, loads, open, section, run, from, to)?;
    }
    Ok(())
}

// Appends the loads of the section with this number.
fn push_its_loads(
    alloc: Global,
    loads: &mut List<Load>,
    number: u32,
    section: &Section,
    runs: &[Run],
) -> Result<(), NoMemory>
    requires { AreRuns runs.now }
    ensures { OnOk result (loads.new ≡ loads.old ++ section_loads runs.now (number, section.now)) }
{
    let Some(base) = section.base else {
        return Ok(());
    };
    let end = base as u128 + section.size as u128;
    push_section(
        alloc,
        loads,
        number,
        runs_between(runs, base, end),
        base,
        end,
    )
}

/// The loads of the absolute module with these sections and runs.
pub(crate) fn absolute_loads(
    alloc: Global,
    sections: &[Section],
    runs: &[Run],
) -> Result<List<Load>, NoMemory>
    requires runs { AreRuns runs.now }
    requires count { length sections.now < 2 ^ 32 }
    ensures { IfOk result (λ loads. loads ≡ flat_map (section_loads runs.now) (enumerate_from 0 sections.now)) }
{
    let mut loads = List::new(alloc);
    for (number, section) in sections.iter().enumerate() {
        push_its_loads(alloc, &mut loads, number as u32, section, runs)?;
    }
    Ok(loads)
}
