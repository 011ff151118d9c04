//! The values of a plan's symbols.

ghost use Rattle.std.specs.Prelude.{◌≡◌, ◌≤◌, ◌*◌, ◌%◌, ◌^◌, IfOk, length, slice_index_or};
ghost use Rattle.std.specs.Str.{bytes_eq};
ghost use Rattle.mufom_plan.specs.Names.{listed_names};
ghost use Rattle.mufom_planned.specs.Layout.{Layout};
ghost use Rattle.mufom_planned.specs.Numbers.{placed_for, symbol_number};
ghost use Rattle.mufom_locating.specs.Listed.{IsEntry};
ghost use Rattle.mufom_locating.specs.Numbered.{AreValues, IsNumbering};

use crate::entries::{Listed, end_of, find_entry, start_of};
use crate::moves::{Move, move_at, moved_to};
use mufom_numbers::{Bytes, List, NoMemory};
use mufom_place::Waiting;
use mufom_plan::{PlanSymbol, Region, SymbolValue};
use std::alloc::Global;

/// What the values of symbols depend on.
#[derive(Clone, Copy)]
pub(crate) struct Numbering<'a> {
    pub regions: &'a [Region],
    /// The sections that are placed for each entry of all lists.
    pub entries: &'a [List<Waiting>],
    /// The bases of all sections.
    pub bases: &'a [u64],
    /// The move of each region.
    pub moves: &'a [Option<Move>],
    /// Up to where each region is filled.
    pub ends: &'a [u128],
}

fn is_named(region: &Region, name: &[u8]) -> bool
    ensures { result ≡ bytes_eq region.now.name name.now }
{
    region.name.as_slice() == name
}

// Up to where the region at a position is filled, or 0 if there is none.
fn end_at(ends: &[u128], place: usize) -> u128
    ensures { result ≡ slice_index_or ends.now place 0 }
{
    match ends.get(place) {
        Some(end) => *end,
        None => 0,
    }
}

// The end of the region of a name, or 0 if there is none.
fn region_end(numbering: &Numbering<'_>, name: &Bytes) -> u128
    ensures { (l : Layout) → IsNumbering l numbering.now → result ≡ symbol_number l (SymbolValue.RegionEnd name.now) }
{
    for (place, region) in numbering.regions.iter().enumerate() {
        if is_named(region, name.as_slice()) {
            return end_at(numbering.ends, place);
        }
    }
    0
}

// An entry of the lists of the regions.
fn entry_of<'a>(numbering: &Numbering<'a>, entry: &Bytes) -> Option<Listed<'a>>
    requires { length numbering.now.entries.now ≡ length (listed_names numbering.now.regions.now) }
    ensures { (l : Layout) → IsNumbering l numbering.now → IsEntry (placed_for l) l.plan.regions entry.now result }
{
    find_entry(numbering.regions, numbering.entries, entry.as_slice())
}

// Where an entry begins, or 0 if no list has it.
fn start(numbering: &Numbering<'_>, entry: &Bytes) -> u128
    requires { length numbering.now.entries.now ≡ length (listed_names numbering.now.regions.now) }
    ensures { (l : Layout) → IsNumbering l numbering.now → result ≡ symbol_number l (SymbolValue.Start entry.now) }
{
    match entry_of(numbering, entry) {
        Some(listed) => start_of(numbering.bases, listed),
        None => 0,
    }
}

// Where an entry ends, or 0 if no list has it.
fn end(numbering: &Numbering<'_>, entry: &Bytes) -> u128
    requires { length numbering.now.entries.now ≡ length (listed_names numbering.now.regions.now) }
    ensures { (l : Layout) → IsNumbering l numbering.now → result ≡ symbol_number l (SymbolValue.End entry.now) }
{
    match entry_of(numbering, entry) {
        Some(listed) => end_of(numbering.bases, listed),
        None => 0,
    }
}

// Where the bytes of an entry are loaded, or 0 if no list has it.
fn load(numbering: &Numbering<'_>, entry: &Bytes) -> u128
    requires { length numbering.now.entries.now ≡ length (listed_names numbering.now.regions.now) }
    ensures { (l : Layout) → IsNumbering l numbering.now → result ≡ symbol_number l (SymbolValue.Load entry.now) }
{
    match entry_of(numbering, entry) {
        Some(listed) => {
            let own = move_at(numbering.moves, listed.place);
            moved_to(own, start_of(numbering.bases, listed))
        }
        None => 0,
    }
}

// The exact number of a symbol.
fn number_of(numbering: &Numbering<'_>, value: &SymbolValue) -> u128
    requires { length numbering.now.entries.now ≡ length (listed_names numbering.now.regions.now) }
    ensures { (l : Layout) → IsNumbering l numbering.now → result ≡ symbol_number l value.now }
{
    match value {
        SymbolValue::Value(number) => *number as u128,
        SymbolValue::Start(entry) => start(numbering, entry),
        SymbolValue::End(entry) => end(numbering, entry),
        SymbolValue::Load(entry) => load(numbering, entry),
        SymbolValue::RegionEnd(name) => region_end(numbering, name),
    }
}

// A number modulo the address space.
fn residue(number: u128, maus: u8) -> u64
    requires low { 1 ≤ maus }
    requires high { maus ≤ 8 }
    ensures { result ≡ number % 2 ^ (8 * maus) }
{
    let width = 8 * u32::from(maus);
    let modulus = 1u128 << width;
    (number % modulus) as u64
}

/// The values of symbols, modulo an address space of `maus` bytes.
pub(crate) fn symbol_values(
    alloc: Global,
    symbols: &[PlanSymbol],
    numbering: &Numbering<'_>,
    maus: u8,
) -> Result<Vec<u64>, NoMemory>
    requires low { 1 ≤ maus }
    requires high { maus ≤ 8 }
    requires count { length numbering.now.entries.now ≡ length (listed_names numbering.now.regions.now) }
    ensures { IfOk result (λ values. (l : Layout) → IsNumbering l numbering.now
        → AreValues maus (λ symbol. symbol_number l symbol.value) symbols.now values.items) }
{
    let mut values = Vec::with_capacity(alloc, symbols.len())?;
    for symbol in symbols {
        values.push(residue(number_of(numbering, &symbol.value), maus))?;
    }
    Ok(values)
}
