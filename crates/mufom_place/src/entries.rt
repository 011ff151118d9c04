//! The entries of a plan's lists, and the sections that wait at each.

ghost use Rattle.std.specs.Prelude.{◌≡◌, ◌≤◌, ◌<◌, ◌+◌, ◌++◌, ◌^◌, [], IfOk, IfErr, OnOk, Some, length, map, position, replicate, sum_by, codes};
ghost use Rattle.std.specs.List.{enumerate_from};
ghost use Rattle.std.specs.Str.{bytes_eq};
ghost use Rattle.mufom_plan.specs.Names.{AreDistinctNames, listed_names};
ghost use Rattle.mufom_place.specs.Bases.{numbered, waiting as waiting_of, waiting_among};
ghost use Rattle.mufom_place.specs.Facts.{IsAnswer, first_some, unplaced_at};
ghost use Rattle.mufom_place.specs.Entries.{entry_for};

use crate::PlaceRefusal;
use crate::placing::Waiting;
use mufom_names::HashSeed;
use mufom_numbers::{Bytes, List, NoMemory};
use mufom_plan::{NameList, Plan};
use mufom_sections::Section;
use std::alloc::Global;

/// Adds the names of a region's list.
fn add_names(index: &mut NameList, names: &[Bytes]) -> Result<(), NoMemory>
    requires { AreDistinctNames (index.old ++ names.now) }
    ensures { OnOk result (index.new ≡ index.old ++ names.now) }
{
    for name in names {
        index.add(name.as_slice())?;
    }
    Ok(())
}

/// Draws the seed of an index from the names of a region's list.
fn add_to_seed(seed: &mut HashSeed, names: &[Bytes]) {
    for name in names {
        seed.add_name(name.as_slice());
    }
}

/// The seed of an index of the section names of all lists.
fn seed_of_entries(plan: &Plan) -> HashSeed {
    let mut seed = HashSeed::new();
    for region in plan.regions.as_slice() {
        add_to_seed(&mut seed, region.sections.as_slice());
    }
    seed
}

/// The section names of all lists, in order.
pub fn index_of_entries(alloc: Global, plan: &Plan) -> Result<NameList, NoMemory>
    requires { AreDistinctNames (listed_names plan.now.regions) }
    ensures { IfOk result (λ index. index ≡ listed_names plan.now.regions) }
{
    let mut index = NameList::new(alloc, seed_of_entries(plan));
    for region in plan.regions.as_slice() {
        add_names(&mut index, region.sections.as_slice())?;
    }
    Ok(index)
}

/// The position of the entry that matches a name: that of the name itself, or that of the star.
fn entry_of(index: &NameList, star: Option<usize>, name: &[u8]) -> Option<usize>
    requires { star ≡ position (bytes_eq (codes "*")) index.now }
    ensures { result ≡ entry_for index.now name.now }
{
    match index.position(name) {
        Some(entry) => Some(entry),
        None => star,
    }
}

/// The given number of entries at which no section waits.
fn empty_entries(alloc: Global, count: usize) -> Result<Vec<List<Waiting>>, NoMemory>
    ensures { IfOk result (λ entries. entries.items ≡ replicate count []) }
{
    let mut entries = Vec::new(alloc);
    for _ in 0..count {
        entries.push(List::new(alloc))?;
    }
    Ok(entries)
}

fn waiting(place: u32, section: &Section) -> Waiting
    ensures { result ≡ waiting_of (place, section.now) }
{
    Waiting {
        section: place,
        align: section.align,
        size: section.size,
    }
}

/// The commons with their positions, which follow those of `first` sections.
pub fn waiting_commons(
    alloc: Global,
    first: usize,
    commons: &[Section],
) -> Result<Vec<Waiting>, NoMemory>
    requires { first + length commons.now < 2 ^ 32 }
    ensures { IfOk result (λ waiting. waiting.items ≡ map waiting_of (enumerate_from first commons.now)) }
{
    let mut list = Vec::new(alloc);
    for (place, section) in commons.iter().enumerate() {
        list.push(waiting((first + place) as u32, section))?;
    }
    Ok(list)
}

/// The sections without a base, grouped by the entries that match their names.
pub fn waiting_sections(
    alloc: Global,
    sections: &[Section],
    index: &NameList,
) -> Result<Vec<List<Waiting>>, PlaceRefusal>
    requires names { AreDistinctNames index.now }
    requires count { length sections.now < 2 ^ 32 }
    ensures waiting { IfOk result (λ entries. entries.items ≡ map (waiting_among index.now (numbered sections.now)) index.now) }
    ensures total { IfOk result (λ entries. sum_by length entries.items ≤ length sections.now) }
    ensures placed { OnOk result (first_some (unplaced_at index.now) (numbered sections.now) ≡ None) }
    ensures unplaced { IfErr result (IsAnswer (first_some (unplaced_at index.now) (numbered sections.now))) }
{
    let star = index.position(b"*");
    let mut entries = empty_entries(alloc, index.len())?;
    for (place, section) in sections.iter().enumerate() {
        if section.base.is_some() {
            continue;
        }
        let Some(entry) = entry_of(index, star, section.name.as_slice()) else {
            return Err(PlaceRefusal::Unplaced(place as u32));
        };
        entries[entry].push(waiting(place as u32, section))?;
    }
    Ok(entries)
}
