//! Where the entries of a region's list begin and end.

ghost use Rattle.std.specs.Prelude.{◌≡◌, ◌<◌, ◌^◌, ℕ, IfSome, List, length, map, position, flat_map};
ghost use Rattle.std.specs.Str.{bytes_eq};
ghost use Rattle.mufom_plan.specs.Names.{listed_names};
ghost use Rattle.mufom_place.specs.declared.placing.Waiting.{Waiting};
ghost use Rattle.mufom_planned.specs.Numbers.{first_base as base_of_first, last_end as end_of_last};
ghost use Rattle.mufom_locating.specs.Listed.{IsEntry, start_by, end_by};

use crate::moves::base_at;
use mufom_numbers::{Bytes, List};
use mufom_place::Waiting;
use mufom_plan::Region;

/// An entry of a region's list, with the sections that are placed for it and for the entries before it.
#[derive(Clone, Copy)]
pub(crate) struct Listed<'a> {
    /// The position of the region.
    pub place: usize,
    pub region: &'a Region,
    pub before: &'a [List<Waiting>],
    pub own: &'a [Waiting],
}

fn is_same(listed: &Bytes, name: &[u8]) -> bool
    ensures { result ≡ bytes_eq name.now listed.now }
{
    name == listed.as_slice()
}

fn position_in(names: &[Bytes], name: &[u8]) -> Option<usize>
    ensures position { result ≡ position (bytes_eq name.now) names.now }
    ensures within { IfSome result (λ place. place < length names.now) }
{
    names.iter().position(|listed| is_same(listed, name))
}

/// Looks for an entry in the lists of the regions. `entries` has the sections that are placed for each entry of
/// all lists.
pub(crate) fn find_entry<'a>(
    regions: &'a [Region],
    entries: &'a [List<Waiting>],
    entry: &[u8],
) -> Option<Listed<'a>>
    requires { length entries.now ≡ length (listed_names regions.now) }
    ensures { (placed_for : List ℕ → List Waiting) → entries.now ≡ map placed_for (listed_names regions.now)
        → IsEntry placed_for regions.now entry.now result }
{
    let mut rest = entries;
    for (place, region) in regions.iter().enumerate() {
        let (lists, after) = rest.split_at(region.sections.len());
        if let Some(at) = position_in(region.sections.as_slice(), entry) {
            return Some(Listed {
                place,
                region,
                before: &lists[..at],
                own: lists[at].as_slice(),
            });
        }
        rest = after;
    }
    None
}

// The base of the first of some sections, or a number if there is none.
fn first_base(bases: &[u64], number: u128, waiting: &[Waiting]) -> u128
    requires { number < 2 ^ 66 }
    ensures base { result ≡ base_of_first bases.now number waiting.now }
    ensures bound { result < 2 ^ 66 }
{
    match waiting.first() {
        Some(first) => base_at(bases, first.section as usize) as u128,
        None => number,
    }
}

// The end of the last of some sections, or a number if there is none.
fn last_end(bases: &[u64], number: u128, waiting: &[Waiting]) -> u128
    requires { number < 2 ^ 66 }
    ensures end { result ≡ end_of_last bases.now number waiting.now }
    ensures bound { result < 2 ^ 66 }
{
    match waiting.last() {
        Some(last) => base_at(bases, last.section as usize) as u128 + last.size as u128,
        None => number,
    }
}

// The same for the sections of some lists, one after another.
fn last_end_of_all(bases: &[u64], number: u128, lists: &[List<Waiting>]) -> u128
    requires { number < 2 ^ 66 }
    ensures end { result ≡ end_of_last bases.now number (flat_map (λ own. own) lists.now) }
    ensures bound { result < 2 ^ 66 }
{
    let mut end = number;
    for waiting in lists {
        end = last_end(bases, end, waiting.as_slice());
    }
    end
}

/// Where an entry begins.
pub(crate) fn start_of(bases: &[u64], listed: Listed<'_>) -> u128
    ensures start { result ≡ start_by bases.now listed.entry }
    ensures bound { result < 2 ^ 66 }
{
    let before = last_end_of_all(bases, listed.region.base as u128, listed.before);
    first_base(bases, before, listed.own)
}

/// Where an entry ends.
pub(crate) fn end_of(bases: &[u64], listed: Listed<'_>) -> u128
    ensures { result ≡ end_by bases.now listed.entry }
{
    last_end(bases, start_of(bases, listed), listed.own)
}
