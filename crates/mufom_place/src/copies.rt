//! Copies of regions, which are placed after everything else.

ghost use Rattle.std.specs.Prelude.{◌≡◌, ◌<◌, ◌≤◌, ◌+◌, ◌^◌, [], None, All, IfOk, IfErr, OnOk, length};
ghost use Rattle.mufom_plan.specs.Names.{AreDistinctNames, listed_names};
ghost use Rattle.mufom_place.specs.Bases.{aligned_up as least_multiple};
ghost use Rattle.mufom_place.specs.Facts.{IsAddressWidth, IsAligned, IsAnswer};
ghost use Rattle.mufom_place.specs.Copies.{all_bases, all_refusal, all_sections, bases_by, fit_refusal, size_at as size_of, with_copies};
ghost use Rattle.mufom_place.specs.Packing.{IsLow};
ghost use Rattle.mufom_place.specs.Filling.{AreFilled, AreLowEnds, AreSizedFrom, IsPlaceableCopy, raised};
ghost use Rattle.mufom_place.specs.Packing.{IsLow};

use crate::PlaceRefusal;
use crate::bases::aligned_up;
use crate::fit::bases;
use crate::overlap::overlap;
use crate::placement::regional;
use crate::placing::{Placing, RegionCopy};
use mufom_numbers::{List, NoMemory};
use mufom_plan::{Plan, Region};
use mufom_sections::Section;
use std::alloc::Global;

/// The size of the section at a position, or 0 if there is none.
fn size_at(sections: &[Section], place: u32) -> u64
    ensures { result ≡ size_of sections.now place }
{
    match sections.get(place as usize) {
        Some(section) => section.size,
        None => 0,
    }
}

/// The bases of regions.
fn region_bases(alloc: Global, regions: &[Region]) -> Result<Vec<u128>, NoMemory>
    ensures filled { IfOk result (λ ends. AreFilled regions.now [] [] ends.items) }
    ensures low { IfOk result (λ ends. AreLowEnds 0 ends.items) }
{
    let mut ends = Vec::with_capacity(alloc, regions.len())?;
    for region in regions {
        ends.push(region.base as u128)?;
    }
    Ok(ends)
}

/// Raises the number of a region to an end, if there is such a region.
fn raise(ends: &mut Vec<u128>, region: u32, end: u128)
    ensures { ends.new.items ≡ raised region end ends.old.items }
{
    let region = region as usize;
    if region >= ends.len() {
        return;
    }
    ends[region] = ends[region].max(end);
}

/// Up to where each region is filled: the greatest end of what it places, or its base if it places nothing.
pub fn filled_to(
    alloc: Global,
    regions: &[Region],
    sections: &[Section],
    placings: &[Placing],
) -> Result<Vec<u128>, NoMemory>
    requires low { All IsLow placings.now }
    ensures filled { IfOk result (λ ends. AreFilled regions.now sections.now placings.now ends.items) }
    ensures low { IfOk result (λ ends. AreLowEnds 0 ends.items) }
{
    let mut ends = region_bases(alloc, regions)?;
    for placing in placings {
        let end = placing.base + size_at(sections, placing.section) as u128;
        raise(&mut ends, placing.region, end);
    }
    Ok(ends)
}

/// The base and the end of a copy that is placed from an address on.
fn extent_of(copy: &RegionCopy, address: u128) -> (u128, u128)
    requires aligned { IsAligned copy.now.section }
    requires low { address < 2 ^ 102 }
    ensures base { result.0 ≡ least_multiple copy.now.section.align address }
    ensures end { result.1 ≡ result.0 + copy.now.section.size }
    ensures bound { result.1 < address + 2 ^ 65 }
{
    let base = aligned_up(copy.section.align, address);
    (base, base + copy.section.size as u128)
}

/// Appends the bases of copies to those that regions give. The first copy has the position `first` in the list
/// of sections; each goes to its region, after everything that the region places.
pub fn add_copies(
    alloc: Global,
    regions: &[Region],
    sections: &[Section],
    copies: &[RegionCopy],
    first: u32,
    placings: &mut List<Placing>,
) -> Result<(), NoMemory>
    requires low { All IsLow placings.old }
    requires count { first + length copies.now < 2 ^ 32 }
    requires placeable { All (IsPlaceableCopy regions.now) copies.now }
    requires sized { AreSizedFrom sections.now first copies.now }
    ensures { OnOk result (placings.new ≡ with_copies regions.now sections.now placings.old first copies.now) }
{
    let mut ends = filled_to(alloc, regions, sections, placings.as_slice())?;
    for (place, copy) in copies.iter().enumerate() {
        let (base, end) = extent_of(copy, ends[copy.holder as usize]);
        placings.push(Placing {
            section: first + place as u32,
            region: copy.holder,
            base,
        })?;
        raise(&mut ends, copy.holder, end);
    }
    Ok(())
}

/// The bases of sections, by their own bases and by what the regions of a plan give, if all fit and no two share
/// an address.
fn fitting_bases(
    alloc: Global,
    sections: &[Section],
    regions: &[Region],
    placings: &[Placing],
    width: u32,
) -> Result<List<u64>, PlaceRefusal>
    requires width { width ≤ 64 }
    requires count { length sections.now < 2 ^ 32 }
    ensures bases { IfOk result (λ bases. bases ≡ bases_by placings.now sections.now) }
    ensures fit { OnOk result (fit_refusal width regions.now placings.now sections.now ≡ None) }
    ensures refused { IfErr result (IsAnswer (fit_refusal width regions.now placings.now sections.now)) }
{
    let bases = bases(alloc, sections, regions, placings, width)?;
    match overlap(alloc, sections, bases.as_slice())? {
        Some(refusal) => Err(refusal),
        None => Ok(bases),
    }
}

/// The bases of sections, commons and copies by a plan.
///
/// This is [`place`](crate::place) with copies of regions, whose bytes are loaded into other regions. `whole` has the
/// sections, the commons and the copies as sections, in this order, and there is one base for each. Sections
/// and commons are where they are without copies. A copy goes to its region, at the least multiple of its
/// alignment after everything that the region places: its sections, its commons and earlier copies.
///
/// The preconditions and the errors are those of `place`, over all sections.
pub fn place_copies(
    alloc: Global,
    sections: &[Section],
    commons: &[Section],
    copies: &[RegionCopy],
    whole: &[Section],
    plan: &Plan,
    width: u32,
) -> Result<List<u64>, PlaceRefusal>
    requires width { IsAddressWidth width }
    requires whole { whole.now ≡ all_sections sections.now commons.now copies.now }
    requires alignments { All IsAligned sections.now }
    requires aligned_commons { All IsAligned commons.now }
    requires placeable { All (IsPlaceableCopy plan.now.regions) copies.now }
    requires count { length sections.now + length commons.now + length copies.now < 2 ^ 32 }
    requires regions { length plan.now.regions < 2 ^ 32 }
    requires names { AreDistinctNames (listed_names plan.now.regions) }
    ensures bases { IfOk result (λ bases. bases ≡ all_bases plan.now sections.now commons.now copies.now) }
    ensures placed { OnOk result (all_refusal width plan.now sections.now commons.now copies.now ≡ None) }
    ensures refused { IfErr result (IsAnswer (all_refusal width plan.now sections.now commons.now copies.now)) }
{
    let regions = plan.regions.as_slice();
    let mut placings = regional(alloc, sections, commons, plan)?;
    let first = (sections.len() + commons.len()) as u32;
    add_copies(alloc, regions, whole, copies, first, &mut placings)?;
    fitting_bases(alloc, whole, regions, placings.as_slice(), width)
}
