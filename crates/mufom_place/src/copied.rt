//! The copies of regions that are loaded into other regions.

ghost use Rattle.std.specs.Prelude.{◌≡◌, ◌<◌, ◌+◌, ◌++◌, ◌-◌, ◌≤◌, ◌^◌, ℕ, All, IfErr, IfOk, IfSome, OnOk, Some, None, false};
ghost use Rattle.std.specs.Prelude.{filter, length, option_and_then, option_to_list, position, slice_index_or};
ghost use Rattle.std.specs.Str.{bytes_eq};
ghost use Rattle.mufom_plan.specs.Names.{AreDistinctNames, listed_names, region_position};
ghost use Rattle.mufom_place.specs.Bases.{numbered};
ghost use Rattle.mufom_place.specs.Copies.{copies as copies_by, copies_from, copy_if};
ghost use Rattle.mufom_place.specs.Facts.{IsAligned, IsAnswer, first_some, unplaced_at};
ghost use Rattle.mufom_place.specs.Filling.{AreFilled, AreMarked, IsPlaceableCopy, marked};

use crate::PlaceRefusal;
use crate::copies::filled_to;
use crate::placement::regional;
use crate::placing::{Placing, RegionCopy};
use mufom_numbers::{Bytes, List, NoMemory};
use mufom_plan::{Plan, Region};
use mufom_sections::Section;
use std::alloc::Global;

/// The alignment of a copy.
const COPY_ALIGNMENT: u64 = 8;

fn is_marked(marks: &[bool], place: u32) -> bool
    ensures { result ≡ slice_index_or marks.now place false }
{
    match marks.get(place as usize) {
        Some(mark) => *mark,
        None => false,
    }
}

/// What regions place and what has bytes.
fn with_bytes(
    alloc: Global,
    placings: &[Placing],
    has_bytes: &[bool],
) -> Result<List<Placing>, NoMemory>
    ensures { IfOk result (λ list. list ≡ filter (λ p. slice_index_or has_bytes.now p.section false) placings.now) }
{
    let mut list = List::new(alloc);
    for placing in placings {
        if is_marked(has_bytes, placing.section) {
            list.push(*placing)?;
        }
    }
    Ok(list)
}

/// Marks a region, if there is such a region.
fn mark(marks: &mut Vec<bool>, region: u32)
    ensures { marks.new.items ≡ marked region marks.old.items }
{
    let region = region as usize;
    if region >= marks.len() {
        return;
    }
    marks[region] = true;
}

/// A mark for each of `count` regions, which is set if it places something.
fn places_something(
    alloc: Global,
    count: usize,
    placings: &[Placing],
) -> Result<Vec<bool>, NoMemory>
    ensures { IfOk result (λ marks. AreMarked count placings.now marks.items) }
{
    let mut marks = vec![in alloc; false; count]?;
    for placing in placings {
        mark(&mut marks, placing.region);
    }
    Ok(marks)
}

fn is_named(region: &Region, name: &[u8]) -> bool
    ensures { result ≡ bytes_eq region.now.name name.now }
{
    region.name.as_slice() == name
}

fn first_named(regions: &[Region], name: &[u8]) -> Option<usize>
    ensures position { result ≡ position (λ region. bytes_eq region.name name.now) regions.now }
    ensures within { IfSome result (λ place. place < length regions.now) }
{
    regions.iter().position(|region| is_named(region, name))
}

/// The position of the region of a name.
fn position_of_region(regions: &[Region], name: &[u8]) -> Option<usize>
    ensures position { result ≡ region_position regions.now name.now }
    ensures within { IfSome result (λ place. place < length regions.now) }
{
    first_named(regions, name)
}

/// The copy of the region at a position, which is filled up to an end, if it is loaded into another region and
/// has bytes.
fn copy_of(
    alloc: Global,
    regions: &[Region],
    place: u32,
    region: &Region,
    has_bytes: bool,
    end: u128,
) -> Result<Option<RegionCopy>, NoMemory>
    requires few { length regions.now < 2 ^ 32 }
    requires above { region.now.base ≤ end }
    ensures copy { IfOk result (λ copy. option_to_list copy
        ≡ copy_if place region.now (option_and_then (region_position regions.now) region.now.load) has_bytes (end - region.now.base)) }
    ensures placeable { IfOk result (λ copy. IfSome copy (IsPlaceableCopy regions.now)) }
{
    let Some(load) = &region.load else {
        return Ok(None);
    };
    let Some(holder) = position_of_region(regions, load.as_slice()) else {
        return Ok(None);
    };
    if !has_bytes {
        return Ok(None);
    }
    let size = end - region.base as u128;
    // Only sections that do not fit into their region reach so far.
    if size > u64::MAX as u128 {
        return Err(NoMemory);
    }
    let section = Section {
        name: Bytes::from_slice(alloc, region.name.as_slice())?,
        absolute: false,
        purpose: None,
        size: size as u64,
        align: COPY_ALIGNMENT,
        base: None,
    };
    Ok(Some(RegionCopy {
        source: place,
        holder: holder as u32,
        section,
    }))
}

/// Appends a copy, if there is one.
fn add_copy(copies: &mut List<RegionCopy>, copy: Option<RegionCopy>) -> Result<(), NoMemory>
    ensures { OnOk result (copies.new ≡ copies.old ++ option_to_list copy) }
{
    match copy {
        Some(copy) => copies.push(copy),
        None => Ok(()),
    }
}

/// The copies of regions, which are filled up to these ends with what is loaded, and marked if they have bytes.
fn copies_to(
    alloc: Global,
    regions: &[Region],
    placed: &[Section],
    loaded: &[Placing],
    marks: &[bool],
    ends: &[u128],
) -> Result<List<RegionCopy>, NoMemory>
    requires few { length regions.now < 2 ^ 32 }
    requires marks { AreMarked (length regions.now) loaded.now marks.now }
    requires ends { AreFilled regions.now placed.now loaded.now ends.now }
    ensures copies { IfOk result (λ list. list ≡ copies_from regions.now placed.now loaded.now 0 regions.now) }
    ensures placeable { IfOk result (λ list. All (IsPlaceableCopy regions.now) list) }
{
    let mut copies = List::new(alloc);
    for (place, region) in regions.iter().enumerate() {
        let copy = copy_of(
            alloc,
            regions,
            place as u32,
            region,
            marks[place],
            ends[place],
        )?;
        add_copy(&mut copies, copy)?;
    }
    Ok(copies)
}

/// The copies of the regions of a plan that are loaded into other regions.
///
/// `placed` has the sections and after them the commons. `has_bytes` tells of each section whether it has loaded
/// bytes, by its position. The copy of a region is a section with the region's name, from the base of the region
/// to the greatest end of a section that the region places and that has bytes. A region has no copy if it is
/// loaded where it is, or if it places no section with bytes. The copies are in the order of the regions.
///
/// Preconditions are those of [`place_copies`](crate::place_copies). `Unplaced` is returned for the first section
/// that no list of the plan matches; the only other error is out of memory.
pub fn region_copies(
    alloc: Global,
    sections: &[Section],
    commons: &[Section],
    placed: &[Section],
    has_bytes: &[bool],
    plan: &Plan,
) -> Result<List<RegionCopy>, PlaceRefusal>
    requires placed { placed.now ≡ sections.now ++ commons.now }
    requires alignments { All IsAligned sections.now }
    requires aligned_commons { All IsAligned commons.now }
    requires count { length sections.now + length commons.now < 2 ^ 32 }
    requires regions { length plan.now.regions < 2 ^ 32 }
    requires names { AreDistinctNames (listed_names plan.now.regions) }
    ensures copies { IfOk result (λ list. list ≡ copies_by plan.now sections.now commons.now (λ n. slice_index_or has_bytes.now n false)) }
    ensures placeable { IfOk result (λ list. All (IsPlaceableCopy plan.now.regions) list) }
    ensures unplaced { IfErr result (IsAnswer (first_some (unplaced_at (listed_names plan.now.regions)) (numbered sections.now))) }
{
    let regions = plan.regions.as_slice();
    let placings = regional(alloc, sections, commons, plan)?;
    let loaded = with_bytes(alloc, placings.as_slice(), has_bytes)?;
    let ends = filled_to(alloc, regions, placed, loaded.as_slice())?;
    let marks = places_something(alloc, regions.len(), loaded.as_slice())?;
    let copies = copies_to(alloc, regions, placed, loaded.as_slice(), &marks, &ends)?;
    Ok(copies)
}
