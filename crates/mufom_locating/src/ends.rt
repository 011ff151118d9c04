//! Up to where the regions of a plan are filled, whether or not what they place fits.

ghost use Rattle.std.specs.Prelude.{◌≡◌, ◌<◌, ◌+◌, ◌∷◌, ℕ, [], All, IfOk, IfSome, OnOk, filter, length, position, slice_index_or, false};
ghost use Rattle.std.specs.Str.{bytes_eq};
ghost use Rattle.mufom_plan.specs.Names.{region_position};
ghost use Rattle.mufom_place.specs.Bases.{aligned_up};
ghost use Rattle.mufom_place.specs.Filling.{AreFilled, AreMarked, marked};
ghost use Rattle.mufom_place.specs.Packing.{IsLow};
ghost use Rattle.mufom_plan.specs.SoundPlans.{IsSoundPlan};
ghost use Rattle.mufom_planned.specs.Layout.{layout};
ghost use Rattle.mufom_locating.specs.Ends.{AreEnds, ArePlain, copied_whole, copy_holder, placed_with_copies, with_copy_end};
ghost use Rattle.mufom_locating.specs.Exported.{AllListed};

use crate::layout::plain_sections;
use crate::loaded::loaded_sections;
use mufom_meaning::modules_may_be_placed;
use mufom_module::Module;
use mufom_numbers::{List, NoMemory};
use mufom_place::{Placing, all_placings, filled_to};
use mufom_plan::{Plan, Region};
use mufom_sections::Section;
use std::alloc::Global;

// The alignment of a copy.
const COPY_ALIGNMENT: u128 = 8;

// Whether the section at a position is marked.
fn is_marked(marks: &[bool], place: u32) -> bool
    ensures { result ≡ slice_index_or marks.now place false }
{
    match marks.get(place as usize) {
        Some(mark) => *mark,
        None => false,
    }
}

// What regions place, of the sections that are marked.
fn marked_placings(
    alloc: Global,
    placings: &[Placing],
    marks: &[bool],
) -> Result<List<Placing>, NoMemory>
    ensures { IfOk result (λ list. list ≡ filter (λ p. slice_index_or marks.now p.section false) placings.now) }
{
    let mut list = List::new(alloc);
    for placing in placings {
        if is_marked(marks, placing.section) {
            list.push(*placing)?;
        }
    }
    Ok(list)
}

// Marks a region, if there is such a region.
fn mark(marks: &mut Vec<bool>, region: u32)
    ensures { marks.new.items ≡ marked region marks.old.items }
{
    let region = region as usize;
    if region >= marks.len() {
        return;
    }
    marks[region] = true;
}

// A mark for each of `count` regions, which is set if the region places something.
fn regions_placing(alloc: Global, count: usize, placings: &[Placing]) -> Result<Vec<bool>, NoMemory>
    ensures { IfOk result (λ marks. AreMarked count placings.now marks.items) }
{
    let mut marks = vec![in alloc; false; count]?;
    for placing in placings {
        mark(&mut marks, placing.region);
    }
    Ok(marks)
}

fn is_named(region: &Region, name: &[u8]) -> bool
    ensures { result ≡ bytes_eq region.now.name name.now }
{
    region.name.as_slice() == name
}

fn first_named(regions: &[Region], name: &[u8]) -> Option<usize>
    ensures position { result ≡ position (λ region. bytes_eq region.name name.now) regions.now }
    ensures within { IfSome result (λ place. place < length regions.now) }
{
    regions.iter().position(|region| is_named(region, name))
}

// The position of the region with a name.
fn region_named(regions: &[Region], name: &[u8]) -> Option<usize>
    ensures position { result ≡ region_position regions.now name.now }
    ensures within { IfSome result (λ place. place < length regions.now) }
{
    first_named(regions, name)
}

// The position of the region that holds the copy of a region, if there is a copy: if the region is loaded into
// another one and has bytes.
fn holder_of(regions: &[Region], region: &Region, has_bytes: bool) -> Option<usize>
    ensures holder { result ≡ copy_holder regions.now region.now has_bytes }
    ensures within { IfSome result (λ holder. holder < length regions.now) }
{
    if !has_bytes {
        return None;
    }
    let Some(load) = &region.load else {
        return None;
    };
    region_named(regions, load.as_slice())
}

// The end of a copy of a size that is placed behind an address. An end of more than 128 bits is out of memory.
fn end_after(address: u128, size: u128) -> Result<u128, NoMemory>
    ensures { IfOk result (λ end. end ≡ aligned_up 8 address + size) }
{
    let Some(room) = address.checked_add(COPY_ALIGNMENT - 1) else {
        return Err(NoMemory);
    };
    match (room / COPY_ALIGNMENT * COPY_ALIGNMENT).checked_add(size) {
        Some(end) => Ok(end),
        None => Err(NoMemory),
    }
}

// Raises the end of a region by a copy of a size, if a region holds the copy.
fn add_copy(ends: &mut Vec<u128>, holder: Option<usize>, size: u128) -> Result<(), NoMemory>
    requires { IfSome holder (λ place. place < length ends.old.items) }
    ensures { OnOk result (ends.new.items ≡ with_copy_end holder size ends.old.items) }
{
    let Some(holder) = holder else {
        return Ok(());
    };
    ends[holder] = end_after(ends[holder], size)?;
    Ok(())
}

// Up to where regions are filled with what they place, which are sections and commons, and with the copies of
// regions, given what of it has bytes.
fn ends_with_copies(
    alloc: Global,
    regions: &[Region],
    plain: &[Section],
    placings: &[Placing],
    loaded: &[Placing],
) -> Result<Vec<u128>, NoMemory>
    requires low { All IsLow placings.now }
    requires low_loaded { All IsLow loaded.now }
    requires plain { ArePlain plain.now placings.now }
    ensures { IfOk result (λ ends. AreFilled regions.now (copied_whole regions.now plain.now loaded.now)
        (placed_with_copies regions.now plain.now placings.now loaded.now) ends.items) }
{
    let mut ends = filled_to(alloc, regions, plain, placings)?;
    let loaded_ends = filled_to(alloc, regions, plain, loaded)?;
    let marks = regions_placing(alloc, regions.len(), loaded)?;
    for (place, region) in regions.iter().enumerate() {
        let holder = holder_of(regions, region, marks[place]);
        add_copy(&mut ends, holder, loaded_ends[place] - region.base as u128)?;
    }
    Ok(ends)
}

/// Up to where each region of a plan is filled with the sections, commons and copies of a module, whether or not
/// they fit: the greatest end of what the region places, in addressable units, or its base if it places nothing.
///
/// Each section without a base must have a name that a list of the plan matches. Copies may have any size, so this
/// also tells how far the sections of a region reach that are loaded into another region and do not fit. The only
/// error is out of memory; it is also returned for an end of 2^128 or more, which no module of a run has.
pub fn region_ends(alloc: Global, module: &Module, plan: &Plan) -> Result<Vec<u128>, NoMemory>
    requires plan { IsSoundPlan plan.now }
    requires listed { AllListed plan.now «module».now.sections }
    ensures { IfOk result (λ ends. AreEnds (layout («module».now ∷ []) plan.now) ends.items) }
{
    modules_may_be_placed();
    let plain = plain_sections(alloc, module, plan)?;
    let (sections, commons) = plain.as_slice().split_at(module.parts().sections.len());
    let placings = all_placings(alloc, sections, commons, plan)?;
    let marks = loaded_sections(alloc, module)?;
    let loaded = marked_placings(alloc, placings.as_slice(), &marks)?;
    let ends = ends_with_copies(
        alloc,
        plan.regions.as_slice(),
        plain.as_slice(),
        placings.as_slice(),
        loaded.as_slice(),
    )?;
    Ok(ends)
}
