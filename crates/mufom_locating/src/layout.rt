//! Where a plan puts a module: its sections, its commons and the copies of regions.

ghost use Rattle.std.specs.Prelude.{◌≡◌, ◌≤◌, ◌++◌, ◌∷◌, [], All, IfOk, IfErr, OnOk, Option, length, option_map};
ghost use Rattle.mufom_place.specs.Copies.{copy_sections};
ghost use Rattle.mufom_place.specs.Facts.{IsAnswer};
ghost use Rattle.mufom_place.specs.Filling.{IsPlaceableCopy};
ghost use Rattle.mufom_meaning.specs.Facts.{placement};
ghost use Rattle.mufom_meaning.specs.Flat.{width};
ghost use Rattle.mufom_meaning.specs.Placed.{extended_sections};
ghost use Rattle.mufom_planned.specs.Layout.{layout};
ghost use Rattle.mufom_planned.specs.Planned.{layout_fact};
ghost use Rattle.mufom_plan.specs.SoundPlans.{IsSoundPlan};
ghost use Rattle.mufom_image.specs.Refusals.{IsMet};
ghost use Rattle.mufom_locating.specs.Placed.{AreCopies, ArePlacedAt, HaveRoom, IsPlacedBy, is_overlap};

use crate::loaded::loaded_sections;
use mufom_copies::{copy_section, copy_sections};
use mufom_image::{LocateRefusal, planned_commons};
use mufom_image_values::resolve_references;
use mufom_meaning::modules_may_be_placed;
use mufom_module::Module;
use mufom_numbers::{List, NoMemory};
use mufom_place::{PlaceRefusal, RegionCopy, place, place_copies, region_copies};
use mufom_plan::Plan;
use mufom_sections::Section;
use std::alloc::Global;

/// The sections of a module, the commons and the copies of regions, with their bases.
#[derive(Drop)]
pub(crate) struct Layout {
    /// The number of sections and commons.
    pub plain: usize,
    pub copies: List<RegionCopy>,
    /// All sections: those of the module, the commons and the copies.
    pub whole: List<Section>,
    /// The base of each.
    pub bases: List<u64>,
}

// Appends the commons to the sections.
fn with_commons(
    alloc: Global,
    sections: &[Section],
    commons: List<Section>,
) -> Result<List<Section>, NoMemory>
    ensures { IfOk result (λ all. all ≡ sections.now ++ commons) }
{
    let mut all = copy_sections(alloc, sections)?.into_vec();
    let mut last = commons.into_vec();
    all.append(&mut last)?;
    Ok(List::from_vec(all))
}

// Appends the copies as sections.
pub(crate) fn with_copies(
    alloc: Global,
    plain: List<Section>,
    copies: &[RegionCopy],
) -> Result<List<Section>, NoMemory>
    ensures { IfOk result (λ all. all ≡ plain ++ copy_sections copies.now) }
{
    let mut all = plain;
    for copy in copies {
        all.push(copy_section(alloc, &copy.section)?)?;
    }
    Ok(all)
}

// Converts an error of placing to an error of locating.
fn refused(refusal: PlaceRefusal) -> LocateRefusal
    ensures { (answer : Option PlaceRefusal) → IsAnswer answer refusal → IsMet (option_map placement answer) result }
{
    match refusal {
        PlaceRefusal::NoMemory => LocateRefusal::NoMemory,
        other => LocateRefusal::Place(other),
    }
}

// The sections and commons of a module.
pub(crate) fn plain_sections(
    alloc: Global,
    module: &Module,
    plan: &Plan,
) -> Result<List<Section>, NoMemory>
    ensures { IfOk result (λ all. all ≡ extended_sections («module».now ∷ []) plan.now) }
{
    let resolutions = resolve_references(alloc, module)?;
    let commons = planned_commons(alloc, module, resolutions.as_slice(), plan)?;
    with_commons(alloc, module.parts().sections.as_slice(), commons)
}

// Whether an error of placing is an overlap.
fn is_overlap(refusal: PlaceRefusal) -> bool
    ensures { result ≡ is_overlap refusal }
{
    matches!(refusal, PlaceRefusal::Overlap(_, _))
}

// Returns the first error of placing the sections and commons of a module, unless it is an overlap.
//
// An overlap is no error yet: a copy that does not fit is reported before it.
fn check_room(
    alloc: Global,
    module: &Module,
    plan: &Plan,
    plain: &[Section],
) -> Result<(), LocateRefusal>
    requires plan { IsSoundPlan plan.now }
    requires plain { plain.now ≡ extended_sections («module».now ∷ []) plan.now }
    ensures room { OnOk result (HaveRoom (width («module».now ∷ [])) (layout («module».now ∷ []) plan.now)) }
    ensures refused { IfErr result (IsMet (layout_fact («module».now ∷ []) (layout («module».now ∷ []) plan.now))) }
{
    modules_may_be_placed();
    let parts = module.parts();
    let commons = plain.len() - parts.sections.len();
    let width = 8 * u32::from(parts.maus);
    let Err(refusal) = place(alloc, plain, commons as u32, plan, width) else {
        return Ok(());
    };
    if is_overlap(refusal) {
        return Ok(());
    }
    Err(refused(refusal))
}

// The copies of regions, given the sections and commons of a module, whether or not these fit. A copy that would
// have 2^64 addresses or more is out of memory.
pub(crate) fn copies_among(
    alloc: Global,
    module: &Module,
    plan: &Plan,
    plain: &[Section],
) -> Result<List<RegionCopy>, LocateRefusal>
    requires plan { IsSoundPlan plan.now }
    requires plain { plain.now ≡ extended_sections («module».now ∷ []) plan.now }
    ensures copies { IfOk result (AreCopies (layout («module».now ∷ []) plan.now)) }
    ensures refused { IfErr result (IsMet (layout_fact («module».now ∷ []) (layout («module».now ∷ []) plan.now))) }
{
    modules_may_be_placed();
    let marks = loaded_sections(alloc, module)?;
    let (sections, commons) = plain.split_at(module.parts().sections.len());
    match region_copies(alloc, sections, commons, plain, &marks, plan) {
        Ok(copies) => Ok(copies),
        Err(refusal) => Err(refused(refusal)),
    }
}

// The copies of regions, given the sections and commons of a module, which all fit. So no copy is larger than its
// region.
fn fitting_copies(
    alloc: Global,
    module: &Module,
    plan: &Plan,
    plain: &[Section],
) -> Result<List<RegionCopy>, LocateRefusal>
    requires plan { IsSoundPlan plan.now }
    requires plain { plain.now ≡ extended_sections («module».now ∷ []) plan.now }
    requires room { HaveRoom (width («module».now ∷ [])) (layout («module».now ∷ []) plan.now) }
    ensures copies { IfOk result (AreCopies (layout («module».now ∷ []) plan.now)) }
    ensures refused { IfErr result (IsMet (layout_fact («module».now ∷ []) (layout («module».now ∷ []) plan.now))) }
{
    copies_among(alloc, module, plan, plain)
}

// The bases of sections, commons and copies.
fn bases_of(
    alloc: Global,
    module: &Module,
    plan: &Plan,
    copies: &[RegionCopy],
    whole: &[Section],
) -> Result<List<u64>, LocateRefusal>
    requires plan { IsSoundPlan plan.now }
    requires copies { AreCopies (layout («module».now ∷ []) plan.now) copies.now }
    requires whole { whole.now ≡ extended_sections («module».now ∷ []) plan.now ++ copy_sections copies.now }
    ensures placed { IfOk result (ArePlacedAt (width («module».now ∷ [])) (layout («module».now ∷ []) plan.now)) }
    ensures refused { IfErr result (IsMet (layout_fact («module».now ∷ []) (layout («module».now ∷ []) plan.now))) }
{
    modules_may_be_placed();
    // Positions have 32 bits. A module of a run, by a plan that was read, has fewer sections, commons and copies.
    if whole.len() > u32::MAX as usize {
        return Err(LocateRefusal::NoMemory);
    }
    let parts = module.parts();
    let (plain, _) = whole.split_at(whole.len() - copies.len());
    let (sections, commons) = plain.split_at(parts.sections.len());
    let width = 8 * u32::from(parts.maus);
    match place_copies(alloc, sections, commons, copies, whole, plan, width) {
        Ok(bases) => Ok(bases),
        Err(refusal) => Err(refused(refusal)),
    }
}

/// Where a plan puts the sections, the commons and the copies of regions, or the first error of placing them.
pub(crate) fn layout_of(
    alloc: Global,
    module: &Module,
    plan: &Plan,
) -> Result<Layout, LocateRefusal>
    requires { IsSoundPlan plan.now }
    ensures placed { IfOk result (IsPlacedBy «module».now plan.now) }
    ensures refused { IfErr result (IsMet (layout_fact («module».now ∷ []) (layout («module».now ∷ []) plan.now))) }
{
    let sections = plain_sections(alloc, module, plan)?;
    let plain = sections.len();
    check_room(alloc, module, plan, sections.as_slice())?;
    let copies = fitting_copies(alloc, module, plan, sections.as_slice())?;
    let whole = with_copies(alloc, sections, copies.as_slice())?;
    let bases = bases_of(alloc, module, plan, copies.as_slice(), whole.as_slice())?;
    Ok(Layout {
        plain,
        copies,
        whole,
        bases,
    })
}
