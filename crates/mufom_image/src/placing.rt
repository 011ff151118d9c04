//! The bases of the sections and commons of a module.

ghost use Rattle.std.specs.Prelude.{◌≡◌, ◌++◌, Option, option_map, slice_get, IfOk, IfErr};
ghost use Rattle.mufom_place.specs.Facts.{IsAnswer};
ghost use Rattle.mufom_meaning.specs.Facts.{placement};
ghost use Rattle.mufom_meaning.specs.Location.{placed_sections};
ghost use Rattle.mufom_image_values.specs.Resolutions.{resolutions_of};
ghost use Rattle.mufom_image.specs.Placements.{ArePlaced, placing_refusal};
ghost use Rattle.mufom_plan.specs.SoundPlans.{IsSoundPlan};
ghost use Rattle.mufom_image.specs.Refusals.{IsMet};

use crate::commons::planned_commons;
use mufom_copies::copy_section;
use mufom_image_values::Resolution;
use mufom_meaning::modules_may_be_placed;
use mufom_module::Module;
use mufom_numbers::{List, NoMemory};
use mufom_place::{PlaceRefusal, place};
use mufom_plan::Plan;
use mufom_refusals::LocateRefusal;
use mufom_sections::Section;
use std::alloc::Global;

/// Sections and commons with the bases that a plan gives them.
#[derive(Drop)]
pub(crate) struct Placement {
    /// The sections of the module and after them the commons.
    pub sections: List<Section>,
    /// The base of each.
    pub bases: List<u64>,
}

// Copies of the sections, and after them the commons.
fn extended(
    alloc: Global,
    sections: &[Section],
    commons: List<Section>,
) -> Result<List<Section>, NoMemory>
    ensures { IfOk result (λ all. all ≡ sections.now ++ commons) }
{
    let mut all = List::new(alloc);
    for section in sections {
        all.push(copy_section(alloc, section)?)?;
    }
    for common in commons.into_vec() {
        all.push(common)?;
    }
    Ok(all)
}

// Converts an error of placing to an error of locating.
fn refused(refusal: PlaceRefusal) -> LocateRefusal
    ensures { (answer : Option PlaceRefusal) → IsAnswer answer refusal → IsMet (option_map placement answer) result }
{
    match refusal {
        PlaceRefusal::NoMemory => LocateRefusal::NoMemory,
        other => LocateRefusal::Place(other),
    }
}

/// Returns the sections and commons of a module at their bases, or the first error of placing them.
pub(crate) fn placing(
    alloc: Global,
    module: &Module,
    resolutions: &[Resolution],
    plan: &Plan,
) -> Result<Placement, LocateRefusal>
    requires met { resolutions.now ≡ resolutions_of «module».now }
    requires plan { IsSoundPlan plan.now }
    ensures placed { IfOk result (λ placement. ArePlaced «module».now plan.now placement.sections placement.bases) }
    ensures refused { IfErr result (IsMet (option_map placement (placing_refusal «module».now plan.now))) }
{
    modules_may_be_placed();
    let parts = module.parts();
    let commons = planned_commons(alloc, module, resolutions, plan)?;
    let count = commons.len() as u32;
    let sections = extended(alloc, parts.sections.as_slice(), commons)?;
    let width = 8 * u32::from(parts.maus);
    match place(alloc, sections.as_slice(), count, plan, width) {
        Ok(bases) => Ok(Placement { sections, bases }),
        Err(refusal) => Err(refused(refusal)),
    }
}

fn base_at(bases: &[u64], place: usize) -> Option<u64>
    ensures { result ≡ slice_get bases.now place }
{
    bases.get(place).copied()
}

// Makes sections absolute, each at its base.
fn put_at(sections: &mut [Section], bases: &[u64])
    ensures { sections.new ≡ placed_sections bases.now sections.old }
{
    for (place, section) in sections.iter_mut().enumerate() {
        section.absolute = true;
        section.base = base_at(bases, place);
    }
}

/// The sections as they are placed: absolute, and each at its base. Does not allocate.
pub(crate) fn placed_sections(sections: List<Section>, bases: &[u64]) -> List<Section>
    ensures { result ≡ placed_sections bases.now sections }
{
    let mut placed = sections.into_vec();
    put_at(placed.as_mut_slice(), bases);
    List::from_vec(placed)
}
