//! The location of a module with copies of regions.

ghost use Rattle.std.specs.Prelude.{◌≡◌, ◌∷◌, [], All, IfOk, IfErr};
ghost use Rattle.mufom_names.specs.Names.{names_of, AreDistinct};
ghost use Rattle.mufom_plan.specs.SoundPlans.{IsSoundPlan};
ghost use Rattle.mufom_image.specs.Refusals.{IsMet};
ghost use Rattle.mufom_place.specs.Packing.{IsLow};
ghost use Rattle.mufom_planned.specs.Layout.{layout, layout_placings};
ghost use Rattle.mufom_planned.specs.Planned.{copied_answer};
ghost use Rattle.mufom_locating.specs.Copied.{IsLocatedWithCopies, layout_shifts};
ghost use Rattle.mufom_locating.specs.Placed.{IsPlacedBy};

use crate::copies::with_placed_copies;
use crate::layout::Layout;
use crate::moves::{region_moves, section_shifts};
use mufom_image::{LocateRefusal, locate};
use mufom_meaning::{LocatedParts, modules_may_be_placed};
use mufom_module::{Module, a_module_is_valid};
use mufom_moves::{Shift, move_runs};
use mufom_numbers::{List, NoMemory};
use mufom_place::{Placing, add_copies, all_placings, planned};
use mufom_plan::Plan;
use std::alloc::Global;

/// The bases that regions give to the sections, commons and copies of a layout.
pub(crate) fn placings_of(
    alloc: Global,
    module: &Module,
    plan: &Plan,
    placed: &Layout,
) -> Result<List<Placing>, NoMemory>
    requires plan { IsSoundPlan plan.now }
    requires placed { IsPlacedBy «module».now plan.now placed.now }
    ensures { IfOk result (λ placings. placings ≡ layout_placings (layout («module».now ∷ []) plan.now)) }
{
    modules_may_be_placed();
    let whole = placed.whole.as_slice();
    let (plain, _) = whole.split_at(placed.plain);
    let (sections, commons) = plain.split_at(module.parts().sections.len());
    let mut placings = all_placings(alloc, sections, commons, plan)?;
    add_copies(
        alloc,
        plan.regions.as_slice(),
        whole,
        placed.copies.as_slice(),
        placed.plain as u32,
        &mut placings,
    )?;
    Ok(placings)
}

// The extents of the sections whose bytes are moved.
fn shifts_of(
    alloc: Global,
    module: &Module,
    plan: &Plan,
    placed: &Layout,
) -> Result<Vec<Shift>, NoMemory>
    requires plan { IsSoundPlan plan.now }
    requires placed { IsPlacedBy «module».now plan.now placed.now }
    ensures { IfOk result (λ shifts. shifts.items ≡ layout_shifts (layout («module».now ∷ []) plan.now)) }
{
    let sections = module.parts().sections.as_slice();
    let copies = placed.copies.as_slice();
    if copies.is_empty() {
        return Ok(Vec::new(alloc));
    }
    let bases = placed.bases.as_slice();
    let regions = plan.regions.as_slice();
    let (_, copy_bases) = bases.split_at(placed.plain);
    let moves = region_moves(alloc, regions, copies, copy_bases)?;
    let placings = placings_of(alloc, module, plan, placed)?;
    let given = planned(alloc, placings.as_slice(), sections.len())?;
    let shifts = section_shifts(alloc, sections, bases, &given, &moves)?;
    Ok(shifts)
}

/// The location of a module, with the copies of regions, at its layout.
pub(crate) fn located_at(
    alloc: Global,
    module: &Module,
    plan: &Plan,
    placed: &Layout,
) -> Result<LocatedParts, LocateRefusal>
    requires names { AreDistinct (names_of «module».now.names.publics) }
    requires plan { IsSoundPlan plan.now }
    requires placed { IsPlacedBy «module».now plan.now placed.now }
    ensures located { IfOk result (IsLocatedWithCopies «module».now plan.now) }
    ensures refused { IfErr result (IsMet (copied_answer («module».now ∷ []) plan.now)) }
{
    modules_may_be_placed();
    a_module_is_valid(module);
    let located = locate(alloc, module, plan)?;
    let mut parts = located.into_parts();
    let shifts = shifts_of(alloc, module, plan, placed)?;
    let copies = placed.copies.as_slice();
    let (_, bases) = placed.bases.as_slice().split_at(placed.plain);
    parts.sections = with_placed_copies(alloc, parts.sections, copies, bases)?;
    parts.runs = move_runs(alloc, parts.runs, shifts)?;
    Ok(parts)
}
