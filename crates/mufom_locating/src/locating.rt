//! Locating a module by a plan.

ghost use Rattle.std.specs.Prelude.{◌≡◌, ◌≢◌, ◌<◌, ◌^◌, ◌∷◌, [], All, IfOk, IfErr, IsTrue, replicate};
ghost use Rattle.mufom_place.specs.Packing.{IsLow};
ghost use Rattle.mufom_names.specs.Names.{names_of, AreDistinct};
ghost use Rattle.mufom_module.specs.Written.{weight};
ghost use Rattle.mufom_meaning.specs.Absolute.{absolute_of};
ghost use Rattle.mufom_plan.specs.SoundPlans.{IsSoundPlan};
ghost use Rattle.mufom_image.specs.Refusals.{IsMet};
ghost use Rattle.mufom_planned.specs.Layout.{layout};
ghost use Rattle.mufom_planned.specs.Numbers.{symbol_number};
ghost use Rattle.mufom_planned.specs.PlanLaws.{HaveShortRegions};
ghost use Rattle.mufom_planned.specs.Planned.{copied_answer, planned_answer, IsPlanned};
ghost use Rattle.mufom_locating.specs.Copied.{IsLocatedWithCopies};
ghost use Rattle.mufom_locating.specs.Light.{weight_limit};
ghost use Rattle.mufom_locating.specs.Numbered.{AreValues};
ghost use Rattle.mufom_locating.specs.Placed.{IsNamedLayout, IsPlacedBy};
ghost use Rattle.mufom_locating.specs.Plain.{IsPlain};
ghost use Rattle.mufom_planned.specs.ReadPlans.{IsReadPlan};
ghost use Rattle.mufom_locating.specs.Refusals.{IsMetBy};

use crate::copied::{located_at, placings_of};
use crate::layout::{Layout, layout_of};
use crate::moves::region_moves;
use crate::numbers::{Numbering, symbol_values};
use crate::plain::{have_short_names, is_plain};
use crate::symbols::linked_with;
use mufom_image::{LocateRefusal, locate};
use mufom_located::Located;
use mufom_meaning::{LocatedParts, modules_may_be_placed};
use mufom_module::{Module, a_module_is_valid};
use mufom_numbers::NoMemory;
use mufom_place::{PlaceRefusal, Placing, filled_to, index_of_entries, waiting_sections};
use mufom_plan::Plan;
use mufom_planned::{
    plain_plans_mean_the_same, planned_absolute_is_located_as_itself, planned_absolute_is_valid,
    planned_absolute_weighs, planned_is_locatable,
};
use mufom_refusals::PlannedRefusal;
use std::alloc::Global;

// Whether all bases are addresses of 64 bits.
fn are_low(placings: &[Placing]) -> bool
    ensures { IsTrue result → All IsLow placings.now }
{
    placings
        .iter()
        .all(|placing| placing.base <= u64::MAX as u128)
}

// The values of the plan's symbols, at the layout of a module that has their names.
pub(crate) fn values_at(
    alloc: Global,
    named: &Module,
    plan: &Plan,
    placed: &Layout,
) -> Result<Vec<u64>, NoMemory>
    requires plan { IsSoundPlan plan.now }
    requires placed { IsPlacedBy named.now plan.now placed.now }
    ensures { IfOk result (λ values. AreValues named.now.maus
        (λ symbol. symbol_number (layout (named.now ∷ []) plan.now) symbol.value) plan.now.symbols values.items) }
{
    modules_may_be_placed();
    let parts = named.parts();
    let regions = plan.regions.as_slice();
    let bases = placed.bases.as_slice();
    let index = index_of_entries(alloc, plan)?;
    let entries = match waiting_sections(alloc, parts.sections.as_slice(), &index) {
        Ok(entries) => entries,
        Err(PlaceRefusal::NoMemory) => return Err(NoMemory),
        Err(_) => unreachable!(),
    };
    let placings = placings_of(alloc, named, plan, placed)?;
    // Nothing that fits is placed as high.
    if !are_low(placings.as_slice()) {
        return Err(NoMemory);
    }
    let ends = filled_to(alloc, regions, placed.whole.as_slice(), placings.as_slice())?;
    let (_, copy_bases) = bases.split_at(placed.plain);
    let moves = region_moves(alloc, regions, placed.copies.as_slice(), copy_bases)?;
    let numbering = Numbering {
        regions,
        entries: &entries,
        bases,
        moves: &moves,
        ends: &ends,
    };
    let values = symbol_values(alloc, plan.symbols.as_slice(), &numbering, parts.maus)?;
    Ok(values)
}

// The location of a module by a plan without symbols.
fn locate_copied(alloc: Global, module: &Module, plan: &Plan) -> Result<LocatedParts, LocateRefusal>
    requires names { AreDistinct (names_of «module».now.names.publics) }
    requires plan { IsSoundPlan plan.now }
    ensures located { IfOk result (IsLocatedWithCopies «module».now plan.now) }
    ensures refused { IfErr result (IsMet (copied_answer («module».now ∷ []) plan.now)) }
{
    let placed = layout_of(alloc, module, plan)?;
    located_at(alloc, module, plan, &placed)
}

// A list of zeros, one for each symbol, section or common.
pub(crate) fn zeros(alloc: Global, count: usize) -> Result<Vec<u64>, NoMemory>
    ensures { IfOk result (λ zeros. zeros.items ≡ replicate count 0) }
{
    Ok(vec![in alloc; 0; count]?)
}

// The layout of a module with the names of the plan's symbols, and the values of these symbols.
fn named_layout(
    alloc: Global,
    module: &Module,
    plan: &Plan,
) -> Result<(Layout, Vec<u64>), PlannedRefusal>
    requires names { AreDistinct (names_of «module».now.names.publics) }
    requires plan { IsReadPlan plan.now }
    requires some { plan.now.symbols ≢ [] }
    requires light { weight «module».now < weight_limit }
    ensures laid { IfOk result (λ both. IsNamedLayout «module».now plan.now both.0 both.1.items) }
    ensures refused { IfErr result (IsMetBy (planned_answer («module».now ∷ []) plan.now)) }
{
    let symbols = plan.symbols.as_slice();
    let zeros = zeros(alloc, symbols.len())?;
    let named = linked_with(alloc, module, symbols, &zeros)?;
    let placed = layout_of(alloc, &named, plan)?;
    let values = values_at(alloc, &named, plan, &placed)?;
    Ok((placed, values))
}

// The location of a module by a plan with symbols.
fn locate_named(alloc: Global, module: &Module, plan: &Plan) -> Result<LocatedParts, PlannedRefusal>
    requires names { AreDistinct (names_of «module».now.names.publics) }
    requires plan { IsReadPlan plan.now }
    requires some { plan.now.symbols ≢ [] }
    requires light { weight «module».now < weight_limit }
    ensures located { IfOk result (IsPlanned («module».now ∷ []) plan.now) }
    ensures refused { IfErr result (IsMetBy (planned_answer («module».now ∷ []) plan.now)) }
{
    let (placed, values) = named_layout(alloc, module, plan)?;
    let whole = linked_with(alloc, module, plan.symbols.as_slice(), &values)?;
    Ok(located_at(alloc, &whole, plan, &placed)?)
}

// The parts of the location of a module by a plan.
fn located_parts(
    alloc: Global,
    module: &Module,
    plan: &Plan,
) -> Result<LocatedParts, PlannedRefusal>
    requires names { AreDistinct (names_of «module».now.names.publics) }
    requires plan { IsReadPlan plan.now }
    requires light { weight «module».now < weight_limit }
    ensures located { IfOk result (IsPlanned («module».now ∷ []) plan.now) }
    ensures refused { IfErr result (IsMetBy (planned_answer («module».now ∷ []) plan.now)) }
{
    if plan.symbols.is_empty() {
        return Ok(locate_copied(alloc, module, plan)?);
    }
    locate_named(alloc, module, plan)
}

// The location of a module by a plan whose regions have short names.
fn locate_short(alloc: Global, module: &Module, plan: &Plan) -> Result<Located, PlannedRefusal>
    requires names { AreDistinct (names_of «module».now.names.publics) }
    requires plan { IsReadPlan plan.now }
    requires light { weight «module».now < weight_limit }
    requires short { HaveShortRegions plan.now }
    ensures located { IfOk result (IsPlanned («module».now ∷ []) plan.now) }
    ensures light { IfOk result (λ located. weight (absolute_of located) < 2 ^ 32) }
    ensures refused { IfErr result (IsMetBy (planned_answer («module».now ∷ []) plan.now)) }
{
    planned_is_locatable();
    planned_absolute_weighs();
    planned_absolute_is_valid();
    planned_absolute_is_located_as_itself();
    a_module_is_valid(module);
    let parts = located_parts(alloc, module, plan)?;
    Ok(Located::sound(parts))
}

// The location of a module by a plan with symbols or loads.
fn locate_planned(alloc: Global, module: &Module, plan: &Plan) -> Result<Located, PlannedRefusal>
    requires names { AreDistinct (names_of «module».now.names.publics) }
    requires plan { IsReadPlan plan.now }
    requires light { weight «module».now < weight_limit }
    ensures located { IfOk result (IsPlanned («module».now ∷ []) plan.now) }
    ensures light { IfOk result (λ located. weight (absolute_of located) < 2 ^ 32) }
    ensures refused { IfErr result (IsMetBy (planned_answer («module».now ∷ []) plan.now)) }
{
    if have_short_names(plan.regions.as_slice()) {
        return locate_short(alloc, module, plan);
    }
    // No plan of 65,536 bytes has longer names.
    Err(PlannedRefusal::Locate(LocateRefusal::NoMemory))
}

// The location of a module by a plan without symbols and loads.
fn locate_plain(alloc: Global, module: &Module, plan: &Plan) -> Result<Located, LocateRefusal>
    requires names { AreDistinct (names_of «module».now.names.publics) }
    requires plan { IsSoundPlan plan.now }
    requires plain { IsPlain plan.now }
    requires light { weight «module».now < weight_limit }
    ensures located { IfOk result (IsPlanned («module».now ∷ []) plan.now) }
    ensures light { IfOk result (λ located. weight (absolute_of located) < 2 ^ 32) }
    ensures refused { IfErr result (λ refusal. IsMetBy (planned_answer («module».now ∷ []) plan.now) (PlannedRefusal.Locate refusal)) }
{
    plain_plans_mean_the_same();
    match locate(alloc, module, plan) {
        Ok(located) => Ok(located),
        Err(refusal) => Err(refusal),
    }
}

/// Locates a module by a plan with symbols, and with regions that are loaded into other regions.
///
/// The sections and commons get their bases, the symbols of the plan follow the publics of the module, and the
/// copies of regions follow sections and commons. Each expression gets its value, and the loaded bytes are returned
/// as runs: those of a region with a copy in the copy, all others at the addresses of their sections.
///
/// No public name may occur twice in the module, and the plan is as [`read_plan`](mufom_plan::read_plan) returns it.
/// Both are borrowed and stay as they are. The first error is returned, or out of memory: a symbol with the name of
/// a public, and then the errors of [`locate`], over all sections, commons and copies.
pub fn locate_by_plan(
    alloc: Global,
    module: &Module,
    plan: &Plan,
) -> Result<Located, PlannedRefusal>
    requires names { AreDistinct (names_of «module».now.names.publics) }
    requires plan { IsReadPlan plan.now }
    requires light { weight «module».now < weight_limit }

    // What is returned is the location, and nothing keeps the module from having one.
    ensures located { IfOk result (IsPlanned («module».now ∷ []) plan.now) }
    // Its absolute module can be written.
    ensures light { IfOk result (λ located. weight (absolute_of located) < 2 ^ 32) }
    // The error is the first thing that keeps the module from being located, or out of memory.
    ensures refused { IfErr result (IsMetBy (planned_answer («module».now ∷ []) plan.now)) }
{
    if is_plain(plan) {
        return Ok(locate_plain(alloc, module, plan)?);
    }
    locate_planned(alloc, module, plan)
}
