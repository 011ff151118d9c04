//! What a module is located as: the module with the symbols of a plan, and the copies of regions.

ghost use Rattle.std.specs.Prelude.{◌≡◌, ◌≢◌, ◌<◌, ◌∷◌, ℕ, [], IfOk, IsTrue, None, not};
ghost use Rattle.mufom_plan.specs.declared.plan.PlanSymbol.{PlanSymbol};
ghost use Rattle.mufom_names.specs.Names.{names_of, AreDistinct};
ghost use Rattle.mufom_module.specs.Written.{weight};
ghost use Rattle.mufom_meaning.specs.Joined.{IsJoined};
ghost use Rattle.mufom_meaning.specs.StagingLaws.{MeansTheSame};
ghost use Rattle.mufom_plan.specs.SoundPlans.{IsSoundPlan};
ghost use Rattle.mufom_meaning.specs.Placed.{extended_sections};
ghost use Rattle.mufom_planned.specs.Layout.{layout};
ghost use Rattle.mufom_planned.specs.PlanSymbols.{first_shared, with_symbols};
ghost use Rattle.mufom_planned.specs.Planned.{copied_answer, planned_answer};
ghost use Rattle.mufom_planned.specs.Shown.{shown_list};
ghost use Rattle.mufom_locating.specs.Placed.{AreCopies};
ghost use Rattle.mufom_locating.specs.Light.{weight_limit};
ghost use Rattle.mufom_locating.specs.Linked.{HaveNumbers, IsLinkWith};
ghost use Rattle.mufom_locating.specs.Numbered.{AreValues};
ghost use Rattle.mufom_planned.specs.ReadPlans.{IsReadPlan};

use crate::layout::{copies_among, layout_of, plain_sections};
use crate::locating::{values_at, zeros};
use crate::plain::loads_in_place;
use crate::symbols::linked_with;
use mufom_image::LocateRefusal;
use mufom_module::Module;
use mufom_numbers::{List, NoMemory};
use mufom_place::RegionCopy;
use mufom_plan::Plan;
use mufom_sections::Section;
use std::alloc::Global;

// The link of a module and of the symbols of a plan with these values, if no symbol has the name of a public.
fn linked(alloc: Global, module: &Module, plan: &Plan, values: &[u64]) -> Result<Module, NoMemory>
    requires names { AreDistinct (names_of «module».now.names.publics) }
    requires light { weight «module».now < weight_limit }
    requires plan { IsReadPlan plan.now }
    requires unshared { first_shared («module».now ∷ []) plan.now ≡ None }
    requires values { HaveNumbers «module».now.maus plan.now.symbols values.now }
    ensures { IfOk result (λ m. (numbers : PlanSymbol → ℕ) → AreValues «module».now.maus numbers plan.now.symbols values.now
        → IsLinkWith «module».now numbers plan.now.symbols m) }
{
    match linked_with(alloc, module, plan.symbols.as_slice(), values) {
        Ok(link) => Ok(link),
        // No symbol has the name of a public, so this is out of memory.
        Err(_) => Err(NoMemory),
    }
}

// The link of a module and of the names of a plan's symbols.
fn named(alloc: Global, module: &Module, plan: &Plan) -> Result<Module, NoMemory>
    requires names { AreDistinct (names_of «module».now.names.publics) }
    requires light { weight «module».now < weight_limit }
    requires plan { IsReadPlan plan.now }
    requires some { plan.now.symbols ≢ [] }
    requires unshared { first_shared («module».now ∷ []) plan.now ≡ None }
    ensures { IfOk result (IsLinkWith «module».now (λ symbol. 0) plan.now.symbols) }
{
    let zeros = zeros(alloc, plan.symbols.len())?;
    Ok(linked(alloc, module, plan, &zeros)?)
}

// Whether an error is out of memory.
fn is_memory(refusal: &LocateRefusal) -> bool
    ensures { IsTrue (not result) → refusal.now ≢ LocateRefusal.NoMemory }
{
    matches!(refusal, LocateRefusal::NoMemory)
}

/// The module that is located by a plan with symbols: the link of a module with the symbols.
///
/// If sections, commons or copies cannot be placed, symbols have no addresses, and their values here are 0. No
/// public name may occur twice in the module, and no symbol may have the name of a public.
pub fn with_plan_symbols(alloc: Global, module: &Module, plan: &Plan) -> Result<Module, NoMemory>
    requires names { AreDistinct (names_of «module».now.names.publics) }
    requires light { weight «module».now < weight_limit }
    requires plan { IsReadPlan plan.now }
    requires some { plan.now.symbols ≢ [] }
    requires unshared { first_shared («module».now ∷ []) plan.now ≡ None }
    // What is returned is the link, under the module's name.
    ensures joined { IfOk result (λ m. IsJoined m (shown_list («module».now ∷ []) plan.now) «module».now.name) }
    ensures means { IfOk result (λ m. MeansTheSame (m ∷ []) (shown_list («module».now ∷ []) plan.now)) }
    // No public name occurs twice in it.
    ensures names { IfOk result (λ m. AreDistinct (names_of m.names.publics)) }
    // The same keeps it from being located as the module by the plan.
    ensures answers { IfOk result (λ m. copied_answer (m ∷ []) plan.now ≡ copied_answer (with_symbols («module».now ∷ []) plan.now) plan.now) }
{
    let named = named(alloc, module, plan)?;
    let placed = match layout_of(alloc, &named, plan) {
        Ok(placed) => placed,
        Err(refusal) => {
            if is_memory(&refusal) {
                return Err(NoMemory);
            }
            return Ok(named);
        }
    };
    let values = values_at(alloc, &named, plan, &placed)?;
    Ok(linked(alloc, module, plan, &values)?)
}

// The copies of regions, given the sections and commons of a module.
fn copies(
    alloc: Global,
    module: &Module,
    plan: &Plan,
    plain: &[Section],
) -> Result<List<RegionCopy>, NoMemory>
    requires plan { IsSoundPlan plan.now }
    requires plain { plain.now ≡ extended_sections («module».now ∷ []) plan.now }
    ensures copies { IfOk result (AreCopies (layout («module».now ∷ []) plan.now)) }
{
    if loads_in_place(plan) {
        return Ok(List::new(alloc));
    }
    match copies_among(alloc, module, plan, plain) {
        Ok(copies) => Ok(copies),
        Err(_) => Err(NoMemory),
    }
}

/// The copies of regions by a plan, for a module as it is, whether or not they fit.
///
/// A copy of 2^64 addresses or more is out of memory. There is none if all sections and commons fit.
pub fn module_copies(
    alloc: Global,
    module: &Module,
    plan: &Plan,
) -> Result<List<RegionCopy>, NoMemory>
    requires plan { IsSoundPlan plan.now }
    ensures { IfOk result (λ copies. copies ≡ (layout («module».now ∷ []) plan.now).copied) }
{
    let plain = plain_sections(alloc, module, plan)?;
    copies(alloc, module, plan, plain.as_slice())
}

/// The copies of regions in the location of a module by a plan.
pub fn planned_copies(
    alloc: Global,
    module: &Module,
    plan: &Plan,
) -> Result<List<RegionCopy>, NoMemory>
    requires names { AreDistinct (names_of «module».now.names.publics) }
    requires light { weight «module».now < weight_limit }
    requires plan { IsReadPlan plan.now }
    requires located { planned_answer («module».now ∷ []) plan.now ≡ None }
    ensures { IfOk result (λ copies. copies ≡ (layout (with_symbols («module».now ∷ []) plan.now) plan.now).copied) }
{
    if loads_in_place(plan) {
        return Ok(List::new(alloc));
    }
    if plan.symbols.is_empty() {
        return Ok(module_copies(alloc, module, plan)?);
    }
    let named = named(alloc, module, plan)?;
    Ok(module_copies(alloc, &named, plan)?)
}
