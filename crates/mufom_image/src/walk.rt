//! The walk over the publics, the loads, the start and the debug expressions of a placed module.

ghost use Rattle.std.specs.Prelude.{◌≡◌, ◌∷◌, [], None, Some, IfOk, IfErr, OnOk};
ghost use Rattle.mufom_meaning.specs.Steps.{steps};
ghost use Rattle.mufom_meaning.specs.Walk.{steps_fact, walk_answer};
ghost use Rattle.mufom_image_bytes.specs.Modules.{IsReady};
ghost use Rattle.mufom_image_bytes.specs.Stops.{fact_of};
ghost use Rattle.mufom_image_values.specs.Evaluated.{setting_of};
ghost use Rattle.mufom_image_entries.specs.Valued.{IsValued, parts_of};
ghost use Rattle.mufom_image.specs.Entries.{AreRuns};
ghost use Rattle.mufom_image.specs.Refusals.{IsMet};
ghost use Rattle.mufom_image.specs.Stages.{public_division, start_division, debug_division, bases_of, valuation_of, MayBeWalked};

use mufom_copies::copy_bytes;
use mufom_image_bytes::{ImageStop, LoadRefusal, image_of_module};
use mufom_image_entries::{ValuedModule, divides_at_start, first_debug_division};
use mufom_meaning::{Run, Site};
use mufom_numbers::List;
use mufom_refusals::LocateRefusal;
use std::alloc::Global;

// Checks that no public divides by 0; the error names the first that does.
fn check_publics(alloc: Global, valued: &ValuedModule<'_>) -> Result<(), LocateRefusal>
    requires { IsValued valued.now }
    ensures ok { OnOk result (public_division (setting_of valued.now.placed.now) ≡ None) }
    ensures refused { IfErr result (IsMet (public_division (setting_of valued.now.placed.now))) }
{
    match valued.placed.first_division(valued.values) {
        Some(public) => {
            let name = copy_bytes(alloc, &public.name)?;
            Err(LocateRefusal::DivideByZero(Site::Public(name)))
        }
        None => Ok(()),
    }
}

// Converts the error that stopped the walk over the loads to an error of locating.
fn refusal_of(stop: LoadRefusal) -> LocateRefusal
    ensures { IsMet (Some (fact_of stop)) result }
{
    match stop {
        LoadRefusal::Counter { section } => LocateRefusal::DivideByZero(Site::Counter(section)),
        LoadRefusal::Field { section, address } => {
            LocateRefusal::DivideByZero(Site::Field { section, address })
        }
        LoadRefusal::Outside { section, address } => LocateRefusal::LoadOutside {
            section,
            address,
        },
        LoadRefusal::Overflow {
            section,
            address,
            kind,
            size,
            value,
        } => LocateRefusal::Overflow {
            section,
            address,
            kind,
            size,
            value,
        },
        LoadRefusal::Twice { address } => LocateRefusal::LoadedTwice(address),
    }
}

// The runs of the bytes that the module loads, or the first error on the walk over its loads.
fn runs_of(alloc: Global, valued: &ValuedModule<'_>) -> Result<List<Run>, LocateRefusal>
    requires valued { IsValued valued.now }
    requires ready { IsReady (parts_of valued.now) (bases_of valued.now.placed.now) valued.now.placed.now.bases.now (valuation_of valued.now) }
    ensures passed { OnOk result (steps_fact (setting_of valued.now.placed.now) [] (steps (parts_of valued.now ∷ [])) ≡ None) }
    ensures runs { IfOk result (AreRuns valued.now) }
    ensures refused { IfErr result (IsMet (steps_fact (setting_of valued.now.placed.now) [] (steps (parts_of valued.now ∷ [])))) }
{
    let placed = valued.placed;
    let values = placed.surroundings(valued.values, None);
    match image_of_module(alloc, placed.graph.parts, placed.bases, &values) {
        Ok(runs) => Ok(runs),
        Err(ImageStop::Refused(stop)) => Err(refusal_of(stop)),
        Err(ImageStop::NoMemory) => Err(LocateRefusal::NoMemory),
    }
}

// Checks that the start does not divide by 0.
fn check_start(valued: &ValuedModule<'_>) -> Result<(), LocateRefusal>
    requires { IsValued valued.now }
    ensures ok { OnOk result (start_division (parts_of valued.now) (setting_of valued.now.placed.now) ≡ None) }
    ensures refused { IfErr result (IsMet (start_division (parts_of valued.now) (setting_of valued.now.placed.now))) }
{
    if divides_at_start(valued) {
        return Err(LocateRefusal::DivideByZero(Site::Start));
    }
    Ok(())
}

// Checks that no debug expression divides by 0; the error gives the number of the first that does.
fn check_debug(alloc: Global, valued: &ValuedModule<'_>) -> Result<(), LocateRefusal>
    requires { IsValued valued.now }
    ensures ok { OnOk result (debug_division (parts_of valued.now) (setting_of valued.now.placed.now) ≡ None) }
    ensures refused { IfErr result (IsMet (debug_division (parts_of valued.now) (setting_of valued.now.placed.now))) }
{
    match first_debug_division(alloc, valued)? {
        Some(number) => Err(LocateRefusal::DivideByZero(Site::Debug(number))),
        None => Ok(()),
    }
}

/// Returns the runs of the bytes that the module loads, or the first error in its publics, its loads, its
/// start and its debug expressions, in this order.
pub(crate) fn walk_module(
    alloc: Global,
    valued: &ValuedModule<'_>,
) -> Result<List<Run>, LocateRefusal>
    requires valued { IsValued valued.now }
    requires ready { MayBeWalked valued.now }
    ensures passed { OnOk result (walk_answer (parts_of valued.now ∷ []) (setting_of valued.now.placed.now) ≡ None) }
    ensures runs { IfOk result (AreRuns valued.now) }
    ensures refused { IfErr result (IsMet (walk_answer (parts_of valued.now ∷ []) (setting_of valued.now.placed.now))) }
{
    check_publics(alloc, valued)?;
    let runs = runs_of(alloc, valued)?;
    check_start(valued)?;
    check_debug(alloc, valued)?;
    Ok(runs)
}
