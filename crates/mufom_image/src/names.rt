//! The names and counts that keep a module from being located.

ghost use Rattle.std.specs.Prelude.{◌≡◌, ◌∷◌, [], None, IfErr, OnOk};
ghost use Rattle.mufom_image_values.specs.Evaluated.{IsGraph};
ghost use Rattle.mufom_image_values.specs.Resolutions.{resolutions_of};
ghost use Rattle.mufom_image.specs.Refusals.{IsMet};
ghost use Rattle.mufom_image.specs.Stages.{unresolved, roomless, circular, oversized, judged, IsJudged};

use crate::commons::has_common;
use mufom_copies::copy_bytes;
use mufom_image_values::{
    Components, Graph, Resolution, components_of, first_common, first_on_cycle, first_undefined,
};
use mufom_loads::loaded_bytes;
use mufom_module::{Module, items_are_within_the_weight};
use mufom_numbers::limits::MOST_IMAGE_BYTES;
use mufom_plan::Plan;
use mufom_refusals::LocateRefusal;
use std::alloc::Global;

// Checks that each strong reference has a public or a common; the error names the first that has neither.
fn check_undefined(
    alloc: Global,
    module: &Module,
    resolutions: &[Resolution],
) -> Result<(), LocateRefusal>
    requires { resolutions.now ≡ resolutions_of «module».now }
    ensures ok { OnOk result (unresolved «module».now ≡ None) }
    ensures refused { IfErr result (IsMet (unresolved «module».now)) }
{
    match first_undefined(module, resolutions) {
        Some(reference) => Err(LocateRefusal::Undefined(copy_bytes(alloc, &reference.name)?)),
        None => Ok(()),
    }
}

// Checks that a region takes the commons if there are any; the error names the first common.
fn check_commons(
    alloc: Global,
    module: &Module,
    resolutions: &[Resolution],
    plan: &Plan,
) -> Result<(), LocateRefusal>
    requires { resolutions.now ≡ resolutions_of «module».now }
    ensures ok { OnOk result (roomless «module».now plan.now ≡ None) }
    ensures refused { IfErr result (IsMet (roomless «module».now plan.now)) }
{
    if has_common(plan.regions.as_slice()) {
        return Ok(());
    }
    match first_common(module, resolutions) {
        Some(reference) => Err(LocateRefusal::CommonUnplaced(copy_bytes(alloc, &reference.name)?)),
        None => Ok(()),
    }
}

// Returns the components of the publics if no public's expression leads back to itself; otherwise the error
// names the first public whose expression does.
fn acyclic_components(alloc: Global, graph: &Graph<'_>) -> Result<Components, LocateRefusal>
    requires { IsGraph graph.now }
    ensures ok { OnOk result (circular graph.now.parts.now ≡ None) }
    ensures refused { IfErr result (IsMet (circular graph.now.parts.now)) }
{
    let components = components_of(alloc, graph)?;
    match first_on_cycle(alloc, graph, &components)? {
        Some(public) => Err(LocateRefusal::Cycle(copy_bytes(alloc, &public.name)?)),
        None => Ok(components),
    }
}

// Checks that the loads have no more bytes than an image may have; the error gives their number.
fn check_limit(module: &Module) -> Result<(), LocateRefusal>
    ensures ok { OnOk result (oversized «module».now ≡ None) }
    ensures refused { IfErr result (IsMet (oversized «module».now)) }
{
    items_are_within_the_weight();
    let count = loaded_bytes(module.parts().loads.as_slice());
    if count > MOST_IMAGE_BYTES as u128 {
        return Err(LocateRefusal::ImageLimit(count));
    }
    Ok(())
}

/// Checks everything, apart from the placement, that can keep the module from being located before its
/// expressions are evaluated. Returns the components of the publics, or the first error: an undefined
/// reference, a common that no region takes, a public that leads back to itself, too many loaded bytes.
pub(crate) fn check_module(
    alloc: Global,
    module: &Module,
    graph: &Graph<'_>,
    plan: &Plan,
) -> Result<Components, LocateRefusal>
    requires parts { graph.now.parts.now ≡ «module».now }
    requires graph { IsGraph graph.now }
    ensures ok { OnOk result (IsJudged «module».now plan.now) }
    ensures refused { IfErr result (IsMet (judged «module».now plan.now)) }
{
    check_undefined(alloc, module, graph.resolutions)?;
    check_commons(alloc, module, graph.resolutions, plan)?;
    let components = acyclic_components(alloc, graph)?;
    check_limit(module)?;
    Ok(components)
}
