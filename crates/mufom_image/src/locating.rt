//! The location of a module.

ghost use Rattle.std.specs.Prelude.{◌≡◌, ◌≤◌, ◌∷◌, [], length, IfOk, IfErr};
ghost use Rattle.mufom_names.specs.Names.{names_of, AreDistinct};
ghost use Rattle.mufom_module.specs.Written.{weight};
ghost use Rattle.mufom_meaning.specs.Absolute.{absolute_of};
ghost use Rattle.mufom_meaning.specs.LocateAnswer.{locate_answer};
ghost use Rattle.mufom_meaning.specs.Location.{IsLocation};
ghost use Rattle.mufom_image_values.specs.Resolutions.{resolutions_of};
ghost use Rattle.mufom_located.specs.Located.{IsLocated};
ghost use Rattle.mufom_image.specs.Placements.{StandsAt};
ghost use Rattle.mufom_plan.specs.SoundPlans.{IsSoundPlan};
ghost use Rattle.mufom_image.specs.Refusals.{IsMet};
ghost use Rattle.mufom_image.specs.Stages.{most_weight};

use crate::entries::located_parts;
use crate::names::check_module;
use crate::placing::{Placement, placed_sections, placing};
use crate::walk::walk_module;
use mufom_image_entries::ValuedModule;
use mufom_image_values::{Graph, PlacedModule, Resolution, resolve_references};
use mufom_located::Located;
use mufom_meaning::{LocatedParts, absolute_weighs};
use mufom_module::Module;
use mufom_plan::Plan;
use mufom_refusals::LocateRefusal;
use std::alloc::Global;

// The module with the bases of its sections, followed by the bases of its commons.
fn placed_module<'a>(
    module: &'a Module,
    resolutions: &'a [Resolution],
    bases: &'a [u64],
) -> PlacedModule<'a>
    requires { length «module».now.sections ≤ length bases.now }
    ensures { StandsAt «module».now resolutions.now bases.now result }
{
    let parts = module.parts();
    let (bases, commons) = bases.split_at(parts.sections.len());
    PlacedModule {
        graph: Graph { parts, resolutions },
        bases,
        commons,
    }
}

// The parts of the location of a module, given what its references resolve to.
fn located(
    alloc: Global,
    module: &Module,
    resolutions: &[Resolution],
    plan: &Plan,
) -> Result<LocatedParts, LocateRefusal>
    requires met { resolutions.now ≡ resolutions_of «module».now }
    requires names { AreDistinct (names_of «module».now.names.publics) }
    requires plan { IsSoundPlan plan.now }
    ensures sound { IfOk result IsLocated }
    ensures located { IfOk result (IsLocation («module».now ∷ []) plan.now) }
    ensures light { IfOk result (λ parts. weight (absolute_of parts) ≤ most_weight «module».now) }
    ensures refused { IfErr result (IsMet (locate_answer («module».now ∷ []) plan.now)) }
{
    absolute_weighs();
    let Placement { sections, bases } = placing(alloc, module, resolutions, plan)?;
    let placed = placed_module(module, resolutions, bases.as_slice());
    let components = check_module(alloc, module, &placed.graph, plan)?;
    let values = placed.public_values(alloc, &components)?;
    let valued = ValuedModule {
        placed: &placed,
        values: values.as_slice(),
    };
    let runs = walk_module(alloc, &valued)?;
    let sections = placed_sections(sections, bases.as_slice());
    Ok(located_parts(alloc, &valued, sections, runs)?)
}

/// Locates a module by a plan: the sections and commons get their bases, each public, start and debug
/// expression its value, and the loaded bytes are returned as runs of consecutive addresses.
///
/// No public name may occur twice in the module. The plan has fewer than 2^32 regions, no section name twice
/// and at most one region for the commons, as [`read_plan`](mufom_plan::read_plan) returns it. Both are
/// borrowed and stay as they are.
pub fn locate(alloc: Global, module: &Module, plan: &Plan) -> Result<Located, LocateRefusal>
    requires names { AreDistinct (names_of «module».now.names.publics) }
    requires plan { IsSoundPlan plan.now }

    // What is returned is the location, and nothing keeps the module from having one.
    ensures located { IfOk result (IsLocation («module».now ∷ []) plan.now) }
    // Its absolute module weighs little more than the module.
    ensures light { IfOk result (λ located. weight (absolute_of located) ≤ most_weight «module».now) }
    // The error is the first thing that keeps the module from being located, or out of memory.
    ensures refused { IfErr result (IsMet (locate_answer («module».now ∷ []) plan.now)) }
{
    let resolutions = resolve_references(alloc, module)?;
    let parts = located(alloc, module, resolutions.as_slice(), plan)?;
    Ok(Located::sound(parts))
}
