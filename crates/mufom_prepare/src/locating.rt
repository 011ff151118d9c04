//! Links and locates the modules of a task.

ghost use Rattle.std.specs.Prelude.{◌≡◌, ◌<◌, ◌+◌, ◌^◌, None, Some, IfErr, IfOk};
ghost use Rattle.mufom_planned.specs.ReadPlans.{IsReadPlan};
ghost use Rattle.mufom_names.specs.Names.{names_of, AreDistinct};
ghost use Rattle.mufom_module.specs.Written.{weight};
ghost use Rattle.mufom_meaning.specs.Absolute.{absolute_of};
ghost use Rattle.mufom_words.specs.Tree.{tree_of};
ghost use Rattle.mufom_groups.specs.Groups.{most_weight, StopsWork};
ghost use Rattle.mufom_groups.specs.Linked.{linked_module};
ghost use Rattle.mufom_origins.specs.Origins.{origins_left};
ghost use Rattle.mufom_outcome.specs.Outcomes.{outcome_of_prune as of_prune};
ghost use Rattle.mufom_prepare.specs.Locations.{outcome_of_obstacle as of_obstacle, AreLinkable, AreMapped, HasPlan, IsKeptPart, IsObstacle, IsTracedLink};
ghost use Rattle.mufom_prepare.specs.Locations.{IsUnlocatedPart, LocatesPart};
ghost use Rattle.mufom_works.specs.Roots.{roots_by, roots_with};
ghost use Rattle.mufom_works.specs.WorkEnds.{own_kept, EndsAt};

use mufom_groups::link_with_members;
use mufom_located::Located;
use mufom_locating::{PlannedRefusal, locate_by_plan};
use mufom_module::{Module, a_module_is_valid};
use mufom_numbers::{Bytes, List, NoMemory};
use mufom_origins::Origins;
use mufom_outcome::{Outcome, outcome_of_link, outcome_of_planned, outcome_of_prune};
use mufom_plan::Plan;
use mufom_prune::{PruneRefusal, Pruned, prune_for};
use mufom_refusals::LinkRefusal;
use mufom_task::Inputs;
use std::alloc::Global;

/// A module with the origins of its entries.
#[derive(Drop)]
pub struct TracedModule {
    /// The modules of the flat list, with their places among all modules that were read, and the numbers of
    /// their entries that the module has.
    pub origins: Origins,
    /// The link of the flat list, or what is kept of it.
    pub module: Module,
}

/// The places of the modules of a flat list, among all modules that were read.
#[derive(Drop)]
pub struct Places {
    /// The number of modules of the tree, which come first.
    pub roots: usize,
    /// The positions of the members that were selected, among the modules after those of the tree.
    pub chosen: List<u32>,
}

/// A location, with all that is made of it.
#[derive(Drop)]
pub struct Location {
    /// The modules of the flat list, as in [`TracedModule`].
    pub origins: Origins,
    /// The module that is located.
    pub module: Module,
    pub plan: Plan,
    pub located: Located,
}

/// What keeps modules from being located; or memory ran out, with the variant of the layer that lacked it.
#[derive(Drop)]
pub enum Obstacle {
    /// A list of the modules cannot be linked.
    Unlinked(LinkRefusal),
    /// Nothing can be kept of their link.
    Unkept {
        refusal: PruneRefusal,
        plan: Plan,
        places: Places,
    },
    /// The link, or what is kept of it, cannot be located.
    Unlocated {
        refusal: PlannedRefusal,
        part: TracedModule,
        plan: Plan,
        places: Places,
    },
}

/// The outcome of a run that this ends.
pub(crate) fn outcome_of_obstacle(obstacle: Obstacle) -> Outcome
    ensures { result ≡ of_obstacle obstacle }
{
    match obstacle {
        Obstacle::Unlinked(refusal) => outcome_of_link(refusal),
        Obstacle::Unkept { refusal, .. } => outcome_of_prune(refusal),
        Obstacle::Unlocated { refusal, part, .. } => {
            outcome_of_planned(part.module.parts().maus, refusal)
        }
    }
}

// Links the modules of a task into one, and returns it with the origins of its entries and the places of the
// modules of its flat list.
fn traced_link(
    alloc: Global,
    inputs: &Inputs,
    modules: List<Module>,
) -> Result<(TracedModule, Places), LinkRefusal>
    requires linkable { AreLinkable inputs.now modules }
    ensures ok { IfOk result (λ both. IsTracedLink (tree_of inputs.now.marks) modules both.1 both.0) }
    ensures light { IfOk result (λ both. weight both.0.module < most_weight + 2 ^ 16) }
    ensures refused { IfErr result (λ e. StopsWork (linked_module (tree_of inputs.now.marks) None modules) e) }
{
    let Ok(origins) = Origins::of(alloc, modules.as_slice()) else {
        return Err(LinkRefusal::NoMemory);
    };
    let linked = match link_with_members(alloc, inputs.marks.as_slice(), &None, modules) {
        Ok(linked) => linked,
        Err(refusal) => return Err(refusal),
    };
    a_module_is_valid(&linked.module);
    let Ok(origins) = origins.selected(alloc, linked.roots, linked.chosen.as_slice()) else {
        return Err(LinkRefusal::NoMemory);
    };
    Ok((
        TracedModule {
            origins,
            module: linked.module,
        },
        Places {
            roots: linked.roots,
            chosen: linked.chosen,
        },
    ))
}

// The origins of what is left of a module, given those of the module.
fn left_origins(alloc: Global, origins: &Origins, left: &Pruned) -> Result<Origins, PruneRefusal>
    ensures ok { IfOk result (λ few. few ≡ origins_left left.now.sections.items left.now.publics.items origins.now) }
    ensures err { IfErr result (λ e. e ≡ PruneRefusal.NoMemory) }
{
    match origins.left(alloc, left.sections.as_slice(), left.publics.as_slice()) {
        Ok(few) => Ok(few),
        Err(NoMemory) => Err(PruneRefusal::NoMemory),
    }
}

// What remains of a module for the public symbols with these names, if the sections with the names in `stays`
// always stay, with the origins of what remains.
fn pruned_part(
    alloc: Global,
    whole: &TracedModule,
    names: &[Bytes],
    stays: &[Bytes],
) -> Result<TracedModule, PruneRefusal>
    requires names { AreDistinct (names_of whole.now.module.names.publics) }
    requires light { weight whole.now.module < most_weight + 2 ^ 16 }
    ensures ok { IfOk result (IsKeptPart (Some (record { names = names.now; stays = stays.now })) whole.now) }
    ensures names { IfOk result (λ part. AreDistinct (names_of part.module.names.publics)) }
    ensures light { IfOk result (λ part. weight part.module < most_weight + 2 ^ 16) }
    ensures stops { IfErr result (λ e. EndsAt (own_kept (Some (record { names = names.now; stays = stays.now })) whole.now.module) (of_prune e)) }
{
    let left = match prune_for(alloc, &whole.module, names, stays) {
        Ok(left) => left,
        Err(refusal) => return Err(refusal),
    };
    match left_origins(alloc, &whole.origins, &left) {
        Ok(origins) => Ok(TracedModule {
            origins,
            module: left.module,
        }),
        Err(refusal) => Err(refusal),
    }
}

// The module, or what remains of it if public symbols are named that should be kept.
fn kept_part(
    alloc: Global,
    keep: &[Bytes],
    stays: &[Bytes],
    whole: TracedModule,
) -> Result<TracedModule, PruneRefusal>
    requires names { AreDistinct (names_of whole.module.names.publics) }
    requires light { weight whole.module < most_weight + 2 ^ 16 }
    ensures ok { IfOk result (IsKeptPart (roots_with keep.now stays.now) whole) }
    ensures names { IfOk result (λ part. AreDistinct (names_of part.module.names.publics)) }
    ensures light { IfOk result (λ part. weight part.module < most_weight + 2 ^ 16) }
    ensures stops { IfErr result (λ e. EndsAt (own_kept (roots_with keep.now stays.now) whole.module) (of_prune e)) }
{
    match keep {
        [] => Ok(whole),
        names => pruned_part(alloc, &whole, names, stays),
    }
}

// Locates a module by a plan.
fn locate_part(
    alloc: Global,
    part: TracedModule,
    plan: Plan,
    places: Places,
) -> Result<Location, Obstacle>
    requires names { AreDistinct (names_of part.module.names.publics) }
    requires plan { IsReadPlan plan }
    requires light { weight part.module < most_weight + 2 ^ 16 }
    ensures ok { IfOk result (LocatesPart part plan) }
    ensures light { IfOk result (λ location. weight (absolute_of location.located) < 2 ^ 32) }
    ensures refused { IfErr result (IsUnlocatedPart part plan places) }
{
    match locate_by_plan(alloc, &part.module, &plan) {
        Ok(located) => {
            let TracedModule { origins, module } = part;
            Ok(Location {
                origins,
                module,
                plan,
                located,
            })
        }
        Err(refusal) => Err(Obstacle::Unlocated {
            refusal,
            part,
            plan,
            places,
        }),
    }
}

/// Links the modules of a task, and locates the link, or what remains of it if public symbols are named that
/// should be kept. The plan's names of sections say which sections then stay too. Returns the location, or what
/// keeps the modules from having one.
pub fn locate_modules(
    alloc: Global,
    inputs: &Inputs,
    keep: &List<Bytes>,
    plan: Plan,
    modules: List<Module>,
) -> Result<Location, Obstacle>
    requires linkable { AreLinkable inputs.now modules }
    requires plan { IsReadPlan plan }
    ensures ok { IfOk result (AreMapped (tree_of inputs.now.marks) (roots_by keep.now plan) plan modules) }
    ensures light { IfOk result (λ location. weight (absolute_of location.located) < 2 ^ 32) }
    ensures obstacle { IfErr result (IsObstacle (tree_of inputs.now.marks) keep.now modules) }
    ensures planned { IfErr result (HasPlan plan) }
{
    let (whole, places) = match traced_link(alloc, inputs, modules) {
        Ok(link) => link,
        Err(refusal) => return Err(Obstacle::Unlinked(refusal)),
    };
    match kept_part(alloc, keep.as_slice(), plan.keep.as_slice(), whole) {
        Ok(part) => locate_part(alloc, part, plan, places),
        Err(refusal) => Err(Obstacle::Unkept {
            refusal,
            plan,
            places,
        }),
    }
}
