//! Plans that need no more than sections and commons.

ghost use Rattle.std.specs.Prelude.{◌≤◌, IsTrue};
ghost use Rattle.mufom_planned.specs.PlanLaws.{AreLoadedInPlace, regions_size};
ghost use Rattle.mufom_locating.specs.Plain.{IsPlain};

use mufom_numbers::limits::MOST_PLAN_BYTES;
use mufom_plan::{Plan, Region};

/// Whether the plan loads each region where it is. Does not allocate.
pub(crate) fn loads_in_place(plan: &Plan) -> bool
    ensures { IsTrue result → AreLoadedInPlace plan.now.regions }
{
    plan.regions
        .as_slice()
        .iter()
        .all(|region| region.load.is_none())
}

/// Whether the plan has no symbols, and loads each region where it is. Does not allocate.
pub(crate) fn is_plain(plan: &Plan) -> bool
    ensures { IsTrue result → IsPlain plan.now }
{
    plan.symbols.is_empty() && loads_in_place(plan)
}

/// Whether the names of regions are no longer together than the text of a plan, as those of a plan that was read.
/// Does not allocate.
pub(crate) fn have_short_names(regions: &[Region]) -> bool
    ensures { IsTrue result → regions_size regions.now ≤ MOST_PLAN_BYTES }
{
    let mut room = MOST_PLAN_BYTES;
    for region in regions {
        if region.name.len() >= room {
            return false;
        }
        room -= region.name.len() + 1;
    }
    true
}
