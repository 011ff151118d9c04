//! Makes the map of a location.

ghost use Rattle.std.specs.Prelude.{◌≡◌, ◌<◌, ◌^◌, ◌∷◌, ◌++◌, [], Some, IfOk, OnOk, length, map};
ghost use Rattle.mufom_module.specs.Defects.{IsValid};
ghost use Rattle.mufom_place.specs.Bases.{numbered, site_by};
ghost use Rattle.mufom_plan.specs.Names.{AreDistinctNames, listed_names};
ghost use Rattle.mufom_located.specs.Located.{IsLocated};
ghost use Rattle.mufom_planned.specs.Layout.{layout_placings, whole_list};
ghost use Rattle.mufom_planned.specs.Planned.{IsPlanned};
ghost use Rattle.mufom_map.specs.Mapped.{mapped_by, planned_layout};
ghost use Rattle.mufom_map.specs.Shown.{bare};
ghost use Rattle.mufom_map.specs.ShownMap.{shown, AreEntriesOf};

use crate::entries::Entries;
use crate::map::Map;
use crate::order::{publics_in_order, sections_in_order};
use crate::room::Room;
use crate::unused::placed_names;
use mufom_located::Located;
use mufom_meaning::LocatedParts;
use mufom_module::{Module, Parts};
use mufom_numbers::{Bytes, NoMemory};
use mufom_origins::Origins;
use mufom_place::{RegionCopy, section_regions};
use mufom_plan::Plan;
use mufom_sections::Section;
use std::alloc::Global;

// A common as it was before it was placed.
fn bare(alloc: Global, placed: &Section) -> Result<Section, NoMemory>
    ensures { IfOk result (λ section. section ≡ bare placed.now) }
{
    Ok(Section {
        name: Bytes::from_slice(alloc, placed.name.as_slice())?,
        absolute: false,
        purpose: placed.purpose,
        size: placed.size,
        align: placed.align,
        base: None,
    })
}

// Commons as they were before they were placed.
fn all_bare(alloc: Global, placed: &[Section]) -> Result<Vec<Section>, NoMemory>
    ensures { IfOk result (λ sections. sections.items ≡ map bare placed.now) }
{
    let mut sections = Vec::with_capacity(alloc, placed.len())?;
    for section in placed {
        sections.push(bare(alloc, section)?)?;
    }
    Ok(sections)
}

// Appends the regions that hold copies.
fn add_holders(regions: &mut Vec<Option<u32>>, copies: &[RegionCopy]) -> Result<(), NoMemory>
    ensures { OnOk result (regions.new.items ≡ regions.old.items ++ map (λ c. Some c.holder) copies.now) }
{
    for copy in copies {
        regions.push(Some(copy.holder))?;
    }
    Ok(())
}

// The region of each section, common and copy of a location.
fn regions_of(
    alloc: Global,
    parts: &Parts,
    plan: &Plan,
    copies: &[RegionCopy],
    located: &LocatedParts,
) -> Result<Vec<Option<u32>>, NoMemory>
    requires valid { IsValid parts.now }
    requires names { AreDistinctNames (listed_names plan.now.regions) }
    requires regions { length plan.now.regions < 2 ^ 32 }
    requires located { IsLocated located.now }
    requires planned { IsPlanned (parts.now ∷ []) plan.now located.now }
    requires copies { copies.now ≡ (planned_layout (parts.now ∷ []) plan.now).copied }
    ensures { IfOk result (λ regions. let l = planned_layout (parts.now ∷ []) plan.now in
        regions.items ≡ map (λ s. (site_by (layout_placings l) s).region) (numbered (whole_list l))) }
{
    let own = parts.sections.as_slice();
    let (_, placed) = located.sections.as_slice().split_at(own.len());
    let (placed_commons, _) = placed.split_at(placed.len() - copies.len());
    let commons = all_bare(alloc, placed_commons)?;
    let mut regions = section_regions(alloc, own, &commons, plan)?;
    add_holders(&mut regions, copies)?;
    Ok(regions)
}

/// Returns the entries of the map of the location of a module by a plan, with these copies of regions. Memory is
/// in proportion to the number of sections.
pub(crate) fn entries_of<'a>(
    alloc: Global,
    origins: &'a Origins,
    module: &Module,
    plan: &Plan,
    copies: &[RegionCopy],
    located: &'a Located,
) -> Result<Entries<'a>, NoMemory>
    requires names { AreDistinctNames (listed_names plan.now.regions) }
    requires regions { length plan.now.regions < 2 ^ 32 }
    requires planned { IsPlanned («module».now ∷ []) plan.now located.now }
    requires copies { copies.now ≡ (planned_layout («module».now ∷ []) plan.now).copied }
    ensures { IfOk result (AreEntriesOf origins.now (planned_layout («module».now ∷ []) plan.now) located.now) }
{
    let parts = located.parts();
    let sections = parts.sections.as_slice();
    let section_regions = regions_of(alloc, module.parts(), plan, copies, parts)?;
    Ok(Entries {
        maus: parts.maus,
        origins,
        sections,
        section_regions,
        first_copy: sections.len() - copies.len(),
        publics: parts.publics.as_slice(),
    })
}

/// Returns the map of the location of a module by a plan, with these copies of regions. Memory is in proportion
/// to the number of sections and publics, and the bytes of the names of sections.
pub(crate) fn map_of<'a>(
    alloc: Global,
    origins: &'a Origins,
    module: &Module,
    plan: &'a Plan,
    copies: &[RegionCopy],
    located: &'a Located,
) -> Result<Map<'a>, NoMemory>
    requires names { AreDistinctNames (listed_names plan.now.regions) }
    requires regions { length plan.now.regions < 2 ^ 32 }
    requires planned { IsPlanned («module».now ∷ []) plan.now located.now }
    requires copies { copies.now ≡ (planned_layout («module».now ∷ []) plan.now).copied }
    ensures { IfOk result (λ map. shown map ≡ mapped_by origins.now (planned_layout («module».now ∷ []) plan.now) located.now) }
{
    let entries = entries_of(alloc, origins, module, plan, copies, located)?;
    let parts = located.parts();
    let own = module.parts();
    let room = Room::of(alloc, entries.sections)?;
    let placed = placed_names(alloc, own.sections.as_slice())?;
    let section_order = sections_in_order(alloc, entries.sections)?;
    let public_order = publics_in_order(alloc, entries.publics)?;
    Ok(Map {
        entries,
        regions: plan.regions.as_slice(),
        room,
        placed,
        section_order,
        public_order,
        start: parts.start,
        runs: parts.runs.as_slice(),
    })
}
