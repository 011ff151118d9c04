//! The regions that sections and commons are placed in.

ghost use Rattle.std.specs.Prelude.{◌≡◌, ◌<◌, ◌+◌, ◌^◌, ◌++◌, None, IfOk, length, map, All, slice_index_or};
ghost use Rattle.mufom_plan.specs.Names.{AreDistinctNames, listed_names};
ghost use Rattle.mufom_place.specs.Bases.{numbered, placings as placings_of, site_of};
ghost use Rattle.mufom_place.specs.Facts.{IsAligned, first_some, unplaced_at};
ghost use Rattle.mufom_place.specs.Packing.{IsLow};

use crate::PlaceRefusal;
use crate::bases::planned;
use crate::fit::site;
use crate::placement::regional;
use crate::placing::Placing;
use mufom_numbers::{List, NoMemory};
use mufom_plan::Plan;
use mufom_sections::Section;
use std::alloc::Global;

/// The bases that the regions of a plan give to sections and commons, region by region and in the order in
/// which a region is filled, whether they fit there or not.
///
/// Every section without a base must match a list of the plan. Alignments are 1 to 2^31, there are fewer than
/// 2^32 sections and commons together and fewer than 2^32 regions, and no section name occurs twice in the
/// plan. The only error is out of memory.
pub fn all_placings(
    alloc: Global,
    sections: &[Section],
    commons: &[Section],
    plan: &Plan,
) -> Result<List<Placing>, NoMemory>
    requires alignments { All IsAligned sections.now }
    requires aligned_commons { All IsAligned commons.now }
    requires count { length sections.now + length commons.now < 2 ^ 32 }
    requires regions { length plan.now.regions < 2 ^ 32 }
    requires names { AreDistinctNames (listed_names plan.now.regions) }
    requires placed { first_some (unplaced_at (listed_names plan.now.regions)) (numbered sections.now) ≡ None }
    ensures given { IfOk result (λ list. list ≡ placings_of plan.now sections.now commons.now) }
    ensures low { IfOk result (All IsLow) }
{
    match regional(alloc, sections, commons, plan) {
        Ok(placings) => Ok(placings),
        Err(PlaceRefusal::NoMemory) => Err(NoMemory),
        Err(_) => unreachable!(),
    }
}

/// The section or common at a position.
fn section_at<'a>(sections: &'a [Section], commons: &'a [Section], place: usize) -> &'a Section
    requires { place < length sections.now + length commons.now }
    ensures { result.now ≡ slice_index_or (sections.now ++ commons.now) place result.now }
{
    if place < sections.len() {
        &sections[place]
    } else {
        &commons[place - sections.len()]
    }
}

/// The region of each section, and after them of each common, by a plan; `None` for a section with a
/// base of its own.
///
/// Every section without a base must match a list of the plan. Alignments are 1 to 2^31, there are fewer than
/// 2^32 sections and commons together and fewer than 2^32 regions, and no section name occurs twice in the
/// plan. The only error is out of memory.
pub fn section_regions(
    alloc: Global,
    sections: &[Section],
    commons: &[Section],
    plan: &Plan,
) -> Result<Vec<Option<u32>>, NoMemory>
    requires alignments { All IsAligned sections.now }
    requires aligned_commons { All IsAligned commons.now }
    requires count { length sections.now + length commons.now < 2 ^ 32 }
    requires regions { length plan.now.regions < 2 ^ 32 }
    requires names { AreDistinctNames (listed_names plan.now.regions) }
    requires placed { first_some (unplaced_at (listed_names plan.now.regions)) (numbered sections.now) ≡ None }
    ensures { IfOk result (λ regions. regions.items
        ≡ map (λ s. (site_of plan.now sections.now commons.now s).region) (numbered (sections.now ++ commons.now))) }
{
    let placings = all_placings(alloc, sections, commons, plan)?;
    let planned = planned(alloc, placings.as_slice(), sections.len() + commons.len())?;
    let mut regions = Vec::with_capacity(alloc, planned.len())?;
    for place in 0..planned.len() {
        let section = section_at(sections, commons, place);
        regions.push(site(section.base, planned[place]).region)?;
    }
    Ok(regions)
}
