//! The bases of sections, if each lies within the address space and its region.

ghost use Rattle.std.specs.Prelude.{◌≡◌, ◌≤◌, ◌<◌, ◌^◌, None, Some, IfOk, IfErr, OnOk, length, map};
ghost use Rattle.mufom_place.specs.Bases.{numbered, site_by, site_with};
ghost use Rattle.mufom_place.specs.Facts.{IsAnswer, first_some, is_past as ends_past, misfit_by, misfit_with};

use crate::PlaceRefusal;
use crate::bases::planned;
use crate::placing::{AssignedBase, Placing};
use mufom_numbers::List;
use mufom_plan::Region;
use mufom_sections::Section;
use std::alloc::Global;

/// The base of a section: its own, or else the one that a region gives it.
pub(crate) fn site(base: Option<u64>, placing: Option<Placing>) -> AssignedBase
    ensures { result ≡ site_with base placing }
{
    match (base, placing) {
        (Some(base), _) => AssignedBase {
            base: base as u128,
            region: None,
        },
        (None, Some(placing)) => AssignedBase {
            base: placing.base,
            region: Some(placing.region),
        },
        (None, None) => AssignedBase {
            base: 0,
            region: None,
        },
    }
}

/// Whether an end is above the end of the region.
fn is_past(regions: &[Region], region: Option<u32>, end: u128) -> bool
    ensures { result ≡ ends_past regions.now region end }
{
    let Some(place) = region else {
        return false;
    };
    match regions.get(place as usize) {
        Some(region) => region.base as u128 + (region.size as u128) < end,
        None => false,
    }
}

/// The base of the section at a position, if it lies within the address space and its region.
fn fitting_base(
    place: u32,
    size: u64,
    site: AssignedBase,
    regions: &[Region],
    width: u32,
) -> Result<u64, PlaceRefusal>
    requires { width ≤ 64 }
    ensures base { IfOk result (λ base. base ≡ site.base) }
    ensures fits { OnOk result (misfit_with (2 ^ width) regions.now place size site ≡ None) }
    ensures misfit { IfErr result (λ refusal. misfit_with (2 ^ width) regions.now place size site ≡ Some refusal) }
{
    let misfit = PlaceRefusal::Misfit {
        section: place,
        region: site.region,
    };
    let modulus = 1u128 << width;
    if site.base >= modulus {
        return Err(misfit);
    }
    let end = site.base + size as u128;
    if end > modulus || is_past(regions, site.region, end) {
        return Err(misfit);
    }
    Ok(site.base as u64)
}

/// The bases of sections, by their own bases and by what the regions of a plan give.
pub fn bases(
    alloc: Global,
    sections: &[Section],
    regions: &[Region],
    placings: &[Placing],
    width: u32,
) -> Result<List<u64>, PlaceRefusal>
    requires width { width ≤ 64 }
    requires count { length sections.now < 2 ^ 32 }
    ensures bases { IfOk result (λ list. list ≡ map (λ s. (site_by placings.now s).base) (numbered sections.now)) }
    ensures fit { OnOk result (first_some (misfit_by (2 ^ width) regions.now placings.now) (numbered sections.now) ≡ None) }
    ensures misfit { IfErr result (IsAnswer (first_some (misfit_by (2 ^ width) regions.now placings.now) (numbered sections.now))) }
{
    let planned = planned(alloc, placings, sections.len())?;
    let mut bases = List::new(alloc);
    for (place, section) in sections.iter().enumerate() {
        let site = site(section.base, planned[place]);
        bases.push(fitting_base(place as u32, section.size, site, regions, width)?)?;
    }
    Ok(bases)
}
