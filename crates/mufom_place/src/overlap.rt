//! Sections that share an address.

ghost use Rattle.std.specs.Prelude.{◌≡◌, ◌<◌, ◌^◌, None, Some, Ok, IfOk, length};
ghost use Rattle.mufom_place.specs.Bases.{numbered};
ghost use Rattle.mufom_place.specs.Facts.{extents as extents_of, first_overlap as overlap_of, in_order};

use crate::PlaceRefusal;
use crate::placing::Extent;
use mufom_numbers::NoMemory;
use mufom_sections::Section;
use std::alloc::Global;

/// The sections of positive size with their bases.
fn extents(alloc: Global, sections: &[Section], bases: &[u64]) -> Result<Vec<Extent>, NoMemory>
    requires count { length sections.now < 2 ^ 32 }
    requires same { length bases.now ≡ length sections.now }
    ensures { IfOk result (λ list. list.items ≡ extents_of (numbered sections.now) bases.now) }
{
    let mut extents = Vec::new(alloc);
    for (place, section) in sections.iter().enumerate() {
        if section.size == 0 {
            continue;
        }
        extents.push(Extent {
            base: bases[place],
            section: place as u32,
            size: section.size,
        })?;
    }
    Ok(extents)
}

/// The first two neighbours of which the second begins before the first ends.
fn first_overlap(extents: &[Extent]) -> Option<PlaceRefusal>
    ensures { result ≡ overlap_of extents.now }
{
    let mut rest = extents;
    while let [first, after @ ..] = rest {
        if let Some(second) = after.first() {
            if (second.base as u128) < first.base as u128 + first.size as u128 {
                return Some(PlaceRefusal::Overlap(first.section, second.section));
            }
        }
        rest = after;
    }
    None
}

/// The first two neighbours that overlap, in the order of the bases and then of the positions.
pub fn overlap(
    alloc: Global,
    sections: &[Section],
    bases: &[u64],
) -> Result<Option<PlaceRefusal>, NoMemory>
    requires count { length sections.now < 2 ^ 32 }
    requires same { length bases.now ≡ length sections.now }
    ensures { IfOk result (λ found. found ≡ overlap_of (in_order (extents_of (numbered sections.now) bases.now))) }
{
    let mut extents = extents(alloc, sections, bases)?;
    extents.sort()?;
    Ok(first_overlap(&extents))
}
