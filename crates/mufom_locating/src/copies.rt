//! The copies of regions in a location.

ghost use Rattle.std.specs.Prelude.{◌≡◌, ◌++◌, IfOk, Some, length, true};
ghost use Rattle.mufom_locating.specs.Copied.{placed_copies};

use mufom_copies::copy_section;
use mufom_numbers::{List, NoMemory};
use mufom_place::RegionCopy;
use mufom_sections::Section;
use std::alloc::Global;

// A copy as a section of a location, at its base.
fn placed_copy(alloc: Global, copy: &RegionCopy, base: u64) -> Result<Section, NoMemory>
    ensures { IfOk result (λ section. section ≡ record copy.now.section { absolute = true; base = Some base }) }
{
    let mut section = copy_section(alloc, &copy.section)?;
    section.absolute = true;
    section.base = Some(base);
    Ok(section)
}

/// The sections, and after them the copies at their bases.
pub(crate) fn with_placed_copies(
    alloc: Global,
    sections: List<Section>,
    copies: &[RegionCopy],
    bases: &[u64],
) -> Result<List<Section>, NoMemory>
    requires { length bases.now ≡ length copies.now }
    ensures { IfOk result (λ all. all ≡ sections ++ placed_copies copies.now bases.now) }
{
    let mut all = sections;
    for place in 0..copies.len() {
        all.push(placed_copy(alloc, &copies[place], bases[place])?)?;
    }
    Ok(all)
}
