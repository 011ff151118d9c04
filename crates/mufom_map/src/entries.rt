//! The sections and public symbols of a map.

ghost use Rattle.std.specs.Prelude.{◌≡◌, ◌<◌, ◌^◌, None, length, option_map, slice_index_or};
ghost use Rattle.mufom_text.specs.Fitting.{IsUnitCount};
ghost use Rattle.mufom_map.specs.MapText.{section_line};
ghost use Rattle.mufom_map.specs.Shown.{shown_section};

use crate::lines::section_line;
use mufom_meaning::PublicValue;
use mufom_origins::{Origins, Place};
use mufom_sections::Section;
use mufom_text::Output;

/// The located sections, commons and copies with their regions, and the public symbols.
#[derive(Drop)]
pub(crate) struct Entries<'a> {
    pub(crate) maus: u8,
    pub(crate) origins: &'a Origins,
    pub(crate) sections: &'a [Section],
    pub(crate) section_regions: Vec<Option<u32>>,
    // The number from which on sections are copies.
    pub(crate) first_copy: usize,
    pub(crate) publics: &'a [PublicValue],
    ghost units: { IsUnitCount maus },
    ghost few_sections: { length sections.now < 2 ^ 32 },
    ghost few_publics: { length publics.now < 2 ^ 32 },
}

/// The position of the module of a place.
pub(crate) fn module_of(place: Option<Place>) -> Option<usize>
    ensures { result ≡ option_map (λ p. p.«module») place }
{
    match place {
        Some(place) => Some(place.module),
        None => None,
    }
}

// The region of the section with a number; `None` past the last section.
fn region_at(regions: &[Option<u32>], number: u32) -> Option<u32>
    ensures { result ≡ slice_index_or regions.now number None }
{
    match regions.get(number as usize) {
        Some(region) => *region,
        None => None,
    }
}

impl<'a> Entries<'a> {
    /// The line of a section, common or copy.
    pub(crate) fn section_line<K: Output>(&self, out: &mut K, number: u32, section: &Section)
        ensures { K.takes out.old out.new (section_line self.now.maus
            (shown_section self.now.origins.now self.now.section_regions.items self.now.first_copy (number, section.now))) }
    {
        let region = region_at(&self.section_regions, number);
        let origin = module_of(self.origins.section(number));
        let copy = number as usize >= self.first_copy;
        section_line(out, self.maus, number, section, region, origin, copy);
    }
}
