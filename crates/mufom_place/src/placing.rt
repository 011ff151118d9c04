//! Sections that wait for a base, the bases that regions give, and copies of regions.

use mufom_sections::Section;

/// A section that waits for its base.
#[derive(Clone, Copy, Debug, PartialEq, Eq)]
pub struct Waiting {
    /// Its position.
    pub section: u32,
    pub align: u64,
    pub size: u64,
}

/// The base that a region gives to a section.
#[derive(Clone, Copy, Debug, PartialEq, Eq)]
pub struct Placing {
    /// The section's position.
    pub section: u32,
    /// The region's position.
    pub region: u32,
    pub base: u128,
}

/// The base of a section, and the region that gives it, if the section has no base of its own.
#[derive(Clone, Copy, Debug, PartialEq, Eq)]
pub struct AssignedBase {
    pub base: u128,
    pub region: Option<u32>,
}

/// A section of positive size with its base. Sections are put in order by their bases, and then by
/// their positions.
#[derive(Clone, Copy, Debug, PartialEq, Eq, PartialOrd, Ord)]
pub struct Extent {
    pub base: u64,
    pub section: u32,
    pub size: u64,
}

/// The copy of a region: the bytes of its sections where they are loaded, as one more section of another region.
#[derive(Debug, Drop)]
pub struct RegionCopy {
    /// The position of the region whose bytes it has.
    pub source: u32,
    /// The position of the region that holds it.
    pub holder: u32,
    /// The section as which it is placed there. It has the name of the first region.
    pub section: Section,
}
