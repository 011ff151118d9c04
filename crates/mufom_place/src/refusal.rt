//! Why sections cannot be placed.

use mufom_numbers::NoMemory;
use thiserror::Error;

/// Why sections cannot be placed. Sections and regions are given by their positions, from 0.
#[derive(Clone, Copy, Debug, PartialEq, Eq, Error)]
pub enum PlaceRefusal {
    /// A section has no base, and no list of the plan matches its name.
    #[error("no region takes section {0}")]
    Unplaced(u32),
    /// A section begins outside the address space, ends past its end, or ends past the end of the region that
    /// it is placed in. A section with a base of its own is in no region.
    #[error("section {section} does not fit")]
    Misfit { section: u32, region: Option<u32> },
    /// Two sections of positive size share an address. The one that begins first comes first.
    #[error("sections {0} and {1} overlap")]
    Overlap(u32, u32),
    /// Out of memory.
    #[error("out of memory")]
    NoMemory,
}

impl From<NoMemory> for PlaceRefusal {
    ghost use Rattle.std.specs.Prelude.{◌≡◌};
    ghost use Rattle.mufom_place.specs.declared.refusal.PlaceRefusal.TheVariants.{NoMemory};

    ghost from_gives = { λ _ refusal. refusal ≡ NoMemory };

    fn from(_: NoMemory) -> Self {
        PlaceRefusal::NoMemory
    }
}
