//! Why a module is not located.

use mufom_expr::FieldKind;
use mufom_meaning::Site;
use mufom_numbers::{Bytes, NoMemory};
use mufom_place::PlaceRefusal;
use thiserror::Error;

/// Why a module is not located. Sections are given by their positions, commons after those of the module;
/// addresses are in addressable units.
#[derive(Debug, Drop, Error)]
pub enum LocateRefusal {
    /// Sections or commons cannot be placed. Never `NoMemory`.
    #[error(transparent)]
    Place(PlaceRefusal),
    /// The name of the first strong reference that neither a public nor a common has.
    #[error("undefined symbol")]
    Undefined(Bytes),
    /// The name of the first common, if no region takes commons: weak references request space for it, and no public has it.
    #[error("no region takes common symbols")]
    CommonUnplaced(Bytes),
    /// The name of the first public whose expression leads back to itself.
    #[error("a public symbol is defined by itself")]
    Cycle(Bytes),
    /// The site of the first expression that divides by 0.
    #[error("division by zero")]
    DivideByZero(Site),
    /// A value that does not fit its field of `size` bytes.
    #[error("the value {value} does not fit its field of {size} bytes in section {section}")]
    Overflow {
        section: u32,
        address: u64,
        kind: FieldKind,
        size: u8,
        value: u64,
    },
    /// The first address, modulo the address space, of a byte that lies outside its section.
    #[error("a byte is loaded outside section {section}")]
    LoadOutside {
        section: u32,
        address: u64,
    },
    /// The first address at which a second byte is loaded.
    #[error("a byte is loaded twice at address {0}")]
    LoadedTwice(u64),
    /// The number of loaded bytes, which is above 67,108,864.
    #[error("the image has {0} bytes, which is too many")]
    ImageLimit(u128),
    /// Out of memory.
    #[error("out of memory")]
    NoMemory,
}

impl From<NoMemory> for LocateRefusal {
    ghost use Rattle.std.specs.Prelude.{◌≡◌};
    ghost use Rattle.mufom_refusals.specs.declared.locate.LocateRefusal.TheVariants.{NoMemory};

    ghost from_gives = { λ _ refusal. refusal ≡ NoMemory };

    fn from(_: NoMemory) -> Self {
        LocateRefusal::NoMemory
    }
}
