//! Why a list of modules cannot be linked.

use mufom_meaning::Descriptor;
use mufom_numbers::{Bytes, NoMemory};
use thiserror::Error;

/// Why a list of modules cannot be linked.
#[derive(Debug, Drop, Error)]
pub enum LinkRefusal {
    /// The descriptor of the first module, and the first one that differs from it.
    #[error("the modules differ in the length of an address or in byte order")]
    Mismatch(Descriptor, Descriptor),
    /// The name of the first public symbol that has the name of an earlier one.
    #[error("duplicate public symbol")]
    Duplicate(Bytes),
    /// More than one module has a start.
    #[error("more than one module has a start address")]
    DuplicateStart,
    /// Out of memory.
    #[error("out of memory")]
    NoMemory,
}

impl From<NoMemory> for LinkRefusal {
    ghost use Rattle.std.specs.Prelude.{◌≡◌};
    ghost use Rattle.mufom_refusals.specs.declared.link.LinkRefusal.TheVariants.{NoMemory};

    ghost from_gives = { λ _ refusal. refusal ≡ NoMemory };

    fn from(_: NoMemory) -> Self {
        LinkRefusal::NoMemory
    }
}
