//! Why a module could not be pruned.

use mufom_numbers::{Bytes, NoMemory};
use thiserror::Error;

/// Why a module could not be pruned.
#[derive(Debug, Drop, Error)]
pub enum PruneRefusal {
    /// No public has this name.
    #[error("no public symbol has the name to keep")]
    Unknown(Bytes),
    /// Out of memory.
    #[error("out of memory")]
    NoMemory,
}

impl From<NoMemory> for PruneRefusal {
    ghost use Rattle.std.specs.Prelude.{◌≡◌};
    ghost use Rattle.mufom_refusals.specs.declared.prune.PruneRefusal.TheVariants.{NoMemory};

    ghost from_gives = { λ _ refusal. refusal ≡ NoMemory };

    fn from(_: NoMemory) -> Self {
        PruneRefusal::NoMemory
    }
}
