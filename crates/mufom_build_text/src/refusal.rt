//! Why reading a text stopped.

use mufom_numbers::NoMemory;
use mufom_refusals::BuildReason;
use std::alloc::{AllocError, AllocFailed};

/// Why reading a text stopped.
#[derive(Clone, Copy, Debug, PartialEq, Eq)]
pub enum PieceStop {
    /// The text is wrong at this line and column, which count from 1; a column counts bytes.
    At {
        line: u32,
        column: u32,
        reason: BuildReason,
    },
    /// Memory ran out.
    NoMemory,
}

impl From<NoMemory> for PieceStop {
    ghost use Rattle.std.specs.Prelude.{◌≡◌};
    ghost use Rattle.mufom_build_text.specs.declared.refusal.PieceStop.TheVariants as stops;

    ghost from_gives = { λ _ stop. stop ≡ stops.NoMemory };

    fn from(_: NoMemory) -> Self {
        PieceStop::NoMemory
    }
}

impl From<AllocError> for PieceStop {
    ghost use Rattle.std.specs.Prelude.{◌≡◌};
    ghost use Rattle.mufom_build_text.specs.declared.refusal.PieceStop.TheVariants as stops;

    ghost from_gives = { λ _ stop. stop ≡ stops.NoMemory };

    fn from(_: AllocError) -> Self {
        PieceStop::NoMemory
    }
}

impl<T: Drop> From<AllocFailed<T>> for PieceStop {
    ghost use Rattle.std.specs.Prelude.{◌≡◌};
    ghost use Rattle.mufom_build_text.specs.declared.refusal.PieceStop.TheVariants as stops;

    ghost from_gives = { λ _ stop. stop ≡ stops.NoMemory };

    fn from(_: AllocFailed<T>) -> Self {
        PieceStop::NoMemory
    }
}
