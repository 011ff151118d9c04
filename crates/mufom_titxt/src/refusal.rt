//! Why no runs are read from a TI-TXT text.

use mufom_numbers::NoMemory;
use mufom_refusals::TxtRefusal;
use thiserror::Error;

/// Why no runs are read from a TI-TXT text.
#[derive(Clone, Copy, Debug, PartialEq, Eq, Error)]
pub enum TxtStop {
    /// The text is not a TI-TXT text.
    #[error(transparent)]
    Refused(TxtRefusal),
    /// Out of memory.
    #[error("out of memory")]
    NoMemory,
}

impl From<NoMemory> for TxtStop {
    ghost use Rattle.std.specs.Prelude.{◌≡◌};
    ghost use Rattle.mufom_titxt.specs.declared.refusal.TxtStop.TheVariants.{NoMemory};

    ghost from_gives = { λ _ stop. stop ≡ NoMemory };

    fn from(_: NoMemory) -> Self {
        TxtStop::NoMemory
    }
}
