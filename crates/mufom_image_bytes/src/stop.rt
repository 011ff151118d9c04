//! Why a module has no image.

use crate::refusal::LoadRefusal;
use mufom_numbers::NoMemory;
use thiserror::Error;

/// Why the loads of a module make no image.
#[derive(Debug, Drop, Error)]
pub enum ImageStop {
    /// The error that stopped the walk over the loads.
    #[error(transparent)]
    Refused(LoadRefusal),
    /// Out of memory.
    #[error("out of memory")]
    NoMemory,
}

impl From<NoMemory> for ImageStop {
    ghost use Rattle.std.specs.Prelude.{◌≡◌};
    ghost use Rattle.mufom_image_bytes.specs.declared.stop.ImageStop.TheVariants.{NoMemory};

    ghost from_gives = { λ _ refusal. refusal ≡ NoMemory };

    fn from(_: NoMemory) -> Self {
        ImageStop::NoMemory
    }
}
