//! Why a module is not located by a plan.

use crate::locate::LocateRefusal;
use mufom_numbers::{Bytes, NoMemory};
use thiserror::Error;

/// Why a module is not located by a plan.
#[derive(Debug, Drop, Error)]
pub enum PlannedRefusal {
    /// The name of the first symbol of the plan that has the name of a public.
    #[error("a symbol of the plan has the name of a public symbol")]
    SharedName(Bytes),
    /// Any other error; out of memory is one of these. Copies have the positions after sections and commons.
    #[error(transparent)]
    Locate(LocateRefusal),
}

impl From<LocateRefusal> for PlannedRefusal {
    ghost use Rattle.std.specs.Prelude.{◌≡◌};
    ghost use Rattle.mufom_refusals.specs.declared.planned.PlannedRefusal.TheVariants.{Locate};

    ghost from_gives = { λ refusal result. result ≡ Locate refusal };

    fn from(refusal: LocateRefusal) -> Self {
        PlannedRefusal::Locate(refusal)
    }
}

impl From<NoMemory> for PlannedRefusal {
    ghost use Rattle.std.specs.Prelude.{◌≡◌};
    ghost use Rattle.mufom_refusals.specs.declared.locate.LocateRefusal.TheVariants.{NoMemory as no_memory};
    ghost use Rattle.mufom_refusals.specs.declared.planned.PlannedRefusal.TheVariants.{Locate};

    ghost from_gives = { λ _ refusal. refusal ≡ Locate no_memory };

    fn from(_: NoMemory) -> Self {
        PlannedRefusal::Locate(LocateRefusal::NoMemory)
    }
}
