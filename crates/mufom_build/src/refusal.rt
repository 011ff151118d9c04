//! The conversion of the error of a piece to that of `build`.

ghost use Rattle.std.specs.Prelude.{◌≡◌, ℕ};
ghost use Rattle.mufom_module.specs.declared.module.Defect.{Defect};
ghost use Rattle.mufom_refusals.specs.declared.build.BuildReason.{BuildReason};

use mufom_build_text::PieceStop;
use mufom_refusals::BuildRefusal;

/// Converts the error of a piece to an error of [`build`](crate::build).
pub(crate) fn refusal_of(stop: PieceStop) -> BuildRefusal
    ensures defect { (d : Defect) → result ≡ BuildRefusal.Module d → ⊥ }
    ensures at { (line column : ℕ) (reason : BuildReason) → result ≡ BuildRefusal.At line column reason
        → stop ≡ PieceStop.At line column reason }
{
    match stop {
        PieceStop::At {
            line,
            column,
            reason,
        } => BuildRefusal::At {
            line,
            column,
            reason,
        },
        PieceStop::NoMemory => BuildRefusal::NoMemory,
    }
}
