//! Why the inputs of a task were not all read.

ghost use Rattle.std.specs.Prelude.{◌≡◌, []};

use mufom_outcome::Outcome;
use std::alloc::Global;

/// Why the inputs of a task were not all read.
#[derive(Drop)]
pub struct Unread {
    /// The outcome of the run.
    pub outcome: Outcome,
    /// The bytes of the plan, if the outcome is that they are refused.
    pub plan: Vec<u8>,
}

impl Unread {
    /// For an outcome that is not an error in the plan.
    pub(crate) fn without_plan(alloc: Global, outcome: Outcome) -> Unread
        ensures { result.outcome ≡ outcome }
    {
        Unread {
            outcome,
            plan: Vec::new(alloc),
        }
    }
}
