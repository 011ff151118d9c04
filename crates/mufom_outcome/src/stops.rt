//! The outcome of a run that an error of a layer ends.

ghost use Rattle.std.specs.Prelude.{◌≡◌};
ghost use Rattle.mufom_outcome.specs.Outcomes.{outcome_of_link as of_link, outcome_of_locate as of_locate, outcome_of_planned as of_planned, outcome_of_prune as of_prune, stop_answer};

use crate::outcome::{Outcome, Refusal};
use mufom_refusals::{LinkRefusal, LocateRefusal, PlannedRefusal, PruneRefusal};
use mufom_words::WordsStop;

/// The outcome of arguments that are not a command.
pub fn outcome_of_stop(stop: WordsStop) -> Outcome
    ensures { result ≡ stop_answer stop }
{
    match stop {
        WordsStop::Usage(fault) => Outcome::Usage(fault),
        WordsStop::TooManyFiles(count) => Outcome::Refused(Refusal::TooManyFiles(count)),
        WordsStop::TooDeep(depth) => Outcome::Refused(Refusal::TooDeep(depth)),
        WordsStop::NoMemory => Outcome::NoMemory,
    }
}

/// The outcome if modules cannot be linked.
pub fn outcome_of_link(refusal: LinkRefusal) -> Outcome
    ensures { result ≡ of_link refusal }
{
    match refusal {
        LinkRefusal::NoMemory => Outcome::NoMemory,
        refusal => Outcome::Refused(Refusal::Link(refusal)),
    }
}

/// The outcome if modules cannot be located. `maus` is the length of an address in units.
pub fn outcome_of_locate(maus: u8, refusal: LocateRefusal) -> Outcome
    ensures { result ≡ of_locate maus refusal }
{
    match refusal {
        LocateRefusal::NoMemory => Outcome::NoMemory,
        refusal => Outcome::Refused(Refusal::Locate(refusal, maus)),
    }
}

/// The outcome if modules cannot be located by a plan. `maus` is the length of an address in units.
pub fn outcome_of_planned(maus: u8, refusal: PlannedRefusal) -> Outcome
    ensures { result ≡ of_planned maus refusal }
{
    match refusal {
        PlannedRefusal::SharedName(name) => Outcome::Refused(Refusal::SharedName(name)),
        PlannedRefusal::Locate(refusal) => outcome_of_locate(maus, refusal),
    }
}

/// The outcome if a module cannot be pruned.
pub fn outcome_of_prune(refusal: PruneRefusal) -> Outcome
    ensures { result ≡ of_prune refusal }
{
    match refusal {
        PruneRefusal::NoMemory => Outcome::NoMemory,
        PruneRefusal::Unknown(name) => Outcome::Refused(Refusal::Keep(name)),
    }
}
