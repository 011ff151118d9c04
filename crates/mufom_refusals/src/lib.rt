//! The errors of linking, pruning, locating, building from a listing and reading TI-TXT: the types alone, so that
//! the error lines of the program need not wait for the crates that do this work.
//!
//! It depends on `mufom_meaning` and the crates below it, whose types the errors name. Its only functions are
//! conversions: from `NoMemory`, and from the error of locating to that of locating by a plan. Their contracts say
//! which error results.
#![tactic(auto)]

mod build;
mod link;
mod locate;
mod planned;
mod prune;
mod text;

pub use build::{BuildReason, BuildRefusal};
pub use link::LinkRefusal;
pub use locate::LocateRefusal;
pub use planned::PlannedRefusal;
pub use prune::PruneRefusal;
pub use text::{TxtReason, TxtRefusal};
