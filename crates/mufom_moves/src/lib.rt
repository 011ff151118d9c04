//! Loaded bytes that are moved: those of some extents of addresses, each extent by a distance of its own.
//!
//! [`move_runs`] takes the runs of loaded bytes and the extents, and returns the runs of the bytes at their new
//! addresses. A run whose bytes are all moved by the same distance is moved without copying them.
#![tactic(auto)]

mod joining;
mod moving;
mod pieces;
mod shift;

pub use moving::move_runs;
pub use shift::Shift;
