//! An outcome whose error is borrowed.

use crate::outcome::Outcome;
use mufom_numbers::Bytes;
use mufom_refusals::{LinkRefusal, LocateRefusal};

/// The outcome of a run, or the error of a layer that would end it.
#[derive(Clone, Copy, Debug)]
pub enum Cause<'a> {
    /// This outcome.
    Outcome(&'a Outcome),
    /// Files cannot be linked.
    Link(&'a LinkRefusal),
    /// No public symbol has this name, which should be kept.
    Keep(&'a Bytes),
    /// A public symbol has this name, which a symbol of the plan has too.
    SharedName(&'a Bytes),
    /// Files cannot be located. The number is the length of an address in units.
    Locate(&'a LocateRefusal, u8),
}
