//! The modules that `make` generates.

ghost use Rattle.std.specs.Prelude.{◌≡◌, ◌≤◌, IfErr, IfOk};
ghost use Rattle.mufom_make.specs.Generated.{made_modules, made_plan};
ghost use Rattle.mufom_numbers.specs.declared.limits.TheConstants.{MOST_MODULES};
ghost use Rattle.mufom_groups.specs.Work.{gives};
ghost use Rattle.mufom_works.specs.WorkEnds.{EndsAt};
ghost use Rattle.mufom_works.specs.Works.{located, making, printed as printing};

use mufom_image::Located;
use mufom_make::{locate_generated, summary_text};
use mufom_numbers::NoMemory;
use mufom_outcome::{Outcome, outcome_of_locate};
use std::alloc::Global;

// The length of an address of the generated modules, in addressable units.
const UNITS: u8 = 4;

// Generates and locates `count` modules, or returns the outcome of the run.
fn generated(alloc: Global, count: u32) -> Result<Located, Outcome>
    requires some { 1 ≤ count }
    requires few { count ≤ MOST_MODULES }
    ensures ok { IfOk result (λ r. located (made_plan count) (made_modules count) (gives r)) }
    ensures stops { IfErr result (EndsAt (located (made_plan count) (made_modules count))) }
{
    match locate_generated(alloc, count) {
        Ok(located) => Ok(located),
        Err(refusal) => Err(outcome_of_locate(UNITS, refusal)),
    }
}

/// Generates and locates `count` modules, and returns the summary of their location; or the outcome of the
/// run.
pub fn generated_text(alloc: Global, count: u32) -> Result<Vec<u8>, Outcome>
    requires some { 1 ≤ count }
    requires few { count ≤ MOST_MODULES }
    ensures ok { IfOk result (λ text. making count (gives (printing text.items))) }
    ensures stops { IfErr result (EndsAt (making count)) }
{
    let located = match generated(alloc, count) {
        Ok(located) => located,
        Err(stop) => return Err(stop),
    };
    match summary_text(alloc, count, &located) {
        Ok(text) => Ok(text),
        Err(NoMemory) => Err(Outcome::NoMemory),
    }
}
