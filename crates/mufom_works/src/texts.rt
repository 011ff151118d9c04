//! The module of a text: of a TI-TXT text, or of a listing.

ghost use Rattle.std.specs.Prelude.{◌≤◌, ◌*◌, length, IfErr, IfOk};
ghost use Rattle.mufom_numbers.specs.declared.limits.TheConstants.{MOST_FILE_BYTES as most};
ghost use Rattle.mufom_titxt.specs.TextModules.{HaveModule};
ghost use Rattle.mufom_groups.specs.Work.{gives};
ghost use Rattle.mufom_works.specs.WorkEnds.{EndsAt};
ghost use Rattle.mufom_works.specs.Works.{parts_of_listing, parts_of_txt, runs_of_text};

use mufom_build::BuildRefusal;
use mufom_meaning::Run;
use mufom_module::Module;
use mufom_numbers::{List, NoMemory};
use mufom_outcome::{Outcome, Refusal};
use mufom_titxt::{TxtStop, read_txt, text_module};
use std::alloc::Global;

// The runs of a text, or the outcome of the run. An address has `maus` units.
fn runs_of(alloc: Global, text: &[u8], maus: u8) -> Result<List<Run>, Outcome>
    requires low { 1 ≤ maus }
    requires high { maus ≤ 8 }
    requires short { length text.now ≤ most }
    ensures ok { IfOk result (λ runs. runs_of_text maus text.now (gives runs)) }
    ensures few { IfOk result (λ runs. HaveModule (8 * maus) runs) }
    ensures stops { IfErr result (EndsAt (runs_of_text maus text.now)) }
{
    match read_txt(alloc, text, maus) {
        Ok(runs) => Ok(runs),
        Err(TxtStop::Refused(refusal)) => Err(Outcome::Refused(Refusal::Text(refusal))),
        Err(TxtStop::NoMemory) => Err(Outcome::NoMemory),
    }
}

/// Makes the module of a text, or returns the outcome of the run. An address has `maus` units.
pub fn module_of(alloc: Global, text: &[u8], maus: u8) -> Result<Module, Outcome>
    requires low { 1 ≤ maus }
    requires high { maus ≤ 8 }
    requires short { length text.now ≤ most }
    ensures ok { IfOk result (λ «module». parts_of_txt maus text.now (gives «module»)) }
    ensures stops { IfErr result (EndsAt (parts_of_txt maus text.now)) }
{
    let runs = match runs_of(alloc, text, maus) {
        Ok(runs) => runs,
        Err(stop) => return Err(stop),
    };
    match text_module(alloc, runs.as_slice(), maus) {
        Ok(module) => Ok(module),
        Err(NoMemory) => Err(Outcome::NoMemory),
    }
}

/// Builds a module from a listing, or returns the outcome of the run.
pub fn built_from(alloc: Global, text: &[u8]) -> Result<Module, Outcome>
    requires { length text.now ≤ most }
    ensures ok { IfOk result (λ «module». parts_of_listing text.now (gives «module»)) }
    ensures stops { IfErr result (EndsAt (parts_of_listing text.now)) }
{
    match mufom_build::build(alloc, text) {
        Ok(module) => Ok(module),
        Err(BuildRefusal::NoMemory) => Err(Outcome::NoMemory),
        Err(BuildRefusal::Module(defect)) => Err(Outcome::Refused(Refusal::Build(
            BuildRefusal::Module(defect),
        ))),
        Err(
            BuildRefusal::At {
                line,
                column,
                reason,
            },
        ) => Err(Outcome::Refused(Refusal::Build(BuildRefusal::At {
            line,
            column,
            reason,
        }))),
    }
}
