//! Generating, linking and locating modules.

ghost use Rattle.std.specs.Prelude.{◌≤◌, IfOk, IfErr};
ghost use Rattle.mufom_meaning.specs.Location.{IsLocation};
ghost use Rattle.mufom_meaning.specs.LocateAnswer.{locate_answer};
ghost use Rattle.mufom_image.specs.Refusals.{IsMet};
ghost use Rattle.mufom_make.specs.Generated.{made_modules, made_plan};
ghost use Rattle.mufom_numbers.specs.declared.limits.TheConstants.{MOST_MODULES};

use crate::generated::made_plan;
use crate::linking::linked_modules;
use mufom_image::{LocateRefusal, Located, locate};
use std::alloc::Global;

/// Builds `count` generated modules, links them in pairs and the results into one module, and locates it.
///
/// `count` is from 1 to [`MOST_MODULES`](mufom_numbers::limits::MOST_MODULES). Each module has one section of
/// 16 addressable units with a public symbol in it. A module loads the address of the next module's public;
/// the last one loads 0 instead. The modules of a pair are dropped as soon as they are linked.
pub fn locate_generated(alloc: Global, count: u32) -> Result<Located, LocateRefusal>
    requires some { 1 ≤ count }
    requires few { count ≤ MOST_MODULES }

    // What is returned is the location of the list of all modules.
    ensures located { IfOk result (IsLocation (made_modules count) (made_plan count)) }
    // The error is the first thing that keeps that list from being located, or out of memory.
    ensures refused { IfErr result (IsMet (locate_answer (made_modules count) (made_plan count))) }
{
    let module = linked_modules(alloc, count)?;
    let plan = made_plan(alloc, count)?;
    locate(alloc, &module, &plan)
}
