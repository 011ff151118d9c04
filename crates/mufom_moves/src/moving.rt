//! The runs of bytes that are moved.

ghost use Rattle.std.specs.Prelude.{IfOk};
ghost use Rattle.std.specs.List.Sorted.{IsPermutation};
ghost use Rattle.mufom_meaning.specs.AddressMap.{run_cells, AreApart, AreRunsOf};
ghost use Rattle.mufom_image_bytes.specs.Images.{AreLow};
ghost use Rattle.mufom_moves.specs.Shifts.{shifted_cells, ShareNoAddress, StayApart};
ghost use Rattle.mufom_moves.specs.Joined.{AreInOrder};

use crate::joining::joined_runs;
use crate::pieces::moved_runs;
use crate::shift::{Shift, sort_by_start};
use mufom_meaning::Run;
use mufom_numbers::{List, NoMemory};
use std::alloc::Global;

// Sorts runs by their addresses.
fn sort_by_address(runs: &mut Vec<Run>)
    ensures permutation { IsPermutation runs.old.items runs.new.items }
    ensures rising { AreInOrder 0 runs.new.items }
{
    runs.sort_unstable_by_key(|run| run.address);
}

/// Moves loaded bytes. Returns the runs of all bytes, those of the extents at their new addresses and the
/// others where they are.
///
/// Extents may be in any order. No two of them may share an address, and no byte may be moved to the address of
/// another one. Only the bytes of runs that are cut or joined are copied.
pub fn move_runs(alloc: Global, runs: List<Run>, shifts: Vec<Shift>) -> Result<List<Run>, NoMemory>
    requires apart { AreApart 0 runs }
    requires low { AreLow (run_cells runs) }
    requires extents { ShareNoAddress shifts.items }
    requires stay_low { AreLow (shifted_cells shifts.items (run_cells runs)) }
    requires stay_apart { StayApart shifts.items (run_cells runs) }
    ensures { IfOk result (AreRunsOf (shifted_cells shifts.items (run_cells runs))) }
{
    if shifts.is_empty() {
        return Ok(runs);
    }
    let mut shifts = shifts;
    sort_by_start(&mut shifts);
    let mut moved = moved_runs(alloc, runs, &shifts)?;
    sort_by_address(&mut moved);
    joined_runs(alloc, moved)
}
