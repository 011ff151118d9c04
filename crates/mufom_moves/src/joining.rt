//! Runs that touch, joined into runs that are as long as possible.

ghost use Rattle.std.specs.Prelude.{◌≡◌, ◌≤◌, [], ◌++◌, IfOk, OnOk, option_to_list};
ghost use Rattle.mufom_meaning.specs.AddressMap.{cells_from, run_cells, AreApart};
ghost use Rattle.mufom_meaning.specs.Runs.{run_end};
ghost use Rattle.mufom_moves.specs.Joined.{HasBytes, AreSpread, bytes_of, joined_run, joiner_cells, IsJoining};

use mufom_meaning::Run;
use mufom_numbers::{Bytes, List, NoMemory};
use std::alloc::Global;

// The number of bytes of the runs, for which memory is allocated.
fn room_for(runs: &[Run]) -> usize {
    let mut room: usize = 0;
    for run in runs {
        room = room.saturating_add(run.bytes.len());
    }
    room
}

// The bytes of runs, one after another.
fn bytes_of(alloc: Global, runs: &[Run]) -> Result<Vec<u8>, NoMemory>
    ensures { IfOk result (λ all. all.items ≡ bytes_of runs.now) }
{
    let mut all = Vec::with_capacity(alloc, room_for(runs))?;
    for run in runs {
        all.extend_from_slice(run.bytes.as_slice())?;
    }
    Ok(all)
}

// Takes runs that touch, as one run. The bytes of a single run are not copied.
fn take_joined(alloc: Global, group: &mut Vec<Run>) -> Result<Option<Run>, NoMemory>
    ensures run { IfOk result (λ run. option_to_list run ≡ joined_run group.old.items) }
    ensures group { OnOk result (group.new.items ≡ []) }
{
    let [first, _, ..] = group.as_slice() else {
        return Ok(group.pop());
    };
    let run = Run {
        address: first.address,
        bytes: Bytes::from_vec(bytes_of(alloc, group)?),
    };
    group.clear();
    Ok(Some(run))
}

/// Joins runs that are added in the order of their addresses.
#[derive(Drop)]
pub(crate) struct Joiner {
    // The runs that are complete.
    joined: List<Run>,
    // The last runs, each of which begins where the one before it ends.
    group: Vec<Run>,
    // The address after the last run.
    end: u128,
}

impl Joiner {
    // Completes the run of the group.
    fn close(&mut self, alloc: Global) -> Result<(), NoMemory>
        ensures joined { OnOk result (self.new.joined ≡ self.old.joined ++ joined_run self.old.group.items) }
        ensures group { OnOk result (self.new.group.items ≡ []) }
    {
        if let Some(run) = take_joined(alloc, &mut self.group)? {
            self.joined.push(run)?;
        }
        Ok(())
    }

    // Completes the run of the group, unless a run at the address touches it.
    fn open_at(&mut self, alloc: Global, address: u64) -> Result<(), NoMemory>
        requires joining { IsJoining self.old }
        requires after { self.old.end ≤ address }
        ensures joining { OnOk result (IsJoining self.new) }
        ensures end { OnOk result (self.new.end ≡ address) }
        ensures cells { OnOk result (joiner_cells self.new ≡ joiner_cells self.old) }
    {
        if self.end == address as u128 {
            return Ok(());
        }
        self.close(alloc)?;
        self.end = address as u128;
        Ok(())
    }

    // Adds a run, which must begin at or after the end of the last one.
    fn add(&mut self, alloc: Global, run: Run) -> Result<(), NoMemory>
        requires joining { IsJoining self.old }
        requires some { HasBytes run }
        requires after { self.old.end ≤ run.address }
        ensures joining { OnOk result (IsJoining self.new) }
        ensures end { OnOk result (self.new.end ≡ run_end run) }
        ensures cells { OnOk result (joiner_cells self.new ≡ joiner_cells self.old ++ cells_from run.address run.bytes) }
    {
        self.open_at(alloc, run.address)?;
        self.end = run.end();
        self.group.push(run)?;
        Ok(())
    }

    // The joined runs.
    fn finish(mut self, alloc: Global) -> Result<List<Run>, NoMemory>
        requires { IsJoining self }
        ensures apart { IfOk result (λ runs. AreApart 0 runs) }
        ensures cells { IfOk result (λ runs. run_cells runs ≡ joiner_cells self) }
    {
        self.close(alloc)?;
        let Joiner { joined, .. } = self;
        Ok(joined)
    }
}

/// Returns the maximal runs of the bytes of runs, which must be in order of address and must not overlap. Runs
/// that touch no other one are not copied.
pub fn joined_runs(alloc: Global, runs: Vec<Run>) -> Result<List<Run>, NoMemory>
    requires { AreSpread 0 runs.items }
    ensures apart { IfOk result (λ joined. AreApart 0 joined) }
    ensures cells { IfOk result (λ joined. run_cells joined ≡ run_cells runs.items) }
{
    let mut joiner = Joiner {
        joined: List::new(alloc),
        group: Vec::new(alloc),
        end: 0,
    };
    for run in runs {
        joiner.add(alloc, run)?;
    }
    joiner.finish(alloc)
}
