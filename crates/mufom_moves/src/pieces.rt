//! Runs, cut into pieces that are moved.

ghost use Rattle.std.specs.Prelude.{◌≡◌, ◌+◌, ◌^◌, ◌<◌, ◌≤◌, All, IfOk, OnOk};
ghost use Rattle.mufom_meaning.specs.AddressMap.{run_cells, AreApart};
ghost use Rattle.mufom_meaning.specs.Runs.{run_end};
ghost use Rattle.mufom_image_bytes.specs.Images.{AreLow};
ghost use Rattle.mufom_moves.specs.Shifts.{shifted, shifted_cells, AreRisingFrom, EndsAfter, MoveAlikeFrom, MoveTogether, StayLow};
ghost use Rattle.mufom_moves.specs.Joined.{HasBytes, AddsMoved};

use crate::shift::{Shift, ending_after};
use mufom_meaning::Run;
use mufom_numbers::{Bytes, List, NoMemory};
use std::alloc::Global;

// Bytes that are moved together.
#[derive(Clone, Copy, Debug)]
struct Piece {
    // The new address of the first byte.
    to: u64,
    count: usize,
}

// The bytes, of the `most` from an address on, up to where an extent begins or ends. The first extent must end
// after the address.
fn next_piece(shifts: &[Shift], address: u64, most: usize) -> Piece
    requires some { 0 < most }
    requires rising { AreRisingFrom 0 shifts.now }
    requires after { EndsAfter address shifts.now }
    requires low { shifted shifts.now address < 2 ^ 64 }
    ensures some { 0 < result.count }
    ensures most { result.count ≤ most }
    ensures together { MoveTogether shifts.now address result.count result.to }
{
    match shifts {
        [shift, ..] if shift.from <= address => Piece {
            to: shift.to + (address - shift.from),
            count: (shift.end() - address as u128).min(most as u128) as usize,
        },
        [shift, ..] => Piece {
            to: address,
            count: (shift.from - address).min(most as u64) as usize,
        },
        [] => Piece {
            to: address,
            count: most,
        },
    }
}

// The bytes, of the `most` from an address on, that are moved together with the one at the address. They may be
// those of several extents.
fn longest_piece(shifts: &[Shift], address: u64, most: usize) -> Piece
    requires some { 0 < most }
    requires rising { AreRisingFrom 0 shifts.now }
    requires end { address + most ≤ 2 ^ 64 }
    requires low { StayLow shifts.now address (address + most) }
    ensures some { 0 < result.count }
    ensures most { result.count ≤ most }
    ensures together { MoveTogether shifts.now address result.count result.to }
{
    let mut rest = ending_after(shifts, address);
    let mut piece = next_piece(rest, address, most);
    while piece.count < most {
        let next = address + piece.count as u64;
        rest = ending_after(rest, next);
        let more = next_piece(rest, next, most - piece.count);
        if more.to as u128 != piece.to as u128 + piece.count as u128 {
            break;
        }
        piece.count += more.count;
    }
    piece
}

// Appends copies of the pieces of a run at the addresses to which they are moved.
fn cut_run(alloc: Global, run: &Run, shifts: &[Shift], moved: &mut Vec<Run>) -> Result<(), NoMemory>
    requires rising { AreRisingFrom 0 shifts.now }
    requires end { run_end run.now ≤ 2 ^ 64 }
    requires low { StayLow shifts.now run.now.address (run_end run.now) }
    requires filled { All HasBytes moved.old.items }
    ensures filled { OnOk result (All HasBytes moved.new.items) }
    ensures cells { OnOk result (AddsMoved shifts.now run.now moved.old.items moved.new.items) }
{
    let bytes = run.bytes.as_slice();
    let mut rest = shifts;
    let mut done = 0;
    while done < bytes.len() {
        let address = run.address + done as u64;
        rest = ending_after(rest, address);
        let piece = longest_piece(rest, address, bytes.len() - done);
        moved.push(Run {
            address: piece.to,
            bytes: Bytes::from_slice(alloc, &bytes[done..done + piece.count])?,
        })?;
        done += piece.count;
    }
    Ok(())
}

// Appends a run at the address to which it is moved. Its bytes are not copied, unless they are not all moved
// together.
fn move_run(alloc: Global, run: Run, shifts: &[Shift], moved: &mut Vec<Run>) -> Result<(), NoMemory>
    requires some { HasBytes run }
    requires rising { AreRisingFrom 0 shifts.now }
    requires end { run_end run ≤ 2 ^ 64 }
    requires low { StayLow shifts.now run.address (run_end run) }
    requires filled { All HasBytes moved.old.items }
    ensures filled { OnOk result (All HasBytes moved.new.items) }
    ensures cells { OnOk result (AddsMoved shifts.now run moved.old.items moved.new.items) }
{
    let piece = longest_piece(shifts, run.address, run.bytes.len());
    if piece.count < run.bytes.len() {
        return cut_run(alloc, &run, shifts, moved);
    }
    let Run { bytes, .. } = run;
    moved.push(Run {
        address: piece.to,
        bytes,
    })?;
    Ok(())
}

/// Returns the runs at the addresses to which their bytes are moved, in no particular order. A run is cut where
/// its bytes are not moved together. The extents must be in order of their first addresses.
pub fn moved_runs(alloc: Global, runs: List<Run>, shifts: &[Shift]) -> Result<Vec<Run>, NoMemory>
    requires apart { AreApart 0 runs }
    requires rising { AreRisingFrom 0 shifts.now }
    requires low { AreLow (run_cells runs) }
    requires stay_low { AreLow (shifted_cells shifts.now (run_cells runs)) }
    ensures filled { IfOk result (λ moved. All HasBytes moved.items) }
    ensures cells { IfOk result (λ moved. run_cells moved.items ≡ shifted_cells shifts.now (run_cells runs)) }
{
    let mut moved = Vec::with_capacity(alloc, runs.len())?;
    let mut rest = shifts;
    for run in runs.into_vec() {
        rest = ending_after(rest, run.address);
        move_run(alloc, run, rest, &mut moved)?;
    }
    Ok(moved)
}
