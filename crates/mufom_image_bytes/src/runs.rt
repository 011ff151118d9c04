//! The runs of consecutive addresses that loaded bytes form.

ghost use Rattle.std.specs.Prelude.{◌≡◌, ◌+◌, ◌≤◌, length, IfOk};
ghost use Rattle.std.specs.List.{All};
ghost use Rattle.mufom_meaning.specs.AddressMap.{run_cells, AreApart};
ghost use Rattle.mufom_image_bytes.specs.Chunks.{end_of_chunk, cells_of_chunks};
ghost use Rattle.mufom_image_bytes.specs.Spread.{AreSpread, IsAmong, first_run_length, bytes_of_chunks};

use crate::chunk::Chunk;
use mufom_meaning::Run;
use mufom_numbers::{Bytes, List, NoMemory};
use std::alloc::Global;

// The address after a chunk.
fn end_of(chunk: &Chunk) -> u128
    ensures { result ≡ end_of_chunk chunk.now }
{
    chunk.address as u128 + chunk.count as u128
}

// The number of chunks in the first run: the first chunk, and those that begin where the one before ends.
fn run_length(chunks: &[Chunk]) -> usize
    ensures count { result ≡ first_run_length chunks.now }
    ensures within { result ≤ length chunks.now }
{
    let mut end: u128 = 0;
    let mut count = 0;
    for chunk in chunks {
        if count > 0 && chunk.address as u128 != end {
            break;
        }
        end = end_of(chunk);
        count += 1;
    }
    count
}

// The number of bytes of the chunks, for which memory is allocated.
fn room_for(chunks: &[Chunk]) -> usize {
    let mut room: usize = 0;
    for chunk in chunks {
        room = room.saturating_add(chunk.count);
    }
    room
}

// The bytes of chunks, one after another.
fn joined(alloc: Global, chunks: &[Chunk], bytes: &[u8]) -> Result<Vec<u8>, NoMemory>
    requires { All (IsAmong bytes.now) chunks.now }
    ensures { IfOk result (λ all. all.items ≡ bytes_of_chunks bytes.now chunks.now) }
{
    let mut all = Vec::with_capacity(alloc, room_for(chunks))?;
    for chunk in chunks {
        all.extend_from_slice(&bytes[chunk.start..chunk.start + chunk.count])?;
    }
    Ok(all)
}

// The bytes of a run of chunks. Those of a single chunk are copied directly, without allocating if they are
// few.
fn run_bytes(alloc: Global, chunks: &[Chunk], bytes: &[u8]) -> Result<Bytes, NoMemory>
    requires { All (IsAmong bytes.now) chunks.now }
    ensures { IfOk result (λ all. all ≡ bytes_of_chunks bytes.now chunks.now) }
{
    match chunks {
        [chunk] => Bytes::from_slice(alloc, &bytes[chunk.start..chunk.start + chunk.count]),
        _ => Ok(Bytes::from_vec(joined(alloc, chunks, bytes)?)),
    }
}

/// Returns the maximal runs of the bytes of chunks that are in order of address and do not overlap.
pub fn maximal_runs(alloc: Global, chunks: &[Chunk], bytes: &[u8]) -> Result<List<Run>, NoMemory>
    requires spread { AreSpread 0 chunks.now }
    requires among { All (IsAmong bytes.now) chunks.now }
    ensures apart { IfOk result (λ runs. AreApart 0 runs) }
    ensures cells { IfOk result (λ runs. run_cells runs ≡ cells_of_chunks bytes.now chunks.now) }
{
    let mut runs = List::new(alloc);
    let mut rest = chunks;
    while let [first, ..] = rest {
        let (run_chunks, after) = rest.split_at(run_length(rest));
        runs.push(Run {
            address: first.address,
            bytes: run_bytes(alloc, run_chunks, bytes)?,
        })?;
        rest = after;
    }
    Ok(runs)
}
