//! The image of the loads of a module.

ghost use Rattle.std.specs.Prelude.{◌≡◌, ◌≤◌, None, false, option_map, length, IfOk, IfErr};
ghost use Rattle.std.specs.List.{All};
ghost use Rattle.std.specs.List.Sorted.{IsPermutation};
ghost use Rattle.mufom_meaning.specs.AddressMap.{run_cells, AreApart};
ghost use Rattle.mufom_image_bytes.specs.Stops.{fact_of};
ghost use Rattle.mufom_image_bytes.specs.Counted.{value_with};
ghost use Rattle.mufom_image_bytes.specs.Chunks.{cells_of_chunks};
ghost use Rattle.mufom_image_bytes.specs.Loaded.{loaded_cells, IsTiled};
ghost use Rattle.mufom_image_bytes.specs.Shared.{shares_from, AreRisingFrom, EndsFirst};
ghost use Rattle.mufom_image_bytes.specs.Spread.{AreSpread, IsAmong, HasAllBytes};
ghost use Rattle.mufom_image_bytes.specs.Walks.{HasNarrowItems};
ghost use Rattle.mufom_image_bytes.specs.Images.{IsImage, IsRefusal, IsImageOf, IsRefusalOf};

use crate::chunk::Chunk;
use crate::doubles::first_double;
use crate::layout::Layout;
use crate::loaded::Loaded;
use crate::loads::walk_loads;
use crate::refusal::LoadRefusal;
use crate::runs::maximal_runs;
use crate::stop::ImageStop;
use crate::walk::Walk;
use mufom_expr::Env;
use mufom_loads::Load;
use mufom_meaning::Run;
use mufom_numbers::{Bytes, List, NoMemory};
use std::alloc::Global;

// Sorts chunks by their addresses.
fn sort_by_address(chunks: &mut Vec<Chunk>)
    ensures permutation { IsPermutation chunks.old.items chunks.new.items }
    ensures rising { AreRisingFrom 0 chunks.new.items }
{
    chunks.sort_unstable_by_key(|chunk| chunk.address);
}

// The first address that is loaded twice, or otherwise the error that stopped the loads. The chunks must be
// in order of address.
fn first_stop(chunks: &[Chunk], count: usize, stop: Option<LoadRefusal>) -> Option<LoadRefusal>
    requires { AreRisingFrom 0 chunks.now }
    ensures stop { EndsFirst chunks.now count (option_map fact_of stop) (option_map fact_of result) }
    ensures apart { result ≡ None → shares_from count 0 chunks.now ≡ false }
    ensures ended { result ≡ None → stop ≡ None }
{
    match first_double(chunks, count) {
        Some(address) => Some(LoadRefusal::Twice { address }),
        None => stop,
    }
}

// The runs of chunks that are in order of address and do not overlap. The bytes of a single chunk are not
// copied.
fn runs_of(alloc: Global, chunks: &[Chunk], bytes: Vec<u8>) -> Result<List<Run>, NoMemory>
    requires spread { AreSpread 0 chunks.now }
    requires among { All (IsAmong bytes.items) chunks.now }
    requires whole { HasAllBytes (length bytes.items) chunks.now }
    ensures apart { IfOk result (λ runs. AreApart 0 runs) }
    ensures cells { IfOk result (λ runs. run_cells runs ≡ cells_of_chunks bytes.items chunks.now) }
{
    if let [chunk] = chunks {
        let mut runs = List::new(alloc);
        runs.push(Run {
            address: chunk.address,
            bytes: Bytes::from_vec(bytes),
        })?;
        return Ok(runs);
    }
    maximal_runs(alloc, chunks, &bytes)
}

/// Returns the maximal runs of loaded bytes. The error is the first address that is loaded twice, or
/// otherwise the one that stopped the loads.
pub fn runs_of_loaded(
    alloc: Global,
    loaded: Loaded,
    stop: Option<LoadRefusal>,
) -> Result<List<Run>, ImageStop>
    requires { IsTiled loaded }
    ensures image { IfOk result (λ runs. IsImage (loaded_cells loaded) (option_map fact_of stop) runs) }
    ensures refusal { IfErr result (λ refusal. IsRefusal (loaded_cells loaded) (option_map fact_of stop) refusal) }
{
    let (mut chunks, bytes) = loaded.finish()?;
    sort_by_address(&mut chunks);
    match first_stop(&chunks, bytes.len(), stop) {
        Some(stop) => Err(ImageStop::Refused(stop)),
        None => Ok(runs_of(alloc, &chunks, bytes)?),
    }
}

/// Returns the image of the loads of a module, in maximal runs of consecutive addresses, or the first error
/// in the order of the loads.
///
/// The fields of the loads must have at most eight bytes each. `values` gives all variables but P their values.
pub fn image_of<E: Env>(
    alloc: Global,
    layout: &Layout<'_>,
    values: &E,
    loads: &[Load],
) -> Result<List<Run>, ImageStop>
    requires low { 8 ≤ layout.now.width }
    requires high { layout.now.width ≤ 64 }
    requires narrow { All HasNarrowItems loads.now }
    ensures image { IfOk result (λ runs. IsImageOf layout.now (value_with (E.meaning values.now) layout.now.width) loads.now runs) }
    ensures refusal { IfErr result (λ refusal. IsRefusalOf layout.now (value_with (E.meaning values.now) layout.now.width) loads.now refusal) }
{
    let (walk, stop) = walk_loads(alloc, layout, values, loads)?;
    let Walk {
        counters: _counters,
        loaded,
    } = walk;
    runs_of_loaded(alloc, loaded, stop)
}
