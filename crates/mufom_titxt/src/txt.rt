//! Reading a TI-TXT text.

ghost use Rattle.std.specs.Prelude.{◌≡◌, ◌+◌, ◌-◌, ◌*◌, ◌≤◌, ◌<◌, ◌^◌, [], length, Ok, Err, IfOk, IfErr, None, Some, map};
ghost use Rattle.mufom_numbers.specs.declared.limits.TheConstants.{MOST_FILE_BYTES};
ghost use Rattle.mufom_meaning.specs.AddressMap.{AreRunsOf};
ghost use Rattle.mufom_meaning.specs.Facts.{loaded_twice};
ghost use Rattle.mufom_meaning.specs.Walk.{first_twice};
ghost use Rattle.mufom_image_bytes.specs.Chunks.{cell_addresses};
ghost use Rattle.mufom_image_bytes.specs.Images.{AreLow};
ghost use Rattle.mufom_image_bytes.specs.Stops.{fact_of};
ghost use Rattle.mufom_image_bytes.specs.Loaded.{loaded_cells, IsTiled};
ghost use Rattle.mufom_refusals.specs.declared.text.TxtRefusal.{TxtRefusal};
ghost use Rattle.mufom_refusals.specs.declared.text.TxtReason.TheVariants as TxtReason;
ghost use Rattle.mufom_titxt.specs.declared.refusal.TxtStop.TheVariants as TxtStop;
ghost use Rattle.mufom_titxt.specs.Lines.{line_of, lines_of};
ghost use Rattle.mufom_titxt.specs.TextModules.{HaveModule};
ghost use Rattle.mufom_titxt.specs.Texts.{nothing_stated, refusal_at, txt_refusal, IsTxtOf};
ghost use Rattle.mufom_titxt.specs.Reading.{cells_read, places_read, stop_read, second_line};
ghost use Rattle.mufom_titxt.specs.Twice.{IsTwice, NamesTwice};

use crate::lines::next_line;
use crate::reading::Reading;
use crate::refusal::TxtStop;
use crate::store::Store;
use mufom_image_bytes::{ImageStop, LoadRefusal, Loaded, runs_of_loaded};
use mufom_meaning::Run;
use mufom_numbers::{List, NoMemory};
use mufom_refusals::{TxtReason, TxtRefusal};
use std::alloc::Global;

// Why bytes could not be joined into runs.
#[derive(Clone, Copy, Debug)]
enum RunsStop {
    // The first address with two bytes.
    Twice(u64),
    NoMemory,
}

// The address with two bytes.
fn twice_address(stop: LoadRefusal) -> u64
    requires { NamesTwice (fact_of stop) }
    ensures { fact_of stop ≡ loaded_twice result }
{
    match stop {
        LoadRefusal::Twice { address } => address,
        _ => unreachable!(),
    }
}

// The runs of loaded bytes.
fn joined_runs(alloc: Global, loaded: Loaded) -> Result<List<Run>, RunsStop>
    requires tiled { IsTiled loaded }
    requires low { AreLow (loaded_cells loaded) }
    ensures once { IfOk result (λ runs. first_twice [] (cell_addresses (loaded_cells loaded)) ≡ None) }
    ensures runs { IfOk result (λ runs. AreRunsOf (loaded_cells loaded) runs) }
    ensures twice { IfErr result (IsTwice (first_twice [] (cell_addresses (loaded_cells loaded)))) }
{
    match runs_of_loaded(alloc, loaded, None) {
        Ok(runs) => Ok(runs),
        Err(ImageStop::NoMemory) => Err(RunsStop::NoMemory),
        Err(ImageStop::Refused(stop)) => Err(RunsStop::Twice(twice_address(stop))),
    }
}

// The line of a text at which an address gets its second byte.
fn second_line(alloc: Global, modulus: u128, text: &[u8], address: u64) -> Result<u32, NoMemory>
    requires modulus { modulus ≤ 2 ^ 64 }
    requires short { length text.now < 2 ^ 32 - 1 }
    ensures { IfOk result (λ line. line
        ≡ second_line address 0 (places_read modulus 0 nothing_stated (map line_of (lines_of text.now)))) }
{
    let mut reading = Reading::new(alloc, Some(address));
    let mut left = Some(text);
    let mut count = 0;
    while let Some(text) = left {
        let (line, rest) = next_line(text);
        count += 1;
        let fault = reading.read_line(modulus, line)?;
        if reading.store.hits > 1 {
            return Ok(count);
        }
        if fault.is_some() {
            return Ok(0);
        }
        left = rest;
    }
    Ok(0)
}

// The error of a text in which an address has two bytes.
fn twice_refusal(
    alloc: Global,
    modulus: u128,
    text: &[u8],
    address: u64,
) -> Result<TxtRefusal, NoMemory>
    requires modulus { modulus ≤ 2 ^ 64 }
    requires short { length text.now < 2 ^ 32 - 1 }
    ensures { IfOk result (λ refusal. refusal
        ≡ refusal_at (second_line address 0 (places_read modulus 0 nothing_stated (map line_of (lines_of text.now)))) (TxtReason.Twice address)) }
{
    let line = second_line(alloc, modulus, text, address)?;
    Ok(TxtRefusal {
        line,
        reason: TxtReason::Twice(address),
    })
}

// The bytes of a text up to the first line with an error, and that error. A second byte at an address is not
// counted as one.
fn loaded_of(
    alloc: Global,
    modulus: u128,
    text: &[u8],
) -> Result<(Loaded, Option<TxtRefusal>), NoMemory>
    requires modulus { modulus ≤ 2 ^ 64 }
    requires short { length text.now < 2 ^ 32 - 1 }
    ensures tiled { IfOk result (λ r. IsTiled r.0) }
    ensures cells { IfOk result (λ r. loaded_cells r.0 ≡ cells_read modulus nothing_stated (map line_of (lines_of text.now))) }
    ensures stop { IfOk result (λ r. r.1 ≡ stop_read modulus 0 nothing_stated (map line_of (lines_of text.now))) }
{
    let mut reading = Reading::new(alloc, None);
    let stop = reading.read_lines(modulus, text)?;
    let Reading { store, .. } = reading;
    let Store { loaded, .. } = store;
    Ok((loaded, stop))
}

// The end of the address space.
fn modulus_of(maus: u8) -> u128
    requires { maus ≤ 8 }
    ensures value { result ≡ 2 ^ (8 * maus) }
    ensures most { result ≤ 2 ^ 64 }
{
    1u128 << (8 * maus)
}

/// Reads a TI-TXT text. Returns its bytes in maximal runs of consecutive addresses, in increasing order. An
/// address has `maus` addressable units of eight bits. The runs meet the conditions of
/// [`text_module`](crate::text_module). The text has at most 67,108,864 bytes, and `maus` is 1 to 8.
///
/// Errors: `Refused` with the first line that is wrong and the reason, which
/// [`errors_are_at_the_first_wrong_line`](crate::errors_are_at_the_first_wrong_line) defines; `NoMemory`.
pub fn read_txt(alloc: Global, text: &[u8], maus: u8) -> Result<List<Run>, TxtStop>
    requires low { 1 ≤ maus }
    requires high { maus ≤ 8 }
    requires short { length text.now ≤ MOST_FILE_BYTES }
    ensures runs { IfOk result (λ runs. IsTxtOf text.now (8 * maus) runs) }
    ensures modules { IfOk result (λ runs. HaveModule (8 * maus) runs) }
    ensures refused { (refusal : TxtRefusal) → result ≡ Err (TxtStop.Refused refusal) → txt_refusal text.now (8 * maus) ≡ Some refusal }
{
    let modulus = modulus_of(maus);
    let (loaded, stop) = loaded_of(alloc, modulus, text)?;
    match joined_runs(alloc, loaded) {
        Ok(runs) => match stop {
            None => Ok(runs),
            Some(refusal) => Err(TxtStop::Refused(refusal)),
        },
        Err(RunsStop::NoMemory) => Err(TxtStop::NoMemory),
        Err(RunsStop::Twice(address)) => {
            let refusal = twice_refusal(alloc, modulus, text, address)?;
            Err(TxtStop::Refused(refusal))
        }
    }
}
