//! The bytes of a range of addresses: one for each address, the loaded byte or else a fill byte.

ghost use Rattle.std.specs.Prelude.{◌≡◌, ◌+◌, ◌≤◌, ◌<◌, ◌^◌, ◌++◌, [], drop, length, replicate, take, OnOk, OnErr};
ghost use Rattle.mufom_host.specs.World.{MakingGrowsBy, MakingGrowsByPrefix, OnlyWrites, Rose};
ghost use Rattle.mufom_meaning.specs.AddressMap.{AreApart};
ghost use Rattle.mufom_write.specs.Range.{next_after as after, part_within as part, range_image, space_before as space};
ghost use Rattle.mufom_write.specs.Writing.{Writes};

use crate::held::Held;
use crate::output::Output;
use crate::raw::gap;
use crate::write::WriteStop;
use mufom_host::{Failed, Sink};
use mufom_meaning::Run;

// The first bytes of a slice, at most this many.
fn first_bytes(bytes: &[u8], count: u128) -> &[u8]
    ensures { result.now ≡ take count bytes.now }
{
    if count < bytes.len() as u128 {
        &bytes[..count as usize]
    } else {
        bytes
    }
}

// A slice without this many bytes at its begin.
fn without_first(bytes: &[u8], count: u128) -> &[u8]
    ensures { result.now ≡ drop count bytes.now }
{
    if count < bytes.len() as u128 {
        &bytes[count as usize..]
    } else {
        &[]
    }
}

// The number of addresses from `at` up to `end` before a run.
fn space_before(end: u128, at: u128, run: &Run) -> u64
    ensures { result ≡ space end at run.now }
{
    let start = run.address as u128;
    start
        .saturating_sub(at)
        .saturating_sub(start.saturating_sub(end)) as u64
}

// The bytes of a run at the addresses from `at` up to `end`.
fn part_within(end: u128, at: u128, run: &Run) -> &[u8]
    requires { at < 2 ^ 66 }
    ensures { result.now ≡ part end at run.now }
{
    let start = run.address as u128;
    let skipped = at.saturating_sub(start);
    let left = without_first(run.bytes.as_slice(), skipped);
    first_bytes(left, end.saturating_sub(start + skipped))
}

// The fill bytes before a run, and its bytes, at the addresses from `at` up to `end`.
fn put_part<K: Output>(out: &mut K, fill: u8, end: u128, at: u128, run: &Run) -> Result<(), Failed>
    requires { at < 2 ^ 66 }
    ensures { K.takes out.old out.new (replicate (space end at run.now) fill ++ part end at run.now) result }
{
    gap(out, space_before(end, at, run), fill)?;
    out.put(part_within(end, at, run))
}

// The address after the bytes of a run and those before it.
fn next_after(end: u128, at: u128, run: &Run) -> u128
    requires within { at ≤ end }
    requires low { end < 2 ^ 66 }
    ensures next { result ≡ after end at run.now }
    ensures later { at ≤ result }
    ensures within { result ≤ end }
{
    at + space_before(end, at, run) as u128 + part_within(end, at, run).len() as u128
}

// All bytes of the range.
fn put_range<K: Output>(
    out: &mut K,
    fill: u8,
    from: u64,
    count: u64,
    runs: &[Run],
) -> Result<(), Failed>
    requires { AreApart 0 runs.now }
    ensures { K.takes out.old out.new (range_image fill from count runs.now) result }
{
    let end = from as u128 + count as u128;
    let mut at = from as u128;
    for place in 0..runs.len() {
        let run = &runs[place];
        put_part(out, fill, end, at, run)?;
        at = next_after(end, at, run);
    }
    gap(out, (end - at) as u64, fill)
}

// Writes all bytes of the range through an empty buffer, and flushes the buffer.
fn write_through<K: Sink>(
    held: &mut Held<K>,
    fill: u8,
    from: u64,
    count: u64,
    runs: &[Run],
) -> Result<(), Failed>
    requires empty { held.old.block ≡ [] }
    requires apart { AreApart 0 runs.now }
    ensures same { held.new.sink.ghost_name ≡ held.old.sink.ghost_name }
    ensures writes { Writes (K.meaning held.old.sink.now) (K.meaning held.new.sink.now) (K.faults held.old.sink.now)
        (K.faults held.new.sink.now) (range_image fill from count runs.now) result }
{
    put_range(held, fill, from, count, runs)?;
    held.flush()
}

// All bytes of the range, in large chunks.
fn write_held<K: Sink>(
    sink: &mut K,
    fill: u8,
    from: u64,
    count: u64,
    runs: &[Run],
) -> Result<(), Failed>
    requires { AreApart 0 runs.now }
    ensures { Writes (K.meaning sink.old) (K.meaning sink.new) (K.faults sink.old) (K.faults sink.new) (range_image fill from count runs.now) result }
{
    let mut held = Held::new(sink);
    let answer = write_through(&mut held, fill, from, count, runs);
    let _sink = held.into_sink();
    answer
}

/// Writes one byte for each of `count` addresses to the file being made, from the address `from` on: the byte
/// that the runs have there, or `fill` if they have none. Does not allocate.
///
/// The runs are those of a location, in the order of their addresses. The sink gets large chunks, about 65,536
/// bytes each. `Fault` is returned only if a write failed and the count of failed writes rose; a prefix of the
/// bytes may then be in the file.
pub fn write_range<K: Sink>(
    runs: &[Run],
    fill: u8,
    from: u64,
    count: u64,
    sink: &mut K,
) -> Result<(), WriteStop>
    requires { AreApart 0 runs.now }
    ensures whole { OnOk result
        (MakingGrowsBy (K.meaning sink.old).making (K.meaning sink.new).making (range_image fill from count runs.now)) }
    ensures prefix { OnErr result
        (MakingGrowsByPrefix (K.meaning sink.old).making (K.meaning sink.new).making (range_image fill from count runs.now)) }
    ensures only { OnlyWrites (K.meaning sink.old) (K.meaning sink.new) (K.faults sink.old) (K.faults sink.new) }
    ensures cause { OnErr result (Rose (K.faults sink.old).writes (K.faults sink.new).writes) }
{
    match write_held(sink, fill, from, count, runs) {
        Ok(()) => Ok(()),
        Err(Failed) => Err(WriteStop::Fault),
    }
}
