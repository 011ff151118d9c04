//! The raw bytes of an image: one byte for each address from the first that is loaded to the last.

ghost use Rattle.std.specs.Prelude.{◌≡◌, ◌-◌, ◌+◌, ◌++◌, [], length, replicate, OnOk, OnErr, ℕ};
ghost use Rattle.mufom_host.specs.World.{MakingGrowsBy, MakingGrowsByPrefix, OnlyWrites, Rose};
ghost use Rattle.mufom_write.specs.Raw.{first_address as first, raw_image};
ghost use Rattle.mufom_write.specs.Writing.{Writes};

use crate::held::Held;
use crate::output::Output;
use crate::write::WriteStop;
use mufom_host::{Failed, Sink};
use mufom_meaning::Run;

/// The greatest number of bytes between runs that are written at once.
const BLOCK: usize = 256;

/// Writes `count` bytes of the value `fill`, for the addresses between two runs.
pub(crate) fn gap<K: Output>(out: &mut K, count: u64, fill: u8) -> Result<(), Failed>
    ensures { K.takes out.old out.new (replicate count fill) result }
{
    let block = [fill; BLOCK];
    let mut left = count;
    while left > BLOCK as u64 {
        out.put(&block)?;
        left -= BLOCK as u64;
    }
    out.put(&block[..left as usize])
}

// The address of the first run; 0 if there is none.
fn first_address(runs: &[Run]) -> u128
    ensures { result ≡ first runs.now }
{
    match runs.first() {
        Some(run) => run.address as u128,
        None => 0,
    }
}

// The gap before a run, if the previous run ended at `end`.
fn gap_length(end: u128, run: &Run) -> u64
    ensures { result ≡ run.now.address - end }
{
    (run.address as u128).saturating_sub(end) as u64
}

// The gap before a run, and its bytes.
fn put_run<K: Output>(out: &mut K, fill: u8, end: u128, run: &Run) -> Result<(), Failed>
    ensures { K.takes out.old out.new (replicate (run.now.address - end) fill ++ run.now.bytes) result }
{
    gap(out, gap_length(end, run), fill)?;
    out.put(run.bytes.as_slice())
}

// All bytes of the image.
fn put_runs<K: Output>(out: &mut K, fill: u8, runs: &[Run]) -> Result<(), Failed>
    ensures { K.takes out.old out.new (raw_image fill runs.now) result }
{
    let mut end = first_address(runs);
    for place in 0..runs.len() {
        let run = &runs[place];
        put_run(out, fill, end, run)?;
        end = run.end();
    }
    Ok(())
}

// Writes all bytes of the image through an empty buffer, and flushes the buffer.
fn write_through<K: Sink>(held: &mut Held<K>, fill: u8, runs: &[Run]) -> Result<(), Failed>
    requires { held.old.block ≡ [] }
    ensures same { held.new.sink.ghost_name ≡ held.old.sink.ghost_name }
    ensures writes { Writes (K.meaning held.old.sink.now) (K.meaning held.new.sink.now) (K.faults held.old.sink.now)
        (K.faults held.new.sink.now) (raw_image fill runs.now) result }
{
    put_runs(held, fill, runs)?;
    held.flush()
}

// All bytes of the image, in large chunks.
fn write_held<K: Sink>(sink: &mut K, fill: u8, runs: &[Run]) -> Result<(), Failed>
    ensures { Writes (K.meaning sink.old) (K.meaning sink.new) (K.faults sink.old) (K.faults sink.new) (raw_image fill runs.now) result }
{
    let mut held = Held::new(sink);
    let answer = write_through(&mut held, fill, runs);
    let _sink = held.into_sink();
    answer
}

/// The length in bytes of the raw image of these runs. If the runs are in the order of their addresses, it is
/// one byte for each address from the first of the first run to the last of the last run. Does not allocate.
pub fn raw_length(runs: &[Run]) -> u128
    ensures { (fill : ℕ) → result ≡ length (raw_image fill runs.now) }
{
    let mut end = first_address(runs);
    let mut count: u128 = 0;
    for run in runs {
        count += gap_length(end, run) as u128 + run.bytes.len() as u128;
        end = run.end();
    }
    count
}

/// Writes the raw image of the runs to the file being made: the bytes of each run, and between two
/// runs `fill` for each address. Does not allocate.
///
/// The runs are in the order of their addresses, as those of a location are. The sink gets large
/// chunks, about 65,536 bytes each. `Fault` is returned only if a write failed and the count of
/// failed writes rose; a prefix of the image may then be in the file.
pub fn write_raw<K: Sink>(runs: &[Run], fill: u8, sink: &mut K) -> Result<(), WriteStop>
    ensures whole { OnOk result (MakingGrowsBy (K.meaning sink.old).making (K.meaning sink.new).making (raw_image fill runs.now)) }
    ensures prefix { OnErr result (MakingGrowsByPrefix (K.meaning sink.old).making (K.meaning sink.new).making (raw_image fill runs.now)) }
    ensures only { OnlyWrites (K.meaning sink.old) (K.meaning sink.new) (K.faults sink.old) (K.faults sink.new) }
    ensures cause { OnErr result (Rose (K.faults sink.old).writes (K.faults sink.new).writes) }
{
    match write_held(sink, fill, runs) {
        Ok(()) => Ok(()),
        Err(Failed) => Err(WriteStop::Fault),
    }
}
