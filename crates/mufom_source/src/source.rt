//! Reads a module from a source, such as an open file.

ghost use Rattle.std.specs.Prelude.{◌≡◌, ◌≢◌, ◌↔◌, ◌<◌, ◌≤◌, ◌*◌, ℕ, List, [], length, take, Some, Err, IfOk, IfSome};
ghost use Rattle.mufom_numbers.specs.declared.reason.Reason.{Reason};
ghost use Rattle.mufom_host.specs.World.{OnlyReads, InputFails};
ghost use Rattle.mufom_module.specs.Grammar.{file_limit};
ghost use Rattle.mufom_module.specs.Written.{weight};
ghost use Rattle.mufom_judging.specs.Judging.{IsModule};
ghost use Rattle.mufom_read.specs.Reader.{HasRead, options_of};
ghost use Rattle.mufom_judging.specs.Limited.{IsRefusedWithin, IsPastLimit};
ghost use Rattle.mufom_source.specs.Source.{ReadsModule, ReadsAtMost, ReadsNoFurther, HasFed, HasReadChunk, HasReadAll, buffer_size};

use mufom_host::{Failed, Source};
use mufom_module::Module;
use mufom_read::{ReadRefusal, ReadStop, Reader};
use mufom_records::ReadOptions;
use std::alloc::Global;
use thiserror::Error;

// The size of the read buffer in bytes.
const BUFFER: usize = 65_536;

/// Why no module could be read from a source.
#[derive(Clone, Copy, Debug, PartialEq, Eq, Error)]
pub enum SourceStop {
    #[error(transparent)]
    Refused(ReadRefusal),
    /// The source has more bytes than may be read, and those that may be read contain no error.
    #[error("the file is too long")]
    Limit,
    #[error("the file cannot be read")]
    Fault,
    #[error("out of memory")]
    NoMemory,
}

impl From<ReadStop> for SourceStop {
    ghost use Rattle.std.specs.Prelude.{◌≡◌};
    ghost use Rattle.mufom_source.specs.Source.{stop_by};

    ghost from_gives = { λ stop made. made ≡ stop_by stop };

    fn from(stop: ReadStop) -> Self {
        match stop {
            ReadStop::Refused(refusal) => SourceStop::Refused(refusal),
            ReadStop::NoMemory => SourceStop::NoMemory,
        }
    }
}

// Feeds the first `count` bytes of the buffer to the reader, but at most `room`. Returns `Limit` if there are
// more and those that were fed contain no error.
fn feed_within(
    reader: &mut Reader,
    buffer: &[u8],
    count: usize,
    room: u64,
) -> Result<(), SourceStop>
    requires { count ≤ length buffer.now }
    ensures fed { (stream : List ℕ) → HasRead reader.old stream → HasFed room stream (take count buffer.now) reader.new result }
    ensures options { options_of reader.new ≡ options_of reader.old }
    ensures fault { result ≢ Err SourceStop.Fault }
{
    if count as u64 <= room {
        reader.feed(&buffer[..count])?;
        return Ok(());
    }
    reader.feed(&buffer[..room as usize])?;
    Err(SourceStop::Limit)
}

// Reads once from the source, feeds the reader, and returns the number of bytes read.
fn read_chunk<S: Source>(
    source: &mut S,
    reader: &mut Reader,
    buffer: &mut [u8],
    room: u64,
) -> Result<usize, SourceStop>
    requires { 0 < length buffer.old }
    ensures read { (stream : List ℕ) → HasRead reader.old stream
        → HasReadChunk room (S.meaning source.old).left (S.meaning source.new).left stream reader.new result }
    ensures taken { ReadsAtMost (length buffer.old) (S.meaning source.old).left (S.meaning source.new).left }
    ensures options { options_of reader.new ≡ options_of reader.old }
    ensures fault { result ≡ Err SourceStop.Fault → InputFails (S.faults source.old) (S.faults source.new) }
    ensures only { OnlyReads (S.meaning source.old) (S.meaning source.new) (S.faults source.old) (S.faults source.new) }
{
    match source.read(buffer) {
        Err(Failed) => Err(SourceStop::Fault),
        Ok(count) => {
            feed_within(reader, buffer, count, room)?;
            Ok(count)
        }
    }
}

// Reads to the end of the source, and returns the number of bytes read.
fn read_all<S: Source>(
    source: &mut S,
    reader: &mut Reader,
    buffer: &mut [u8],
    limit: u64,
) -> Result<u64, SourceStop>
    requires buffer { length buffer.old ≡ buffer_size }
    requires begins { HasRead reader.old [] }
    ensures read { HasReadAll limit (S.meaning source.old).left (S.meaning source.new).left reader.new result }
    ensures further { ReadsNoFurther (options_of reader.old) limit (S.meaning source.old).left (S.meaning source.new).left }
    ensures options { options_of reader.new ≡ options_of reader.old }
    ensures fault { result ≡ Err SourceStop.Fault → InputFails (S.faults source.old) (S.faults source.new) }
    ensures only { OnlyReads (S.meaning source.old) (S.meaning source.new) (S.faults source.old) (S.faults source.new) }
{
    let mut length = 0;
    loop {
        let count = read_chunk(source, reader, buffer, limit - length)?;
        if count == 0 {
            return Ok(length);
        }
        length += count as u64;
    }
}

/// Reads a module from the bytes that the source has left, and returns it with its length in bytes. At most
/// `limit` bytes are allowed, which is at most 67,108,864.
///
/// The source is read in chunks of up to 65,536 bytes. Reading stops at the first chunk that contains an
/// error or goes beyond `limit`.
pub fn read_module<S: Source>(
    alloc: Global,
    source: &mut S,
    limit: u64,
    options: ReadOptions,
) -> Result<(Module, u64), SourceStop>
    requires { limit ≤ file_limit }
    // Every result except a failed read and out of memory follows from the bytes that were left.
    ensures reads { ReadsModule options limit (S.meaning source.old).left (S.meaning source.new).left result }
    // The module of all bytes that were left, and their number. Nothing is left afterwards.
    ensures ok { IfOk result (λ r. IfSome (S.meaning source.old).left (λ left. IsModule options left r.0 × (r.1 ≡ length left)
        × (r.1 ≤ limit) × ((S.meaning source.new).left ≡ Some []))) }
    // This holds even if the source does not reveal what it has left.
    ensures weighs { IfOk result (λ r. (weight r.0 ≤ 10 * r.1) × (r.1 ≤ limit)) }
    ensures refused { (offset : ℕ) (reason : Reason)
        → IfSome (S.meaning source.old).left (λ left. result ≢ Err SourceStop.NoMemory → result ≢ Err SourceStop.Fault
        → (result ≡ Err (SourceStop.Refused (record { offset = offset; reason = reason }))) ↔ IsRefusedWithin options limit left offset reason) }
    ensures limit { IfSome (S.meaning source.old).left (λ left. result ≢ Err SourceStop.NoMemory → result ≢ Err SourceStop.Fault
        → (result ≡ Err SourceStop.Limit) ↔ IsPastLimit options limit left) }
    // Whatever is returned: the chunks before the last one are within the limit and contain no error, and what is left
    // follows the last one.
    ensures further { ReadsNoFurther options limit (S.meaning source.old).left (S.meaning source.new).left }
    ensures fault { result ≡ Err SourceStop.Fault → InputFails (S.faults source.old) (S.faults source.new) }
    ensures only { OnlyReads (S.meaning source.old) (S.meaning source.new) (S.faults source.old) (S.faults source.new) }
{
    let Ok(mut buffer) = vec![in alloc; 0u8; BUFFER] else {
        return Err(SourceStop::NoMemory);
    };
    let Ok(mut reader) = Reader::new(alloc, options) else {
        return Err(SourceStop::NoMemory);
    };
    let length = read_all(source, &mut reader, &mut buffer, limit)?;
    let module = reader.finish()?;
    Ok((module, length))
}
