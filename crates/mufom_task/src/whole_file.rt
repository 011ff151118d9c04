//! Reads a whole file of a limited length.

ghost use Rattle.std.specs.Prelude.{◌≡◌, ◌⊎◌, ◌<◌, ◌∷◌, ◌++◌, [], length, take, IfErr, IfOk, IfSome, OnOk, OnSome, Ok, Err};
ghost use Rattle.mufom_host.specs.World.{GrowsBy, InputFails, OnlyOpens, OnlyReads, Reads};
ghost use Rattle.mufom_task.specs.FilesRead.{FileHas};
ghost use Rattle.mufom_task.specs.InputsRead.{IsEnoughOf};

use mufom_host::{Failed, Host, Source};
use mufom_outcome::{Input, Outcome};
use std::alloc::{AllocError, Global};

// The number of bytes that one read requests.
const CHUNK: usize = 16_384;

/// Why bytes could not be read.
#[derive(Clone, Copy, Debug, PartialEq, Eq)]
pub(crate) enum Halt {
    Fault,
    NoMemory,
}

impl From<AllocError> for Halt {
    ghost use Rattle.mufom_task.specs.declared.whole_file.Halt.TheVariants as halt;

    ghost from_gives = { λ _ made. made ≡ halt.NoMemory };

    fn from(_: AllocError) -> Self {
        Halt::NoMemory
    }
}

// Reads once, and returns the number of bytes that were added.
fn read_chunk<S: Source>(
    source: &mut S,
    buffer: &mut [u8],
    bytes: &mut Vec<u8>,
) -> Result<usize, Halt>
    ensures added { IfOk result (λ n. bytes.new.items ≡ bytes.old.items ++ take n buffer.new) }
    ensures reads { IfOk result (λ n. Reads (S.meaning source.old).left (S.meaning source.new).left (Ok n) buffer.new) }
    ensures cause { result ≡ Err Halt.Fault → InputFails (S.faults source.old) (S.faults source.new) }
    ensures only { OnlyReads (S.meaning source.old) (S.meaning source.new) (S.faults source.old) (S.faults source.new) }
{
    match source.read(buffer) {
        Ok(count) => {
            bytes.extend_from_slice(&buffer[..count])?;
            Ok(count)
        }
        Err(Failed) => Err(Halt::Fault),
    }
}

// Reads all bytes that the source has left, or a prefix of them that is longer than the limit.
fn read_bytes<S: Source>(
    source: &mut S,
    buffer: &mut [u8],
    limit: usize,
    bytes: &mut Vec<u8>,
) -> Result<(), Halt>
    requires room { 0 < length buffer.old }
    requires none_before { bytes.old.items ≡ [] }
    ensures bytes { OnOk result (IfSome (S.meaning source.old).left (λ left. IsEnoughOf limit left bytes.new.items)) }
    ensures cause { result ≡ Err Halt.Fault → InputFails (S.faults source.old) (S.faults source.new) }
    ensures only { OnlyReads (S.meaning source.old) (S.meaning source.new) (S.faults source.old) (S.faults source.new) }
{
    while bytes.len() <= limit {
        match read_chunk(source, buffer, bytes) {
            Ok(0) => return Ok(()),
            Ok(_) => {}
            Err(halt) => return Err(halt),
        }
    }
    Ok(())
}

/// Opens the file with this name, and reads all its bytes, or a prefix of them that is longer than the limit.
/// A read fault is reported for `input`.
pub(crate) fn read_whole<H: Host>(
    alloc: Global,
    name: &str,
    input: Input,
    limit: usize,
    host: &mut H,
) -> Result<Vec<u8>, Outcome>
    ensures bytes { IfOk result (λ bytes. FileHas name.now (H.meaning host.old).files (λ all. IsEnoughOf limit all bytes.items)) }
    ensures stops { IfErr result (λ stop. ((stop ≡ Outcome.ReadFault input)
        × InputFails (H.faults host.old) (H.faults host.new)) ⊎ (stop ≡ Outcome.NoMemory)) }
    ensures opens { IfOk result (λ bytes. GrowsBy (H.meaning host.old).opened (H.meaning host.new).opened (name.now ∷ [])) }
    ensures opened { OnSome (H.meaning host.new).opened (GrowsBy (H.meaning host.old).opened (H.meaning host.new).opened (name.now ∷ [])) }
    ensures only { OnlyOpens (H.meaning host.old) (H.meaning host.new) (H.faults host.old) (H.faults host.new) }
{
    let Ok(()) = host.open(name) else {
        return Err(Outcome::ReadFault(input));
    };
    let Ok(mut buffer) = vec![in alloc; 0u8; CHUNK] else {
        return Err(Outcome::NoMemory);
    };
    let mut bytes = Vec::new(alloc);
    match read_bytes(host, &mut buffer, limit, &mut bytes) {
        Ok(()) => Ok(bytes),
        Err(Halt::Fault) => Err(Outcome::ReadFault(input)),
        Err(Halt::NoMemory) => Err(Outcome::NoMemory),
    }
}
