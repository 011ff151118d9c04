//! Reads the modules of a file from a source, such as an open file.

ghost use Rattle.std.specs.Prelude.{◌≡◌, ◌+◌, ◌*◌, ◌<◌, ◌≤◌, ◌++◌, ℕ, List, [], length, take, Option, Err, IfErr, IfOk, IfSome, OnOk};
ghost use Rattle.mufom_host.specs.World.{InputFails, OnlyReads, ReadsOff};
ghost use Rattle.std.specs.List.{sum_by};
ghost use Rattle.mufom_module.specs.Grammar.{file_limit};
ghost use Rattle.mufom_module.specs.Written.{weight};
ghost use Rattle.mufom_members.specs.Results.{SaysNothing};
ghost use Rattle.mufom_members.specs.Contents.{
  HasBegunWith,
  HasReadChunk,
  HasReadOf,
  HasReadRest,
  ReadsMembers,
  kind_of,
};

use crate::content::Content;
use crate::members::{Members, MembersStop};
use mufom_archive::is_archive;
use mufom_host::{Failed, Source};
use mufom_numbers::NoMemory;
use mufom_read::ReadOptions;
use std::alloc::Global;

// The size of the read buffer in bytes.
const BUFFER: usize = 65_536;

// The number of bytes that tell whether a file is an archive.
const SIGNATURE: usize = 8;

// Reads once from the source, and returns the number of bytes that were read.
fn read_some<S: Source>(source: &mut S, buffer: &mut [u8]) -> Result<usize, MembersStop>
    requires { 0 < length buffer.old }
    ensures bytes { IfOk result (λ n. (n ≤ length buffer.new)
        × ReadsOff (S.meaning source.old).left (S.meaning source.new).left (take n buffer.new)) }
    ensures none { IfOk result (λ n. n ≡ 0 → IfSome (S.meaning source.old).left (λ left. left ≡ [])) }
    ensures failed { IfErr result (λ s. s ≡ MembersStop.Fault) }
    ensures same { length buffer.new ≡ length buffer.old }
    ensures fault { result ≡ Err MembersStop.Fault → InputFails (S.faults source.old) (S.faults source.new) }
    ensures only { OnlyReads (S.meaning source.old) (S.meaning source.new) (S.faults source.old) (S.faults source.new) }
{
    match source.read(buffer) {
        Ok(count) => Ok(count),
        Err(Failed) => Err(MembersStop::Fault),
    }
}

// Reads the first bytes of a file: eight or more, or all if there are fewer.
fn read_head<S: Source>(
    source: &mut S,
    buffer: &mut [u8],
    head: &mut Vec<u8>,
) -> Result<(), MembersStop>
    requires buffer { 0 < length buffer.old }
    requires none { head.old.items ≡ [] }
    ensures read { OnOk result (ReadsOff (S.meaning source.old).left (S.meaning source.new).left head.new.items) }
    ensures short { OnOk result (length head.new.items < 8 → IfSome (S.meaning source.old).left (λ left. left ≡ head.new.items)) }
    ensures failed { IfErr result SaysNothing }
    ensures same { length buffer.new ≡ length buffer.old }
    ensures fault { result ≡ Err MembersStop.Fault → InputFails (S.faults source.old) (S.faults source.new) }
    ensures only { OnlyReads (S.meaning source.old) (S.meaning source.new) (S.faults source.old) (S.faults source.new) }
{
    while head.len() < SIGNATURE {
        let count = match read_some(source, buffer) {
            Ok(count) => count,
            Err(stop) => return Err(stop),
        };
        if count == 0 {
            return Ok(());
        }
        if head.extend_from_slice(&buffer[..count]).is_err() {
            return Err(MembersStop::NoMemory);
        }
    }
    Ok(())
}

// Reads once from the source, feeds the content, and returns the number of bytes read. If they are more than are
// allowed, the content is fed with those, and the result is `None`.
fn read_chunk<S: Source>(
    source: &mut S,
    content: &mut Content,
    buffer: &mut [u8],
    room: u64,
) -> Result<Option<usize>, MembersStop>
    requires buffer { 0 < length buffer.old }
    requires begun { HasBegunWith file_limit room content.old }
    ensures read { (stream : List ℕ) → HasReadOf content.old stream
        → HasReadChunk (kind_of content.old) room (S.meaning source.old).left (S.meaning source.new).left stream content.new result }
    ensures kind { kind_of content.new ≡ kind_of content.old }
    ensures same { length buffer.new ≡ length buffer.old }
    ensures fault { result ≡ Err MembersStop.Fault → InputFails (S.faults source.old) (S.faults source.new) }
    ensures only { OnlyReads (S.meaning source.old) (S.meaning source.new) (S.faults source.old) (S.faults source.new) }
{
    let count = match read_some(source, buffer) {
        Ok(count) => count,
        Err(stop) => return Err(stop),
    };
    match content.feed(&buffer[..count], room) {
        Ok(true) => Ok(Some(count)),
        Ok(false) => Ok(None),
        Err(stop) => Err(stop),
    }
}

// Reads to the end of the source, and returns the length of the file, of which the content has read the first bytes. If
// there are more bytes than are allowed, the content reads those, and the result is `None`.
fn read_rest<S: Source>(
    source: &mut S,
    content: &mut Content,
    buffer: &mut [u8],
    head: &[u8],
    limit: u64,
) -> Result<Option<u64>, MembersStop>
    requires buffer { 0 < length buffer.old }
    requires small { limit ≤ file_limit }
    requires within { length head.now ≤ limit }
    requires begun { HasReadOf content.old head.now }
    ensures read { HasReadRest (kind_of content.old) limit (S.meaning source.old).left (S.meaning source.new).left head.now content.new result }
    ensures kind { kind_of content.new ≡ kind_of content.old }
    ensures fault { result ≡ Err MembersStop.Fault → InputFails (S.faults source.old) (S.faults source.new) }
    ensures only { OnlyReads (S.meaning source.old) (S.meaning source.new) (S.faults source.old) (S.faults source.new) }
{
    let mut size = head.len() as u64;
    'chunks: loop {
        let count = match read_chunk(source, content, buffer, limit - size) {
            Ok(Some(count)) => count,
            Ok(None) => return Ok(None),
            Err(stop) => return Err(stop),
        };
        if count == 0 {
            return Ok(Some(size));
        }
        size += count as u64;
    }
}

// Reads a file whose first bytes were read: eight or more, or all of them.
fn read_after<S: Source>(
    alloc: Global,
    source: &mut S,
    head: &[u8],
    buffer: &mut [u8],
    limit: u64,
    options: ReadOptions,
) -> Result<Members, MembersStop>
    requires buffer { 0 < length buffer.old }
    requires small { limit ≤ file_limit }
    ensures reads { (before : Option (List ℕ)) → ReadsOff before (S.meaning source.old).left head.now
        → (length head.now < 8 → IfSome before (λ left. left ≡ head.now)) → ReadsMembers options limit before (S.meaning source.new).left result }
    ensures weighs { IfOk result (λ members. (sum_by weight members.modules ≤ 10 * members.length) × (members.length ≤ limit)) }
    ensures fault { result ≡ Err MembersStop.Fault → InputFails (S.faults source.old) (S.faults source.new) }
    ensures only { OnlyReads (S.meaning source.old) (S.meaning source.new) (S.faults source.old) (S.faults source.new) }
{
    let mut content = match Content::new(alloc, is_archive(head), options) {
        Ok(content) => content,
        Err(NoMemory) => return Err(MembersStop::NoMemory),
    };
    match content.feed(head, limit) {
        Ok(true) => {}
        Ok(false) => return Err(content.stop()),
        Err(stop) => return Err(stop),
    }
    if head.len() < SIGNATURE {
        return content.finish(alloc, head.len() as u64);
    }
    match read_rest(source, &mut content, buffer, head, limit) {
        Ok(Some(size)) => content.finish(alloc, size),
        Ok(None) => Err(content.stop()),
        Err(stop) => Err(stop),
    }
}

/// Reads the modules of the file whose bytes the source has left: those of the members if it is an archive, and
/// otherwise the only one. At most `limit` bytes are allowed, which is at most 67,108,864.
///
/// Reading stops at the first chunk of up to 65,536 bytes that goes beyond `limit`, or, in a file that is not an
/// archive, contains an error. An archive is read to its end: an error of an earlier entry may be found later.
pub fn read_members<S: Source>(
    alloc: Global,
    source: &mut S,
    limit: u64,
    options: ReadOptions,
) -> Result<Members, MembersStop>
    requires { limit ≤ file_limit }
    // Every result except a failed read and out of memory is the verdict on the bytes that were left.
    ensures reads { ReadsMembers options limit (S.meaning source.old).left (S.meaning source.new).left result }
    // This holds even if the source does not reveal what it has left.
    ensures weighs { IfOk result (λ members. (sum_by weight members.modules ≤ 10 * members.length) × (members.length ≤ limit)) }
    ensures fault { result ≡ Err MembersStop.Fault → InputFails (S.faults source.old) (S.faults source.new) }
    ensures only { OnlyReads (S.meaning source.old) (S.meaning source.new) (S.faults source.old) (S.faults source.new) }
{
    let Ok(mut buffer) = vec![in alloc; 0u8; BUFFER] else {
        return Err(MembersStop::NoMemory);
    };
    let mut head = Vec::new(alloc);
    match read_head(source, &mut buffer, &mut head) {
        Ok(()) => read_after(alloc, source, &head, &mut buffer, limit, options),
        Err(stop) => Err(stop),
    }
}
