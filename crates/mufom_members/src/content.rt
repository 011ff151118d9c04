//! Reads a file as an archive or as one module.

ghost use Rattle.std.specs.Prelude.{◌≡◌, ◌≢◌, ◌+◌, ◌*◌, ◌<◌, ◌≤◌, ℕ, Bool, List, [], ◌++◌, length, IfOk, Err};
ghost use Rattle.std.specs.List.{sum_by};
ghost use Rattle.mufom_module.specs.Grammar.{file_limit};
ghost use Rattle.mufom_module.specs.Written.{weight};
ghost use Rattle.mufom_read.specs.Reader.{options_of, reader_stop, HasRead};
ghost use Rattle.mufom_members.specs.Contents.{HasBegunWith, HasFed, HasReadOf, IsVerdictAs, archive_of, kind_of, plain_of};
ghost use Rattle.mufom_members.specs.Results.{HasModules, StopsBy};
ghost use Rattle.mufom_members.specs.Stops.{stop_by};

use crate::archive::Gatherer;
use crate::members::{Members, MembersStop};
use crate::slices::{first_bytes, fits};
use mufom_numbers::{List, NoMemory};
use mufom_read::{ReadOptions, ReadStop, Reader};
use std::alloc::Global;

/// Reads a file from bytes that arrive in chunks: an archive, or another file, which has one module.
#[derive(Drop)]
pub(crate) enum Content {
    Archive(Gatherer),
    Plain(Reader),
}

// An error of the reader of a module.
fn stop_by(stop: ReadStop) -> MembersStop
    ensures { result ≡ stop_by stop }
{
    match stop {
        ReadStop::Refused(refusal) => MembersStop::Refused(refusal),
        ReadStop::NoMemory => MembersStop::NoMemory,
    }
}

// Reads the bytes of a chunk that are allowed, in a file that is not an archive. Returns whether that was all of it.
fn feed_plain(reader: &mut Reader, chunk: &[u8], room: u64) -> Result<bool, MembersStop>
    ensures fed { (stream : List ℕ) → HasReadOf (plain_of reader.old) stream
        → HasFed (kind_of (plain_of reader.old)) room stream chunk.now (plain_of reader.new) result }
    ensures options { options_of reader.new ≡ options_of reader.old }
    ensures fault { result ≢ Err MembersStop.Fault }
{
    match reader.feed(first_bytes(chunk, room)) {
        Ok(()) => {}
        Err(stop) => return Err(stop_by(stop)),
    }
    Ok(fits(chunk, room))
}

// Reads the bytes of a chunk that are allowed, in an archive. Returns whether that was all of it.
fn feed_archive(gatherer: &mut Gatherer, chunk: &[u8], room: u64) -> Result<bool, MembersStop>
    requires begun { HasBegunWith file_limit room (archive_of gatherer.old) }
    ensures fed { (stream : List ℕ) → HasReadOf (archive_of gatherer.old) stream
        → HasFed (kind_of (archive_of gatherer.old)) room stream chunk.now (archive_of gatherer.new) result }
    ensures options { gatherer.new.gathered.options ≡ gatherer.old.gathered.options }
    ensures fault { result ≢ Err MembersStop.Fault }
{
    match gatherer.feed(first_bytes(chunk, room)) {
        Ok(()) => Ok(fits(chunk, room)),
        Err(NoMemory) => Err(MembersStop::NoMemory),
    }
}

// The module of a file that is not an archive, or why it has none.
fn finish_plain(reader: Reader, alloc: Global, size: u64) -> Result<Members, MembersStop>
    ensures modules { (limit : ℕ) (stream : List ℕ) → HasReadOf (plain_of reader) stream → length stream ≤ limit
        → HasModules (IsVerdictAs (kind_of (plain_of reader)) limit stream) result }
    ensures weighs { (stream : List ℕ) → HasReadOf (plain_of reader) stream
        → IfOk result (λ members. sum_by weight members.modules ≤ 10 * length stream) }
    ensures size { IfOk result (λ members. members.length ≡ size) }
    ensures fault { result ≢ Err MembersStop.Fault }
{
    let module = match reader.finish() {
        Ok(module) => module,
        Err(stop) => return Err(stop_by(stop)),
    };
    match List::single(alloc, module) {
        Ok(modules) => Ok(Members {
            modules,
            length: size,
            listing: None,
        }),
        Err(NoMemory) => Err(MembersStop::NoMemory),
    }
}

impl Content {
    /// Nothing of the file was read yet.
    pub(crate) fn new(
        alloc: Global,
        archive: bool,
        options: ReadOptions,
    ) -> Result<Content, NoMemory>
        ensures read { IfOk result (λ content. HasReadOf content []) }
        ensures kind { IfOk result (λ content. kind_of content ≡ (archive, options)) }
    {
        if archive {
            return Ok(Content::Archive(Gatherer::new(alloc, options)));
        }
        match Reader::new(alloc, options) {
            Ok(reader) => Ok(Content::Plain(reader)),
            Err(NoMemory) => Err(NoMemory),
        }
    }

    /// Reads the next chunk of the file, of which at most `room` bytes are allowed, or those bytes of it. Returns
    /// whether it was all of it.
    pub(crate) fn feed(&mut self, chunk: &[u8], room: u64) -> Result<bool, MembersStop>
        requires begun { HasBegunWith file_limit room self.old }
        ensures fed { (stream : List ℕ) → HasReadOf self.old stream → HasFed (kind_of self.old) room stream chunk.now self.new result }
        ensures kind { kind_of self.new ≡ kind_of self.old }
        ensures fault { result ≢ Err MembersStop.Fault }
    {
        match self {
            Content::Archive(gatherer) => feed_archive(gatherer, chunk, room),
            Content::Plain(reader) => feed_plain(reader, chunk, room),
        }
    }

    /// Why the file has no modules, if it goes on after the bytes that were read, and no more are allowed.
    pub(crate) fn stop(self) -> MembersStop
        ensures stops { (stream more : List ℕ) → HasReadOf self stream → 0 < length more
            → StopsBy (IsVerdictAs (kind_of self) (length stream) (stream ++ more)) result }
        ensures fault { result ≢ MembersStop.Fault }
    {
        match self {
            Content::Archive(gatherer) => gatherer.stop(),
            Content::Plain(_) => MembersStop::Limit,
        }
    }

    /// The modules of the file whose bytes were read, all of them, or why it has none. `size` is their number.
    pub(crate) fn finish(self, alloc: Global, size: u64) -> Result<Members, MembersStop>
        ensures modules { (limit : ℕ) (stream : List ℕ) → HasReadOf self stream → length stream ≤ limit
            → HasModules (IsVerdictAs (kind_of self) limit stream) result }
        ensures weighs { (stream : List ℕ) → HasReadOf self stream → IfOk result (λ members. sum_by weight members.modules ≤ 10 * length stream) }
        ensures size { IfOk result (λ members. members.length ≡ size) }
        ensures fault { result ≢ Err MembersStop.Fault }
    {
        match self {
            Content::Archive(gatherer) => gatherer.finish(alloc, size),
            Content::Plain(reader) => finish_plain(reader, alloc, size),
        }
    }
}
