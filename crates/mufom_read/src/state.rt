//! The state of a reader, and how it reads a chunk.

ghost use Rattle.std.specs.Prelude.{◌≡◌, ◌+◌, ◌-◌, ◌<◌, ◌≤◌, nat_lt, ℕ, Bool, true, false, List, [], ◌++◌, length, take, drop, None, IfOk, OnOk};
ghost use Rattle.mufom_numbers.specs.Spelling.{AreBytes};
ghost use Rattle.mufom_module.specs.Grammar.{file_limit};
ghost use Rattle.mufom_judging.specs.Prefixes.{Step, is_ended};
ghost use Rattle.mufom_judging.specs.Faults.{ended_part_fault};
ghost use Rattle.mufom_read.specs.PrefixOfCode.{IsPrefixOf};
ghost use Rattle.mufom_read.specs.Reader.{
  HasTakenAll,
  HasNoStep,
  HasCompleted,
  HasTakenChunk,
  HasEndedChunk,
  IsIncomplete,
  IsReading,
  Knows,
  answer_of,
};

use crate::prefix::{Next, Prefix};
use crate::refusal::{ReadRefusal, ReadStop};
use mufom_numbers::limits::MOST_FILE_BYTES;
use mufom_numbers::{NoMemory, Reason};
use mufom_records::{ExpressionTokens, ReadOptions};
use std::alloc::Global;

/// The state of a reader.
#[derive(Debug)]
pub(crate) struct State {
    pub alloc: Global,
    pub options: ReadOptions,
    pub prefix: Prefix,
    /// The pending bytes after the prefix: those of a record that is not complete yet.
    pub rest: Vec<u8>,
    pub stop: Option<ReadStop>,
}

// The first `count` bytes, or all if there are fewer.
fn at_most(bytes: &[u8], count: usize) -> &[u8]
    ensures { result.now ≡ take count bytes.now }
{
    if bytes.len() <= count {
        bytes
    } else {
        &bytes[..count]
    }
}

fn after(bytes: &[u8], count: usize) -> &[u8]
    requires { count ≤ length bytes.now }
    ensures { result.now ≡ drop count bytes.now }
{
    &bytes[count..]
}

/// The stop for an error in the stream, at this offset.
pub(crate) fn refused(offset: usize, reason: Reason) -> ReadStop
    ensures { result ≡ ReadStop.Refused (record { offset = offset; reason = reason }) }
{
    ReadStop::Refused(ReadRefusal {
        offset: offset as u64,
        reason,
    })
}

fn answer(stop: Option<ReadStop>) -> Result<(), ReadStop>
    ensures { result ≡ answer_of stop }
{
    match stop {
        None => Ok(()),
        Some(stop) => Err(stop),
    }
}

// Takes all complete records and unread bytes at the start of `rest`, and returns the number of bytes taken.
fn take_all(
    alloc: Global,
    options: ReadOptions,
    prefix: &mut Prefix,
    rest: &[u8],
) -> Result<usize, ReadStop>
    requires known { (before : List Step) × IsPrefixOf prefix.old before × (is_ended before ≡ false → ended_part_fault before ≡ None) }
    requires fits { prefix.old.size + length rest.now ≤ file_limit }
    ensures { (before : List Step) → IsPrefixOf prefix.old before → (is_ended before ≡ false → ended_part_fault before ≡ None)
        → HasTakenAll options before rest.now prefix.new result }
{
    let mut taken = 0;
    let mut tokens = ExpressionTokens::new();
    while !prefix.is_ended() {
        match prefix.advance(alloc, options, after(rest, taken), &mut tokens) {
            Ok(Next::Took(count)) => taken += count,
            Ok(Next::More) => return Ok(taken),
            Ok(Next::Refused(refusal)) => return Err(ReadStop::Refused(refusal)),
            Err(NoMemory) => return Err(ReadStop::NoMemory),
        }
    }
    Ok(taken)
}

// Written out so that the code that drops a state makes a single call: see "Drops" in docs/ARCHITECTURE.md.
impl Drop for State {
    fn drop(self) {
        let State {
            alloc: _,
            options: _,
            prefix: _,
            rest: _,
            stop: _,
        } = self;
    }
}

impl State {
    /// Returns the prefix. Does not allocate.
    pub(crate) fn into_prefix(self) -> Prefix
        ensures { result ≡ self.prefix }
    {
        let State {
            alloc: _,
            options: _,
            prefix,
            rest: _,
            stop: _,
        } = self;
        prefix
    }

    /// The number of bytes that were read.
    pub(crate) fn len(&self) -> usize
        requires { self.now.prefix.size + length self.now.rest.items ≤ file_limit }
        ensures { result ≡ self.now.prefix.size + length self.now.rest.items }
    {
        self.prefix.size as usize + self.rest.len()
    }

    // The stop after the end of the module: `AfterEnd` if a byte follows it.
    fn stop_after_end(&self, is_longer: bool) -> Option<ReadStop>
        ensures { HasEndedChunk true self.now.prefix.size is_longer self.now.rest.items self.now result }
    {
        if is_longer {
            return Some(refused(self.prefix.size as usize, Reason::AfterEnd));
        }
        if self.rest.is_empty() {
            None
        } else {
            Some(refused(self.prefix.size as usize, Reason::AfterEnd))
        }
    }

    // The stop once all records were taken: a byte follows the end of the module, or the stream is too long.
    fn final_stop(&self, is_longer: bool) -> Option<ReadStop>
        ensures { (prefix : List Step) → IsPrefixOf self.now.prefix prefix
            → HasEndedChunk (is_ended prefix) self.now.prefix.size is_longer self.now.rest.items self.now result }
    {
        if self.prefix.is_ended() {
            self.stop_after_end(is_longer)
        } else if is_longer {
            Some(refused(MOST_FILE_BYTES, Reason::FileLimit))
        } else {
            None
        }
    }

    // Appends bytes to the pending ones, at most as many as are pending already, and returns the number of bytes appended.
    fn double_pending(&mut self, bytes: &[u8]) -> Result<usize, NoMemory>
        requires some { 0 < length self.old.rest.items }
        requires more { 0 < length bytes.now }
        ensures prefix { self.new.prefix ≡ self.old.prefix }
        ensures options { self.new.options ≡ self.old.options }
        ensures added { IfOk result
            (λ n. (0 < n) × (n ≤ length bytes.now) × (self.new.rest.items ≡ self.old.rest.items ++ take n bytes.now)) }
    {
        let added = at_most(bytes, self.rest.len());
        self.rest.extend_from_slice(added)?;
        Ok(added.len())
    }

    // Completes the record whose first bytes are pending, and returns the number of bytes of the chunk that it uses. If the
    // chunk does not complete the record, the whole chunk becomes pending.
    fn complete(&mut self, chunk: &[u8]) -> Result<usize, ReadStop>
        requires known { (before : List Step) × IsPrefixOf self.old.prefix before
            × IsIncomplete self.old.options before self.old.rest.items }
        requires some { 0 < length self.old.rest.items }
        requires bytes { AreBytes (self.old.rest.items ++ chunk.now) }
        requires fits { self.old.prefix.size + (length self.old.rest.items + length chunk.now) ≤ file_limit }
        ensures completed { (before : List Step) → IsPrefixOf self.old.prefix before
            → IsIncomplete self.old.options before self.old.rest.items
            → HasCompleted self.old.options before self.old.rest.items chunk.now self.new result }
        ensures options { self.new.options ≡ self.old.options }
        ensures within { IfOk result (λ n. n ≤ length chunk.now) }
    {
        let pending = self.rest.len();
        let mut used = 0;
        let mut tokens = ExpressionTokens::new();
        while used < chunk.len() {
            let Ok(added) = self.double_pending(after(chunk, used)) else {
                return Err(ReadStop::NoMemory);
            };
            used += added;
            match self
                .prefix
                .advance(self.alloc, self.options, &self.rest, &mut tokens)
            {
                Ok(Next::Took(count)) => {
                    self.rest.clear();
                    return Ok(count - pending);
                }
                Ok(Next::More) => {}
                Ok(Next::Refused(refusal)) => return Err(ReadStop::Refused(refusal)),
                Err(NoMemory) => return Err(ReadStop::NoMemory),
            }
        }
        Ok(used)
    }

    // Takes all complete records of these bytes while none are pending before them, and keeps the bytes after those.
    fn take_directly(&mut self, bytes: &[u8]) -> Result<(), ReadStop>
        requires known { (before : List Step) × IsPrefixOf self.old.prefix before
            × (is_ended before ≡ false → ended_part_fault before ≡ None) }
        requires none { self.old.rest.items ≡ [] }
        requires fits { self.old.prefix.size + length bytes.now ≤ file_limit }
        ensures taken { (before : List Step) → IsPrefixOf self.old.prefix before
            → (is_ended before ≡ false → ended_part_fault before ≡ None)
            → HasTakenChunk self.old.options before bytes.now self.new result }
        ensures options { self.new.options ≡ self.old.options }
    {
        let taken = take_all(self.alloc, self.options, &mut self.prefix, bytes)?;
        if self.rest.extend_from_slice(after(bytes, taken)).is_err() {
            return Err(ReadStop::NoMemory);
        }
        Ok(())
    }

    // Takes all complete records of the pending bytes and the chunk, and keeps the bytes after those. Records are taken from
    // the chunk itself. Only two pieces of it are copied: the bytes that complete a pending record, fewer than twice the
    // length of that record, and the bytes of the record that the chunk leaves unfinished.
    fn take_chunk(&mut self, chunk: &[u8]) -> Result<(), ReadStop>
        requires known { (before : List Step) × IsPrefixOf self.old.prefix before
            × HasNoStep self.old.options before self.old.rest.items }
        requires bytes { AreBytes (self.old.rest.items ++ chunk.now) }
        requires fits { self.old.prefix.size + (length self.old.rest.items + length chunk.now) ≤ file_limit }
        ensures taken { (before : List Step) → IsPrefixOf self.old.prefix before
            → HasNoStep self.old.options before self.old.rest.items
            → HasTakenChunk self.old.options before (self.old.rest.items ++ chunk.now) self.new result }
        ensures options { self.new.options ≡ self.old.options }
    {
        if self.rest.is_empty() {
            return self.take_directly(chunk);
        }
        let used = self.complete(chunk)?;
        if self.rest.is_empty() {
            return self.take_directly(after(chunk, used));
        }
        Ok(())
    }

    // Reads a chunk. Bytes beyond the size limit of a file are not checked.
    fn read(&mut self, chunk: &[u8]) -> Option<ReadStop>
        requires known { (stream : List ℕ) × AreBytes stream × IsReading self.old stream }
        ensures known { (stream : List ℕ) → AreBytes (stream ++ chunk.now) → IsReading self.old stream → Knows self.new (stream ++ chunk.now) result }
        ensures options { self.new.options ≡ self.old.options }
    {
        let room = MOST_FILE_BYTES - self.len();
        match self.take_chunk(at_most(chunk, room)) {
            Ok(()) => self.final_stop(room < chunk.len()),
            Err(stop) => Some(stop),
        }
    }

    /// Reads a chunk, and keeps the error if there is one.
    pub(crate) fn read_on(&mut self, chunk: &[u8]) -> Result<(), ReadStop>
        requires known { (stream : List ℕ) × AreBytes stream × IsReading self.old stream }
        ensures known { (stream : List ℕ) → AreBytes (stream ++ chunk.now) → IsReading self.old stream
            → Knows self.new (stream ++ chunk.now) self.new.stop }
        ensures answer { result ≡ answer_of self.new.stop }
        ensures options { self.new.options ≡ self.old.options }
    {
        let stop = self.read(chunk);
        self.stop = stop;
        answer(stop)
    }
}
