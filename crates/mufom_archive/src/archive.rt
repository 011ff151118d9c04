//! Reads an archive from a stream that arrives in chunks.

ghost use Rattle.std.specs.Prelude.{◌≡◌, ◌+◌, ◌<◌, ◌≤◌, ◌^◌, ℕ, List, [], ◌∷◌, ◌++◌, length, take, IfOk, OnOk};
ghost use Rattle.mufom_archive.specs.Entries.{next_offset, room_for_names};
ghost use Rattle.mufom_archive.specs.Listings.{IsBadHeader, IsListing, nameless_in};
ghost use Rattle.mufom_archive.specs.Reading.{HasRead, entries_of, length_of, members_in, names_after, table_with};

use crate::entry::{Entry, HEADER, SIGNATURE, entry_of};
use crate::listing::{Listing, first_nameless, listing_of};
use arrayvec::ArrayVec;
use mufom_numbers::limits::MOST_FILE_BYTES;
use mufom_numbers::{List, NoMemory};
use std::alloc::Global;

/// Reads an archive from bytes that arrive in chunks. How the bytes are cut into chunks makes no difference.
///
/// It keeps the headers that are complete and the table of long names, and no other contents.
#[derive(Debug, Drop)]
pub struct Archive {
    // The number of bytes that were read.
    length: u64,
    // The entries whose headers are complete.
    entries: List<Entry>,
    // The offset of the next header.
    next: u64,
    // The bytes of the next header so far. If it is complete, it is not a header, and nothing after it is looked at.
    header: ArrayVec<u8, HEADER>,
    // The first table of long names, and its contents so far.
    table: Option<Entry>,
    names: Vec<u8>,
}

// The first `count` bytes, or all if there are fewer.
fn first_bytes(bytes: &[u8], count: u64) -> &[u8]
    ensures { result.now ≡ take count bytes.now }
{
    if bytes.len() as u64 <= count {
        bytes
    } else {
        &bytes[..count as usize]
    }
}

impl Archive {
    /// A reader that has read nothing yet. The first eight bytes of the stream, the signature, are not looked at.
    pub fn new(alloc: Global) -> Archive
        ensures { HasRead result [] }
    {
        Archive {
            length: 0,
            entries: List::new(alloc),
            next: SIGNATURE as u64,
            header: ArrayVec::new(),
            table: None,
            names: Vec::new(alloc),
        }
    }

    /// The number of bytes that were read.
    pub fn len(&self) -> u64
        ensures { result ≡ length_of self.now }
    {
        self.length
    }

    /// The entries whose headers were read, in their order, tables among them. The contents of the last one may
    /// still follow.
    pub fn entries(&self) -> &[Entry]
        ensures { result.now ≡ entries_of self.now }
    {
        self.entries.as_slice()
    }

    /// The offset of the next header, if all its bytes were read and they are not a header.
    pub fn bad_header(&self) -> Option<u64>
        ensures { (stream : List ℕ) → HasRead self.now stream → IsBadHeader stream result }
    {
        if self.header.remaining_capacity() == 0 {
            Some(self.next)
        } else {
            None
        }
    }

    // The size that the table of long names has at most, whatever follows what was read. `None` if a table may follow.
    fn room_for_names(&self) -> Option<u64>
        ensures { (stream : List ℕ) → HasRead self.now stream → result ≡ room_for_names stream (entries_of self.now) }
    {
        match self.table {
            Some(table) => Some(table.end.saturating_sub(table.start)),
            None if self.bad_header().is_some() => Some(0),
            None => None,
        }
    }

    /// The offset of the first entry that is a member and whose long name begins past the end of the table of long
    /// names, whatever follows what was read.
    pub fn nameless(&self) -> Option<u64>
        ensures { (stream : List ℕ) → HasRead self.now stream → result ≡ nameless_in stream }
    {
        first_nameless(self.entries(), self.room_for_names())
    }

    // Passes over bytes, and keeps those of them that belong to the table of long names.
    fn pass(&mut self, bytes: &[u8]) -> Result<(), NoMemory>
        requires { self.old.length + length bytes.now ≤ MOST_FILE_BYTES }
        ensures names { OnOk result (self.new.names.items ≡ names_after self.old.table self.old.length self.old.names.items bytes.now) }
        ensures length { OnOk result (self.new.length ≡ self.old.length + length bytes.now) }
        ensures entries { self.new.entries ≡ self.old.entries }
        ensures next { self.new.next ≡ self.old.next }
        ensures header { self.new.header ≡ self.old.header }
        ensures table { self.new.table ≡ self.old.table }
    {
        if let Some(table) = self.table {
            let more = first_bytes(bytes, table.end.saturating_sub(self.length));
            self.names.extend_from_slice(more)?;
        }
        self.length += bytes.len() as u64;
        Ok(())
    }

    // Adds an entry whose header is complete.
    fn add(&mut self, entry: Entry) -> Result<(), NoMemory>
        requires order { entry.start ≤ entry.end }
        requires small { entry.end < 2 ^ 63 }
        ensures entries { OnOk result (self.new.entries ≡ self.old.entries ++ entry ∷ []) }
        ensures next { OnOk result (self.new.next ≡ next_offset entry) }
        ensures header { OnOk result (self.new.header.items ≡ []) }
        ensures table { OnOk result (self.new.table ≡ table_with self.old.table entry) }
        ensures length { self.new.length ≡ self.old.length }
        ensures names { self.new.names ≡ self.old.names }
    {
        self.entries.push(entry)?;
        if self.table.is_none() && entry.is_long_names() {
            self.table = Some(entry);
        }
        self.next = entry.next();
        self.header.clear();
        Ok(())
    }

    // Reads bytes of the next header, which may complete it.
    fn take_header(&mut self, bytes: &[u8]) -> Result<(), NoMemory>
        requires pending { self.old.next ≤ self.old.length }
        requires short { length self.old.header.items < HEADER }
        requires room { length self.old.header.items + length bytes.now ≤ HEADER }
        requires fits { self.old.length + length bytes.now ≤ MOST_FILE_BYTES }
        ensures read { OnOk result ((stream : List ℕ) → HasRead self.old stream → HasRead self.new (stream ++ bytes.now)) }
        ensures length { OnOk result (self.new.length ≡ self.old.length + length bytes.now) }
    {
        self.pass(bytes)?;
        let Ok(()) = self.header.try_extend_from_slice(bytes) else {
            return Err(NoMemory);
        };
        match entry_of(self.next, &self.header) {
            None => Ok(()),
            Some(entry) => {
                self.add(entry)?;
                Ok(())
            }
        }
    }

    // Reads some of these bytes, at least one: those up to the next header, or up to the end of that header, or all
    // of them if what is there is not a header. Returns their number.
    fn step(&mut self, bytes: &[u8]) -> Result<usize, NoMemory>
        requires some { 0 < length bytes.now }
        requires fits { self.old.length + length bytes.now ≤ MOST_FILE_BYTES }
        ensures count { IfOk result (λ n. (0 < n) × (n ≤ length bytes.now)) }
        ensures read { IfOk result (λ n. (stream : List ℕ) → HasRead self.old stream → HasRead self.new (stream ++ take n bytes.now)) }
        ensures length { IfOk result (λ n. self.new.length ≡ self.old.length + n) }
    {
        if self.length < self.next {
            let part = first_bytes(bytes, self.next - self.length);
            self.pass(part)?;
            return Ok(part.len());
        }
        let missing = self.header.remaining_capacity();
        if missing == 0 {
            self.pass(bytes)?;
            return Ok(bytes.len());
        }
        let part = first_bytes(bytes, missing as u64);
        self.take_header(part)?;
        Ok(part.len())
    }

    /// Reads the next chunk of the stream. All chunks together have at most 67,108,864 bytes. If memory runs out,
    /// nothing is known of what was read.
    pub fn feed(&mut self, chunk: &[u8]) -> Result<(), NoMemory>
        requires { length_of self.old + length chunk.now ≤ MOST_FILE_BYTES }
        // The reader has then read this chunk too.
        ensures read { OnOk result ((stream : List ℕ) → HasRead self.old stream → HasRead self.new (stream ++ chunk.now)) }
        ensures length { OnOk result (length_of self.new ≡ length_of self.old + length chunk.now) }
    {
        let mut taken = 0;
        while taken < chunk.len() {
            taken += self.step(&chunk[taken..])?;
        }
        Ok(())
    }

    /// What the archive has whose bytes were read, all of them. Does not allocate.
    pub fn finish(self) -> Listing
        // The members before the first error, and that error, are those of the whole stream.
        ensures { (stream : List ℕ) → HasRead self stream → IsListing stream (members_in result) result.error }
    {
        let Archive {
            length,
            entries,
            next,
            header: _,
            table: _,
            names,
        } = self;
        listing_of(length, entries, next, names)
    }
}
