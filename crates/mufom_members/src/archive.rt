//! Reads the modules of an archive from a stream that arrives in chunks.

ghost use Rattle.std.specs.Prelude.{◌≡◌, ◌≢◌, ◌+◌, ◌*◌, ◌<◌, ◌≤◌, ℕ, List, [], ◌++◌, length, filter, true, IfOk, OnOk, Err};
ghost use Rattle.mufom_records.specs.declared.options.ReadOptions.{ReadOptions};
ghost use Rattle.std.specs.List.{sum_by};
ghost use Rattle.mufom_module.specs.Written.{weight};
ghost use Rattle.mufom_archive.specs.Listings.{is_at};
ghost use Rattle.mufom_archive.specs.Reading.{entries_of, length_of};
ghost use Rattle.mufom_members.specs.Results.{HasModules, StopsBy};
ghost use Rattle.mufom_members.specs.Files.{IsArchiveVerdict, IsPrefixVerdict};
ghost use Rattle.mufom_members.specs.Names.{is_named};
ghost use Rattle.mufom_members.specs.Reading.{HasBegun, HasGathered, HasStepped, first_stop, prefix_stop};

use crate::gathered::Gathered;
use crate::members::{Members, MembersStop};
use crate::slices::{entry_at, is_complete, part_of};
use mufom_archive::{Archive, BadArchive, Entry, Listing};
use mufom_numbers::limits::MOST_FILE_BYTES;
use mufom_numbers::{List, NoMemory};
use mufom_read::{ReadOptions, ReadRefusal};
use std::alloc::Global;

/// Reads the modules of an archive from bytes that arrive in chunks. How the bytes are cut into chunks makes
/// no difference. No contents are kept but what the modules hold.
#[derive(Drop)]
pub(crate) struct Gatherer {
    pub(crate) archive: Archive,
    // The number of entries whose contents are complete, up to the first member that is refused.
    pub(crate) done: usize,
    pub(crate) gathered: Gathered,
}

// Whether an entry is a member with a name.
fn is_named(listing: &Listing, entry: &Entry) -> bool
    ensures { result ≡ is_named listing.now.names.items entry.now }
{
    entry.is_member() && listing.has_name(entry)
}

// The entries that are members with a name.
fn named_entries(alloc: Global, listing: &Listing) -> Result<List<Entry>, NoMemory>
    ensures { IfOk result (λ entries. entries ≡ filter (is_named listing.now.names.items) listing.now.entries) }
{
    let mut named = List::new(alloc);
    for entry in listing.entries.as_slice() {
        if is_named(listing, entry) {
            named.push(*entry)?;
        }
    }
    Ok(named)
}

// Of the error of the first member that is refused and the first error of the archive, the one whose entry is first.
fn first_stop(refusal: Option<ReadRefusal>, error: Option<BadArchive>) -> Option<MembersStop>
    ensures { result ≡ first_stop refusal error }
{
    match (refusal, error) {
        (None, None) => None,
        (None, Some(bad)) => Some(MembersStop::BadArchive(bad)),
        (Some(refusal), None) => Some(MembersStop::Refused(refusal)),
        (Some(refusal), Some(bad)) => {
            if bad.offset < refusal.offset {
                Some(MembersStop::BadArchive(bad))
            } else {
                Some(MembersStop::Refused(refusal))
            }
        }
    }
}

// Whether there is a place, and it is this offset.
fn is_at(place: Option<u64>, offset: u64) -> bool
    ensures { result ≡ is_at place offset }
{
    match place {
        Some(at) => at == offset,
        None => false,
    }
}

// The stop for an archive that goes on after the bytes that were read, given the stop for these bytes alone, the
// offset of a header that is complete and is none, and that of the first member that lacks its long name, whatever
// follows. What follows may mend any other error of the archive.
fn prefix_stop(stop: Option<MembersStop>, header: Option<u64>, nameless: Option<u64>) -> MembersStop
    ensures { result ≡ prefix_stop header nameless stop }
{
    match stop {
        Some(MembersStop::Refused(refusal)) => MembersStop::Refused(refusal),
        Some(MembersStop::BadArchive(bad)) => {
            if is_at(header, bad.offset) || is_at(nameless, bad.offset) {
                MembersStop::BadArchive(bad)
            } else {
                MembersStop::Limit
            }
        }
        _ => MembersStop::Limit,
    }
}

impl Gatherer {
    /// Nothing of the archive was read yet.
    pub(crate) fn new(alloc: Global, options: ReadOptions) -> Gatherer
        ensures read { HasGathered result [] }
        ensures options { result.gathered.options ≡ options }
    {
        Gatherer {
            archive: Archive::new(alloc),
            done: 0,
            gathered: Gathered::new(alloc, options),
        }
    }

    // Reads what a chunk has of the contents of the next entry. The chunk begins at this offset, and the archive has
    // read it. Returns whether these contents are now complete, and are no error.
    fn step(&mut self, chunk: &[u8], start: u64) -> Result<bool, NoMemory>
        requires begun { (stream : List ℕ) × HasBegun self.old stream chunk.now start }
        ensures stepped { IfOk result (λ more. (stream : List ℕ) → HasBegun self.old stream chunk.now start
            → HasStepped self.new stream chunk.now start more) }
        ensures counts { IfOk result (λ more. more ≡ true → (self.new.done ≡ self.old.done + 1)
            × (self.old.done < length (entries_of self.old.archive))) }
        ensures archive { self.new.archive ≡ self.old.archive }
        ensures options { self.new.gathered.options ≡ self.old.gathered.options }
    {
        let Some(entry) = entry_at(self.archive.entries(), self.done) else {
            return Ok(false);
        };
        let complete = is_complete(&entry, self.archive.len());
        let part = part_of(chunk, start, &entry);
        self.gathered.take(&entry, part, complete)?;
        if !complete {
            return Ok(false);
        }
        if self.gathered.has_refused() {
            return Ok(false);
        }
        self.done += 1;
        Ok(true)
    }

    // Reads what a chunk has of the contents of the entries. The chunk begins at this offset, and the archive has read it.
    fn gather(&mut self, chunk: &[u8], start: u64) -> Result<(), NoMemory>
        requires begun { (stream : List ℕ) × HasBegun self.old stream chunk.now start }
        ensures read { OnOk result ((stream : List ℕ) → HasBegun self.old stream chunk.now start → HasGathered self.new (stream ++ chunk.now)) }
        ensures options { self.new.gathered.options ≡ self.old.gathered.options }
    {
        'entries: loop {
            if !self.step(chunk, start)? {
                return Ok(());
            }
        }
    }

    /// Reads the next chunk of the archive. If memory runs out, nothing is known of what was read.
    pub(crate) fn feed(&mut self, chunk: &[u8]) -> Result<(), NoMemory>
        requires begun { (stream : List ℕ) × HasGathered self.old stream }
        requires fits { length_of self.old.archive + length chunk.now ≤ MOST_FILE_BYTES }
        ensures read { OnOk result ((stream : List ℕ) → HasGathered self.old stream → HasGathered self.new (stream ++ chunk.now)) }
        ensures options { self.new.gathered.options ≡ self.old.gathered.options }
    {
        let start = self.archive.len();
        self.archive.feed(chunk)?;
        if self.gathered.has_refused() {
            return Ok(());
        }
        self.gather(chunk, start)
    }

    /// Why the archive has no modules, if it goes on after the bytes that were read, and no more are allowed.
    pub(crate) fn stop(self) -> MembersStop
        ensures stops { (stream : List ℕ) → HasGathered self stream → StopsBy (IsPrefixVerdict self.gathered.options stream) result }
        ensures fault { result ≢ MembersStop.Fault }
    {
        let Gatherer {
            archive,
            done: _,
            gathered,
        } = self;
        let header = archive.bad_header();
        let nameless = archive.nameless();
        let listing = archive.finish();
        prefix_stop(
            first_stop(gathered.refusal, listing.error),
            header,
            nameless,
        )
    }

    /// The modules of the archive whose bytes were read, all of them, or why it has none. `size` is their number.
    pub(crate) fn finish(self, alloc: Global, size: u64) -> Result<Members, MembersStop>
        ensures modules { (stream : List ℕ) → HasGathered self stream → HasModules (IsArchiveVerdict self.gathered.options stream) result }
        ensures weighs { (stream : List ℕ) → HasGathered self stream
            → IfOk result (λ members. sum_by weight members.modules ≤ 10 * length stream) }
        ensures size { IfOk result (λ members. members.length ≡ size) }
        ensures fault { result ≢ Err MembersStop.Fault }
    {
        let Gatherer {
            archive,
            done: _,
            gathered,
        } = self;
        let (modules, refusal) = gathered.into_parts();
        let mut listing = archive.finish();
        if let Some(stop) = first_stop(refusal, listing.error) {
            return Err(stop);
        }
        match named_entries(alloc, &listing) {
            Err(NoMemory) => Err(MembersStop::NoMemory),
            Ok(entries) => {
                listing.entries = entries;
                Ok(Members {
                    modules,
                    length: size,
                    listing: Some(listing),
                })
            }
        }
    }
}
