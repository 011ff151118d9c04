//! What an archive has.

ghost use Rattle.std.specs.Prelude.{◌≡◌, ◌≤◌, find, is_some, length, option_map, position, slice_get, take};
ghost use Rattle.std.specs.List.{before_first, position_or_len};
ghost use Rattle.mufom_archive.specs.Names.{name_of};
ghost use Rattle.mufom_archive.specs.Listings.{first_error, first_nameless, is_refused, lacks_name};

use crate::entry::Entry;
use crate::label::{begins_past, lacks_name, name_of};
use mufom_numbers::List;
use thiserror::Error;

/// Why a file that begins as an archive is not one: what follows the entry before it is not a header, the
/// contents of an entry end after the archive does, or a long name begins past the end of the table.
#[derive(Clone, Copy, Debug, PartialEq, Eq, Error)]
#[error("invalid archive entry at offset {offset}")]
pub struct BadArchive {
    /// The offset of the first byte of the entry, from the start of the archive.
    pub offset: u64,
}

/// The entries of an archive before its first error, and that error.
#[derive(Debug, Drop)]
pub struct Listing {
    /// The entries in their order, tables among them.
    pub entries: List<Entry>,
    pub error: Option<BadArchive>,
    /// The contents of the table of long names.
    pub(crate) names: Vec<u8>,
}

impl Listing {
    /// The name of an entry that is a member. Does not allocate.
    pub fn name<'a>(&'a self, entry: &'a Entry) -> Option<&'a [u8]>
        ensures { option_map (λ name. name.now) result ≡ name_of self.now.names.items entry.now.label }
    {
        name_of(&self.names, &entry.label)
    }

    /// Whether an entry that is a member has a name. Takes the same time for a name of any length, and does not
    /// allocate.
    pub fn has_name(&self, entry: &Entry) -> bool
        ensures { result ≡ is_some (name_of self.now.names.items entry.now.label) }
    {
        !lacks_name(&self.names, &entry.label)
    }
}

// Whether an entry is refused, given the table of long names and the length of the archive.
fn is_refused(names: &[u8], size: u64, entry: &Entry) -> bool
    ensures { result ≡ is_refused names.now size entry.now }
{
    size < entry.end || (entry.is_member() && lacks_name(names, &entry.label))
}

// The position of the first entry that is refused.
fn first_refused(names: &[u8], size: u64, entries: &[Entry]) -> Option<usize>
    ensures { result ≡ position (is_refused names.now size) entries.now }
{
    entries
        .iter()
        .position(|entry| is_refused(names, size, entry))
}

// Whether an entry is a member whose long name begins past the end of a table of long names of this size.
fn lacks_its_name(size: u64, entry: &Entry) -> bool
    ensures { result ≡ lacks_name size entry.now }
{
    entry.is_member() && begins_past(size, &entry.label)
}

// The position of the first entry that lacks its name.
fn position_nameless(size: u64, entries: &[Entry]) -> Option<usize>
    ensures { result ≡ position (lacks_name size) entries.now }
{
    entries.iter().position(|entry| lacks_its_name(size, entry))
}

// The number of entries before the first one that lacks its name.
fn count_named(size: u64, entries: &[Entry]) -> usize
    ensures { result ≡ position_or_len (lacks_name size) entries.now }
{
    match position_nameless(size, entries) {
        Some(count) => count,
        None => entries.len(),
    }
}

// The entry at a position, if there is one.
fn entry_at(entries: &[Entry], position: usize) -> Option<Entry>
    ensures { result ≡ slice_get entries.now position }
{
    entries.get(position).copied()
}

// The first entry that lacks its name.
fn find_nameless(size: u64, entries: &[Entry]) -> Option<Entry>
    ensures { result ≡ find (lacks_name size) entries.now }
{
    entry_at(entries, count_named(size, entries))
}

/// The offset of the first entry that lacks its name, given the size of the table of long names.
pub(crate) fn first_nameless(entries: &[Entry], size: Option<u64>) -> Option<u64>
    ensures { result ≡ first_nameless entries.now size }
{
    match find_nameless(size?, entries) {
        Some(entry) => Some(entry.offset),
        None => None,
    }
}

// The number of entries before the first one that is refused.
fn count_sound(names: &[u8], size: u64, entries: &[Entry]) -> usize
    ensures count { result ≡ position_or_len (is_refused names.now size) entries.now }
    ensures within { result ≤ length entries.now }
{
    match first_refused(names, size, entries) {
        Some(count) => count,
        None => entries.len(),
    }
}

// The first error of an archive of this length, given the first entry that is refused, if one is, and the offset
// of the next header.
fn first_error(size: u64, next: u64, refused: Option<&Entry>) -> Option<BadArchive>
    ensures { result ≡ first_error size next (option_map (λ e. e.now) refused.entry) }
{
    match refused {
        Some(entry) => Some(BadArchive {
            offset: entry.offset,
        }),
        None if next < size => Some(BadArchive { offset: next }),
        None => None,
    }
}

// The first `count` of the entries.
fn first_entries(entries: List<Entry>, count: usize) -> List<Entry>
    requires { count ≤ length entries }
    ensures { result ≡ take count entries }
{
    let mut kept = entries.into_vec();
    kept.truncate(count);
    List::from_vec(kept)
}

/// What an archive of this length has, given its entries, the offset of the next header, and the table of long names.
pub(crate) fn listing_of(size: u64, entries: List<Entry>, next: u64, names: Vec<u8>) -> Listing
    ensures entries { result.entries ≡ before_first (is_refused names.items size) entries }
    ensures names { result.names.items ≡ names.items }
    ensures error { result.error ≡ first_error size next (find (is_refused names.items size) entries) }
{
    let count = count_sound(&names, size, entries.as_slice());
    let error = first_error(size, next, entries.get(count));
    Listing {
        entries: first_entries(entries, count),
        error,
        names,
    }
}
