//! Parts of chunks and of lists.

ghost use Rattle.std.specs.Prelude.{◌≡◌, ◌↔◌, ◌-◌, ◌≤◌, length, take, drop, slice_get, IsTrue};

use mufom_archive::Entry;

/// The first `count` bytes, or all if there are fewer.
pub(crate) fn first_bytes(bytes: &[u8], count: u64) -> &[u8]
    ensures front { result.now ≡ take count bytes.now }
    ensures few { length result.now ≤ count }
{
    if bytes.len() as u64 <= count {
        bytes
    } else {
        &bytes[..count as usize]
    }
}

/// Whether a chunk has at most this number of bytes.
pub(crate) fn fits(chunk: &[u8], room: u64) -> bool
    ensures { IsTrue result ↔ (length chunk.now ≤ room) }
{
    chunk.len() as u64 <= room
}

// The bytes without the first `count`, or none if there are no more.
fn later_bytes(bytes: &[u8], count: u64) -> &[u8]
    ensures { result.now ≡ drop count bytes.now }
{
    if bytes.len() as u64 <= count {
        &[]
    } else {
        &bytes[count as usize..]
    }
}

/// The part of a chunk that belongs to the contents of an entry. The chunk begins at this offset of the archive.
pub(crate) fn part_of<'a>(chunk: &'a [u8], start: u64, entry: &Entry) -> &'a [u8]
    ensures { result.now ≡ drop (entry.now.start - start) (take (entry.now.end - start) chunk.now) }
{
    let front = first_bytes(chunk, entry.end.saturating_sub(start));
    later_bytes(front, entry.start.saturating_sub(start))
}

/// The entry at a position, if there is one.
pub(crate) fn entry_at(entries: &[Entry], position: usize) -> Option<Entry>
    ensures { result ≡ slice_get entries.now position }
{
    entries.get(position).copied()
}

/// Whether the contents of an entry are complete in an archive of which this number of bytes was read.
pub(crate) fn is_complete(entry: &Entry, length: u64) -> bool
    ensures { IsTrue result ↔ (entry.now.end ≤ length) }
{
    entry.end <= length
}
