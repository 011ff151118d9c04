//! The header of an entry.

ghost use Rattle.std.specs.Prelude.{◌≡◌, ◌↔◌, ◌+◌, ◌<◌, ◌≤◌, ◌^◌, length, take, IsTrue, IfSome};
ghost use Rattle.std.specs.List.{list_all};
ghost use Rattle.mufom_archive.specs.Names.{is_blank, is_long_names, is_member};
ghost use Rattle.mufom_archive.specs.Entries.{BeginsArchive, entry_of, is_header, next_offset, size_in};

use crate::label::{count_digits, decimal, is_long_names, is_member};

/// The length of a header in bytes.
pub(crate) const HEADER: usize = 60;

/// The length of the signature with which an archive begins, in bytes.
pub(crate) const SIGNATURE: usize = 8;

/// An entry of an archive: the offset of its header, and those at which its contents start and end. All
/// are counted in bytes from the start of the archive.
#[derive(Clone, Copy, Debug, PartialEq, Eq, Drop)]
pub struct Entry {
    pub offset: u64,
    pub start: u64,
    pub end: u64,
    pub(crate) label: [u8; 16],
}

/// Whether a file that begins with these bytes is an archive. At least eight bytes are needed to say so.
pub fn is_archive(bytes: &[u8]) -> bool
    ensures { IsTrue result ↔ BeginsArchive bytes.now }
{
    bytes.len() >= SIGNATURE && &bytes[..SIGNATURE] == b"!<arch>\n".as_slice()
}

// Whether all bytes are blanks.
fn are_blanks(bytes: &[u8]) -> bool
    ensures { result ≡ list_all is_blank bytes.now }
{
    bytes.iter().all(|b| *b == b' ')
}

// The size that a field of a header states, or `None` if it is not of its form.
fn size_in(field: &[u8]) -> Option<u64>
    requires { length field.now ≤ 10 }
    ensures size { result ≡ size_in field.now }
    ensures small { IfSome result (λ size. size < 10 ^ 15) }
{
    let digits = count_digits(field);
    if digits == 0 || !are_blanks(&field[digits..]) {
        return None;
    }
    Some(decimal(&field[..digits]))
}

// Whether these bytes end as a header does, and are as many.
fn is_header(bytes: &[u8]) -> bool
    ensures { result ≡ is_header bytes.now }
{
    bytes.len() == HEADER && bytes.ends_with(b"`\n")
}

// The label with which a header begins.
fn label_of(header: &[u8]) -> [u8; 16]
    requires { 16 ≤ length header.now }
    ensures { result ≡ take 16 header.now }
{
    let mut label = [0; 16];
    label.copy_from_slice(&header[..16]);
    label
}

/// The entry whose header these bytes are, at this offset, or `None` if they are not a header.
pub(crate) fn entry_of(offset: u64, header: &[u8]) -> Option<Entry>
    requires small { offset < 2 ^ 62 }
    ensures entry { result ≡ entry_of offset header.now }
    ensures next { IfSome result (λ e. (e.start ≤ e.end) × (e.end < 2 ^ 63)) }
{
    if !is_header(header) {
        return None;
    }
    let size = size_in(&header[48..58])?;
    let start = offset + 60;
    let label = label_of(header);
    Some(Entry {
        offset,
        start,
        end: start + size,
        label,
    })
}

impl Entry {
    /// The offset of the next header.
    pub(crate) fn next(&self) -> u64
        requires order { self.now.start ≤ self.now.end }
        requires small { self.now.end < 2 ^ 63 }
        ensures { result ≡ next_offset self.now }
    {
        self.end + (self.end - self.start) % 2
    }

    /// Whether the entry is the table of long names.
    pub(crate) fn is_long_names(&self) -> bool
        ensures { result ≡ is_long_names self.now.label }
    {
        is_long_names(&self.label)
    }

    /// Whether the entry is a member, and no table of the archive itself.
    pub fn is_member(&self) -> bool
        ensures { result ≡ is_member self.now.label }
    {
        is_member(&self.label)
    }
}
