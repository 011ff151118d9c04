//! An archive that `ar` of GNU binutils 2.40 wrote.

ghost use Rattle.std.specs.Prelude.{◌<◌};

use mufom_archive::{Archive, BadArchive, Listing, is_archive};
use std::alloc::Global;
use std::process::Abort;

// Two short names, a long one, and contents of 3, 4 and 5 bytes.
const ARCHIVE: &[u8] = b"!<arch>\n\
    //                                              22        `\n\
    a_long_member_name.o/\n\
    a.o/            0           0     0     644     3         `\n\
    abc\n\
    b.o/            0           0     0     644     4         `\n\
    defg\
    /0              0           0     0     644     5         `\n\
    hijkl\n";

// The members: their names, and where their contents start and end.
const MEMBERS: [(&[u8], u64, u64); 3] = [
    (b"a.o", 150, 153),
    (b"b.o", 214, 218),
    (b"a_long_member_name.o", 278, 283),
];

// What the bytes have, if they are read in chunks of this length.
fn listing(rt: &impl Abort, alloc: Global, bytes: &[u8], chunk: usize) -> Listing
    requires { 0 < chunk }
{
    let mut archive = Archive::new(alloc);
    for part in bytes.chunks(chunk) {
        assert!(rt; archive.len() < 1000, "chunks of {chunk} bytes");
        assert!(rt; part.len() < 1000, "chunks of {chunk} bytes");
        archive.feed(part).expect(rt, "memory");
    }
    archive.finish()
}

// The first members of the archive are those of this listing.
fn has_members(rt: &impl Abort, listing: &Listing, count: usize) {
    let mut number = 0;
    for entry in listing.entries.as_slice() {
        if entry.is_member() {
            assert!(rt; number < 3, "member {number}");
            let (name, start, end) = MEMBERS[number];
            assert_eq!(rt; listing.name(entry), Some(name), "member {number}");
            assert_eq!(rt; (entry.start, entry.end), (start, end), "member {number}");
            number += 1;
        }
    }
    assert_eq!(rt; number, count);
}

#[test]
fn members_are_found_in_any_chunks(rt: HostRuntime) {
    assert!(&rt; is_archive(ARCHIVE));
    for chunk in [1, 7, 64, 1000] {
        let listing = listing(&rt, rt.alloc(), ARCHIVE, chunk);
        has_members(&rt, &listing, 3);
        assert_eq!(&rt; listing.error, None, "chunks of {chunk} bytes");
    }
}

#[test]
fn an_entry_that_is_cut_off_is_refused(rt: HostRuntime) {
    let listing = listing(&rt, rt.alloc(), &ARCHIVE[..282], 50);
    has_members(&rt, &listing, 2);
    assert_eq!(&rt; listing.error, Some(BadArchive { offset: 218 }));
}
