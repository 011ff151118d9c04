//! Archives and other files in a host in memory.

ghost use Rattle.std.specs.Prelude.{◌≤◌};

use mufom_archive::BadArchive;
use mufom_host::{Host, MemHost};
use mufom_members::{Members, MembersStop, read_members};
use mufom_numbers::{Bytes, List, Reason, Text};
use mufom_read::{ReadOptions, ReadRefusal};
use std::alloc::Global;
use std::process::Abort;

const OPTIONS: ReadOptions = ReadOptions {
    debug: true,
    gnu: false,
};

// The greatest length of a file.
const MOST: u64 = 67_108_864;

// A module of 120 bytes.
const EVEN: &[u8] = b"\
    \xE0\x05\x36\x38\x30\x30\x30\x01\x41\xEC\x08\x04\xCD\xE2\xD7\x00\x84\x00\x00\x00\x00\xE2\xD7\x01\x84\x00\x00\x00\x00\xE2\xD7\x02\
    \x84\x00\x00\x00\x4D\xE2\xD7\x03\x84\x00\x00\x00\x00\xE2\xD7\x04\x84\x00\x00\x00\x00\xE2\xD7\x05\x84\x00\x00\x00\x64\xE2\xD7\x06\
    \x84\x00\x00\x00\x72\xE2\xD7\x07\x84\x00\x00\x00\x77\xE6\x01\xC1\xD3\xD0\x04\x63\x6F\x64\x65\xE7\x01\x02\xE2\xD3\x01\x04\xE2\xCC\
    \x01\x82\x10\x00\xE5\x01\xE2\xD0\x01\x82\x10\x00\xED\x04\x4E\x71\x4E\x75\xE2\xC7\x82\x10\x00\xE1\
    ";

// A module of 111 bytes.
const ODD: &[u8] = b"\
    \xE0\x05\x36\x38\x30\x30\x30\x03\x6C\x69\x62\xEC\x08\x04\xE2\xD7\x00\x84\x00\x00\x00\x00\xE2\xD7\x01\x84\x00\x00\x00\x00\xE2\xD7\
    \x02\x84\x00\x00\x00\x4E\xE2\xD7\x03\x84\x00\x00\x00\x5C\xE2\xD7\x04\x84\x00\x00\x00\x00\xE2\xD7\x05\x84\x00\x00\x00\x68\xE2\xD7\
    \x06\x84\x00\x00\x00\x00\xE2\xD7\x07\x84\x00\x00\x00\x6E\xE6\x01\xC3\xD0\x05\x2E\x74\x65\x78\x74\xE2\xD3\x01\x02\xE8\x20\x04\x65\
    \x78\x69\x74\xE2\xC9\x20\xD2\x01\xE5\x01\xED\x02\x4E\x75\xE1\
    ";

fn add(rt: &impl Abort, bytes: &mut Vec<u8>, more: &[u8]) {
    bytes.extend_from_slice(more).expect(rt, "memory");
}

// An archive without entries.
fn archive(rt: &impl Abort, alloc: Global) -> Vec<u8> {
    Vec::from_slice(alloc, b"!<arch>\n").expect(rt, "memory")
}

// Adds an entry, with padding if its contents have an odd size. The field of the size says what it is told to.
fn add_entry(rt: &impl Abort, bytes: &mut Vec<u8>, label: &[u8], size: &[u8], contents: &[u8]) {
    add(rt, bytes, label);
    add(rt, bytes, b"0           0     0     644     ");
    add(rt, bytes, size);
    add(rt, bytes, b"`\n");
    add(rt, bytes, contents);
    if contents.len() % 2 == 1 {
        add(rt, bytes, b"\n");
    }
}

// A host in which a file of these bytes is open.
fn open_host(rt: &impl Abort, alloc: Global, bytes: &[u8]) -> MemHost {
    let name = Text::from_str(alloc, "a").expect(rt, "memory");
    let content = Bytes::from_slice(alloc, bytes).expect(rt, "memory");
    let mut files = List::new(alloc);
    files.push((name, content)).expect(rt, "memory");
    let mut host = MemHost::new(alloc, files, List::new(alloc), List::new(alloc), 1000).expect(
        rt, "memory",
    );
    assert_eq!(rt; host.open("a"), Ok(()));
    host
}

// What a file of these bytes has.
fn read(rt: &impl Abort, alloc: Global, bytes: &[u8], limit: u64) -> Result<Members, MembersStop>
    requires { limit ≤ 67108864 }
{
    let mut host = open_host(rt, alloc, bytes);
    read_members(alloc, &mut host, limit, OPTIONS)
}

// Why a file of these bytes has no modules.
fn stop(rt: &impl Abort, alloc: Global, bytes: &[u8], limit: u64) -> Option<MembersStop>
    requires { limit ≤ 67108864 }
{
    match read(rt, alloc, bytes, limit) {
        Ok(_) => None,
        Err(stop) => Some(stop),
    }
}

// An archive of 426 bytes: a table of symbols of 5 bytes, a module of 111 bytes, and one of 120 bytes.
fn library(rt: &impl Abort, alloc: Global) -> Vec<u8> {
    let mut bytes = archive(rt, alloc);
    add_entry(
        rt,
        &mut bytes,
        b"/               ",
        b"5         ",
        b"\0\0\0\0\0",
    );
    add_entry(rt, &mut bytes, b"b.o/            ", b"111       ", ODD);
    add_entry(rt, &mut bytes, b"c.o/            ", b"120       ", EVEN);
    bytes
}

// Whether the module at this position has this name.
fn has_name(members: &Members, position: usize, name: &[u8]) -> bool {
    match members.name(position) {
        Some(found) => found == name,
        None => false,
    }
}

#[test]
fn the_modules_of_an_archive_are_read(rt: HostRuntime) {
    let bytes = library(&rt, rt.alloc());
    let members = read(&rt, rt.alloc(), &bytes, MOST).expect(&rt, "modules");
    assert_eq!(rt; members.modules.len(), 2);
    assert!(rt; has_name(&members, 0, b"b.o"));
    assert!(rt; has_name(&members, 1, b"c.o"));
    assert!(rt; members.name(2).is_none());
    assert_eq!(rt; members.length, bytes.len() as u64);
}

#[test]
fn an_empty_archive_has_no_modules(rt: HostRuntime) {
    let bytes = archive(&rt, rt.alloc());
    let members = read(&rt, rt.alloc(), &bytes, MOST).expect(&rt, "modules");
    assert_eq!(rt; members.modules.len(), 0);
}

#[test]
fn another_file_has_one_module(rt: HostRuntime) {
    let members = read(&rt, rt.alloc(), EVEN, 120).expect(&rt, "a module");
    assert_eq!(rt; members.modules.len(), 1);
    assert!(rt; members.name(0).is_none());
    assert_eq!(rt; members.length, 120);
}

#[test]
fn a_member_that_is_cut_off_is_refused(rt: HostRuntime) {
    let mut bytes = archive(&rt, rt.alloc());
    add_entry(
        &rt,
        &mut bytes,
        b"b.o/            ",
        b"110       ",
        &ODD[..110],
    );
    add_entry(&rt, &mut bytes, b"c.o/            ", b"120       ", EVEN);
    let refusal = ReadRefusal {
        offset: 68 + 110,
        reason: Reason::Truncated,
    };
    assert_eq!(rt;
        stop(&rt, rt.alloc(), &bytes, MOST),
        Some(MembersStop::Refused(refusal))
    );
}

#[test]
fn a_bad_size_is_refused(rt: HostRuntime) {
    let mut bytes = archive(&rt, rt.alloc());
    add_entry(&rt, &mut bytes, b"b.o/            ", b"111       ", ODD);
    add_entry(&rt, &mut bytes, b"c.o/            ", b"4x        ", EVEN);
    let error = BadArchive { offset: 180 };
    assert_eq!(rt;
        stop(&rt, rt.alloc(), &bytes, MOST),
        Some(MembersStop::BadArchive(error))
    );
}

#[test]
fn an_earlier_entry_is_refused_first(rt: HostRuntime) {
    let mut bytes = archive(&rt, rt.alloc());
    add_entry(&rt, &mut bytes, b"/9              ", b"111       ", ODD);
    add_entry(&rt, &mut bytes, b"c.o/            ", b"4         ", b"none");
    let error = BadArchive { offset: 8 };
    assert_eq!(rt;
        stop(&rt, rt.alloc(), &bytes, MOST),
        Some(MembersStop::BadArchive(error))
    );
}

#[test]
fn all_bytes_of_an_archive_count(rt: HostRuntime) {
    let bytes = library(&rt, rt.alloc());
    assert_eq!(rt;
        stop(&rt, rt.alloc(), &bytes, 425),
        Some(MembersStop::Limit)
    );
}

#[test]
fn a_header_past_which_the_archive_goes_on_is_bad(rt: HostRuntime) {
    let mut bytes = archive(&rt, rt.alloc());
    add_entry(&rt, &mut bytes, b"c.o/            ", b"4x        ", EVEN);
    let error = BadArchive { offset: 8 };
    assert_eq!(rt;
        stop(&rt, rt.alloc(), &bytes, 68),
        Some(MembersStop::BadArchive(error))
    );
    assert_eq!(rt; stop(&rt, rt.alloc(), &bytes, 67), Some(MembersStop::Limit));
}

#[test]
fn a_member_past_which_the_archive_goes_on_is_refused(rt: HostRuntime) {
    let mut bytes = archive(&rt, rt.alloc());
    add_entry(
        &rt,
        &mut bytes,
        b"b.o/            ",
        b"110       ",
        &ODD[..110],
    );
    add_entry(&rt, &mut bytes, b"c.o/            ", b"120       ", EVEN);
    let refusal = ReadRefusal {
        offset: 68 + 110,
        reason: Reason::Truncated,
    };
    assert_eq!(rt;
        stop(&rt, rt.alloc(), &bytes, 178),
        Some(MembersStop::Refused(refusal))
    );
    assert_eq!(rt;
        stop(&rt, rt.alloc(), &bytes, 177),
        Some(MembersStop::Limit)
    );
}

#[test]
fn a_table_of_long_names_may_be_past_the_limit(rt: HostRuntime) {
    let mut bytes = archive(&rt, rt.alloc());
    add_entry(&rt, &mut bytes, b"/0              ", b"120       ", EVEN);
    add_entry(&rt, &mut bytes, b"//              ", b"4         ", b"d.o/");
    assert_eq!(rt;
        stop(&rt, rt.alloc(), &bytes, 251),
        Some(MembersStop::Limit)
    );
    let members = read(&rt, rt.alloc(), &bytes, 252).expect(&rt, "modules");
    assert!(rt; has_name(&members, 0, b"d.o"));
}

#[test]
fn a_long_name_past_a_table_is_bad_past_the_limit(rt: HostRuntime) {
    let mut bytes = archive(&rt, rt.alloc());
    add_entry(&rt, &mut bytes, b"//              ", b"4         ", b"d.o/");
    add_entry(&rt, &mut bytes, b"/99             ", b"120       ", EVEN);
    add_entry(&rt, &mut bytes, b"c.o/            ", b"120       ", EVEN);
    let error = BadArchive { offset: 72 };
    assert_eq!(rt;
        stop(&rt, rt.alloc(), &bytes, 400),
        Some(MembersStop::BadArchive(error))
    );
}

#[test]
fn a_long_name_past_a_table_that_the_limit_cuts_off_is_bad(rt: HostRuntime) {
    let mut bytes = archive(&rt, rt.alloc());
    add_entry(&rt, &mut bytes, b"/5              ", b"120       ", EVEN);
    add_entry(&rt, &mut bytes, b"//              ", b"4         ", b"d.o/");
    let error = BadArchive { offset: 8 };
    assert_eq!(rt;
        stop(&rt, rt.alloc(), &bytes, 248),
        Some(MembersStop::BadArchive(error))
    );
    assert_eq!(rt;
        stop(&rt, rt.alloc(), &bytes, 247),
        Some(MembersStop::Limit)
    );
}

#[test]
fn a_long_name_is_bad_if_no_table_can_follow(rt: HostRuntime) {
    let mut bytes = archive(&rt, rt.alloc());
    add_entry(&rt, &mut bytes, b"/5              ", b"120       ", EVEN);
    add(&rt, &mut bytes, &EVEN[..61]);
    let error = BadArchive { offset: 8 };
    assert_eq!(rt;
        stop(&rt, rt.alloc(), &bytes, 248),
        Some(MembersStop::BadArchive(error))
    );
    assert_eq!(rt;
        stop(&rt, rt.alloc(), &bytes, 247),
        Some(MembersStop::Limit)
    );
}

#[test]
fn many_empty_tables_are_read(rt: HostRuntime) {
    let mut bytes = archive(&rt, rt.alloc());
    for _ in 0..100_000 {
        add_entry(&rt, &mut bytes, b"//              ", b"0         ", b"");
    }
    let members = read(&rt, rt.alloc(), &bytes, MOST).expect(&rt, "modules");
    assert_eq!(rt; members.modules.len(), 0);
}
