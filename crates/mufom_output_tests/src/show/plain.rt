//! A small module, names of all bytes, and a text that fills more than a page.

use super::{shows, stops};
use mufom_drafts::{CODE, Draft, loaded, small};
use std::alloc::Global;
use std::process::Abort;

const PLAIN_TEXT: &str = "\
    module \"A\" processor \"68000\" maus 4 order M\n\
    section 0 \"code\" ASP size 4 align 2 base 4096\n\
    select 0\n\
    counter 0 = 4096\n\
    bytes 4 4E714E75\n\
    start = 4096\n\
    ";

#[test]
fn a_small_module_is_printed(rt: HostRuntime) {
    let alloc = rt.alloc();
    shows(&rt, alloc, small(alloc), PLAIN_TEXT.as_bytes());
    stops(&rt, alloc, small(alloc), 0, b"");
}

// ---- names

const ODD: &[u8] = &[0x61, 0x22, 0x62, 0x5C, 0x7F, 0x1F, 0xE9, 0x20, 0x7E, 0x00];

const ODD_TEXT: &str = "\
    module \"a\\x22b\\x5C\\x7F\\x1F\\xE9 ~\\x00\" processor \"68000\" maus 4 order M\n\
    section 0 \"a\\x22b\\x5C\\x7F\\x1F\\xE9 ~\\x00\" C size 0 align 1\n\
    select 0\n\
    counter 0 = 4096\n\
    bytes 0\n\
    ";

#[test]
fn bytes_that_do_not_stand_for_themselves_are_printed_by_their_digits(rt: HostRuntime) {
    let alloc = rt.alloc();
    let row = (ODD, false, None, 0, 1, None);
    let draft = loaded(alloc, ODD, &row, &[]);
    shows(&rt, alloc, draft, ODD_TEXT.as_bytes());
}

// ---- more than a page

const LONG: &str = "\
    module \"A\" processor \"68000\" maus 4 order M\n\
    section 0 \"code\" ASP size 4 align 2 base 4096\n\
    select 0\n\
    counter 0 = 4096\n\
    ";

// The text of a module of 40,000 bytes of one value.
fn long_text(rt: &impl Abort, alloc: Global) -> Vec<u8> {
    let mut text = Vec::from_slice(alloc, LONG.as_bytes()).expect(rt, "memory");
    text.extend_from_slice(b"bytes 40000 ").expect(rt, "memory");
    for _ in 0..40_000 {
        text.extend_from_slice(b"A5").expect(rt, "memory");
    }
    text.push(b'\n').expect(rt, "memory");
    text
}

fn long(alloc: Global) -> Draft {
    loaded(alloc, b"A", &CODE, &[0xA5; 40_000])
}

// The page holds 65,536 bytes, or one less: two digits are put at once.
#[test]
fn a_text_of_more_than_a_page_is_printed_in_order(rt: HostRuntime) {
    let alloc = rt.alloc();
    let text = long_text(&rt, alloc);
    shows(&rt, alloc, long(alloc), text.as_slice());
    stops(&rt, alloc, long(alloc), 0, b"");
    let Some(page) = text.get(..65_536) else {
        panic!(rt; "a short text");
    };
    stops(&rt, alloc, long(alloc), 1, page);
}
