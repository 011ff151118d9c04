//! The listing of a small module, in memory and printed.

use mufom_drafts::{Data, Draft};
use mufom_host::MemHost;
use mufom_listing::{listing, print_listing};
use mufom_module::Module;
use mufom_numbers::List;
use mufom_sections::Purpose;
use std::alloc::Global;
use std::process::Abort;

const LISTED: &str = "\
    module \"\" processor \"\" maus 4 order M\n\
    extension 20AF\n\
    environment 00\n\
    section 0 \"c\" CP size 2 align 1\n\
    select 0\n\
    repeat 2\n\
    \x20\x20bytes 1 09\n\
    end\n\
    repeat 3\n\
    end\n\
    ";

// A module with parts that are not read, and with repeats of one byte and of nothing.
fn small(rt: &impl Abort, alloc: Global) -> Module {
    let mut draft = Draft::new(alloc, 4);
    draft.skipped(b"\x20\xAF", b"\x00");
    draft.section_row(&(b"c", false, Some(Purpose::Code), 2, 1, None));
    draft.select(0);
    draft.repeat(2, &[Data::Bytes(b"\x09")]);
    draft.repeat(3, &[]);
    draft.module().expect(rt, "a module")
}

#[test]
fn a_small_module_is_listed(rt: HostRuntime) {
    let alloc = rt.alloc();
    let module = small(&rt, alloc);
    let text = listing(alloc, &module).expect(&rt, "memory");
    assert_eq!(rt; text.as_slice(), LISTED.as_bytes());
}

#[test]
fn a_small_listing_is_printed(rt: HostRuntime) {
    let alloc = rt.alloc();
    let module = small(&rt, alloc);
    let files = List::new(alloc);
    let host = MemHost::new(alloc, files, List::new(alloc), List::new(alloc), 4096);
    let mut host = host.expect(&rt, "memory");
    assert!(rt; print_listing(alloc, &mut host, &module).is_ok());
    assert_eq!(rt; host.out(), LISTED.as_bytes());
}
