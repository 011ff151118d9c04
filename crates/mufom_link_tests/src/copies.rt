//! Copies of a section and of debug items.

use crate::files::module;
use mufom_copies::{copy_debug_items, copy_section};
use mufom_drafts::Records;

// An absolute section `code` of four bytes at 0100, aligned to 2, and a block of a global function, which ends at 7,
// with a name in it.
const ENTRIES: Records<'static> = Records {
    sections: b"\xE6\x01\xC1\xD3\x04code\xE7\x01\x02\xE2\xD3\x01\x04\xE2\xCC\x01\x82\x01\x00",
    debug: b"\xF8\x04\x00\x01f\x01\x02\x03\xF0\x20\x01n\xF9\x07",
    ..Records::NONE
};

#[test]
fn debug_items_are_copied(rt: HostRuntime) {
    let alloc = rt.alloc();
    let module = module(&rt, alloc, &ENTRIES);
    let items = &module.parts().debug;
    let copies = copy_debug_items(alloc, items.as_slice()).expect(&rt, "memory");
    let text = format!(in alloc; "{copies:?}").expect(&rt, "memory");
    let wanted = format!(in alloc; "{items:?}").expect(&rt, "memory");
    assert_eq!(rt; text.as_str(), wanted.as_str());
}

#[test]
fn a_section_is_copied(rt: HostRuntime) {
    let alloc = rt.alloc();
    let module = module(&rt, alloc, &ENTRIES);
    let section = module.parts().sections.get(0).expect(&rt, "a section");
    let copy = copy_section(alloc, section).expect(&rt, "memory");
    assert_eq!(rt; copy.name.as_slice(), b"code".as_slice());
    assert_eq!(rt; (copy.size, copy.align, copy.base), (4, 2, Some(256)));
}
