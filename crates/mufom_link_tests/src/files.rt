//! The files of modules, and the links of the modules that are read from them. Where there is no memory,
//! a test fails.

use mufom_drafts::Records;
use mufom_host::{Host, MemHost};
use mufom_link::{LinkRefusal, link, link_owned, may_be_linked};
use mufom_meaning::Descriptor;
use mufom_module::Module;
use mufom_numbers::List;
use mufom_read::{ReadOptions, Reader};
use mufom_write::write_module;
use std::alloc::Global;
use std::process::Abort;

/// The name of each link.
const NAME: &[u8] = b"whole";

/// Room for the file of a link.
const ROOM: usize = 4096;

// The debug part is read, and no form of GNU binutils is accepted.
const OPTIONS: ReadOptions = ReadOptions {
    debug: true,
    gnu: false,
};

/// The module of this file.
pub(crate) fn read(rt: &impl Abort, alloc: Global, file: &[u8]) -> Module {
    let mut reader = Reader::new(alloc, OPTIONS).expect(rt, "memory");
    reader.feed(file).expect(rt, "the bytes of a module");
    reader.finish().expect(rt, "a module")
}

/// The module with these records.
pub(crate) fn module(rt: &impl Abort, alloc: Global, records: &Records<'_>) -> Module {
    read(rt, alloc, &records.file(alloc).expect(rt, "memory"))
}

// The modules with these records.
fn modules(rt: &impl Abort, alloc: Global, list: &[&Records<'_>]) -> Vec<Module> {
    let mut modules = Vec::new(alloc);
    for records in list {
        modules
            .push(module(rt, alloc, records))
            .expect(rt, "memory");
    }
    modules
}

// The module is written as this file.
fn is_written(rt: &impl Abort, alloc: Global, module: &Module, file: &[u8]) {
    let mut host = host(rt, alloc);
    assert_eq!(rt; host.create("m"), Ok(()));
    assert_eq!(rt; write_module(module, &mut host), Ok(()));
    let (_, bytes) = host.making().expect(rt, "a file");
    assert_eq!(rt; bytes, file);
}

// A host without files, on which nothing fails.
fn host(rt: &impl Abort, alloc: Global) -> MemHost {
    let (files, reads, writes) = (List::new(alloc), List::new(alloc), List::new(alloc));
    MemHost::new(alloc, files, reads, writes, ROOM).expect(rt, "memory")
}

// The link of the list, where the list may be linked.
fn try_link(alloc: Global, list: &[Module]) -> Result<Module, LinkRefusal> {
    if !may_be_linked(list, NAME) {
        return Err(LinkRefusal::NoMemory);
    }
    link(alloc, list, NAME)
}

// The link that takes the modules of the list, where the list may be linked.
fn try_link_owned(alloc: Global, list: Vec<Module>) -> Result<Module, LinkRefusal> {
    if !may_be_linked(&list, NAME) {
        return Err(LinkRefusal::NoMemory);
    }
    link_owned(alloc, list, NAME)
}

/// The link of these modules is this one, from copies and from the modules themselves.
pub(crate) fn links_to(rt: &impl Abort, alloc: Global, list: &[&Records<'_>], whole: &Records<'_>) {
    let modules = modules(rt, alloc, list);
    let whole = Records {
        name: b"\x05whole",
        ..*whole
    };
    let file = whole.file(alloc).expect(rt, "memory");
    let linked = try_link(alloc, &modules).expect(rt, "linked");
    is_written(rt, alloc, &linked, &file);
    let linked = try_link_owned(alloc, modules).expect(rt, "linked");
    is_written(rt, alloc, &linked, &file);
}

/// Why modules are not linked.
#[derive(Clone, Copy)]
pub(crate) enum Unlinked {
    Duplicate(&'static [u8]),
    Mismatch(Descriptor, Descriptor),
    DuplicateStart,
}

// Whether this is the error.
fn is_why(refusal: &LinkRefusal, why: &Unlinked) -> bool {
    match (refusal, why) {
        (LinkRefusal::Duplicate(name), Unlinked::Duplicate(wanted)) => name.as_slice() == *wanted,
        (LinkRefusal::Mismatch(a, b), Unlinked::Mismatch(first, other)) => a == first && b == other,
        (LinkRefusal::DuplicateStart, Unlinked::DuplicateStart) => true,
        _ => false,
    }
}

/// These modules, the row with this number, are not linked, and this is why.
pub(crate) fn refuses(
    rt: &impl Abort,
    alloc: Global,
    number: usize,
    list: &[&Records<'_>],
    why: &Unlinked,
) {
    let modules = modules(rt, alloc, list);
    let refusal = try_link(alloc, &modules).err().expect(rt, "a refusal");
    assert!(rt; is_why(&refusal, why), "row {number}: {refusal}");
}
