//! Modules that are printed, to a host in memory.

mod every_line;
mod plain;

use mufom_drafts::Draft;
use mufom_host::MemHost;
use mufom_numbers::List;
use mufom_text::{PrintStop, print_module};
use std::alloc::Global;
use std::process::Abort;

const ROOM: usize = 131_072;

// A host on which the calls with these numbers fail.
fn host(rt: &impl Abort, alloc: Global, failing: List<u64>) -> MemHost {
    MemHost::new(alloc, List::new(alloc), List::new(alloc), failing, ROOM).expect(rt, "memory")
}

// The module is printed as this text.
fn shows(rt: &impl Abort, alloc: Global, draft: Draft, text: &[u8]) {
    let module = draft.module().expect(rt, "a module");
    let mut host = host(rt, alloc, List::new(alloc));
    assert_eq!(rt; print_module(alloc, &mut host, &module), Ok(()));
    assert_eq!(rt; host.out(), text);
}

// Where the call with this number fails, this much of the text is printed.
fn stops(rt: &impl Abort, alloc: Global, draft: Draft, call: u64, text: &[u8]) {
    let module = draft.module().expect(rt, "a module");
    let failing = List::single(alloc, call).expect(rt, "memory");
    let mut host = host(rt, alloc, failing);
    let outcome = print_module(alloc, &mut host, &module);
    assert_eq!(rt; outcome, Err(PrintStop::Fault), "call {call}");
    assert_eq!(rt; host.out(), text, "call {call}");
}
