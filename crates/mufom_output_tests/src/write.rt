//! Modules that are written, to a file in memory.

mod disk;
mod every_kind;
mod linked;
mod located;

use disk::Disk;
use mufom_drafts::Draft;
use mufom_module::Module;
use mufom_write::{WriteStop, layout, write_module};
use std::alloc::Global;
use std::process::Abort;

// The module is written as these bytes, where `most` are taken at a call.
fn writes_by(rt: &impl Abort, module: &Module, most: usize, bytes: &[u8]) {
    let mut disk = Disk::new(most, 1000);
    assert_eq!(rt;
        write_module(module, &mut disk),
        Ok(()),
        "{most} bytes at a call"
    );
    assert_eq!(rt; disk.bytes(), bytes, "{most} bytes at a call");
    assert_eq!(rt; disk.faults, 0, "{most} bytes at a call");
}

// Where one byte is taken at each call, the call with each number fails once, and leaves the bytes
// before it.
fn stops_by(rt: &impl Abort, module: &Module, bytes: &[u8]) {
    for call in 0..bytes.len() {
        let mut disk = Disk::new(1, call);
        assert_eq!(rt;
            write_module(module, &mut disk),
            Err(WriteStop::Fault),
            "call {call}"
        );
        assert_eq!(rt; disk.bytes(), &bytes[..call], "call {call}");
        assert_eq!(rt; disk.faults, 1, "call {call}");
    }
}

// The module of the draft is written as these records, in hexadecimal, in records of any size and up
// to each write that fails; and its layout has these offsets and their length.
fn writes(rt: &impl Abort, alloc: Global, draft: Draft, offsets: [u64; 8], records: &str) {
    let module = draft.module().expect(rt, "a module");
    let bytes = hex::decode(alloc, records).expect(rt, "hexadecimal");
    let layout = layout(&module);
    assert_eq!(rt; layout.offsets, offsets, "offsets");
    assert_eq!(rt; layout.length, bytes.len() as u64, "length");
    writes_by(rt, &module, 1000, &bytes);
    writes_by(rt, &module, 3, &bytes);
    writes_by(rt, &module, 1, &bytes);
    stops_by(rt, &module, &bytes);
}
