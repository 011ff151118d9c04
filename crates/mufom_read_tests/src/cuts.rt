//! Long streams, read byte by byte.

use crate::streams::{PLAIN, WITH_DEBUG, add, copy_of, read, set, text_of};
use std::alloc::Global;
use std::process::Abort;

// The plain module without a start address and with `count` loads, each of which sets the current section. `end` is the
// offset of ME, as three bytes.
fn with_loads(rt: &impl Abort, alloc: Global, count: u32, end: [u8; 3]) -> Vec<u8> {
    let mut stream = copy_of(rt, alloc, &PLAIN[..100]);
    set(&mut stream, 68, 0);
    set(&mut stream, 74, end[0]);
    set(&mut stream, 75, end[1]);
    set(&mut stream, 76, end[2]);
    for _ in 0..count {
        add(rt, &mut stream, b"\xE5\x01");
    }
    add(rt, &mut stream, b"\xE1");
    stream
}

#[test]
fn cuts_make_no_difference(rt: HostRuntime) {
    let alloc = rt.alloc();
    let stream = with_loads(&rt, alloc, 1_000, [0, 0x08, 0x34]);
    let whole = text_of(&rt, alloc, &stream, 65_536);
    for size in [1, 2, 3, 99] {
        let cut = text_of(&rt, alloc, &stream, size);
        assert_eq!(rt; cut.as_str(), whole.as_str(), "chunks of {size}");
    }
}

// The number of loads in the module of a stream that is read byte by byte.
fn loads_of(alloc: Global, stream: &[u8]) -> usize {
    match read(alloc, stream, 1, WITH_DEBUG) {
        Ok(module) => module.parts().loads.len(),
        Err(_) => 0,
    }
}

// If all records were checked again at each byte, this would take hours.
#[test]
fn half_a_million_records_are_read_byte_by_byte(rt: HostRuntime) {
    let stream = with_loads(&rt, rt.alloc(), 500_000, [0x0F, 0x42, 0xA4]);
    assert_eq!(rt; loads_of(rt.alloc(), &stream), 500_000);
}
