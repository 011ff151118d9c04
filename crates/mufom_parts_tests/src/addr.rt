//! Tests of what is found in a program with one function and one line.

use arrayvec::ArrayVec;
use mufom_addr::{Hit, find_address};
use mufom_debug::{Block, BlockHead, Boxed, DebugItem, is_within_depth};
use mufom_expr::Postfix;
use mufom_names::Note;
use mufom_numbers::{Bytes, List};
use std::alloc::Global;
use std::process::Abort;

fn number(rt: &impl Abort, alloc: Global, value: u64) -> Postfix {
    Postfix::constant(alloc, value).expect(rt, "memory")
}

// A function at addresses 256 to 271 with line 12 at 258.
fn program(rt: &impl Abort, alloc: Global) -> List<DebugItem> {
    let mut numbers = ArrayVec::new();
    assert!(rt; numbers.try_push(12).is_ok());
    let note = Note {
        type_index: 0,
        attribute: 7,
        numbers,
    };
    let value = number(rt, alloc, 258);
    let mut items = List::new(alloc);
    items
        .push(DebugItem::Note { name: 0, note })
        .expect(rt, "memory");
    items
        .push(DebugItem::Value { name: 0, value })
        .expect(rt, "memory");
    let main = Block {
        head: BlockHead::Global {
            stack: 0,
            type_index: 0,
            offset: number(rt, alloc, 256),
        },
        name: Bytes::from_slice(alloc, b"main").expect(rt, "memory"),
        items,
        end: Some(number(rt, alloc, 271)),
    };
    let main = Boxed::new(alloc, main).expect(rt, "memory");
    List::single(alloc, DebugItem::Block(main)).expect(rt, "memory")
}

fn found(rt: &impl Abort, alloc: Global, address: u64) -> Hit {
    let items = program(rt, alloc);
    let items = items.as_slice();
    assert!(rt; is_within_depth(items, 32));
    find_address(alloc, items, address).expect(rt, "memory")
}

#[test]
fn the_function_and_the_line_at_an_address_are_found(rt: HostRuntime) {
    let hit = found(&rt, rt.alloc(), 261);
    let function = hit.function.expect(&rt, "a function");
    assert_eq!(rt; function.kind, 4);
    assert_eq!(rt; function.name.as_slice(), &b"main"[..]);
    assert_eq!(rt; (function.begin, function.end), (256, 271));
    let line = hit.line.expect(&rt, "a line");
    assert_eq!(rt; (line.line, line.address), (12, 258));
    assert!(rt; line.source.is_none());
}

#[test]
fn nothing_is_found_below_the_program(rt: HostRuntime) {
    let hit = found(&rt, rt.alloc(), 255);
    assert!(rt; hit.function.is_none());
    assert!(rt; hit.line.is_none());
}
