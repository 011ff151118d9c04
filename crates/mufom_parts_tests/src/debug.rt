//! Tests of debug items: their depth, and their addresses in order.

use arrayvec::ArrayVec;
use mufom_debug::{Block, BlockHead, Boxed, DebugItem, addresses, depth, is_within_depth};
use mufom_expr::{Postfix, Token};
use mufom_numbers::{Bytes, List};
use std::alloc::Global;
use std::process::Abort;

// The expression that consists of this number.
fn expression(rt: &impl Abort, alloc: Global, number: u64) -> Postfix {
    Postfix::constant(alloc, number).expect(rt, "memory")
}

// A list of one item: a value of the name at position 0.
fn value(rt: &impl Abort, alloc: Global, number: u64) -> List<DebugItem> {
    let value = expression(rt, alloc, number);
    List::single(alloc, DebugItem::Value { name: 0, value }).expect(rt, "memory")
}

fn block(rt: &impl Abort, alloc: Global, block: Block) -> DebugItem {
    DebugItem::Block(Boxed::new(alloc, block).expect(rt, "memory"))
}

// A source file that contains a value 3.
fn source(rt: &impl Abort, alloc: Global) -> Block {
    Block {
        head: BlockHead::Source {
            numbers: ArrayVec::new(),
        },
        name: Bytes::new(alloc),
        items: value(rt, alloc, 3),
        end: None,
    }
}

// A function whose start is at 1 and whose end is at 4, with a value 2 and a source file that contains a
// value 3.
fn function(rt: &impl Abort, alloc: Global) -> List<DebugItem> {
    let mut inner = value(rt, alloc, 2);
    inner
        .push(block(rt, alloc, source(rt, alloc)))
        .expect(rt, "memory");
    let function = Block {
        head: BlockHead::Global {
            stack: 0,
            type_index: 0,
            offset: expression(rt, alloc, 1),
        },
        name: Bytes::new(alloc),
        items: inner,
        end: Some(expression(rt, alloc, 4)),
    };
    List::single(alloc, block(rt, alloc, function)).expect(rt, "memory")
}

#[test]
fn a_block_in_a_block_is_two_deep(rt: HostRuntime) {
    let items = function(&rt, rt.alloc());
    let items = items.as_slice();
    assert!(rt; !is_within_depth(items, 1));
    assert!(rt; is_within_depth(items, 2));
    assert_eq!(rt; depth(items), 2);
}

#[test]
fn addresses_come_in_order(rt: HostRuntime) {
    let items = function(&rt, rt.alloc());
    let items = items.as_slice();
    assert!(rt; is_within_depth(items, 2));
    let mut found = addresses(rt.alloc(), items).expect(&rt, "memory");
    for number in 1..5u64 {
        let expression = found.next().expect(&rt, "an address");
        assert_eq!(rt;
            expression.tokens(),
            &[Token::Number(number)][..],
            "address {number}"
        );
    }
    assert!(rt; found.next().is_none());
}

#[test]
fn a_part_of_a_section_has_a_kind_and_an_offset(rt: HostRuntime) {
    let head = BlockHead::Section {
        section_type: 0,
        section: 0,
        offset: expression(&rt, rt.alloc(), 7),
    };
    assert_eq!(rt; head.kind(), 11);
    assert!(rt; head.offset().is_some());
}

#[test]
fn a_module_has_a_kind_and_no_offset(rt: HostRuntime) {
    assert_eq!(rt; BlockHead::Module.kind(), 3);
    assert!(rt; BlockHead::Module.offset().is_none());
}
