//! Tests of the number of bytes that items and loads put into sections.

use mufom_loads::{Item, Load, item_length, loaded_bytes};
use mufom_numbers::{Bytes, List};
use std::alloc::Global;

#[test]
fn a_literal_has_its_length(rt: HostRuntime) {
    let three = Item::Literal(Bytes::from_slice(rt.alloc(), b"abc").expect(&rt, "memory"));
    assert_eq!(rt; item_length(&three), 3);
}

#[test]
fn bytes_of_repeats_are_counted_each_time(rt: HostRuntime) {
    let alloc = rt.alloc();
    let three = Item::Literal(Bytes::from_slice(alloc, b"abc").expect(&rt, "memory"));
    let two = Item::Literal(Bytes::from_slice(alloc, b"de").expect(&rt, "memory"));
    let mut items = List::new(alloc);
    items.push(two).expect(&rt, "memory");
    let loads = [
        Load::SetSection(0),
        Load::One(three),
        Load::Repeat {
            count: 0xFFFF_FFFF,
            items,
        },
    ];
    assert_eq!(rt; loaded_bytes(&loads), 3 + 2 * 0xFFFF_FFFF);
}
