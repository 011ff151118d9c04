//! Tests of numbers and strings in each spelling, and of lists, byte strings and texts.

use mufom_numbers::{
    Bytes, List, Reason, Span, Taken, Text, hex_digit, number_spelling, read_number, read_string,
    string_lead,
};
use std::alloc::Global;
use std::process::Abort;

const FULL: &[u8] = &[0x88, 0xFF, 0xFF, 0xFF, 0xFF, 0xFF, 0xFF, 0xFF, 0xFF];

const BAD_NUMBER: Taken<u64> = Taken::Bad {
    offset: 0,
    reason: Reason::BadNumber,
};

const BAD_STRING: Taken<Span> = Taken::Bad {
    offset: 0,
    reason: Reason::BadId,
};

// Bytes, and the number at their start.
static NUMBERS: [(&[u8], Taken<u64>); 9] = [
    (&[0x7F], Taken::Got(127, 1)),
    (&[0x80], Taken::Got(0, 1)),
    (&[0x81, 0x7F], Taken::Got(127, 2)),
    (&[0x82, 0x01, 0x02, 0x03], Taken::Got(258, 3)),
    (FULL, Taken::Got(u64::MAX, 9)),
    (&[], Taken::More),
    (&[0x82, 0x01], Taken::More),
    (&[0x89], BAD_NUMBER),
    (&[0xFF, 0x00], BAD_NUMBER),
];

#[test]
fn numbers_are_read_in_every_spelling(rt: HostRuntime) {
    for (bytes, want) in &NUMBERS {
        assert_eq!(rt; &read_number(bytes), want, "{bytes:?}");
    }
}

// Numbers, and their shortest spellings.
static SPELLINGS: [(u64, &[u8]); 5] = [
    (0, &[0x00]),
    (127, &[0x7F]),
    (128, &[0x81, 0x80]),
    (65536, &[0x83, 0x01, 0x00, 0x00]),
    (u64::MAX, FULL),
];

#[test]
fn numbers_are_spelled_shortest(rt: HostRuntime) {
    for (number, want) in &SPELLINGS {
        assert_eq!(rt; number_spelling(*number).as_slice(), *want, "{number}");
    }
}

// Bytes, and the span of the string at their start.
static STRINGS: [(&[u8], Taken<Span>); 10] = [
    (&[0x00, 0x41], Taken::Got(Span { start: 1, len: 0 }, 1)),
    (
        &[0x02, 0x41, 0x42, 0x43],
        Taken::Got(Span { start: 1, len: 2 }, 3),
    ),
    (
        &[0xDE, 0x01, 0x41],
        Taken::Got(Span { start: 2, len: 1 }, 3),
    ),
    (
        &[0xDF, 0x00, 0x01, 0x41],
        Taken::Got(Span { start: 3, len: 1 }, 4),
    ),
    (&[], Taken::More),
    (&[0x02, 0x41], Taken::More),
    (&[0xDE], Taken::More),
    (&[0xDF, 0x00], Taken::More),
    (&[0x80], BAD_STRING),
    (&[0xE0], BAD_STRING),
];

#[test]
fn strings_are_read_after_every_lead(rt: HostRuntime) {
    for (bytes, want) in &STRINGS {
        assert_eq!(rt; &read_string(bytes), want, "{bytes:?}");
    }
}

// Lengths of strings, and their shortest leads.
static LEADS: [(u16, &[u8]); 4] = [
    (127, &[0x7F]),
    (128, &[0xDE, 0x80]),
    (255, &[0xDE, 0xFF]),
    (256, &[0xDF, 0x01, 0x00]),
];

#[test]
fn strings_get_the_shortest_lead(rt: HostRuntime) {
    for (length, want) in &LEADS {
        assert_eq!(rt; string_lead(*length).as_slice(), *want, "{length}");
    }
}

fn seven_and_nine(rt: &impl Abort, alloc: Global) -> List<u32> {
    let mut list = List::new(alloc);
    list.push(7).expect(rt, "memory");
    list.push(9).expect(rt, "memory");
    list
}

#[test]
fn lists_grow_at_the_end(rt: HostRuntime) {
    let empty: List<u32> = List::new(rt.alloc());
    assert!(rt; empty.is_empty());
    let list = seven_and_nine(&rt, rt.alloc());
    assert_eq!(rt; list.len(), 2);
    assert_eq!(rt; list.get(1).copied(), Some(9));
    assert_eq!(rt; list.get(2).copied(), None);
}

#[test]
fn lists_shrink_at_the_end(rt: HostRuntime) {
    let mut list = seven_and_nine(&rt, rt.alloc());
    assert_eq!(rt; list.pop(), Some(9));
    assert_eq!(rt; list.as_slice(), [7].as_slice());
    assert_eq!(rt; list.into_vec().as_slice(), [7].as_slice());
}

#[test]
fn a_list_of_one_item_holds_it(rt: HostRuntime) {
    let list = List::single(rt.alloc(), 5).expect(&rt, "memory");
    assert_eq!(rt; list.as_slice(), [5].as_slice());
}

// The second string is longer than what fits in the value itself.
static BYTES: [&[u8]; 2] = [&[0, 255], b"twenty-six bytes of a name"];

#[test]
fn bytes_are_copied(rt: HostRuntime) {
    for bytes in &BYTES {
        let copy = Bytes::from_slice(rt.alloc(), bytes).expect(&rt, "memory");
        assert_eq!(rt; copy.as_slice(), *bytes, "{bytes:?}");
    }
}

#[test]
fn bytes_have_a_length(rt: HostRuntime) {
    let long = Bytes::from_slice(rt.alloc(), BYTES[1]).expect(&rt, "memory");
    assert_eq!(rt; (long.len(), long.is_empty()), (26, false));
    assert!(rt; Bytes::new(rt.alloc()).is_empty());
}

#[test]
fn texts_are_copied(rt: HostRuntime) {
    let text = Text::from_str(rt.alloc(), "code").expect(&rt, "memory");
    assert_eq!(rt; text.as_str(), "code");
}

// A type that contains itself through a list.
#[derive(Debug, Drop)]
struct Node {
    value: u32,
    below: List<Node>,
}

fn leaf(alloc: Global, value: u32) -> Node {
    Node {
        value,
        below: List::new(alloc),
    }
}

#[test]
fn lists_stand_in_a_type_that_holds_itself(rt: HostRuntime) {
    let mut root = leaf(rt.alloc(), 1);
    root.below.push(leaf(rt.alloc(), 2)).expect(&rt, "memory");
    root.below.push(leaf(rt.alloc(), 3)).expect(&rt, "memory");
    assert_eq!(rt; root.value, 1);
    assert_eq!(rt; root.below.len(), 2);
    assert_eq!(rt; root.below.get(1).map(|node| node.value), Some(3));
}

// Bytes, and their values as hexadecimal digits.
static DIGITS: [(u8, Option<u8>); 9] = [
    (b'/', None),
    (b'0', Some(0)),
    (b'9', Some(9)),
    (b'A', Some(10)),
    (b'F', Some(15)),
    (b'G', None),
    (b'a', Some(10)),
    (b'f', Some(15)),
    (b'g', None),
];

#[test]
fn digits_have_values_of_either_case(rt: HostRuntime) {
    for (byte, want) in &DIGITS {
        assert_eq!(rt; hex_digit(*byte), *want, "{byte}");
    }
}
