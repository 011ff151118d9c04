//! Debug items, with numbers in the place of their expressions.

use crate::located::{BASE, PLUS, locates};
use mufom_debug::{addresses, is_within_depth};
use mufom_drafts::{Draft, Head};
use mufom_expr::Token::{self, Number};
use std::alloc::Global;

// The address at which the one section is placed.
const AT_256: &str = "[[region]]\nname = \"r\"\nbase = 256\nsize = 16\nsections = [\"t\"]\n";

// A module block with a name and a global function, from the base of the section to 15 past it. The function declares
// a local name, a note on it, and its value.
fn program(alloc: Global) -> Draft {
    let mut draft = Draft::new(alloc, 4);
    draft.section(b"t", 16, None);
    draft.begin(Head::Module, b"prog");
    draft.name(b"x");
    draft.begin(Head::Global(0, 0, &[BASE]), b"main");
    draft.name(b"l");
    draft.note(1, 0, 7, &[12, 0]);
    draft.value(1, &[BASE, Number(2), PLUS]);
    draft.end(&[BASE, Number(15), PLUS]);
    draft.end(&[]);
    draft
}

// The number that an expression is, if it is one.
fn number(tokens: &[Token]) -> Option<u64> {
    match tokens {
        [Number(value)] => Some(*value),
        _ => None,
    }
}

#[test]
fn debug_expressions_become_numbers(rt: HostRuntime) {
    let alloc = rt.alloc();
    let located = locates(&rt, alloc, program(alloc), AT_256);
    let items = located.parts().debug.as_slice();
    assert!(rt; is_within_depth(items, 2));
    let all = addresses(alloc, items).expect(&rt, "memory");
    let mut numbers = Vec::new(alloc);
    for value in all {
        numbers.push(number(value.tokens())).expect(&rt, "memory");
    }
    let wanted = [Some(256), Some(258), Some(271)];
    assert_eq!(rt; numbers.as_slice(), wanted.as_slice());
}
