//! The values of names, and names that keep a module from being located.

use crate::located::{PLUS, refuses, values};
use mufom_drafts::Draft;
use mufom_expr::Token::{Fun, Number, Var};
use mufom_expr::{Function, Letter, Token};
use std::alloc::Global;
use std::process::Abort;

const MINUS: Token = Fun(Function::Minus);

const DIVIDE: Token = Fun(Function::Divide);

#[test]
fn the_first_public_on_a_cycle_is_named(rt: HostRuntime) {
    let alloc = rt.alloc();
    let mut draft = Draft::new(alloc, 4);
    draft.public(b"c", &[Var(Letter::I, 1)]);
    draft.public(b"a", &[Var(Letter::I, 2), Number(1), PLUS]);
    draft.public(b"b", &[Var(Letter::I, 1), Number(1), MINUS]);
    refuses(&rt, alloc, draft, "", "Cycle(Bytes { held: [97] })");
}

// A public that divides by 0, which nothing uses.
fn dividing(alloc: Global) -> Draft {
    let mut draft = Draft::new(alloc, 4);
    draft.public(b"d", &[Number(1), Number(0), DIVIDE]);
    draft
}

#[test]
fn the_earlier_of_two_facts_is_answered(rt: HostRuntime) {
    let alloc = rt.alloc();
    let refusal = "DivideByZero(Public(Bytes { held: [100] }))";
    refuses(&rt, alloc, dividing(alloc), "", refusal);
    let mut draft = dividing(alloc);
    draft.weak(b"c", 4, 0);
    draft.reference(b"q");
    refuses(&rt, alloc, draft, "", "Undefined(Bytes { held: [113] })");
}

// Publics `0`, `1` and so on, each the sum of the next and of `more`, and the public `e` of this value.
fn chain(rt: &impl Abort, alloc: Global, count: u32, more: Option<u64>, end: Token) -> Draft {
    let mut draft = Draft::new(alloc, 4);
    for place in 1..count {
        let name = format!(in alloc; "{place}").expect(rt, "memory");
        let next = Var(Letter::I, place);
        let other = match more {
            Some(number) => Number(number),
            None => next,
        };
        draft.public(name.as_bytes(), &[next, other, PLUS]);
    }
    draft.public(b"e", &[end]);
    draft
}

#[test]
fn a_thousand_publics_in_a_chain_have_values_and_a_ring_has_none(rt: HostRuntime) {
    let alloc = rt.alloc();
    let draft = chain(&rt, alloc, 1_000, Some(1), Number(0));
    values(&rt, alloc, draft, 0, 999);
    let ring = chain(&rt, alloc, 1_000, Some(1), Var(Letter::I, 0));
    refuses(&rt, alloc, ring, "", "Cycle(Bytes { held: [49] })");
}

#[test]
fn values_double_modulo_the_address_space(rt: HostRuntime) {
    let alloc = rt.alloc();
    let draft = chain(&rt, alloc, 40, None, Number(1));
    values(&rt, alloc, draft, 8, 0x8000_0000);
    let draft = chain(&rt, alloc, 40, None, Number(1));
    values(&rt, alloc, draft, 7, 0);
}
