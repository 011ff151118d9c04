//! The result of locating a draft by the plan of a text. If memory runs out, a test fails.

use mufom_drafts::Draft;
use mufom_expr::{Function, Letter, Token};
use mufom_image::{LocateRefusal, Located, locate};
use mufom_plan::read_plan;
use std::alloc::Global;
use std::process::Abort;

/// The base of the first section.
pub(crate) const BASE: Token = Token::Var(Letter::R, 0);
/// The program counter of the first section.
pub(crate) const COUNTER: Token = Token::Var(Letter::P, 0);

pub(crate) const PLUS: Token = Token::Fun(Function::Plus);

/// The result of locating the draft by the plan of this text.
pub(crate) fn outcome(
    rt: &impl Abort,
    alloc: Global,
    draft: Draft,
    plan: &str,
) -> Result<Located, LocateRefusal> {
    let module = draft.module().expect(rt, "a module");
    let names = &module.parts().names;
    assert!(rt; names.publics.len() < 1 << 32);
    let None = names.duplicate() else {
        panic!(rt; "a name stands twice");
    };
    let plan = read_plan(alloc, plan.as_bytes()).expect(rt, "a plan");
    locate(alloc, &module, &plan)
}

/// The draft is not located by the plan of this text, and this is why.
pub(crate) fn refuses(rt: &impl Abort, alloc: Global, draft: Draft, plan: &str, refusal: &str) {
    match outcome(rt, alloc, draft, plan) {
        Ok(_) => panic!(rt; "located, and not {refusal}"),
        Err(found) => {
            let text = format!(in alloc; "{found:?}").expect(rt, "memory");
            assert_eq!(rt; text.as_str(), refusal, "{refusal}");
        }
    }
}

/// The draft is located by the plan of this text.
pub(crate) fn locates(rt: &impl Abort, alloc: Global, draft: Draft, plan: &str) -> Located {
    outcome(rt, alloc, draft, plan).expect(rt, "located")
}

/// The draft is located by the plan of this text, and these bytes are loaded from an address on.
pub(crate) fn loads(
    rt: &impl Abort,
    alloc: Global,
    draft: Draft,
    plan: &str,
    address: u64,
    bytes: &[u8],
) {
    let located = locates(rt, alloc, draft, plan);
    let runs = located.parts().runs.as_slice();
    assert_eq!(rt; runs.len(), 1, "at {address}");
    assert_eq!(rt; runs[0].address, address, "at {address}");
    assert_eq!(rt; runs[0].bytes.as_slice(), bytes, "at {address}");
}

/// The draft is located by the plan without regions, and the public at a position has this value.
pub(crate) fn values(rt: &impl Abort, alloc: Global, draft: Draft, position: usize, value: u64) {
    let located = locates(rt, alloc, draft, "");
    let publics = located.parts().publics.as_slice();
    assert!(rt; position < publics.len());
    assert_eq!(rt; publics[position].value, value);
}
