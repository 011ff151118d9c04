//! The listing of the absolute module that results from locating a listing, or the error.

use mufom_build::build;
use mufom_located::{Located, absolute};
use mufom_locating::{PlannedRefusal, locate_by_plan};
use mufom_plan::read_plan;
use mufom_text::{TextForm, text_bytes};
use std::alloc::Global;
use std::process::Abort;

// The result of locating the module of a listing by the plan of a text.
fn outcome(
    rt: &impl Abort,
    alloc: Global,
    listing: &str,
    plan: &str,
) -> Result<Located, PlannedRefusal> {
    assert!(rt; listing.len() < 4096);
    let module = build(alloc, listing.as_bytes()).expect(rt, "a module");
    assert!(rt; module.weight() < 671_154_176);
    let names = &module.parts().names;
    assert!(rt; names.publics.len() < 1 << 32);
    let None = names.duplicate() else {
        panic!(rt; "a name stands twice");
    };
    let plan = read_plan(alloc, plan.as_bytes()).expect(rt, "a plan");
    locate_by_plan(alloc, &module, &plan)
}

/// The listing is located by the plan of this text, and this is the listing of the absolute module after its
/// first line.
pub(crate) fn becomes(rt: &impl Abort, alloc: Global, listing: &str, plan: &str, lines: &str) {
    let located = outcome(rt, alloc, listing, plan).expect(rt, "located");
    assert!(rt; located.written_weight() < 4_294_967_296);
    let alone = absolute(alloc, &located).expect(rt, "memory");
    let printed = text_bytes(alloc, TextForm::Listing, &alone).expect(rt, "memory");
    let wanted = format!(in alloc; "module \"m\" processor \"68000\" maus 4 order M\n{lines}");
    let wanted = wanted.expect(rt, "memory");
    assert_eq!(rt; printed.as_slice(), wanted.as_bytes(), "{plan}");
}

/// The listing is not located by the plan of this text, and this is why.
pub(crate) fn refuses(rt: &impl Abort, alloc: Global, listing: &str, plan: &str, refusal: &str) {
    match outcome(rt, alloc, listing, plan) {
        Ok(_) => panic!(rt; "located, and not {refusal}"),
        Err(found) => {
            let text = format!(in alloc; "{found:?}").expect(rt, "memory");
            assert_eq!(rt; text.as_str(), refusal, "{refusal}");
        }
    }
}
