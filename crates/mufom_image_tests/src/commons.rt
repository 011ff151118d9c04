//! References that resolve to commons, publics or defaults.

use crate::located::{loads, refuses};
use mufom_drafts::{Data, Draft};
use mufom_expr::FieldKind::{Either, Unsigned};
use mufom_expr::Token::{Number, Var};
use mufom_expr::{Letter, Token};
use std::alloc::Global;

const FIRST: Token = Var(Letter::X, 0);

const SECOND: Token = Var(Letter::X, 1);

const ROOM: &str =
    "[[region]]\nname = \"ram\"\nbase = 256\nsize = 64\nsections = [\"t\"]\ncommon = true\n";

const TIGHT: &str =
    "[[region]]\nname = \"ram\"\nbase = 256\nsize = 13\nsections = [\"t\"]\ncommon = true\n";

const NO_COMMON: &str = "[[region]]\nname = \"ram\"\nbase = 256\nsize = 64\nsections = [\"t\"]\n";

// Two sections, each with a field of `c`, for which the two references request sizes of 4 and 6 bytes.
fn asking(alloc: Global) -> Draft {
    let mut draft = Draft::new(alloc, 4);
    draft.section(b"t", 4, None);
    draft.section(b"t", 4, None);
    draft.weak(b"c", 4, 0);
    draft.weak(b"c", 6, 0);
    draft.select(0);
    draft.once(Data::Field(Either, 4, &[FIRST]));
    draft.select(1);
    draft.once(Data::Field(Either, 4, &[SECOND]));
    draft
}

#[test]
fn references_of_one_name_stand_for_one_common(rt: HostRuntime) {
    let alloc = rt.alloc();
    loads(
        &rt,
        alloc,
        asking(alloc),
        ROOM,
        256,
        &[0, 0, 1, 8, 0, 0, 1, 8],
    );
    let misfit = "Place(Misfit { section: 2, region: Some(0) })";
    refuses(&rt, alloc, asking(alloc), TIGHT, misfit);
    let unplaced = "CommonUnplaced(Bytes { held: [99] })";
    refuses(&rt, alloc, asking(alloc), NO_COMMON, unplaced);
}

#[test]
fn a_public_stands_before_a_common_and_a_strong_reference_for_it(rt: HostRuntime) {
    let alloc = rt.alloc();
    let mut draft = asking(alloc);
    draft.public(b"c", &[Number(7)]);
    loads(&rt, alloc, draft, NO_COMMON, 256, &[0, 0, 0, 7, 0, 0, 0, 7]);
    let mut draft = asking(alloc);
    draft.reference(b"c");
    loads(&rt, alloc, draft, ROOM, 256, &[0, 0, 1, 8, 0, 0, 1, 8]);
}

#[test]
fn weak_references_of_size_0_have_each_its_default(rt: HostRuntime) {
    let alloc = rt.alloc();
    let mut draft = Draft::new(alloc, 4);
    draft.section(b"t", 2, Some(0));
    draft.weak(b"c", 0, 1);
    draft.weak(b"c", 0, 2);
    draft.select(0);
    draft.once(Data::Field(Unsigned, 1, &[FIRST]));
    draft.once(Data::Field(Unsigned, 1, &[SECOND]));
    loads(&rt, alloc, draft, "", 0, &[1, 2]);
}
