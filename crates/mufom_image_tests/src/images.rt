//! Bytes that are loaded, and what keeps them from being an image.

use crate::located::{BASE, COUNTER, PLUS, loads, locates, refuses};
use mufom_drafts::{Data, Draft};
use mufom_expr::FieldKind::{Either, Signed, Unsigned};
use mufom_expr::Token::Number;
use std::alloc::Global;
use std::process::Abort;

// One section with a base, into which all is put.
fn placed(alloc: Global, maus: u8, base: u64, size: u64) -> Draft {
    let mut draft = Draft::new(alloc, maus);
    draft.section(b"t", size, Some(base));
    draft.select(0);
    draft
}

#[test]
fn fields_hold_values_modulo_the_address_space(rt: HostRuntime) {
    let alloc = rt.alloc();
    let mut draft = placed(alloc, 4, 4, 4);
    draft.once(Data::Field(Either, 4, &[Number(4_294_967_292), BASE, PLUS]));
    loads(&rt, alloc, draft, "", 4, &[0, 0, 0, 0]);
    let mut draft = placed(alloc, 4, 16, 6);
    draft.repeat(3, &[Data::Field(Either, 2, &[COUNTER])]);
    loads(&rt, alloc, draft, "", 16, &[0, 16, 0, 18, 0, 20]);
}

// A signed field of one byte with this value.
fn signed(alloc: Global, value: u64) -> Draft {
    let mut draft = placed(alloc, 4, 0, 1);
    draft.once(Data::Field(Signed, 1, &[Number(value)]));
    draft
}

#[test]
fn a_signed_byte_holds_its_range(rt: HostRuntime) {
    let alloc = rt.alloc();
    loads(&rt, alloc, signed(alloc, 127), "", 0, &[0x7F]);
    loads(&rt, alloc, signed(alloc, 4_294_967_168), "", 0, &[0x80]);
    let above = "Overflow { section: 0, address: 0, kind: Signed, size: 1, value: 128 }";
    refuses(&rt, alloc, signed(alloc, 128), "", above);
    let below = "Overflow { section: 0, address: 0, kind: Signed, size: 1, value: 4294967167 }";
    refuses(&rt, alloc, signed(alloc, 4_294_967_167), "", below);
}

#[test]
fn more_bytes_than_an_image_has_are_counted_and_not_loaded(rt: HostRuntime) {
    let alloc = rt.alloc();
    let mut draft = placed(alloc, 4, 16, 2);
    draft.repeat(4_294_967_295, &[Data::Bytes(&[0xAA])]);
    refuses(&rt, alloc, draft, "", "ImageLimit(4294967295)");
    let mut draft = placed(alloc, 4, 16, 2);
    draft.repeat(4_294_967_295, &[Data::Bytes(&[])]);
    let located = locates(&rt, alloc, draft, "");
    assert!(rt; located.parts().runs.is_empty());
}

#[test]
fn bytes_outside_their_section_and_twice_are_refused(rt: HostRuntime) {
    let alloc = rt.alloc();
    let mut draft = placed(alloc, 4, 16, 2);
    draft.once(Data::Bytes(&[1, 2, 3]));
    refuses(
        &rt,
        alloc,
        draft,
        "",
        "LoadOutside { section: 0, address: 18 }",
    );
    let mut draft = placed(alloc, 4, 16, 2);
    draft.once(Data::Bytes(&[1]));
    draft.counter(0, &[Number(16)]);
    draft.once(Data::Bytes(&[2]));
    refuses(&rt, alloc, draft, "", "LoadedTwice(16)");
}

// A section of this base and size, at addresses of `maus` bytes, is refused.
fn misfits(rt: &impl Abort, alloc: Global, maus: u8, base: u64, size: u64) {
    let draft = placed(alloc, maus, base, size);
    let refusal = "Place(Misfit { section: 0, region: None })";
    refuses(rt, alloc, draft, "", refusal);
}

#[test]
fn sections_end_where_the_address_space_does(rt: HostRuntime) {
    let alloc = rt.alloc();
    let mut draft = placed(alloc, 1, 252, 4);
    draft.repeat(4, &[Data::Field(Unsigned, 1, &[COUNTER])]);
    loads(&rt, alloc, draft, "", 252, &[0xFC, 0xFD, 0xFE, 0xFF]);
    let last = 18_446_744_073_709_551_612;
    let mut draft = placed(alloc, 8, last, 4);
    draft.once(Data::Field(Signed, 4, &[BASE]));
    loads(&rt, alloc, draft, "", last, &[0xFF, 0xFF, 0xFF, 0xFC]);
    misfits(&rt, alloc, 8, last, 5);
    misfits(&rt, alloc, 4, 4_294_967_280, 17);
    misfits(&rt, alloc, 4, 4_294_967_296, 0);
}
