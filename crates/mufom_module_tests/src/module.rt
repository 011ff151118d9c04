//! The small module with its weight, with each defect but too great a weight, and with many publics.

use mufom_drafts::{Data, Draft, DraftFault, Head, SectionRow, small};
use mufom_expr::FieldKind::Either;
use mufom_expr::Letter::{I, P, R};
use mufom_expr::Token::{Fun, Number, Var};
use mufom_expr::{Function, Postfix};
use mufom_loads::Load;
use mufom_module::{Defect, current_after};
use mufom_numbers::List;
use std::alloc::Global;
use std::process::Abort;

fn is_refused(rt: &impl Abort, draft: Draft, defect: Defect) {
    let fault = draft.module().err();
    assert_eq!(rt; fault, Some(DraftFault::Defect(defect)));
}

fn is_taken(rt: &impl Abort, draft: Draft) {
    assert_eq!(rt; draft.module().err(), None);
}

#[test]
fn a_module_has_its_parts_and_weight(rt: HostRuntime) {
    let module = small(rt.alloc()).module().expect(&rt, "a module");
    assert_eq!(rt; module.weight(), 298);
    assert_eq!(rt; module.parts().name.as_slice(), &b"A"[..]);
    assert_eq!(rt; module.into_parts().loads.len(), 3);
}

#[test]
fn a_section_is_current_until_another_is_chosen(rt: HostRuntime) {
    let value = Postfix::single(Number(2));
    let counter = Load::SetPc { section: 7, value };
    assert_eq!(rt; current_after(None, &counter), None);
    assert_eq!(rt; current_after(Some(3), &counter), Some(3));
    assert_eq!(rt; current_after(Some(3), &Load::SetSection(4)), Some(4));
}

// The small module with blocks, each in the one before it.
fn nested(alloc: Global, depth: u32) -> Draft {
    let mut draft = small(alloc);
    for _ in 0..depth {
        draft.begin(Head::Module, b"");
    }
    for _ in 0..depth {
        draft.end(&[]);
    }
    draft
}

#[test]
fn thirty_three_open_blocks_are_too_deep(rt: HostRuntime) {
    is_taken(&rt, nested(rt.alloc(), 32));
    is_refused(&rt, nested(rt.alloc(), 33), Defect::Depth);
}

// Bytes that are one too many for a string.
const LONG: &[u8] = &[0; 65_536];

#[test]
fn strings_of_65536_bytes_are_too_long(rt: HostRuntime) {
    let mut draft = small(rt.alloc());
    draft.title(b"68000", LONG);
    is_refused(&rt, draft, Defect::LongId);
    let mut draft = small(rt.alloc());
    draft.once(Data::Bytes(LONG));
    is_refused(&rt, draft, Defect::LongRun);
}

#[test]
fn nine_units_are_no_address(rt: HostRuntime) {
    let mut draft = small(rt.alloc());
    draft.parts.maus = 9;
    is_refused(&rt, draft, Defect::BadMaus);
}

// The small module with one more section.
fn with_section(alloc: Global, row: &SectionRow) -> Draft {
    let mut draft = small(alloc);
    draft.section_row(row);
    draft
}

#[test]
fn sections_have_alignments_and_absolute_ones_have_bases(rt: HostRuntime) {
    let unaligned = with_section(rt.alloc(), &(b"t", false, None, 4, 0, None));
    is_refused(&rt, unaligned, Defect::BadAlign);
    let baseless = with_section(rt.alloc(), &(b"t", true, None, 4, 2, None));
    is_refused(&rt, baseless, Defect::MissingBase);
}

#[test]
fn a_second_section_is_not_there(rt: HostRuntime) {
    let mut draft = small(rt.alloc());
    draft.select(1);
    is_refused(&rt, draft, Defect::Position);
}

#[test]
fn a_note_before_its_name_has_a_bad_position(rt: HostRuntime) {
    let mut draft = small(rt.alloc());
    draft.note(0, 0, 1, &[]);
    draft.name(b"");
    is_refused(&rt, draft, Defect::Position);
}

#[test]
fn attribute_six_is_not_known(rt: HostRuntime) {
    let mut draft = small(rt.alloc());
    draft.name(b"");
    draft.note(0, 0, 6, &[]);
    is_refused(&rt, draft, Defect::Attribute);
}

#[test]
fn a_start_has_no_program_counter(rt: HostRuntime) {
    let mut draft = small(rt.alloc());
    draft.start(&[Var(P, 0)]);
    is_refused(&rt, draft, Defect::MisplacedP);
}

#[test]
fn an_item_before_the_first_section_is_refused(rt: HostRuntime) {
    let mut draft = small(rt.alloc());
    draft.parts.loads = List::new(rt.alloc());
    draft.once(Data::Bytes(b""));
    is_refused(&rt, draft, Defect::NoSection);
}

// A module of an absolute section of four bytes at 4, and a field of `size` bytes in it.
fn with_field(alloc: Global, size: u8) -> Draft {
    let mut draft = Draft::new(alloc, 4);
    draft.section(b"t", 4, Some(4));
    draft.select(0);
    let value = [Number(4_294_967_292), Var(R, 0), Fun(Function::Plus)];
    draft.once(Data::Field(Either, size, &value));
    draft
}

#[test]
fn a_field_of_nine_bytes_is_refused(rt: HostRuntime) {
    is_taken(&rt, with_field(rt.alloc(), 4));
    is_refused(&rt, with_field(rt.alloc(), 9), Defect::FieldSize);
}

#[test]
fn a_module_block_has_no_end_expression(rt: HostRuntime) {
    let mut draft = small(rt.alloc());
    draft.begin(Head::Module, b"");
    draft.end(&[Number(0)]);
    is_refused(&rt, draft, Defect::Nesting);
}

// Each public has the value of the one at the same position from the other end.
#[test]
fn twenty_thousand_publics_name_one_another(rt: HostRuntime) {
    let count = 20_000u32;
    let mut draft = small(rt.alloc());
    for n in 0..count {
        let other = count - 1 - n;
        draft.public(&other.to_be_bytes(), &[Var(I, other)]);
    }
    let module = draft.module().expect(&rt, "a module");
    // Each weighs 24, the four bytes of its name, and ten for its variable.
    assert_eq!(rt; module.weight(), 298 + 20_000 * 38);
}
