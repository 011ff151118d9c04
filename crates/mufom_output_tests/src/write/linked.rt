//! A relocatable module, and one that it links with.

use super::writes;
use crate::every_kind::{BASE, BASE_AND_FOUR};
use mufom_drafts::{Data, Draft};
use mufom_expr::FieldKind::{Either, Signed};
use mufom_expr::Function;
use mufom_expr::Letter::{P, X};
use mufom_expr::Token::{Fun, Var};
use mufom_sections::Purpose;
use std::alloc::Global;

// The signed field holds the distance from the program counter to the reference.
fn program(alloc: Global) -> Draft {
    let mut draft = Draft::new(alloc, 4);
    draft.title(b"68000", b"prog");
    draft.skipped(&[0xF0, 0x20, 0x00], &[0xF0, 0x21, 0x00]);
    draft.section_row(&(b".text", false, Some(Purpose::Code), 12, 2, None));
    draft.public(b"main", &BASE_AND_FOUR);
    draft.note_public(15, 19, &[1]);
    draft.reference(b"exit");
    draft.select(0);
    draft.counter(0, &[BASE]);
    draft.once(Data::Bytes(&[0x4E, 0x71, 0x4E, 0x71]));
    draft.once(Data::Field(Either, 4, &BASE_AND_FOUR));
    let distance = [Var(X, 0), Var(P, 0), Fun(Function::Minus)];
    draft.once(Data::Field(Signed, 4, &distance));
    draft.start(&BASE_AND_FOUR);
    draft
}

const PROGRAM: &str = "\
    E00536383030300470726F67\
    EC0804CD\
    E2D7008400000050\
    E2D7018400000053\
    E2D7028400000056\
    E2D7038400000067\
    E2D7048400000000\
    E2D7058400000082\
    E2D70684000000A2\
    E2D70784000000AA\
    F02000\
    F02100\
    E601C3D0052E74657874\
    E70102\
    E2D3010C\
    E820046D61696E\
    F1C9200F1301\
    E2C920D20104A5\
    E90B0465786974\
    E501\
    E2D001D201\
    ED044E714E71\
    E4BED20104A59004BF\
    E4BAD80BD001A69004BB\
    E2C7BED20104A5BF\
    E1";

#[test]
fn a_program_is_written(rt: HostRuntime) {
    let alloc = rt.alloc();
    let offsets = [0x50, 0x53, 0x56, 0x67, 0, 0x82, 0xA2, 0xAA];
    writes(&rt, alloc, program(alloc), offsets, PROGRAM);
}

fn library(alloc: Global) -> Draft {
    let mut draft = Draft::new(alloc, 4);
    draft.title(b"68000", b"lib");
    draft.section_row(&(b".text", false, Some(Purpose::Code), 2, 1, None));
    draft.public(b"exit", &[BASE]);
    draft.select(0);
    draft.once(Data::Bytes(&[0x4E, 0x75]));
    draft
}

const LIBRARY: &str = "\
    E0053638303030036C6962\
    EC0804CD\
    E2D7008400000000\
    E2D7018400000000\
    E2D702840000004F\
    E2D703840000005D\
    E2D7048400000000\
    E2D7058400000069\
    E2D7068400000000\
    E2D707840000006F\
    E601C3D0052E74657874\
    E2D30102\
    E8200465786974\
    E2C920D201\
    E501\
    ED024E75\
    E1";

#[test]
fn a_library_is_written(rt: HostRuntime) {
    let alloc = rt.alloc();
    let offsets = [0, 0, 0x4F, 0x5D, 0, 0x69, 0, 0x6F];
    writes(&rt, alloc, library(alloc), offsets, LIBRARY);
}
