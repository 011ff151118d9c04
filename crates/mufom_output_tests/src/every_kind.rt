//! A module with an entry of every kind.

use mufom_drafts::{Data, Draft, Head, SectionRow};
use mufom_expr::FieldKind::{Either, Signed, Unsigned};
use mufom_expr::Letter::{R, X};
use mufom_expr::Token::{Fun, Number, Var};
use mufom_expr::{Function, Token};
use mufom_module::Order;
use mufom_sections::Purpose;
use std::alloc::Global;

/// The base of the first section.
pub(crate) const BASE: Token = Var(R, 0);

/// The base of the first section, and 4.
pub(crate) const BASE_AND_FOUR: [Token; 3] = [BASE, Number(4), Fun(Function::Plus)];

/// Its sections.
const SECTIONS: [SectionRow<'static>; 4] = [
    (b"c", false, Some(Purpose::Code), 12, 2, None),
    (b"d", true, Some(Purpose::Data), 0, 1, Some(4096)),
    (b"", false, Some(Purpose::Rom), 0, 1, None),
    (b"n", false, None, 0, 1, None),
];

/// A module with these sections and nothing else.
pub(crate) fn four_sections(alloc: Global) -> Draft {
    let mut draft = Draft::new(alloc, 2);
    draft.parts.order = Order::Least;
    draft.title(b"P", b"m");
    for row in &SECTIONS {
        draft.section_row(row);
    }
    draft
}

// A public with a note, a weak reference with a default and a note, one without, and a strong one.
fn add_names(draft: &mut Draft) {
    draft.public(b"f", &BASE_AND_FOUR);
    draft.note_public(15, 19, &[1]);
    draft.weak(b"x", 8, 300);
    draft.note_reference(1, 2, &[]);
    draft.weak(b"y", 0, 0);
    draft.reference(b"z");
}

// Blocks of every kind; the one of a global function has a name, its note and its value, and a local function.
fn add_debug(draft: &mut Draft) {
    draft.begin(Head::Global(0, 0, &[BASE]), b"g");
    draft.name(b"i");
    draft.note(0, 0, 1, &[]);
    draft.value(0, &[Number(5)]);
    draft.begin(Head::Local(1, 2, &[Number(3)]), b"l");
    draft.name(b"j");
    draft.end(&[Number(7)]);
    draft.end(&[BASE]);
    draft.begin(Head::Source(&[1, 2]), b"s");
    draft.end(&[]);
    draft.begin(Head::Module, b"m");
    draft.end(&[]);
    draft.begin(Head::Section(1, 1, &[Number(0)]), b"t");
    draft.end(&[]);
}

// A literal and a field, each once, and repeats of one, two and no items.
fn add_loads(draft: &mut Draft) {
    draft.select(0);
    draft.counter(0, &[BASE]);
    draft.once(Data::Bytes(&[0x4E, 0x71]));
    draft.once(Data::Field(Either, 4, &[Var(X, 0)]));
    draft.repeat(3, &[Data::Bytes(&[0])]);
    draft.repeat(4, &[Data::Field(Signed, 2, &[Number(6)])]);
    let field = Data::Field(Unsigned, 1, &[Number(1)]);
    draft.repeat(2, &[field, Data::Bytes(&[9])]);
    draft.repeat(0, &[]);
}

/// Two functions of a program with their debug blocks, references strong and weak, fields and repeats.
pub(crate) fn every_kind(alloc: Global) -> Draft {
    let mut draft = four_sections(alloc);
    draft.skipped(&[0xF0, 0x20, 0x00], &[0xF1]);
    add_names(&mut draft);
    add_debug(&mut draft);
    add_loads(&mut draft);
    draft.start(&[BASE]);
    draft
}
