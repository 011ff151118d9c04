//! A small module that several crates of tests share.

use crate::draft::{Data, Draft, SectionRow};
use mufom_expr::Token::Number;
use mufom_sections::Purpose;
use std::alloc::Global;

/// The section of the small module: absolute, of four bytes at 4096.
pub const CODE: SectionRow<'static> = (b"code", true, Some(Purpose::Code), 4, 2, Some(4096));

/// A module with this section, into which these bytes are loaded at 4096.
pub fn loaded(alloc: Global, name: &[u8], section: &SectionRow, bytes: &[u8]) -> Draft {
    let mut draft = Draft::new(alloc, 4);
    draft.title(b"68000", name);
    draft.section_row(section);
    draft.select(0);
    draft.counter(0, &[Number(4096)]);
    draft.once(Data::Bytes(bytes));
    draft
}

/// The small module, which starts at its first byte.
pub fn small(alloc: Global) -> Draft {
    let mut draft = loaded(alloc, b"A", &CODE, &[0x4E, 0x71, 0x4E, 0x75]);
    draft.start(&[Number(4096)]);
    draft
}
