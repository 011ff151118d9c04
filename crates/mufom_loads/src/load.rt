//! Loads: what a module puts into its sections, in order.

use mufom_expr::{FieldKind, Postfix};
use mufom_numbers::{Bytes, List};

/// What is put at the program counter of the current section.
#[derive(Debug, Drop)]
pub enum Item {
    /// Literal bytes.
    Literal(Bytes),
    /// The value of an expression, in a field of `size` bytes.
    Field {
        kind: FieldKind,
        size: u8,
        value: Postfix,
    },
}

/// One load of a module (IEEE Std 695, load commands). Sections are named by position.
#[derive(Debug, Drop)]
pub enum Load {
    /// Makes a section the current one.
    SetSection(u32),
    /// Sets the program counter of a section.
    SetPc { section: u32, value: Postfix },
    One(Item),
    /// The items, in order, `count` times.
    Repeat { count: u64, items: List<Item> },
}
