//! Sections: size, alignment, base and purpose.

use mufom_numbers::Bytes;

/// What a section is for (the section type of the standard).
#[derive(Clone, Copy, Debug, PartialEq, Eq)]
pub enum Purpose {
    Code,
    Data,
    /// Data in read-only memory.
    Rom,
}

/// A section of a module.
#[derive(Debug, Drop)]
pub struct Section {
    pub name: Bytes,
    /// Whether it is an absolute section: its letters are `A S` and not `C`.
    pub absolute: bool,
    pub purpose: Option<Purpose>,
    /// The size in minimum addressable units (MAUs).
    pub size: u64,
    /// The alignment in MAUs: a base that is placed is a multiple of it.
    pub align: u64,
    /// The address of its first MAU, if the module gives one.
    pub base: Option<u64>,
}
