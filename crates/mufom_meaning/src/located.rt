//! The parts of a located program, and the places of its expressions.

ghost use Rattle.std.specs.Prelude.{◌≡◌};
ghost use Rattle.mufom_meaning.specs.Runs.{run_end};

use mufom_debug::DebugItem;
use mufom_module::Order;
use mufom_names::Note;
use mufom_numbers::{Bytes, List};
use mufom_sections::Section;

/// What all modules of a link share: the length of an address, and the order of bytes.
#[derive(Clone, Copy, Debug, PartialEq, Eq)]
pub struct Descriptor {
    /// The number of minimum addressable units (MAUs, of eight bits each) in an address.
    pub maus: u8,
    /// The order of the bytes of a field.
    pub order: Order,
}

/// The place of an expression in a list of modules. Sections are given by their flat numbers.
#[derive(Debug, Drop)]
pub enum Site {
    /// The value of the public of this name.
    Public(Bytes),
    /// A load that sets the program counter of this section.
    Counter(u32),
    /// A field at this address, in addressable units.
    Field { section: u32, address: u64 },
    /// The start address.
    Start,
    /// The debug expression with this number, counted from 0 over the modules in their order.
    Debug(u32),
}

/// A public with its value.
#[derive(Debug, Drop)]
pub struct PublicValue {
    pub name: Bytes,
    /// A residue modulo the address space, in addressable units if it is an address.
    pub value: u64,
    pub notes: List<Note>,
}

/// A run: loaded bytes at consecutive addresses.
#[derive(Debug, Drop)]
pub struct Run {
    /// The address of the first byte, in addressable units (of eight bits).
    pub address: u64,
    pub bytes: Bytes,
}

impl Run {
    /// The address after the last byte, which may be 2^64 or more. Does not allocate.
    pub fn end(&self) -> u128
        ensures { result ≡ run_end self.now }
    {
        self.address as u128 + self.bytes.len() as u128
    }
}

/// The location of a list of modules: each section has a base, and each expression is replaced by its value.
#[derive(Debug, Drop)]
pub struct LocatedParts {
    pub processor: Bytes,
    pub name: Bytes,
    /// The number of minimum addressable units (MAUs, of eight bits each) in an address.
    pub maus: u8,
    pub order: Order,
    /// Each section is absolute and has its base.
    pub sections: List<Section>,
    pub publics: List<PublicValue>,
    /// The loaded bytes, as runs that are as long as possible, in the order of their addresses.
    pub runs: List<Run>,
    /// The start address, in addressable units.
    pub start: Option<u64>,
    /// The debug items, with one number in place of each expression. Sections and names are given
    /// by their positions among those of the whole list.
    pub debug: List<DebugItem>,
}
