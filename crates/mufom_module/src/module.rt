//! A module, its parts, and the defects that keep parts from being a module.

ghost use Rattle.std.specs.Prelude.{◌≡◌, ◌<◌, ◌^◌};
ghost use Rattle.mufom_module.specs.Bare.{bare_parts};
ghost use Rattle.mufom_module.specs.Written.{weight};
ghost use Rattle.mufom_module.specs.Defects.{IsValid};
ghost use Rattle.mufom_module.specs.Made.{IsMade};

use crate::made::type_bounds;
use crate::weight::module_weight;
use mufom_debug::DebugItem;
use mufom_expr::Postfix;
use mufom_loads::Load;
use mufom_names::NameTable;
use mufom_numbers::{Bytes, List};
use mufom_sections::Section;
use std::alloc::Global;
use std::marker::Model;
use thiserror::Error;

/// The order of the bytes of a field and of an address.
#[derive(Clone, Copy, Debug, PartialEq, Eq)]
pub enum Order {
    /// The least significant byte first.
    Least,
    /// The most significant byte first.
    Most,
}

/// What a module states. Entries refer to one another by their positions in these lists, counted from 0.
#[derive(Debug, Drop)]
pub struct Parts {
    pub processor: Bytes,
    pub name: Bytes,
    /// The size of an address in minimum addressable units (MAUs, of eight bits each): 1 to 8.
    pub maus: u8,
    pub order: Order,
    /// The extension part as it is in the file.
    pub ext: Bytes,
    /// The environment part as it is in the file.
    pub env: Bytes,
    pub sections: List<Section>,
    pub names: NameTable,
    pub debug: List<DebugItem>,
    pub loads: List<Load>,
    /// The start address.
    pub start: Option<Postfix>,
}

impl Parts {
    /// Parts that state only the size of an address, in MAUs, and the order of bytes. Does not allocate.
    pub fn new(alloc: Global, maus: u8, order: Order) -> Parts
        ensures { result ≡ bare_parts maus order }
    {
        Parts {
            processor: Bytes::new(alloc),
            name: Bytes::new(alloc),
            maus,
            order,
            ext: Bytes::new(alloc),
            env: Bytes::new(alloc),
            sections: List::new(alloc),
            names: NameTable {
                publics: List::new(alloc),
                references: List::new(alloc),
            },
            debug: List::new(alloc),
            loads: List::new(alloc),
            start: None,
        }
    }
}

/// What keeps parts from being a module, in the order in which the defects are checked.
#[derive(Clone, Copy, Debug, PartialEq, Eq, Error)]
pub enum Defect {
    /// More than 32 debug blocks are open at once.
    #[error("debug blocks are nested too deeply")]
    Depth,
    /// A string is longer than 65,535 bytes.
    #[error("a string is longer than 65,535 bytes")]
    LongId,
    /// The size of an address is not 1 to 8 addressable units.
    #[error("an address does not have 1 to 8 addressable units")]
    BadMaus,
    /// An alignment is 0, or more than 2^31 MAUs.
    #[error("invalid alignment")]
    BadAlign,
    /// An absolute section (letters `A S`) has no base.
    #[error("an absolute section has no base")]
    MissingBase,
    /// A position is outside its list, or a debug name is used before it is declared.
    #[error("an entry refers to a position outside its list")]
    Position,
    /// A public, the start address or a debug item uses a program counter, or a load uses the program
    /// counter of a section other than the one that it loads into or whose counter it sets.
    #[error("misplaced program counter")]
    MisplacedP,
    /// An item or a repeat is loaded before any section is set.
    #[error("no section is set")]
    NoSection,
    /// A literal is longer than 65,535 bytes.
    #[error("a run of bytes is longer than 65,535")]
    LongRun,
    /// The size of a field is not 1 to 8 bytes.
    #[error("the size of a field is not 1 to 8")]
    FieldSize,
    /// A debug note has an unknown attribute.
    #[error("unsupported attribute of a debug record")]
    Attribute,
    /// A module block or a source block has an expression at its end.
    #[error("unbalanced debug blocks")]
    Nesting,
    /// The weight is 2^32 or more.
    #[error("the module is too large")]
    Weight,
}

/// A module: parts without a defect. Contracts see it as its parts.
#[derive(Debug)]
pub struct Module {
    parts: Parts,
}

impl Model for Module {
    ghost use Rattle.mufom_module.specs.declared.module.Parts.{Parts};
    ghost use Rattle.mufom_module.specs.Defects.{IsValid};
    ghost use Rattle.mufom_module.specs.Made.{IsMade};
    ghost use Rattle.std.specs.Coded.{codes};
    ghost use Rattle.mufom_expr.specs.TreeCode.{tree_code};
    ghost use Rattle.mufom_debug.specs.contracts.item.DebugItem as debug_item;

    ghost coded = { Prim.hlevel (codes, tree_code, debug_item.the_row.coded) };

    ghost Value = { Parts };

    ghost view = { λ m. m.parts };

    ghost invariant = { λ m. IsValid m.parts × IsMade m.parts };
}

// Written out so that each drop is one call: see "Drops" in docs/ARCHITECTURE.md.
impl Drop for Module {
    fn drop(self) {
        let Module { parts: _ } = self;
    }
}

impl Module {
    /// Makes a module of parts that are known to have no defect, without checking them. Does not allocate.
    pub fn sound(parts: Parts) -> Module
        requires { IsValid parts }
        ensures same { result ≡ parts }
        ensures made { IsMade result }
    {
        type_bounds(&parts);
        Module { parts }
    }

    /// The parts, which have no defects and are within the bounds of their types. Does not allocate.
    pub fn parts(&self) -> &Parts
        ensures same { result.now ≡ self.now }
        ensures valid { IsValid self.now }
        ensures made { IsMade self.now }
    {
        &self.parts
    }

    /// The length in bytes that the written form would have with nine bytes for each number (except the
    /// eight offsets of its parts) and three for the lead of each string. Does not allocate.
    pub fn weight(&self) -> u64
        ensures value { result ≡ weight self.now }
        ensures bound { result < 2 ^ 32 }
    {
        module_weight(&self.parts)
    }

    /// Turns the module back into its parts. Does not allocate.
    pub fn into_parts(self) -> Parts
        ensures same { result ≡ self }
        ensures valid { IsValid result }
        ensures made { IsMade result }
    {
        let Module { parts } = self;
        parts
    }
}
