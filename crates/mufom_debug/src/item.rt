//! Debug items: names, notes, values, and blocks of items.

ghost use Rattle.std.specs.Prelude.{◌≡◌, option_map};
ghost use Rattle.mufom_debug.specs.Marks.{kind_number, offset_of};

use crate::boxed::Boxed;
use arrayvec::ArrayVec;
use mufom_expr::Postfix;
use mufom_names::Note;
use mufom_numbers::{Bytes, List};

/// The kind of a debug block, with the fields that the kind has (IEEE Std 695, block begin
/// commands, as far as this project's profile includes them).
#[derive(Debug, Drop)]
pub enum BlockHead {
    /// Kind 3: a module.
    Module,
    /// Kind 4: a global function.
    Global {
        stack: u64,
        type_index: u64,
        offset: Postfix,
    },
    /// Kind 6: a local function.
    Local {
        stack: u64,
        type_index: u64,
        offset: Postfix,
    },
    /// Kind 5: a source file.
    Source {
        numbers: ArrayVec<u64, 6>,
    },
    /// Kind 11: a part of a section, which is named by its position.
    Section {
        section_type: u64,
        section: u32,
        offset: Postfix,
    },
}

/// A debug block.
#[derive(Debug, Drop)]
#[cycle(debug)]
pub struct Block {
    pub head: BlockHead,
    pub name: Bytes,
    pub items: List<DebugItem>,
    pub end: Option<Postfix>,
}

/// A debug item. A name is referred to by its position among all debug names of the module, counted from
/// 0 in the order of the file.
#[derive(Debug, Drop)]
#[cycle(debug)]
pub enum DebugItem {
    Block(Boxed<Block>),
    /// Declares a name.
    Name(Bytes),
    Note { name: u32, note: Note },
    Value { name: u32, value: Postfix },
}

impl BlockHead {
    /// The number by which a file names the kind.
    pub fn kind(&self) -> u8
        ensures { result ≡ kind_number self.now }
    {
        match self {
            BlockHead::Module => 3,
            BlockHead::Global { .. } => 4,
            BlockHead::Source { .. } => 5,
            BlockHead::Local { .. } => 6,
            BlockHead::Section { .. } => 11,
        }
    }

    /// The expression at the start of the block, for the kinds that have one.
    pub fn offset(&self) -> Option<&Postfix>
        ensures { option_map (λ offset. offset.now) result ≡ offset_of self.now }
    {
        match self {
            BlockHead::Module => None,
            BlockHead::Global { offset, .. } => Some(offset),
            BlockHead::Source { .. } => None,
            BlockHead::Local { offset, .. } => Some(offset),
            BlockHead::Section { offset, .. } => Some(offset),
        }
    }
}
