//! The debug items of a draft.

use crate::draft::Draft;
use crate::fault::DraftFault;
use crate::tokens::{expression, note};
use arrayvec::ArrayVec;
use mufom_debug::{Block, BlockHead, Boxed, DebugItem};
use mufom_expr::Token;
use mufom_numbers::{Bytes, List};
use std::alloc::Global;

/// The kind of a block with its fields: the numbers of a source file; the stack, the type and the offset of a function;
/// or the type, the position and the offset of a part of a section.
#[derive(Clone, Copy)]
pub enum Head<'a> {
    Module,
    Source(&'a [u64]),
    Global(u64, u64, &'a [Token]),
    Local(u64, u64, &'a [Token]),
    Section(u64, u32, &'a [Token]),
}

fn source(all: &[u64]) -> Result<BlockHead, DraftFault> {
    let mut numbers = ArrayVec::new();
    for number in all {
        if numbers.try_push(*number).is_err() {
            return Err(DraftFault::Numbers);
        }
    }
    Ok(BlockHead::Source { numbers })
}

fn block_head(alloc: Global, head: Head) -> Result<BlockHead, DraftFault> {
    match head {
        Head::Module => Ok(BlockHead::Module),
        Head::Source(numbers) => source(numbers),
        Head::Global(stack, type_index, tokens) => {
            let offset = expression(alloc, tokens)?;
            Ok(BlockHead::Global {
                stack,
                type_index,
                offset,
            })
        }
        Head::Local(stack, type_index, tokens) => {
            let offset = expression(alloc, tokens)?;
            Ok(BlockHead::Local {
                stack,
                type_index,
                offset,
            })
        }
        Head::Section(section_type, section, tokens) => {
            let offset = expression(alloc, tokens)?;
            Ok(BlockHead::Section {
                section_type,
                section,
                offset,
            })
        }
    }
}

impl Draft {
    // Adds an item to the innermost open block, or to the module.
    fn try_item(&mut self, item: DebugItem) -> Result<(), DraftFault> {
        match self.open.pop() {
            Some(mut block) => {
                block.items.push(item)?;
                self.push_open(block)
            }
            None => Ok(self.parts.debug.push(item)?),
        }
    }

    fn push_open(&mut self, block: Block) -> Result<(), DraftFault> {
        match self.open.push(block) {
            Ok(()) => Ok(()),
            Err(_) => Err(DraftFault::NoMemory),
        }
    }

    fn try_begin(&mut self, head: Head, name: &[u8]) -> Result<(), DraftFault> {
        let head = block_head(self.alloc, head)?;
        let name = Bytes::from_slice(self.alloc, name)?;
        let items = List::new(self.alloc);
        self.push_open(Block {
            head,
            name,
            items,
            end: None,
        })
    }

    /// A block begins, to which what follows belongs until it ends.
    pub fn begin(&mut self, head: Head, name: &[u8]) {
        let added = self.try_begin(head, name);
        self.keep(added);
    }

    fn try_end(&mut self, value: &[Token]) -> Result<(), DraftFault> {
        let Some(mut block) = self.open.pop() else {
            return Err(DraftFault::Missing);
        };
        if !value.is_empty() {
            block.end = Some(expression(self.alloc, value)?);
        }
        let block = Boxed::new(self.alloc, block)?;
        self.try_item(DebugItem::Block(block))
    }

    /// The innermost open block ends, with the value of this expression unless it is empty.
    pub fn end(&mut self, value: &[Token]) {
        let added = self.try_end(value);
        self.keep(added);
    }

    fn try_name(&mut self, name: &[u8]) -> Result<(), DraftFault> {
        let name = Bytes::from_slice(self.alloc, name)?;
        self.try_item(DebugItem::Name(name))
    }

    /// A debug name.
    pub fn name(&mut self, name: &[u8]) {
        let added = self.try_name(name);
        self.keep(added);
    }

    fn try_note(&mut self, name: u32, kind: (u64, u64), numbers: &[u64]) -> Result<(), DraftFault> {
        let note = note(kind.0, kind.1, numbers)?;
        self.try_item(DebugItem::Note { name, note })
    }

    /// A note of the debug name at this position: its type, its attribute and its numbers.
    pub fn note(&mut self, name: u32, type_index: u64, attribute: u64, numbers: &[u64]) {
        let added = self.try_note(name, (type_index, attribute), numbers);
        self.keep(added);
    }

    fn try_value(&mut self, name: u32, value: &[Token]) -> Result<(), DraftFault> {
        let value = expression(self.alloc, value)?;
        self.try_item(DebugItem::Value { name, value })
    }

    /// A value of the debug name at this position.
    pub fn value(&mut self, name: u32, value: &[Token]) {
        let added = self.try_value(name, value);
        self.keep(added);
    }
}
