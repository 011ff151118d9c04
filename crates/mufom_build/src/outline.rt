//! Debug items that are being read, with the blocks that are still open.

ghost use Rattle.std.specs.Prelude.{◌≡◌, ◌<◌, ◌++◌, ◌∷◌, [], length, OnOk, IfSome, is_some, ◌==◌};
ghost use Rattle.mufom_debug.specs.Marks.{marks_of, block_begin, block_end, name_mark, note_mark, value_mark};
ghost use Rattle.mufom_build.specs.Outlines.{marks_so_far, IsKept};

use mufom_debug::{Block, BlockHead, Boxed, DebugItem};
use mufom_expr::Postfix;
use mufom_names::Note;
use mufom_numbers::{Bytes, List, NoMemory};
use std::alloc::Global;
use std::mem;

/// A block that is still open.
#[derive(Debug, Drop)]
pub(crate) struct OpenBlock {
    /// The items before it, of the block that it is in, or of no block.
    before: List<DebugItem>,
    head: BlockHead,
    name: Bytes,
}

/// Debug items that are being read.
#[derive(Debug, Drop)]
pub(crate) struct Outline {
    /// The blocks that are open, the innermost last.
    blocks: Vec<OpenBlock>,
    /// The items so far of the innermost open block.
    items: List<DebugItem>,
    /// How many names are declared.
    names: usize,
}

impl Outline {
    /// No items.
    pub(crate) fn new(alloc: Global) -> Outline
        ensures marks { marks_so_far result ≡ [] }
        ensures kept { IsKept result }
    {
        Outline {
            blocks: Vec::new(alloc),
            items: List::new(alloc),
            names: 0,
        }
    }

    /// How many blocks are open.
    pub(crate) fn depth(&self) -> usize
        ensures { result ≡ length self.now.blocks.items }
    {
        self.blocks.len()
    }

    /// How many names are declared.
    pub(crate) fn names(&self) -> usize
        ensures { result ≡ self.now.names }
    {
        self.names
    }

    /// Begins a block.
    pub(crate) fn begin(
        &mut self,
        alloc: Global,
        head: BlockHead,
        name: Bytes,
    ) -> Result<(), NoMemory>
        requires { IsKept self.old }
        ensures marks { OnOk result (marks_so_far self.new ≡ marks_so_far self.old ++ block_begin head name ∷ []) }
        ensures kept { OnOk result (IsKept self.new) }
    {
        let before = mem::replace(&mut self.items, List::new(alloc));
        self.blocks.push(OpenBlock { before, head, name })?;
        Ok(())
    }

    /// Ends the innermost open block.
    pub(crate) fn end(&mut self, alloc: Global, value: Option<Postfix>) -> Result<(), NoMemory>
        requires kept { IsKept self.old }
        requires open { 0 < length self.old.blocks.items }
        ensures marks { OnOk result (marks_so_far self.new ≡ marks_so_far self.old ++ block_end value ∷ []) }
        ensures kept { OnOk result (IsKept self.new) }
    {
        let Some(OpenBlock { before, head, name }) = self.blocks.pop() else {
            unreachable!()
        };
        let items = mem::replace(&mut self.items, before);
        let block = Block {
            head,
            name,
            items,
            end: value,
        };
        let block = Boxed::new(alloc, block)?;
        self.items.push(DebugItem::Block(block))?;
        Ok(())
    }

    /// Declares a name.
    pub(crate) fn name(&mut self, name: Bytes) -> Result<(), NoMemory>
        requires { IsKept self.old }
        ensures marks { OnOk result (marks_so_far self.new ≡ marks_so_far self.old ++ name_mark name ∷ []) }
        ensures kept { OnOk result (IsKept self.new) }
    {
        let Some(names) = self.names.checked_add(1) else {
            return Err(NoMemory);
        };
        self.items.push(DebugItem::Name(name))?;
        self.names = names;
        Ok(())
    }

    /// Adds a note to a name.
    pub(crate) fn note(&mut self, name: u32, note: Note) -> Result<(), NoMemory>
        requires { IsKept self.old }
        ensures marks { OnOk result (marks_so_far self.new ≡ marks_so_far self.old ++ note_mark name note ∷ []) }
        ensures kept { OnOk result (IsKept self.new) }
    {
        self.items.push(DebugItem::Note { name, note })?;
        Ok(())
    }

    /// Gives a name a value.
    pub(crate) fn value(&mut self, name: u32, value: Postfix) -> Result<(), NoMemory>
        requires { IsKept self.old }
        ensures marks { OnOk result (marks_so_far self.new ≡ marks_so_far self.old ++ value_mark name value ∷ []) }
        ensures kept { OnOk result (IsKept self.new) }
    {
        self.items.push(DebugItem::Value { name, value })?;
        Ok(())
    }

    /// The items, if no block is open.
    pub(crate) fn finish(self) -> Option<List<DebugItem>>
        ensures some { is_some result ≡ (length self.blocks.items == 0) }
        ensures marks { IfSome result (λ items. marks_of items ≡ marks_so_far self) }
    {
        let Outline {
            blocks,
            items,
            names: _,
        } = self;
        if !blocks.is_empty() {
            return None;
        }
        Some(items)
    }
}
