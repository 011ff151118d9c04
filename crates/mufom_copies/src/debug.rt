//! Copies of debug items, unchanged or with other expressions.

ghost use Rattle.std.specs.Prelude.{◌≡◌, ◌++◌, ◌∷◌, [], map as mapped, option_map, IfOk};
ghost use Rattle.mufom_expr.specs.Tree.{Tree};
ghost use Rattle.mufom_debug.specs.Marks.{block_begin, block_end, marks_of, marks_of_item};
ghost use Rattle.mufom_copies.specs.Mapped.{mapped_head, mapped_mark};

use crate::entries::{copy_bytes, copy_note};
use mufom_debug::{Block, BlockHead, Boxed, DebugItem};
use mufom_expr::Postfix;
use mufom_numbers::{List, NoMemory};
use std::alloc::Global;

/// A mapping that replaces expressions by other expressions.
pub trait ExpressionMap {
    /// The expression that replaces an expression.
    ghost meaning: { Self → Tree → Tree };

    /// The expression that replaces this one.
    fn expression(&self, alloc: Global, value: &Postfix) -> Result<Postfix, NoMemory>
        ensures { IfOk result (λ other. other ≡ meaning self.now value.now) };
}

// The identity: each expression is replaced by itself.
struct Same;

impl ExpressionMap for Same {
    ghost meaning = { λ _ tree. tree };

    fn expression(&self, alloc: Global, value: &Postfix) -> Result<Postfix, NoMemory> {
        value.copy(alloc)
    }
}

fn map_head<M: ExpressionMap>(
    alloc: Global,
    map: &M,
    head: &BlockHead,
) -> Result<BlockHead, NoMemory>
    ensures { IfOk result (λ copy. copy ≡ mapped_head (M.meaning map.now) head.now) }
{
    match head {
        BlockHead::Module => Ok(BlockHead::Module),
        BlockHead::Global {
            stack,
            type_index,
            offset,
        } => Ok(BlockHead::Global {
            stack: *stack,
            type_index: *type_index,
            offset: map.expression(alloc, offset)?,
        }),
        BlockHead::Local {
            stack,
            type_index,
            offset,
        } => Ok(BlockHead::Local {
            stack: *stack,
            type_index: *type_index,
            offset: map.expression(alloc, offset)?,
        }),
        BlockHead::Source { numbers } => Ok(BlockHead::Source {
            numbers: numbers.clone()?,
        }),
        BlockHead::Section {
            section_type,
            section,
            offset,
        } => Ok(BlockHead::Section {
            section_type: *section_type,
            section: *section,
            offset: map.expression(alloc, offset)?,
        }),
    }
}

fn map_end<M: ExpressionMap>(
    alloc: Global,
    map: &M,
    end: &Option<Postfix>,
) -> Result<Option<Postfix>, NoMemory>
    ensures { IfOk result (λ copy. copy ≡ option_map (M.meaning map.now) end.now) }
{
    match end {
        Some(value) => Ok(Some(map.expression(alloc, value)?)),
        None => Ok(None),
    }
}

// A copy of a block with these items, in which the expressions of the head and the end are replaced.
fn map_block<M: ExpressionMap>(
    alloc: Global,
    map: &M,
    block: &Block,
    items: List<DebugItem>,
) -> Result<DebugItem, NoMemory>
    ensures { IfOk result (λ copy. marks_of_item copy
        ≡ block_begin (mapped_head (M.meaning map.now) block.now.head) block.now.name
        ∷ (marks_of items ++ block_end (option_map (M.meaning map.now) block.now.end) ∷ [])) }
{
    let copy = Block {
        head: map_head(alloc, map, &block.head)?,
        name: copy_bytes(alloc, &block.name)?,
        items,
        end: map_end(alloc, map, &block.end)?,
    };
    Ok(DebugItem::Block(Boxed::new(alloc, copy)?))
}

#[cycle(copying)]
fn map_debug_item<M: ExpressionMap>(
    alloc: Global,
    map: &M,
    item: &DebugItem,
) -> Result<DebugItem, NoMemory>
    ensures { IfOk result (λ copy. marks_of_item copy ≡ mapped (mapped_mark (M.meaning map.now)) (marks_of_item item.now)) }
{
    match item {
        DebugItem::Block(block) => {
            let block = block.get();
            let items = map_debug_items(alloc, map, block.items.as_slice())?;
            map_block(alloc, map, block, items)
        }
        DebugItem::Name(name) => Ok(DebugItem::Name(copy_bytes(alloc, name)?)),
        DebugItem::Note { name, note } => Ok(DebugItem::Note {
            name: *name,
            note: copy_note(note)?,
        }),
        DebugItem::Value { name, value } => Ok(DebugItem::Value {
            name: *name,
            value: map.expression(alloc, value)?,
        }),
    }
}

/// A copy of debug items, with everything inside blocks, in which each expression is replaced. Section
/// positions, names and notes stay the same.
#[cycle(copying)]
pub fn map_debug_items<M: ExpressionMap>(
    alloc: Global,
    map: &M,
    items: &[DebugItem],
) -> Result<List<DebugItem>, NoMemory>
    ensures { IfOk result (λ copies. marks_of copies ≡ mapped (mapped_mark (M.meaning map.now)) (marks_of items.now)) }
{
    let mut copies = List::with_capacity(alloc, items.len())?;
    for item in items {
        copies.push(map_debug_item(alloc, map, item)?)?;
    }
    Ok(copies)
}

/// A copy of debug items, with everything inside blocks.
pub fn copy_debug_items(alloc: Global, items: &[DebugItem]) -> Result<List<DebugItem>, NoMemory>
    ensures { IfOk result (λ copies. copies ≡ items.now) }
{
    map_debug_items(alloc, &Same, items)
}
