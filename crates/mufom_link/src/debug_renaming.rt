//! Renumbers debug items for the link, and counts the debug names that they declare.

ghost use Rattle.std.specs.Prelude.{◌≡◌, ◌<◌, ◌^◌, map, option_map, IfOk};
ghost use Rattle.mufom_debug.specs.Marks.{marks_of, marks_of_item, names_after_all};
ghost use Rattle.mufom_link.specs.Renaming.{renaming_of, renamed_tree, renamed_head, renamed_mark};

use crate::renumbering::Renumbering;
use mufom_debug::{Block, BlockHead, Boxed, DebugItem};
use mufom_expr::Postfix;
use mufom_numbers::{Bytes, List, NoMemory};
use std::alloc::Global;
use std::mem;

fn renamed_head(site: &Renumbering<'_>, head: BlockHead) -> BlockHead
    ensures { result ≡ renamed_head (renaming_of site.now) head }
{
    match head {
        BlockHead::Module => BlockHead::Module,
        BlockHead::Global {
            stack,
            type_index,
            offset,
        } => BlockHead::Global {
            stack,
            type_index,
            offset: offset.renamed(site),
        },
        BlockHead::Local {
            stack,
            type_index,
            offset,
        } => BlockHead::Local {
            stack,
            type_index,
            offset: offset.renamed(site),
        },
        BlockHead::Source { numbers } => BlockHead::Source { numbers },
        BlockHead::Section {
            section_type,
            section,
            offset,
        } => BlockHead::Section {
            section_type,
            section: site.section(section),
            offset: offset.renamed(site),
        },
    }
}

fn renamed_end(site: &Renumbering<'_>, end: Option<Postfix>) -> Option<Postfix>
    ensures { result ≡ option_map (renamed_tree (renaming_of site.now)) end }
{
    match end {
        Some(value) => Some(value.renamed(site)),
        None => None,
    }
}

#[cycle(renaming)]
fn renamed_item(
    alloc: Global,
    site: &Renumbering<'_>,
    item: DebugItem,
) -> Result<DebugItem, NoMemory>
    ensures { IfOk result (λ other. marks_of_item other ≡ map (renamed_mark (renaming_of site.now)) (marks_of_item item)) }
{
    match item {
        DebugItem::Block(block) => {
            let Block {
                head,
                name,
                items,
                end,
            } = block.into_inner();
            let other = Block {
                head: renamed_head(site, head),
                name,
                items: renamed_items(alloc, site, items)?,
                end: renamed_end(site, end),
            };
            Ok(DebugItem::Block(Boxed::new(alloc, other)?))
        }
        DebugItem::Name(name) => Ok(DebugItem::Name(name)),
        DebugItem::Note { name, note } => Ok(DebugItem::Note {
            name: site.debug_name(name),
            note,
        }),
        DebugItem::Value { name, value } => Ok(DebugItem::Value {
            name: site.debug_name(name),
            value: value.renamed(site),
        }),
    }
}

// Renumbers the variables, sections and debug names of the items for the link, in place.
#[cycle(renaming)]
pub(crate) fn renamed_items(
    alloc: Global,
    site: &Renumbering<'_>,
    items: List<DebugItem>,
) -> Result<List<DebugItem>, NoMemory>
    ensures { IfOk result (λ others. marks_of others ≡ map (renamed_mark (renaming_of site.now)) (marks_of items)) }
{
    let mut items = items.into_vec();
    for item in items.iter_mut() {
        let own = mem::replace(item, DebugItem::Name(Bytes::new(alloc)));
        *item = renamed_item(alloc, site, own)?;
    }
    Ok(List::from_vec(items))
}

// The number of debug names declared up to the end of the item, given the number before it.
#[cycle(names)]
fn names_after_item(before: u32, item: &DebugItem) -> u32
    requires { names_after_all before (marks_of_item item.now) < 2 ^ 32 }
    ensures { result ≡ names_after_all before (marks_of_item item.now) }
{
    match item {
        DebugItem::Block(block) => names_after(before, block.get().items.as_slice()),
        DebugItem::Name(_) => before + 1,
        DebugItem::Note { .. } => before,
        DebugItem::Value { .. } => before,
    }
}

// The number of debug names declared up to the end of the items, given the number before them.
#[cycle(names)]
pub(crate) fn names_after(before: u32, items: &[DebugItem]) -> u32
    requires { names_after_all before (marks_of items.now) < 2 ^ 32 }
    ensures { result ≡ names_after_all before (marks_of items.now) }
{
    let mut count = before;
    for item in items {
        count = names_after_item(count, item);
    }
    count
}
