//! Collecting the address expressions of debug items.

ghost use Rattle.std.specs.Prelude.{◌≡◌, ◌≤◌, ◌++◌, map, option_map, option_to_list, IfOk, OnOk};
ghost use Rattle.mufom_debug.specs.Marks.{marks_of, marks_of_item, depth_of, expressions_of};

use crate::item::DebugItem;
use crate::iterator::Addresses;
use mufom_expr::Postfix;
use mufom_numbers::NoMemory;
use std::alloc::Global;

// Adds an expression, if there is one, to the list.
fn add<'a>(e: Option<&'a Postfix>, list: &mut Vec<&'a Postfix>) -> Result<(), NoMemory>
    ensures { OnOk result (map (λ e. e.now) list.new.items ≡ map (λ e. e.now) list.old.items ++ option_to_list (option_map (λ e. e.now) e.entry)) }
{
    if let Some(e) = e {
        list.push(e)?;
    }
    Ok(())
}

// Adds the expressions of an item to the list.
#[cycle(gather)]
fn gather_item<'a>(item: &'a DebugItem, list: &mut Vec<&'a Postfix>) -> Result<(), NoMemory>
    ensures { OnOk result (map (λ e. e.now) list.new.items ≡ map (λ e. e.now) list.old.items ++ expressions_of (marks_of_item item.now)) }
{
    match item {
        DebugItem::Block(block) => {
            let block = block.get();
            add(block.head.offset(), list)?;
            gather(block.items.as_slice(), list)?;
            add(block.end.as_ref(), list)
        }
        DebugItem::Value { value, .. } => add(Some(value), list),
        DebugItem::Name(_) => Ok(()),
        DebugItem::Note { .. } => Ok(()),
    }
}

// Adds the expressions of the items to the list.
#[cycle(gather)]
fn gather<'a>(items: &'a [DebugItem], list: &mut Vec<&'a Postfix>) -> Result<(), NoMemory>
    ensures { OnOk result (map (λ e. e.now) list.new.items ≡ map (λ e. e.now) list.old.items ++ expressions_of (marks_of items.now)) }
{
    for item in items {
        gather_item(item, list)?;
    }
    Ok(())
}

/// All expressions of the items, in order: for a block its offset, then the expressions of its items, then
/// its end. The items must be at most 32 deep.
pub fn addresses(alloc: Global, items: &[DebugItem]) -> Result<Addresses<'_>, NoMemory>
    requires { depth_of (marks_of items.now) ≤ 32 }
    ensures { IfOk result (λ a. a ≡ expressions_of (marks_of items.now)) }
{
    let mut list: Vec<&Postfix> = Vec::new(alloc);
    gather(items, &mut list)?;
    Ok(Addresses::of(list))
}
