//! The debug addresses of a location, and the role of each: the start or end of a block, or the value of a
//! name.

ghost use Rattle.std.specs.Prelude.{◌≡◌, ◌++◌, ◌∷◌, [], map, option_map, slice_get, unwrap_or, IfOk, OnOk};
ghost use Rattle.mufom_debug.specs.Marks.{kind_number, marks_of, marks_of_item, offset_of};
ghost use Rattle.mufom_expr.specs.Numbers.{number_of};
ghost use Rattle.mufom_text.specs.Addresses.{all_seen, role_seen};
ghost use Rattle.mufom_text.specs.Image.{address_in, addresses_of, addresses_of_item, begin_of, end_of, names_of, value_of};

use mufom_debug::{Block, DebugItem};
use mufom_expr::Postfix;
use mufom_numbers::NoMemory;
use std::alloc::Global;

/// What a debug address is the address of. A block is given by the number of its kind and its name.
#[derive(Clone, Copy)]
pub(crate) enum Role<'a> {
    /// The start of a block.
    Begin { kind: u8, name: &'a [u8] },
    /// The end of a block.
    End { kind: u8, name: &'a [u8] },
    /// A name: the address is its value.
    Value { name: &'a [u8] },
}

/// A debug address.
#[derive(Clone, Copy)]
pub(crate) struct DebugAddress<'a> {
    pub address: u64,
    pub role: Role<'a>,
}

// ---- names

// Appends the names that an item declares.
#[cycle(naming)]
fn push_names_in<'a>(item: &'a DebugItem, names: &mut Vec<&'a [u8]>) -> Result<(), NoMemory>
    ensures { OnOk result (map (λ name. name.now) names.new.items ≡ map (λ name. name.now) names.old.items ++ names_of (marks_of_item item.now)) }
{
    match item {
        DebugItem::Block(block) => push_names(block.get().items.as_slice(), names),
        DebugItem::Name(name) => Ok(names.push(name.as_slice())?),
        DebugItem::Note { .. } => Ok(()),
        DebugItem::Value { .. } => Ok(()),
    }
}

// Appends the names that the items declare.
#[cycle(naming)]
fn push_names<'a>(items: &'a [DebugItem], names: &mut Vec<&'a [u8]>) -> Result<(), NoMemory>
    ensures { OnOk result (map (λ name. name.now) names.new.items ≡ map (λ name. name.now) names.old.items ++ names_of (marks_of items.now)) }
{
    for item in items {
        push_names_in(item, names)?;
    }
    Ok(())
}

// The name at a position; no bytes if there is none.
fn name_at<'a>(names: &[&'a [u8]], position: u32) -> &'a [u8]
    ensures { result.now ≡ unwrap_or (slice_get (map (λ name. name.now) names.now) position) [] }
{
    match names.get(position as usize) {
        Some(name) => name,
        None => &[],
    }
}

// ---- addresses

// Appends the address that an expression gives, if there is one.
fn push_address<'a>(
    expression: Option<&Postfix>,
    role: Role<'a>,
    addresses: &mut Vec<DebugAddress<'a>>,
) -> Result<(), NoMemory>
    ensures { OnOk result (all_seen addresses.new.items ≡ all_seen addresses.old.items
        ++ address_in (role_seen role.entry) (option_map (λ e. e.now) expression.entry)) }
{
    if let Some(expression) = expression {
        let address = expression.number_or_zero();
        addresses.push(DebugAddress { address, role })?;
    }
    Ok(())
}

fn push_begin<'a>(block: &'a Block, addresses: &mut Vec<DebugAddress<'a>>) -> Result<(), NoMemory>
    ensures { OnOk result (all_seen addresses.new.items ≡ all_seen addresses.old.items
        ++ address_in (begin_of (kind_number block.now.head) block.now.name) (offset_of block.now.head)) }
{
    let kind = block.head.kind();
    let name = block.name.as_slice();
    push_address(block.head.offset(), Role::Begin { kind, name }, addresses)
}

fn push_end<'a>(block: &'a Block, addresses: &mut Vec<DebugAddress<'a>>) -> Result<(), NoMemory>
    ensures { OnOk result (all_seen addresses.new.items ≡ all_seen addresses.old.items
        ++ address_in (end_of (kind_number block.now.head) block.now.name) block.now.end) }
{
    let kind = block.head.kind();
    let name = block.name.as_slice();
    push_address(block.end.as_ref(), Role::End { kind, name }, addresses)
}

fn push_value<'a>(
    names: &[&'a [u8]],
    name: u32,
    value: &Postfix,
    addresses: &mut Vec<DebugAddress<'a>>,
) -> Result<(), NoMemory>
    ensures { OnOk result (all_seen addresses.new.items ≡ all_seen addresses.old.items
        ++ (number_of value.now, value_of (unwrap_or (slice_get (map (λ name. name.now) names.now) name) [])) ∷ []) }
{
    let name = name_at(names, name);
    push_address(Some(value), Role::Value { name }, addresses)
}

// Appends the addresses of an item, given the names of the module.
#[cycle(addressing)]
fn push_addresses_in<'a>(
    names: &[&'a [u8]],
    item: &'a DebugItem,
    addresses: &mut Vec<DebugAddress<'a>>,
) -> Result<(), NoMemory>
    ensures { OnOk result (all_seen addresses.new.items ≡ all_seen addresses.old.items
        ++ addresses_of_item (map (λ name. name.now) names.now) item.now) }
{
    match item {
        DebugItem::Block(block) => {
            let block = block.get();
            push_begin(block, addresses)?;
            push_addresses(names, block.items.as_slice(), addresses)?;
            push_end(block, addresses)
        }
        DebugItem::Name(_) => Ok(()),
        DebugItem::Note { .. } => Ok(()),
        DebugItem::Value { name, value } => push_value(names, *name, value, addresses),
    }
}

// Appends the addresses of items.
#[cycle(addressing)]
fn push_addresses<'a>(
    names: &[&'a [u8]],
    items: &'a [DebugItem],
    addresses: &mut Vec<DebugAddress<'a>>,
) -> Result<(), NoMemory>
    ensures { OnOk result (all_seen addresses.new.items ≡ all_seen addresses.old.items
        ++ addresses_of (map (λ name. name.now) names.now) items.now) }
{
    for item in items {
        push_addresses_in(names, item, addresses)?;
    }
    Ok(())
}

/// Lists the debug addresses of located items in the order of the file: for a block its start, the addresses
/// of its items, and its end. A block without an expression for its start or end has no address there.
pub(crate) fn debug_addresses(
    alloc: Global,
    items: &[DebugItem],
) -> Result<Vec<DebugAddress<'_>>, NoMemory>
    ensures { IfOk result (λ all. all_seen all.items ≡ addresses_of (names_of (marks_of items.now)) items.now) }
{
    let mut names: Vec<&[u8]> = Vec::new(alloc);
    push_names(items, &mut names)?;
    let mut addresses = Vec::new(alloc);
    push_addresses(&names, items, &mut addresses)?;
    Ok(addresses)
}
