//! The number of bytes that loads put into sections.

ghost use Rattle.std.specs.Prelude.{◌≡◌, ◌-◌, ◌*◌, ◌<◌, ◌≤◌, ◌^◌};
ghost use Rattle.mufom_loads.specs.Lengths.{byte_count, lengths_of, length_once, length_loaded, lengths_once, lengths_loaded};

use crate::load::{Item, Load};

/// The number of bytes that the item loads. Does not allocate.
pub fn item_length(item: &Item) -> u64
    ensures { result ≡ byte_count item.now }
{
    match item {
        Item::Literal(bytes) => bytes.len() as u64,
        Item::Field { size, .. } => *size as u64,
    }
}

// The number of bytes that the items load, each once.
fn items_length(items: &[Item]) -> u64
    requires { lengths_of items.now < 2 ^ 64 }
    ensures { result ≡ lengths_of items.now }
{
    let mut total = 0;
    for item in items {
        total += item_length(item);
    }
    total
}

// The number of bytes that a load puts into its section.
fn load_length(load: &Load) -> u128
    requires { length_once load.now < 2 ^ 64 }
    ensures value { result ≡ length_loaded load.now }
    ensures bound { result ≤ (2 ^ 64 - 1) * length_once load.now }
{
    match load {
        Load::SetSection(_) => 0,
        Load::SetPc { .. } => 0,
        Load::One(item) => item_length(item) as u128,
        Load::Repeat { count, items } => *count as u128 * items_length(items.as_slice()) as u128,
    }
}

/// The number of bytes that the loads put into sections; the items of a repeat are counted `count` times.
/// Does not allocate.
///
/// The lengths of all items, with those of a repeat counted once, must add up to less than 2^64 bytes.
pub fn loaded_bytes(loads: &[Load]) -> u128
    requires { lengths_once loads.now < 2 ^ 64 }
    ensures { result ≡ lengths_loaded loads.now }
{
    let mut total = 0;
    for load in loads {
        total += load_length(load);
    }
    total
}
