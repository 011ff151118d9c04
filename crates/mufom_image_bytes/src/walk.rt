//! The walk over the loads, up to the first error.

ghost use Rattle.std.specs.Prelude.{◌≡◌, ◌+◌, ◌≤◌, ◌^◌, ◌<◌, None, option_map, slice_index, slice_set, IfOk, IfSome, OnOk};
ghost use Rattle.mufom_loads.specs.declared.load.Item.TheVariants.{Field};
ghost use Rattle.mufom_loads.specs.Lengths.{byte_count, repeated};
ghost use Rattle.mufom_image_bytes.specs.Counted.{value_with};
ghost use Rattle.mufom_image_bytes.specs.Stops.{fact_of};
ghost use Rattle.mufom_image_bytes.specs.Loaded.{IsTiled};
ghost use Rattle.mufom_image_bytes.specs.Outcomes.{field_outcome, with_bytes};
ghost use Rattle.mufom_image_bytes.specs.Walks.{progress_of, PutsItem, LoadsItem, IsNarrow};

use crate::counted::value_at_counter;
use crate::field::{field_number, fits, spelled};
use crate::layout::Layout;
use crate::loaded::Loaded;
use crate::refusal::LoadRefusal;
use mufom_expr::{Env, FieldKind};
use mufom_loads::{Item, item_length};
use mufom_numbers::NoMemory;

/// The state of a walk over the loads.
#[derive(Drop)]
pub struct Walk {
    /// The program counter of each section.
    pub counters: Vec<u64>,
    pub loaded: Loaded,
}

/// The counter of a section, or 0 if there is none.
pub fn counter_of(counters: &[u64], section: u32) -> u64
    ensures { result ≡ slice_index counters.now section }
{
    counters.get(section as usize).copied().unwrap_or(0)
}

/// Sets the counter of a section, if there is one.
pub fn set_counter(counters: &mut [u64], section: u32, value: u64)
    ensures { counters.new ≡ slice_set counters.old section value }
{
    let section = section as usize;
    if section < counters.len() {
        counters[section] = value;
    }
}

// The number to store in a field at an address, or 0 with the error that stops the walk.
fn field_at(
    layout: &Layout<'_>,
    section: u32,
    address: u64,
    kind: FieldKind,
    size: u8,
    value: Option<u64>,
) -> (u64, Option<LoadRefusal>)
    requires width { layout.now.width ≤ 64 }
    requires size { size ≤ 8 }
    requires residue { IfSome value (λ v. v < 2 ^ layout.now.width) }
    ensures number { result.0 ≡ (field_outcome (2 ^ layout.now.width) section address kind size value).0 }
    ensures stop { option_map fact_of result.1 ≡ (field_outcome (2 ^ layout.now.width) section address kind size value).1 }
{
    let Some(value) = value else {
        return (0, Some(LoadRefusal::Field { section, address }));
    };
    if !fits(layout.width, kind, size, value) {
        let stop = LoadRefusal::Overflow {
            section,
            address,
            kind,
            size,
            value,
        };
        return (0, Some(stop));
    }
    (field_number(layout.width, kind, size, value), None)
}

impl Walk {
    // Loads the `count` bytes of an item at the counter of a section, and advances the counter.
    fn put(
        &mut self,
        layout: &Layout<'_>,
        section: u32,
        at: u64,
        bytes: &[u8],
        count: u64,
    ) -> Result<(), NoMemory>
        requires width { layout.now.width ≤ 64 }
        requires tiled { IsTiled self.old.loaded }
        ensures tiled { OnOk result (IsTiled self.new.loaded) }
        ensures progress { OnOk result (progress_of self.new ≡ with_bytes layout.now section at bytes.now count (progress_of self.old)) }
    {
        self.loaded.add(at, bytes)?;
        let next = layout.residue(at as u128 + count as u128);
        set_counter(&mut self.counters, section, next);
        Ok(())
    }
}

// Loads an item, no byte of which lies outside its section.
fn put_item<E: Env>(
    layout: &Layout<'_>,
    values: &E,
    section: u32,
    at: u64,
    item: &Item,
    walk: &mut Walk,
) -> Result<Option<LoadRefusal>, NoMemory>
    requires low { 8 ≤ layout.now.width }
    requires high { layout.now.width ≤ 64 }
    requires narrow { IsNarrow item.now }
    requires tiled { IsTiled walk.old.loaded }
    ensures tiled { OnOk result (IsTiled walk.new.loaded) }
    ensures outcome { IfOk result (λ stop. PutsItem layout.now (value_with (E.meaning values.now) layout.now.width)
        section at item.now walk.old walk.new stop) }
{
    match item {
        Item::Literal(bytes) => {
            walk.put(layout, section, at, bytes.as_slice(), bytes.len() as u64)?;
            Ok(None)
        }
        Item::Field { kind, value, size } => {
            let found = value_at_counter(values, layout.width, at, value);
            let (number, stop) = field_at(layout, section, at, *kind, *size, found);
            let bytes = spelled(layout.order, *size, number);
            walk.put(layout, section, at, bytes.as_slice(), *size as u64)?;
            Ok(stop)
        }
    }
}

/// Loads an item at the counter of a section. Returns the error that stops the walk there, if there is one.
pub fn load_item<E: Env>(
    layout: &Layout<'_>,
    values: &E,
    section: u32,
    item: &Item,
    walk: &mut Walk,
) -> Result<Option<LoadRefusal>, NoMemory>
    requires low { 8 ≤ layout.now.width }
    requires high { layout.now.width ≤ 64 }
    requires narrow { IsNarrow item.now }
    requires tiled { IsTiled walk.old.loaded }
    ensures tiled { OnOk result (IsTiled walk.new.loaded) }
    ensures outcome { IfOk result (λ stop. LoadsItem layout.now (value_with (E.meaning values.now) layout.now.width)
        section item.now walk.old walk.new stop) }
{
    let count = item_length(item);
    if count == 0 {
        return Ok(None);
    }
    let at = counter_of(&walk.counters, section);
    match layout.outside(section, at, count) {
        Some(address) => Ok(Some(LoadRefusal::Outside { section, address })),
        None => put_item(layout, values, section, at, item, walk),
    }
}
