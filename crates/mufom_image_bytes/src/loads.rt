//! All loads of a module, one after another.

ghost use Rattle.std.specs.Prelude.{◌≡◌, ◌≤◌, ◌<◌, ◌^◌, map, filter, length, option_map, None, IfOk, OnOk};
ghost use Rattle.std.specs.List.{All};
ghost use Rattle.mufom_image_bytes.specs.Counted.{value_with};
ghost use Rattle.mufom_image_bytes.specs.Chunks.{cells_of_chunks, AreConsecutive};
ghost use Rattle.mufom_image_bytes.specs.Loaded.{IsTiled};
ghost use Rattle.mufom_image_bytes.specs.Walks.{has_bytes, first_counters as base_residues, IsNarrow, HasNarrowItems};
ghost use Rattle.mufom_image_bytes.specs.Walks.{LoadsItems, Copies, LoadsOne, LoadsAll};

use crate::counted::value_at_counter;
use crate::layout::Layout;
use crate::loaded::nothing_loaded;
use crate::refusal::LoadRefusal;
use crate::walk::{Walk, counter_of, load_item, set_counter};
use mufom_expr::{Env, Postfix};
use mufom_loads::{Item, Load, item_length};
use mufom_module::current_after;
use mufom_numbers::NoMemory;
use std::alloc::Global;

// Loads items, one after another.
fn load_items<E: Env>(
    layout: &Layout<'_>,
    values: &E,
    section: u32,
    items: &[&Item],
    walk: &mut Walk,
) -> Result<Option<LoadRefusal>, NoMemory>
    requires low { 8 ≤ layout.now.width }
    requires high { layout.now.width ≤ 64 }
    requires narrow { All (λ item. IsNarrow item.now) items.now }
    requires tiled { IsTiled walk.old.loaded }
    ensures tiled { OnOk result (IsTiled walk.new.loaded) }
    ensures outcome { LoadsItems layout.now (value_with (E.meaning values.now) layout.now.width)
        section (map (λ i. i.now) items.now) walk.old walk.new result }
{
    for item in items {
        let stop = load_item(layout, values, section, *item, walk)?;
        if stop.is_some() {
            return Ok(stop);
        }
    }
    Ok(None)
}

// Loads items `count` times.
fn load_copies<E: Env>(
    layout: &Layout<'_>,
    values: &E,
    section: u32,
    count: u64,
    items: &[&Item],
    walk: &mut Walk,
) -> Result<Option<LoadRefusal>, NoMemory>
    requires low { 8 ≤ layout.now.width }
    requires high { layout.now.width ≤ 64 }
    requires narrow { All (λ item. IsNarrow item.now) items.now }
    requires tiled { IsTiled walk.old.loaded }
    ensures tiled { OnOk result (IsTiled walk.new.loaded) }
    ensures outcome { Copies layout.now (value_with (E.meaning values.now) layout.now.width)
        section count (map (λ i. i.now) items.now) walk.old walk.new result }
{
    if items.is_empty() {
        return Ok(None);
    }
    for _ in 0..count {
        let stop = load_items(layout, values, section, items, walk)?;
        if stop.is_some() {
            return Ok(stop);
        }
    }
    Ok(None)
}

// The items that load at least one byte. Copies of the others would take time and change nothing.
fn with_bytes<'a>(alloc: Global, items: &'a [Item]) -> Result<Vec<&'a Item>, NoMemory>
    requires { All IsNarrow items.now }
    ensures narrow { IfOk result (λ list. All (λ item. IsNarrow item.now) list.items) }
    ensures items { IfOk result (λ list. map (λ item. item.now) list.items ≡ filter has_bytes items.now) }
{
    let mut list: Vec<&Item> = Vec::new(alloc);
    for item in items {
        if item_length(item) > 0 {
            list.push(item)?;
        }
    }
    Ok(list)
}

// Loads the items of a repeat.
fn load_repeat<E: Env>(
    alloc: Global,
    layout: &Layout<'_>,
    values: &E,
    section: u32,
    count: u64,
    items: &[Item],
    walk: &mut Walk,
) -> Result<Option<LoadRefusal>, NoMemory>
    requires low { 8 ≤ layout.now.width }
    requires high { layout.now.width ≤ 64 }
    requires narrow { All IsNarrow items.now }
    requires tiled { IsTiled walk.old.loaded }
    ensures tiled { OnOk result (IsTiled walk.new.loaded) }
    ensures outcome { Copies layout.now (value_with (E.meaning values.now) layout.now.width) section count items.now walk.old walk.new result }
{
    let items = with_bytes(alloc, items)?;
    load_copies(layout, values, section, count, &items, walk)
}

// Sets the counter of a section to the value of an expression there.
fn load_counter<E: Env>(
    layout: &Layout<'_>,
    values: &E,
    section: u32,
    value: &Postfix,
    walk: &mut Walk,
) -> Option<LoadRefusal>
    requires low { 8 ≤ layout.now.width }
    requires high { layout.now.width ≤ 64 }
    requires tiled { IsTiled walk.old.loaded }
    ensures tiled { IsTiled walk.new.loaded }
    ensures outcome { LoadsOne layout.now (value_with (E.meaning values.now) layout.now.width)
        None (Load.SetPc section value.now) walk.old walk.new result }
{
    let at = counter_of(&walk.counters, section);
    match value_at_counter(values, layout.width, at, value) {
        Some(next) => {
            set_counter(&mut walk.counters, section, next);
            None
        }
        None => Some(LoadRefusal::Counter { section }),
    }
}

// One load, if this section is the current one.
fn load_one<E: Env>(
    alloc: Global,
    layout: &Layout<'_>,
    values: &E,
    current: Option<u32>,
    load: &Load,
    walk: &mut Walk,
) -> Result<Option<LoadRefusal>, NoMemory>
    requires low { 8 ≤ layout.now.width }
    requires high { layout.now.width ≤ 64 }
    requires narrow { HasNarrowItems load.now }
    requires tiled { IsTiled walk.old.loaded }
    ensures tiled { OnOk result (IsTiled walk.new.loaded) }
    ensures outcome { IfOk result (λ stop. LoadsOne layout.now (value_with (E.meaning values.now) layout.now.width)
        current load.now walk.old walk.new stop) }
{
    match load {
        Load::SetSection(_) => Ok(None),
        Load::SetPc { section, value } => Ok(load_counter(layout, values, *section, value, walk)),
        Load::One(item) => match current {
            Some(section) => load_item(layout, values, section, item, walk),
            None => Ok(None),
        },
        Load::Repeat { count, items } => match current {
            Some(section) => load_repeat(
                alloc,
                layout,
                values,
                section,
                *count,
                items.as_slice(),
                walk,
            ),
            None => Ok(None),
        },
    }
}

// The counter of each section before all loads.
fn first_counters(alloc: Global, layout: &Layout<'_>) -> Result<Vec<u64>, NoMemory>
    requires { layout.now.width ≤ 64 }
    ensures { IfOk result (λ counters. counters.items ≡ base_residues layout.now) }
{
    let mut counters = Vec::with_capacity(alloc, layout.bases.len())?;
    for base in layout.bases {
        counters.push(layout.residue(*base as u128))?;
    }
    Ok(counters)
}

/// Walks the loads in order, with values for all variables but P. Returns the state that was reached, and the
/// error that stopped the walk, if one did.
pub fn walk_loads<E: Env>(
    alloc: Global,
    layout: &Layout<'_>,
    values: &E,
    loads: &[Load],
) -> Result<(Walk, Option<LoadRefusal>), NoMemory>
    requires low { 8 ≤ layout.now.width }
    requires high { layout.now.width ≤ 64 }
    requires narrow { All HasNarrowItems loads.now }
    ensures tiled { IfOk result (λ r. IsTiled r.0.loaded) }
    ensures outcome { IfOk result (λ r. LoadsAll layout.now (value_with (E.meaning values.now) layout.now.width) loads.now r.0 r.1) }
{
    let mut walk = Walk {
        counters: first_counters(alloc, layout)?,
        loaded: nothing_loaded(alloc),
    };
    let mut current = None;
    for load in loads {
        let stop = load_one(alloc, layout, values, current, load, &mut walk)?;
        if stop.is_some() {
            return Ok((walk, stop));
        }
        current = current_after(current, load);
    }
    Ok((walk, None))
}
