//! The sections that have loaded bytes.

ghost use Rattle.std.specs.Prelude.{◌≡◌, ◌==◌, ℕ, [], ◌∷◌, IfOk, false, if◌then◌else◌, not, slice_index_or};
ghost use Rattle.std.specs.List.{list_any};
ghost use Rattle.mufom_loads.specs.Lengths.{byte_count};
ghost use Rattle.mufom_planned.specs.Layout.{has_bytes};
ghost use Rattle.mufom_locating.specs.Loaded.{puts_bytes, marked_at};

use mufom_loads::{Item, Load, item_length};
use mufom_module::{Module, current_after};
use mufom_numbers::NoMemory;
use std::alloc::Global;

// Whether one of the items has bytes.
fn have_bytes(items: &[Item]) -> bool
    ensures { result ≡ list_any (λ item. not (byte_count item == 0)) items.now }
{
    items.iter().any(|item| item_length(item) != 0)
}

// Whether a load puts at least one byte into its section.
fn puts_bytes(load: &Load) -> bool
    ensures { result ≡ puts_bytes load.now }
{
    match load {
        Load::One(item) => item_length(item) != 0,
        Load::Repeat { count, items } => *count != 0 && have_bytes(items.as_slice()),
        Load::SetSection(_) => false,
        Load::SetPc { .. } => false,
    }
}

// Marks a section, if there is such a section.
fn mark(marks: &mut Vec<bool>, section: Option<u32>)
    ensures { marks.new.items ≡ marked_at section marks.old.items }
{
    let Some(section) = section else {
        return;
    };
    let section = section as usize;
    if section >= marks.len() {
        return;
    }
    marks[section] = true;
}

// Marks the section into which a load puts bytes, if it puts any.
fn mark_loaded(marks: &mut Vec<bool>, section: Option<u32>, load: &Load)
    ensures { marks.new.items ≡ (if puts_bytes load.now then marked_at section marks.old.items else marks.old.items) }
{
    if puts_bytes(load) {
        mark(marks, section);
    }
}

/// A mark for each section of a module, which is set if the section has loaded bytes.
pub(crate) fn loaded_sections(alloc: Global, module: &Module) -> Result<Vec<bool>, NoMemory>
    ensures { IfOk result (λ marks. (n : ℕ) → slice_index_or marks.items n false ≡ has_bytes («module».now ∷ []) n) }
{
    let parts = module.parts();
    let mut marks = vec![in alloc; false; parts.sections.len()]?;
    let mut current = None;
    for load in parts.loads.as_slice() {
        current = current_after(current, load);
        mark_loaded(&mut marks, current, load);
    }
    Ok(marks)
}
