//! The modules of a run, prepared for explaining: copies to link, and lists of modules with their places among
//! all that were read.

ghost use Rattle.std.specs.Prelude.{◌≡◌, ◌++◌, ◌+◌, ◌≤◌, ◌∷◌, [], length, option_map, option_to_list, slice_get, IfOk, OnOk};
ghost use Rattle.mufom_origins.specs.Origins.{numbered};
ghost use Rattle.mufom_origins.specs.Places.{at_positions};
ghost use Rattle.mufom_explain.specs.Flat.{flat_of};

use mufom_copies::copy_module;
use mufom_explain::FlatModule;
use mufom_module::Module;
use mufom_numbers::{List, NoMemory};
use std::alloc::Global;

/// Copies of modules.
pub(crate) fn copies(alloc: Global, modules: &[Module]) -> Result<List<Module>, NoMemory>
    ensures { IfOk result (λ copies. copies ≡ modules.now) }
{
    let mut copies = List::new(alloc);
    for module in modules {
        copies.push(copy_module(alloc, module)?)?;
    }
    Ok(copies)
}

// The module at a place, if there is one.
fn module_at(modules: &[Module], place: u32) -> Option<&Module>
    ensures { option_map (λ m. m.now) result ≡ slice_get modules.now place }
{
    modules.get(place as usize)
}

// Appends a module with its place.
fn push_module<'a>(
    flat: &mut Vec<FlatModule<'a>>,
    place: u32,
    module: &'a Module,
) -> Result<(), NoMemory>
    ensures pushed { OnOk result (flat_of flat.new.items ≡ flat_of flat.old.items ++ (place, «module».now) ∷ []) }
    ensures count { OnOk result (length flat.new.items ≤ length flat.old.items + 1) }
{
    flat.push(FlatModule {
        place,
        parts: module.parts(),
    })?;
    Ok(())
}

// Appends a module with its place, if there is one.
fn push_file<'a>(
    flat: &mut Vec<FlatModule<'a>>,
    place: u32,
    module: Option<&'a Module>,
) -> Result<(), NoMemory>
    ensures pushed { OnOk result (flat_of flat.new.items ≡ flat_of flat.old.items
        ++ option_to_list (option_map (λ m. (place, m.now)) «module».entry)) }
    ensures count { OnOk result (length flat.new.items ≤ length flat.old.items + 1) }
{
    match module {
        Some(module) => push_module(flat, place, module),
        None => Ok(()),
    }
}

/// The modules at these places.
pub(crate) fn flat_modules<'a>(
    alloc: Global,
    modules: &'a [Module],
    files: &[u32],
) -> Result<Vec<FlatModule<'a>>, NoMemory>
    ensures flat { IfOk result (λ flat. flat_of flat.items ≡ at_positions (numbered modules.now) files.now) }
    ensures count { IfOk result (λ flat. length flat.items ≤ length files.now) }
{
    let mut flat = Vec::new(alloc);
    for file in files {
        push_file(&mut flat, *file, module_at(modules, *file))?;
    }
    Ok(flat)
}
