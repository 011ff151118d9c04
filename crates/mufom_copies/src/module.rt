//! Copies of modules.

ghost use Rattle.std.specs.Prelude.{◌≡◌, IfOk, OnOk};

use crate::debug::copy_debug_items;
use crate::entries::{
    copy_bytes, copy_load, copy_optional, copy_public, copy_reference, copy_section,
};
use mufom_loads::Load;
use mufom_module::{Module, Parts};
use mufom_names::{NameTable, Public, Reference};
use mufom_numbers::{List, NoMemory};
use mufom_sections::Section;
use std::alloc::Global;

/// Copies of sections, in their order. The only error is out of memory.
pub fn copy_sections(alloc: Global, sections: &[Section]) -> Result<List<Section>, NoMemory>
    ensures { IfOk result (λ copies. copies ≡ sections.now) }
{
    let mut copies = List::with_capacity(alloc, sections.len())?;
    for section in sections {
        copies.push(copy_section(alloc, section)?)?;
    }
    Ok(copies)
}

fn copy_publics(alloc: Global, publics: &[Public]) -> Result<List<Public>, NoMemory>
    ensures { IfOk result (λ copies. copies ≡ publics.now) }
{
    let mut copies = List::with_capacity(alloc, publics.len())?;
    for public in publics {
        copies.push(copy_public(alloc, public)?)?;
    }
    Ok(copies)
}

fn copy_references(alloc: Global, references: &[Reference]) -> Result<List<Reference>, NoMemory>
    ensures { IfOk result (λ copies. copies ≡ references.now) }
{
    let mut copies = List::with_capacity(alloc, references.len())?;
    for reference in references {
        copies.push(copy_reference(alloc, reference)?)?;
    }
    Ok(copies)
}

fn copy_loads(alloc: Global, loads: &[Load]) -> Result<List<Load>, NoMemory>
    ensures { IfOk result (λ copies. copies ≡ loads.now) }
{
    let mut copies = List::with_capacity(alloc, loads.len())?;
    for load in loads {
        copies.push(copy_load(alloc, load)?)?;
    }
    Ok(copies)
}

// Copies of the names of a module.
fn copy_names(alloc: Global, names: &NameTable) -> Result<NameTable, NoMemory>
    ensures { IfOk result (λ copy. copy ≡ names.now) }
{
    Ok(NameTable {
        publics: copy_publics(alloc, names.publics.as_slice())?,
        references: copy_references(alloc, names.references.as_slice())?,
    })
}

// Replaces the contents of `copy` by copies of the parts of a module.
fn copy_into(alloc: Global, copy: &mut Parts, parts: &Parts) -> Result<(), NoMemory>
    ensures { OnOk result (copy.new ≡ parts.now) }
{
    copy.processor = copy_bytes(alloc, &parts.processor)?;
    copy.name = copy_bytes(alloc, &parts.name)?;
    copy.maus = parts.maus;
    copy.order = parts.order;
    copy.ext = copy_bytes(alloc, &parts.ext)?;
    copy.env = copy_bytes(alloc, &parts.env)?;
    copy.sections = copy_sections(alloc, parts.sections.as_slice())?;
    copy.names = copy_names(alloc, &parts.names)?;
    copy.debug = copy_debug_items(alloc, parts.debug.as_slice())?;
    copy.loads = copy_loads(alloc, parts.loads.as_slice())?;
    copy.start = copy_optional(alloc, &parts.start)?;
    Ok(())
}

// A copy of the parts of a module, made in place: see "Drops" in docs/ARCHITECTURE.md.
fn copy_parts(alloc: Global, parts: &Parts) -> Result<Parts, NoMemory>
    ensures { IfOk result (λ copy. copy ≡ parts.now) }
{
    let mut copy = Parts::new(alloc, parts.maus, parts.order);
    copy_into(alloc, &mut copy, parts)?;
    Ok(copy)
}

/// A copy of a module.
pub fn copy_module(alloc: Global, module: &Module) -> Result<Module, NoMemory>
    ensures { IfOk result (λ copy. copy ≡ «module».now) }
{
    let parts = copy_parts(alloc, module.parts())?;
    Ok(Module::sound(parts))
}
