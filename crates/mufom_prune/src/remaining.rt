//! What remains of the lists of a module.

ghost use Rattle.std.specs.Prelude.{◌≡◌, ◌++◌, ◌∷◌, [], ◌<◌, ◌^◌, ◌||◌, ◌&&◌, length, map, option_map, is_some, None, IfOk};
ghost use Rattle.mufom_names.specs.Index.{position_of};
ghost use Rattle.mufom_module.specs.Contents.{placed_from};
ghost use Rattle.mufom_meaning.specs.Flat.{is_common};
ghost use Rattle.mufom_prune.specs.Kept.{home};
ghost use Rattle.mufom_prune.specs.Pruned.{remaining, remaining_names, remaining_loads, with_commons, new_tree};
ghost use Rattle.mufom_prune.specs.Pruned.{new_public, new_item, new_load, is_left, stays};
ghost use Rattle.mufom_prune.specs.Steps.{with_remaining};

use crate::needs::home;
use crate::positions::{NewPositions, move_tree};
use mufom_copies::{copy_bytes, copy_notes, copy_reference, copy_section};
use mufom_expr::Postfix;
use mufom_loads::{Item, Load};
use mufom_module::current_after;
use mufom_names::{HashSeed, NameIndex, Public, Reference};
use mufom_numbers::{List, NoMemory};
use mufom_sections::Section;
use std::alloc::Global;

/// The sections that remain.
pub(crate) fn remaining_sections(
    alloc: Global,
    marks: &[bool],
    sections: &[Section],
) -> Result<List<Section>, NoMemory>
    requires { length marks.now ≡ length sections.now }
    ensures { IfOk result (λ rest. rest ≡ remaining marks.now sections.now) }
{
    let mut rest = List::new(alloc);
    for place in 0..sections.len() {
        if marks[place] {
            rest.push(copy_section(alloc, &sections[place])?)?;
        }
    }
    Ok(rest)
}

fn move_public(alloc: Global, positions: &NewPositions, public: &Public) -> Result<Public, NoMemory>
    ensures { IfOk result (λ moved. moved ≡ new_public positions.now public.now) }
{
    Ok(Public {
        name: copy_bytes(alloc, &public.name)?,
        value: move_tree(alloc, positions, &public.value)?,
        notes: copy_notes(alloc, public.notes.as_slice())?,
    })
}

/// The publics that remain, with the new positions.
pub(crate) fn remaining_publics(
    alloc: Global,
    marks: &[bool],
    positions: &NewPositions,
    publics: &[Public],
) -> Result<List<Public>, NoMemory>
    requires { length marks.now ≡ length publics.now }
    ensures { IfOk result (λ rest. rest ≡ map (new_public positions.now) (remaining marks.now publics.now)) }
{
    let mut rest = List::new(alloc);
    for place in 0..publics.len() {
        if marks[place] {
            rest.push(move_public(alloc, positions, &publics[place])?)?;
        }
    }
    Ok(rest)
}

// The names of the marked references, in an index.
fn index_remaining<'a>(
    alloc: Global,
    marks: &[bool],
    references: &'a [Reference],
) -> Result<NameIndex<'a>, NoMemory>
    requires { length marks.now ≡ length references.now }
    ensures { IfOk result (λ index. index ≡ with_remaining [] marks.now references.now) }
{
    let mut seed = HashSeed::new();
    seed.add_references(references);
    let mut index = NameIndex::new(alloc, seed);
    for place in 0..references.len() {
        if marks[place] {
            let _known = index.add(references[place].name.as_slice(), 0)?;
        }
    }
    Ok(index)
}

// Whether a reference remains: it is marked, or it is a common with one of the names.
fn remains(names: &NameIndex<'_>, mark: bool, reference: &Reference) -> bool
    ensures { result ≡ (mark || (is_common reference.now && is_some (position_of names.now reference.now.name))) }
{
    if mark {
        return true;
    }
    match reference.weak {
        Some(weak) => weak.size != 0 && names.find(reference.name.as_slice()).is_some(),
        None => false,
    }
}

/// A mark for each reference that remains, given marks for those that are mentioned.
pub(crate) fn reference_marks(
    alloc: Global,
    marks: &[bool],
    references: &[Reference],
) -> Result<List<bool>, NoMemory>
    requires { length marks.now ≡ length references.now }
    ensures marks { IfOk result (λ all. all ≡ with_commons (remaining_names marks.now references.now) marks.now references.now) }
    ensures sized { IfOk result (λ all. length all ≡ length references.now) }
{
    let names = index_remaining(alloc, marks, references)?;
    let mut all = List::with_capacity(alloc, references.len())?;
    for place in 0..references.len() {
        all.push(remains(&names, marks[place], &references[place]))?;
    }
    Ok(all)
}

/// The references that remain.
pub(crate) fn remaining_references(
    alloc: Global,
    marks: &[bool],
    references: &[Reference],
) -> Result<List<Reference>, NoMemory>
    requires { length marks.now ≡ length references.now }
    ensures { IfOk result (λ rest. rest ≡ remaining marks.now references.now) }
{
    let mut rest = List::new(alloc);
    for place in 0..references.len() {
        if marks[place] {
            rest.push(copy_reference(alloc, &references[place])?)?;
        }
    }
    Ok(rest)
}

fn move_item(alloc: Global, positions: &NewPositions, item: &Item) -> Result<Item, NoMemory>
    ensures { IfOk result (λ moved. moved ≡ new_item positions.now item.now) }
{
    match item {
        Item::Literal(bytes) => Ok(Item::Literal(copy_bytes(alloc, bytes)?)),
        Item::Field { kind, value, size } => Ok(Item::Field {
            kind: *kind,
            value: move_tree(alloc, positions, value)?,
            size: *size,
        }),
    }
}

fn move_items(
    alloc: Global,
    positions: &NewPositions,
    items: &[Item],
) -> Result<List<Item>, NoMemory>
    ensures { IfOk result (λ moved. moved ≡ map (new_item positions.now) items.now) }
{
    let mut moved = List::with_capacity(alloc, items.len())?;
    for item in items {
        moved.push(move_item(alloc, positions, item)?)?;
    }
    Ok(moved)
}

fn move_load(alloc: Global, positions: &NewPositions, load: &Load) -> Result<Load, NoMemory>
    ensures { IfOk result (λ moved. moved ≡ new_load positions.now load.now) }
{
    match load {
        Load::SetSection(section) => Ok(Load::SetSection(positions.section(*section))),
        Load::SetPc { section, value } => Ok(Load::SetPc {
            section: positions.section(*section),
            value: move_tree(alloc, positions, value)?,
        }),
        Load::One(item) => Ok(Load::One(move_item(alloc, positions, item)?)),
        Load::Repeat { count, items } => Ok(Load::Repeat {
            count: *count,
            items: move_items(alloc, positions, items.as_slice())?,
        }),
    }
}

// Whether the section remains, if there is one.
fn is_left(marks: &[bool], section: Option<u32>) -> bool
    ensures { result ≡ is_left marks.now section }
{
    let Some(section) = section else {
        return false;
    };
    match marks.get(section as usize) {
        Some(mark) => *mark,
        None => false,
    }
}

/// Returns the loads of the sections that remain, with the new positions.
pub(crate) fn remaining_loads(
    alloc: Global,
    marks: &[bool],
    positions: &NewPositions,
    loads: &[Load],
) -> Result<List<Load>, NoMemory>
    ensures { IfOk result (λ rest. rest ≡ remaining_loads marks.now positions.now (placed_from None loads.now)) }
{
    let mut rest = List::new(alloc);
    let mut current = None;
    for load in loads {
        if is_left(marks, home(current, load)) {
            rest.push(move_load(alloc, positions, load)?)?;
        }
        current = current_after(current, load);
    }
    Ok(rest)
}

/// The start with the new positions.
pub(crate) fn move_start(
    alloc: Global,
    positions: &NewPositions,
    start: &Option<Postfix>,
) -> Result<Option<Postfix>, NoMemory>
    ensures { IfOk result (λ moved. moved ≡ option_map (new_tree positions.now) start.now) }
{
    match start {
        Some(value) => Ok(Some(move_tree(alloc, positions, value)?)),
        None => Ok(None),
    }
}
