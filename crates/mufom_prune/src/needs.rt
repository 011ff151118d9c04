//! What each entry of a module needs, and which entries are kept in any case.

ghost use Rattle.std.specs.Prelude.{◌≡◌, ◌++◌, ◌+◌, ◌<◌, ◌^◌, [], ℕ, List, flat_map, is_none, length, map, option_map, replicate, option_to_list, IfOk, OnOk};
ghost use Rattle.std.specs.List.{find};
ghost use Rattle.mufom_module.specs.Contents.{placed_loads};
ghost use Rattle.mufom_names.specs.Index.{position_of};
ghost use Rattle.mufom_plan.specs.Names.{has_name};
ghost use Rattle.mufom_prune.specs.Kept.{all_mentions, always_stays, home, load_trees, mentions, needs, roots, staying_from};
ghost use Rattle.mufom_prune.specs.Steps.{entry_count, with_names, with_more, with_loads, reference_needs};

use crate::entries::{add_entry, add_load, add_mentions};
use mufom_expr::Postfix;
use mufom_loads::Load;
use mufom_module::{Parts, current_after};
use mufom_names::{HashSeed, NameIndex, Reference};
use mufom_numbers::{Bytes, List, NoMemory};
use mufom_plan::NameList;
use mufom_sections::Section;
use std::alloc::Global;

/// The public names of a module, each with the number of the first public that has it.
pub(crate) fn index_publics<'a>(alloc: Global, parts: &'a Parts) -> Result<NameIndex<'a>, NoMemory>
    requires { entry_count parts.now < 2 ^ 32 }
    ensures { IfOk result (λ index. index ≡ with_names [] (length parts.now.sections) parts.now.names.publics) }
{
    let first = parts.sections.len();
    let publics = parts.names.publics.as_slice();
    let mut seed = HashSeed::new();
    seed.add_publics(publics);
    let mut index = NameIndex::with_capacity(alloc, seed, publics.len())?;
    for place in 0..publics.len() {
        let _known = index.add(publics[place].name.as_slice(), (first + place) as u32)?;
    }
    Ok(index)
}

/// The section to which a load belongs, if `current` is the current one before it.
pub(crate) fn home(current: Option<u32>, load: &Load) -> Option<u32>
    ensures { result ≡ home current load.now }
{
    match load {
        Load::SetSection(section) => Some(*section),
        Load::SetPc { section, .. } => Some(*section),
        Load::One(_) => current,
        Load::Repeat { .. } => current,
    }
}

// A list of `count` empty lists, with memory for `room` of them.
fn empty_lists(alloc: Global, count: usize, room: usize) -> Result<Vec<List<u32>>, NoMemory>
    ensures { IfOk result (λ lists. lists.items ≡ replicate count []) }
{
    let mut lists = Vec::with_capacity(alloc, room)?;
    for _ in 0..count {
        lists.push(List::new(alloc))?;
    }
    Ok(lists)
}

// Appends what a load mentions to the needs of the section that it belongs to.
fn add_for(
    parts: &Parts,
    section: Option<u32>,
    load: &Load,
    needs: &mut Vec<List<u32>>,
) -> Result<(), NoMemory>
    requires { entry_count parts.now < 2 ^ 32 }
    ensures { OnOk result (needs.new.items ≡ with_more needs.old.items section (all_mentions parts.now (load_trees load.now))) }
{
    let Some(section) = section else {
        return Ok(());
    };
    if section as usize >= needs.len() {
        return Ok(());
    }
    add_load(parts, load, &mut needs[section as usize])
}

// Appends what the loads of a module mention to the needs of its sections.
fn add_loads(parts: &Parts, needs: &mut Vec<List<u32>>) -> Result<(), NoMemory>
    requires { entry_count parts.now < 2 ^ 32 }
    ensures { OnOk result (needs.new.items ≡ with_loads parts.now needs.old.items (placed_loads parts.now)) }
{
    let mut current = None;
    for load in parts.loads.as_slice() {
        add_for(parts, home(current, load), load, needs)?;
        current = current_after(current, load);
    }
    Ok(())
}

// What an expression mentions, as a list.
fn mentions(alloc: Global, parts: &Parts, value: &Postfix) -> Result<List<u32>, NoMemory>
    requires { entry_count parts.now < 2 ^ 32 }
    ensures { IfOk result (λ all. all ≡ mentions parts.now value.now) }
{
    let mut all = List::new(alloc);
    add_mentions(parts, value, &mut all)?;
    Ok(all)
}

// Appends what each public needs.
fn add_publics(alloc: Global, parts: &Parts, needs: &mut Vec<List<u32>>) -> Result<(), NoMemory>
    requires { entry_count parts.now < 2 ^ 32 }
    ensures { OnOk result (needs.new.items ≡ needs.old.items ++ map (λ public. mentions parts.now public.value) parts.now.names.publics) }
{
    for public in parts.names.publics.as_slice() {
        needs.push(mentions(alloc, parts, &public.value)?)?;
    }
    Ok(())
}

// What a reference needs: the public of its name.
fn reference_need(
    alloc: Global,
    publics: &NameIndex<'_>,
    reference: &Reference,
) -> Result<List<u32>, NoMemory>
    ensures { IfOk result (λ all. all ≡ reference_needs publics.now reference.now) }
{
    let mut all = List::new(alloc);
    add_entry(publics.find(reference.name.as_slice()), &mut all)?;
    Ok(all)
}

// Appends what each reference needs.
fn add_references(
    alloc: Global,
    publics: &NameIndex<'_>,
    references: &[Reference],
    needs: &mut Vec<List<u32>>,
) -> Result<(), NoMemory>
    ensures { OnOk result (needs.new.items ≡ needs.old.items ++ map (reference_needs publics.now) references.now) }
{
    for reference in references {
        needs.push(reference_need(alloc, publics, reference)?)?;
    }
    Ok(())
}

/// What each entry of a module needs, in the order of their numbers.
pub(crate) fn needs(
    alloc: Global,
    parts: &Parts,
    publics: &NameIndex<'_>,
) -> Result<Vec<List<u32>>, NoMemory>
    requires few { entry_count parts.now < 2 ^ 32 }
    requires index { publics.now ≡ with_names [] (length parts.now.sections) parts.now.names.publics }
    ensures { IfOk result (λ all. all.items ≡ needs parts.now) }
{
    let references = parts.names.references.as_slice();
    let count = parts.sections.len();
    let room = count + parts.names.publics.len() + references.len();
    let mut needs = empty_lists(alloc, count, room)?;
    add_loads(parts, &mut needs)?;
    add_publics(alloc, parts, &mut needs)?;
    add_references(alloc, publics, references, &mut needs)?;
    Ok(needs)
}

// Whether a section always stays: it has a base, or one of these names.
fn always_stays(section: &Section, stays: &NameList) -> bool
    ensures { result ≡ always_stays stays.now section.now }
{
    section.base.is_some() || stays.contains(section.name.as_slice())
}

// The sections that always stay, given names of such sections.
fn staying_sections(
    alloc: Global,
    sections: &[Section],
    stays: &NameList,
) -> Result<List<u32>, NoMemory>
    requires { length sections.now < 2 ^ 32 }
    ensures { IfOk result (λ all. all ≡ staying_from stays.now 0 sections.now) }
{
    let mut all = List::new(alloc);
    for place in 0..sections.len() {
        if always_stays(&sections[place], stays) {
            all.push(place as u32)?;
        }
    }
    Ok(all)
}

// A seed of the hashes of names.
fn seed_of(names: &[Bytes]) -> HashSeed {
    let mut seed = HashSeed::new();
    for name in names {
        seed.add_name(name.as_slice());
    }
    seed
}

// An index of names, which may occur more than once.
fn index_names(alloc: Global, names: &[Bytes]) -> Result<NameList, NoMemory>
    ensures { IfOk result (λ index. (name : List ℕ) → has_name index name ≡ has_name names.now name) }
{
    let mut index = NameList::new(alloc, seed_of(names));
    for name in names {
        let _added = index.add(name.as_slice())?;
    }
    Ok(index)
}

/// The first of the names that no public has.
pub(crate) fn first_unknown<'a>(publics: &NameIndex<'_>, names: &'a [Bytes]) -> Option<&'a Bytes>
    ensures { option_map (λ name. name.now) result ≡ find (λ name. is_none (position_of publics.now name)) names.now }
{
    for name in names {
        if publics.find(name.as_slice()).is_none() {
            return Some(name);
        }
    }
    None
}

// Appends the publics with these names.
fn add_named(publics: &NameIndex<'_>, names: &[Bytes], all: &mut List<u32>) -> Result<(), NoMemory>
    ensures { OnOk result (all.new ≡ all.old ++ flat_map (λ name. option_to_list (position_of publics.now name)) names.now) }
{
    for name in names {
        add_entry(publics.find(name.as_slice()), all)?;
    }
    Ok(())
}

// Appends what the start mentions.
fn add_start(parts: &Parts, all: &mut List<u32>) -> Result<(), NoMemory>
    requires { entry_count parts.now < 2 ^ 32 }
    ensures { OnOk result (all.new ≡ all.old ++ all_mentions parts.now (option_to_list parts.now.start)) }
{
    match &parts.start {
        Some(value) => add_mentions(parts, value, all),
        None => Ok(()),
    }
}

/// Returns the entries that are kept in any case, for publics with these names, if sections with the names in
/// `stays` always stay.
pub(crate) fn roots(
    alloc: Global,
    parts: &Parts,
    publics: &NameIndex<'_>,
    names: &[Bytes],
    stays: &[Bytes],
) -> Result<List<u32>, NoMemory>
    requires few { entry_count parts.now < 2 ^ 32 }
    requires index { publics.now ≡ with_names [] (length parts.now.sections) parts.now.names.publics }
    ensures { IfOk result (λ all. all ≡ roots parts.now names.now stays.now) }
{
    let index = index_names(alloc, stays)?;
    let mut all = staying_sections(alloc, parts.sections.as_slice(), &index)?;
    add_named(publics, names, &mut all)?;
    add_start(parts, &mut all)?;
    Ok(all)
}
