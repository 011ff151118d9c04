//! Pruning a module.

ghost use Rattle.std.specs.Prelude.{◌≡◌, ◌≤◌, ◌<◌, ◌^◌, [], ◌∷◌, length, map, true, None, IfOk, OnOk, IfErr};
ghost use Rattle.mufom_module.specs.Bare.{bare_parts};
ghost use Rattle.mufom_module.specs.Written.{weight};
ghost use Rattle.mufom_plan.specs.Names.{has_name};
ghost use Rattle.mufom_meaning.specs.Flat.{public_names};
ghost use Rattle.mufom_prune.specs.Kept.{IsKeptFor};
ghost use Rattle.mufom_prune.specs.Pruned.{IsPruned, marks_of_all, new_public, positions_of, remaining, remains, without_others};
ghost use Rattle.mufom_prune.specs.Marked.{IsPrunedWithMarks, IsPrunedWithMarksFor};
ghost use Rattle.mufom_prune.specs.Refusals.{first_unknown as unknown_in, IsRefusalFor, IsRefusalOf};
ghost use Rattle.mufom_prune.specs.Steps.{entry_count, with_names};

use crate::needs::{first_unknown, index_publics, needs, roots};
use crate::positions::{NewPositions, new_positions};
use crate::reach::reach;
use crate::remaining::{
    move_start, reference_marks, remaining_loads, remaining_publics, remaining_references,
    remaining_sections,
};
use mufom_copies::copy_bytes;
use mufom_module::{Module, Parts};
use mufom_names::{NameIndex, NameTable};
use mufom_numbers::{Bytes, NoMemory};
use mufom_refusals::PruneRefusal;
use std::alloc::Global;

/// The result of [`prune_for`].
#[derive(Drop)]
pub struct Pruned {
    /// The module that is left.
    pub module: Module,
    /// A mark for each section of the whole module, in order, which is set if the section is left.
    pub sections: Vec<bool>,
    /// A mark for each public of the whole module, in order, which is set if the public is left.
    pub publics: Vec<bool>,
}

// Returns the first of the names that no public has, as an error.
fn check_names(
    alloc: Global,
    parts: &Parts,
    publics: &NameIndex<'_>,
    names: &[Bytes],
) -> Result<(), PruneRefusal>
    requires { publics.now ≡ with_names [] (length parts.now.sections) parts.now.names.publics }
    ensures known { OnOk result (unknown_in parts.now names.now ≡ None) }
    ensures refused { IfErr result (IsRefusalFor parts.now names.now) }
{
    match first_unknown(publics, names) {
        Some(name) => Err(PruneRefusal::Unknown(copy_bytes(alloc, name)?)),
        None => Ok(()),
    }
}

// A mark for each entry, which is set if the entry is kept for the publics with these names, if sections with
// the names in `stays` always stay.
fn kept(
    alloc: Global,
    parts: &Parts,
    publics: &NameIndex<'_>,
    names: &[Bytes],
    stays: &[Bytes],
) -> Result<Vec<bool>, NoMemory>
    requires few { entry_count parts.now < 2 ^ 32 }
    requires index { publics.now ≡ with_names [] (length parts.now.sections) parts.now.names.publics }
    ensures { IfOk result (λ marks. IsKeptFor parts.now names.now stays.now marks.items) }
{
    let needs = needs(alloc, parts, publics)?;
    let roots = roots(alloc, parts, publics, names, stays)?;
    reach(alloc, &needs, roots.as_slice())
}

// The names of a module that remain.
fn remaining_names(
    alloc: Global,
    names: &NameTable,
    publics: &[bool],
    references: &[bool],
    positions: &NewPositions,
) -> Result<NameTable, NoMemory>
    requires publics { length publics.now ≡ length names.now.publics }
    requires references { length references.now ≡ length names.now.references }
    ensures publics { IfOk result (λ rest. rest.publics ≡ map (new_public positions.now) (remaining publics.now names.now.publics)) }
    ensures references { IfOk result (λ rest. rest.references ≡ remaining references.now names.now.references) }
{
    Ok(NameTable {
        publics: remaining_publics(alloc, publics, positions, names.publics.as_slice())?,
        references: remaining_references(alloc, references, names.references.as_slice())?,
    })
}

// Fills empty parts with what remains of a module.
fn fill(
    alloc: Global,
    rest: &mut Parts,
    parts: &Parts,
    sections: &[bool],
    publics: &[bool],
    references: &[bool],
    positions: &NewPositions,
) -> Result<(), NoMemory>
    requires empty { rest.old ≡ bare_parts parts.now.maus parts.now.order }
    requires sections { length sections.now ≡ length parts.now.sections }
    requires publics { length publics.now ≡ length parts.now.names.publics }
    requires references { length references.now ≡ length parts.now.names.references }
    requires positions { positions.now ≡ positions_of (marks_of_all sections.now publics.now references.now) }
    ensures { OnOk result (rest.new ≡ without_others parts.now (marks_of_all sections.now publics.now references.now)) }
{
    rest.processor = copy_bytes(alloc, &parts.processor)?;
    rest.name = copy_bytes(alloc, &parts.name)?;
    rest.ext = copy_bytes(alloc, &parts.ext)?;
    rest.env = copy_bytes(alloc, &parts.env)?;
    rest.sections = remaining_sections(alloc, sections, parts.sections.as_slice())?;
    rest.names = remaining_names(alloc, &parts.names, publics, references, positions)?;
    rest.loads = remaining_loads(alloc, sections, positions, parts.loads.as_slice())?;
    rest.start = move_start(alloc, positions, &parts.start)?;
    Ok(())
}

// The new positions of what remains.
fn positions(
    alloc: Global,
    sections: &[bool],
    publics: &[bool],
    references: &[bool],
) -> Result<NewPositions, NoMemory>
    requires sections { length sections.now < 2 ^ 32 }
    requires publics { length publics.now < 2 ^ 32 }
    requires references { length references.now < 2 ^ 32 }
    ensures { IfOk result (λ positions. positions ≡ positions_of (marks_of_all sections.now publics.now references.now)) }
{
    Ok(NewPositions {
        sections: new_positions(alloc, sections)?,
        publics: new_positions(alloc, publics)?,
        references: new_positions(alloc, references)?,
    })
}

// The parts of a module that remain if these entries are kept.
fn remaining_parts(alloc: Global, parts: &Parts, marks: &[bool]) -> Result<Parts, NoMemory>
    requires few { entry_count parts.now < 2 ^ 32 }
    requires sized { length marks.now ≡ entry_count parts.now }
    ensures { IfOk result (λ rest. rest ≡ without_others parts.now (remains parts.now marks.now)) }
{
    let (sections, others) = marks.split_at(parts.sections.len());
    let (publics, mentioned) = others.split_at(parts.names.publics.len());
    let references = reference_marks(alloc, mentioned, parts.names.references.as_slice())?;
    let positions = positions(alloc, sections, publics, references.as_slice())?;
    let mut rest = Parts::new(alloc, parts.maus, parts.order);
    fill(
        alloc,
        &mut rest,
        parts,
        sections,
        publics,
        references.as_slice(),
        &positions,
    )?;
    Ok(rest)
}

// Copies the marks of the sections and of the publics, which come first among these marks.
fn copy_marks(
    alloc: Global,
    parts: &Parts,
    marks: &[bool],
) -> Result<(Vec<bool>, Vec<bool>), NoMemory>
    requires { length marks.now ≡ entry_count parts.now }
    ensures { IfOk result (λ both. (both.0.items ≡ (remains parts.now marks.now).sections) × (both.1.items ≡ (remains parts.now marks.now).publics)) }
{
    let (sections, others) = marks.split_at(parts.sections.len());
    let (publics, _) = others.split_at(parts.names.publics.len());
    let sections = Vec::from_slice(alloc, sections)?;
    let publics = Vec::from_slice(alloc, publics)?;
    Ok((sections, publics))
}

/// Copies a module without what public symbols do not need, and marks each section and each public of the
/// module that is left.
///
/// The sections with a base, those with one of the names in `stays`, the publics with the names in `names`, and
/// what the start mentions are kept, and so is everything that a kept entry mentions: in the value of a public,
/// or in the loads of a section. An `X` variable mentions the public with its reference's name, if there is one.
/// In addition, a weak reference of a size above 0 remains if a kept reference has its name. The positions are
/// those of the new lists; debug items are left out, and everything else is unchanged and in the same order. The
/// copy weighs no more than the module, which stays as it is.
///
/// The marks give the positions that the remaining entries had in the whole module: the n-th entry that is
/// left was at the position of the n-th set mark.
///
/// If some of the names are those of no public, and only then, the error is `Unknown` with the first of them. A
/// name in `stays` that no section has changes nothing. `NoMemory` may be returned for any module.
pub fn prune_for(
    alloc: Global,
    module: &Module,
    names: &[Bytes],
    stays: &[Bytes],
) -> Result<Pruned, PruneRefusal>
    ensures pruned { IfOk result (λ left. IsPrunedWithMarksFor left «module».now names.now stays.now) }
    ensures known { IfOk result (λ _. unknown_in «module».now names.now ≡ None) }
    ensures refused { IfErr result (λ e. IsRefusalFor «module».now names.now e) }
    ensures weighs { IfOk result (λ left. weight left.«module» ≤ weight «module».now) }
{
    let parts = module.parts();
    let publics = index_publics(alloc, parts)?;
    check_names(alloc, parts, &publics, names)?;
    let marks = kept(alloc, parts, &publics, names, stays)?;
    let rest = remaining_parts(alloc, parts, &marks)?;
    let (sections, publics) = copy_marks(alloc, parts, &marks)?;
    Ok(Pruned {
        module: Module::sound(rest),
        sections,
        publics,
    })
}

/// Copies a module without what one public symbol does not need, and marks what is left, as [`prune_for`] does
/// for the one name. [`prune`] returns the module alone.
pub fn prune_with_marks(alloc: Global, module: &Module, keep: &[u8]) -> Result<Pruned, PruneRefusal>
    ensures pruned { IfOk result (λ left. IsPrunedWithMarks left «module».now keep.now) }
    ensures known { IfOk result (λ _. has_name (public_names («module».now ∷ [])) keep.now ≡ true) }
    ensures refused { IfErr result (λ e. IsRefusalOf «module».now keep.now e) }
    ensures weighs { IfOk result (λ left. weight left.«module» ≤ weight «module».now) }
{
    let names = [Bytes::from_slice(alloc, keep)?];
    prune_for(alloc, module, &names, &[])
}

/// Copies a module without what one public symbol does not need: the copy that [`prune_for`] makes for the one
/// name.
///
/// If no public has the name, and only then, the error is `Unknown` with the name. `NoMemory` may be returned
/// for any module.
pub fn prune(alloc: Global, module: &Module, keep: &[u8]) -> Result<Module, PruneRefusal>
    ensures pruned { IfOk result (λ M. IsPruned M «module».now keep.now) }
    ensures known { IfOk result (λ _. has_name (public_names («module».now ∷ [])) keep.now ≡ true) }
    ensures refused { IfErr result (λ e. IsRefusalOf «module».now keep.now e) }
    ensures weighs { IfOk result (λ M. weight M ≤ weight «module».now) }
{
    let Pruned { module, .. } = prune_with_marks(alloc, module, keep)?;
    Ok(module)
}
