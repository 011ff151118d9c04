//! Linking a list of modules into one.

ghost use Rattle.std.specs.Prelude.{◌≡◌, ◌≢◌, ◌+◌, ◌<◌, ◌≤◌, ◌^◌, [], ◌∷◌, None, length, IfOk, IfErr};
ghost use Rattle.mufom_module.specs.Written.{weight};
ghost use Rattle.mufom_meaning.specs.Flat.{flat_sections, flat_starts, public_names};
ghost use Rattle.mufom_meaning.specs.Joined.{IsJoined, kept_references};
ghost use Rattle.mufom_meaning.specs.LinkAnswer.{link_answer};
ghost use Rattle.mufom_meaning.specs.Staging.{AreValid, StandsFor, HasSettledReferences};
ghost use Rattle.mufom_meaning.specs.StagingLaws.{JoinedStandsFor, JoinedIsValid, total_weight, first_name_length};
ghost use Rattle.mufom_meaning.specs.FactLaws.{NoLinkAnswerIsLinkable};
ghost use Rattle.mufom_link.specs.Conditions.{MayBeLinked};
ghost use Rattle.mufom_link.specs.Joining.{HasLists, header_of};
ghost use Rattle.mufom_link.specs.Linking.{IsPartialLink};
ghost use Rattle.mufom_link.specs.References.{AreResolved, targets_of};
ghost use Rattle.mufom_link.specs.Refusals.{IsRefusalOf};

use crate::joined::Joined;
use crate::resolved::{Resolved, resolve};
use mufom_copies::{copy_bytes, copy_module};
use mufom_expr::Letter;
use mufom_meaning::{joined_is_valid, joined_stands_for, no_link_answer_is_linkable};
use mufom_module::{Module, Order, Parts};
use mufom_names::NameTable;
use mufom_numbers::{Bytes, List, NoMemory};
use mufom_refusals::LinkRefusal;
use std::alloc::Global;

// The laws of partial links that the contract of `link` rests on. It does nothing.
fn laws()
    ensures stands { JoinedStandsFor }
    ensures valid { JoinedIsValid }
    ensures linkable { NoLinkAnswerIsLinkable }
{
    joined_stands_for();
    joined_is_valid();
    no_link_answer_is_linkable();
}

// The lists of the partial link, with these variables for the references of the modules.
fn join_lists(
    alloc: Global,
    list: Vec<Module>,
    targets: &[(Letter, u32)],
) -> Result<Joined, NoMemory>
    requires targets { targets.now ≡ targets_of list.items }
    requires light { total_weight list.items < 2 ^ 32 }
    requires starts { length (flat_starts list.items) ≤ 1 }
    ensures lists { IfOk result (λ all. HasLists list.items all) }
    ensures valid { IfOk result (λ _. AreValid list.items) }
{
    let mut joined = Joined::with_room(alloc, &list)?;
    let mut rest = targets;
    for module in list {
        let (own, after) = rest.split_at(module.parts().names.references.len());
        joined.append(alloc, module, own)?;
        rest = after;
    }
    Ok(joined)
}

// The parts of a partial link that are not lists.
#[derive(Drop)]
struct Header {
    processor: Bytes,
    name: Bytes,
    maus: u8,
    order: Order,
    ext: Bytes,
    env: Bytes,
}

// The header of a partial link under this name, copied from its first module.
fn copy_header(alloc: Global, first: &Module, name: &[u8]) -> Result<Header, NoMemory>
    ensures { IfOk result (λ h. h ≡ header_of first.now name.now) }
{
    let first = first.parts();
    Ok(Header {
        processor: copy_bytes(alloc, &first.processor)?,
        name: Bytes::from_slice(alloc, name)?,
        maus: first.maus,
        order: first.order,
        ext: copy_bytes(alloc, &first.ext)?,
        env: copy_bytes(alloc, &first.env)?,
    })
}

// The parts of the partial link under this name.
fn join(
    alloc: Global,
    list: Vec<Module>,
    name: &[u8],
    references: Resolved,
) -> Result<Parts, NoMemory>
    requires some { 0 < length list.items }
    requires resolved { AreResolved list.items references.targets references.kept }
    requires light { total_weight list.items < 2 ^ 32 }
    requires starts { length (flat_starts list.items) ≤ 1 }
    // The module is the partial link of the list under the name.
    ensures joined { IfOk result (λ M. IsJoined M list.items name.now) }
    ensures valid { IfOk result (λ _. AreValid list.items) }
{
    let header = copy_header(alloc, &list[0], name)?;
    let joined = join_lists(alloc, list, references.targets.as_slice())?;
    Ok(Parts {
        processor: header.processor,
        name: header.name,
        maus: header.maus,
        order: header.order,
        ext: header.ext,
        env: header.env,
        sections: List::from_vec(joined.sections),
        names: NameTable {
            publics: List::from_vec(joined.publics),
            references: references.kept,
        },
        debug: List::from_vec(joined.debug),
        loads: List::from_vec(joined.loads),
        start: joined.start,
    })
}

// The partial link of modules that can be linked.
fn linked(
    alloc: Global,
    list: Vec<Module>,
    name: &[u8],
    references: Resolved,
) -> Result<Module, NoMemory>
    requires conditions { MayBeLinked list.items name.now }
    requires resolved { AreResolved list.items references.targets references.kept }
    requires linkable { link_answer list.items ≡ None }
    requires starts { length (flat_starts list.items) ≤ 1 }
    ensures { IfOk result (λ M. IsPartialLink M list.items name.now) }
{
    let parts = join(alloc, list, name, references)?;
    laws();
    Ok(Module::sound(parts))
}

// Copies of the modules.
fn copy_modules(alloc: Global, list: &[Module]) -> Result<Vec<Module>, NoMemory>
    ensures { IfOk result (λ copies. copies.items ≡ list.now) }
{
    let mut copies = Vec::with_capacity(alloc, list.len())?;
    for module in list {
        copies.push(copy_module(alloc, module)?)?;
    }
    Ok(copies)
}

/// Links a list of modules into one, a partial link under this name.
///
/// The link has the sections, public symbols, loads and debug items of all modules in their order, the start
/// of the module that has one, and the processor, the descriptor, the extension and the environment of the
/// first module. A reference to a name that a public symbol of the list has is replaced by that symbol; the
/// other references are kept, equal ones once. The link means what the list means, whatever other modules are
/// linked with it and wherever its sections are placed. The modules of the list stay as they are;
/// [`link_owned`] consumes them, and copies only the references that it keeps.
pub fn link(alloc: Global, list: &[Module], name: &[u8]) -> Result<Module, LinkRefusal>
    requires { MayBeLinked list.now name.now }
    // The module is the partial link of the list under the name.
    ensures joined { IfOk result (λ M. IsJoined M list.now name.now) }
    // Nothing keeps the list from being linked.
    ensures linkable { IfOk result (λ _. link_answer list.now ≡ None) }
    // The error is the first reason why the list cannot be linked, or out of memory.
    ensures refused { IfErr result (λ e. IsRefusalOf list.now e) }
    // In every context the module means what the list means.
    ensures stands { IfOk result (λ M. StandsFor M list.now) }
    ensures sections { IfOk result (λ M. M.sections ≡ flat_sections list.now) }
    ensures names { IfOk result (λ M. public_names (M ∷ []) ≡ public_names list.now) }
    // No reference has the name of a public of the link, and no two are equal.
    ensures settled { IfOk result (λ M. HasSettledReferences M) }
    // It weighs no more than the list and the name.
    ensures weighs { IfOk result (λ M. weight M + first_name_length list.now ≤ total_weight list.now + length name.now) }
{
    let references = resolve(alloc, list)?;
    let copies = copy_modules(alloc, list)?;
    Ok(linked(alloc, copies, name, references)?)
}

/// Links a list of modules into one, as [`link`] does, but moves the entries of the modules instead of
/// copying them. The modules are consumed.
pub fn link_owned(alloc: Global, list: Vec<Module>, name: &[u8]) -> Result<Module, LinkRefusal>
    requires { MayBeLinked list.items name.now }
    // The module is the partial link of the list under the name.
    ensures joined { IfOk result (λ M. IsJoined M list.items name.now) }
    // Nothing keeps the list from being linked.
    ensures linkable { IfOk result (λ _. link_answer list.items ≡ None) }
    // The error is the first reason why the list cannot be linked, or out of memory.
    ensures refused { IfErr result (λ e. IsRefusalOf list.items e) }
    // In every context the module means what the list means.
    ensures stands { IfOk result (λ M. StandsFor M list.items) }
    ensures sections { IfOk result (λ M. M.sections ≡ flat_sections list.items) }
    ensures names { IfOk result (λ M. public_names (M ∷ []) ≡ public_names list.items) }
    // No reference has the name of a public of the link, and no two are equal.
    ensures settled { IfOk result (λ M. HasSettledReferences M) }
    // It weighs no more than the list and the name.
    ensures weighs { IfOk result (λ M. weight M + first_name_length list.items ≤ total_weight list.items + length name.now) }
{
    let references = resolve(alloc, &list)?;
    Ok(linked(alloc, list, name, references)?)
}
