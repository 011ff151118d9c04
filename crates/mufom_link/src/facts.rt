//! The reasons why a list of modules cannot be linked.

ghost use Rattle.std.specs.Prelude.{◌≡◌, ◌+◌, ◌<◌, ◌^◌, [], length, ◌≤◌, option_map, option_to_list, MatchResult};
ghost use Rattle.mufom_names.specs.Names.{names_of};
ghost use Rattle.mufom_meaning.specs.Facts.{mismatch, descriptor};
ghost use Rattle.mufom_meaning.specs.Flat.{flat_starts, public_names};
ghost use Rattle.mufom_meaning.specs.LinkAnswer.{first_mismatch, same_descriptor};
ghost use Rattle.mufom_link.specs.Publics.{indexed, IsIndexed, IsRefusedName};

use mufom_meaning::Descriptor;
use mufom_module::Module;
use mufom_names::{HashSeed, NameIndex, Public};
use mufom_numbers::Bytes;
use mufom_refusals::LinkRefusal;
use std::alloc::Global;

/// The greatest number of names in an index that needs no seed of its own. So few names cannot cost much time,
/// even if all of them collide.
pub(crate) const FEW_NAMES: usize = 16;

// The descriptor of a module.
fn descriptor_of(module: &Module) -> Descriptor
    ensures maus { result.maus ≡ «module».now.maus }
    ensures order { result.order ≡ «module».now.order }
{
    let parts = module.parts();
    Descriptor {
        maus: parts.maus,
        order: parts.order,
    }
}

// Whether the modules have the same descriptor.
fn is_alike(first: &Module, other: &Module) -> bool
    ensures { result ≡ same_descriptor first.now other.now }
{
    let first = first.parts();
    let other = other.parts();
    first.maus == other.maus && first.order == other.order
}

// The descriptor of the first module, and the first one that differs from it.
pub(crate) fn first_mismatch(list: &[Module]) -> Option<(Descriptor, Descriptor)>
    ensures { option_map (λ found. mismatch (found.0.maus, found.0.order) (found.1.maus, found.1.order)) result ≡ first_mismatch list.now }
{
    let (first, others) = list.split_first()?;
    for other in others {
        if !is_alike(first, other) {
            return Some((descriptor_of(first), descriptor_of(other)));
        }
    }
    None
}

// 1 if the module has a start, and 0 if it has none.
fn own_starts(module: &Module) -> usize
    ensures value { result ≡ length (option_to_list «module».now.start) }
    ensures few { result ≤ 1 }
{
    match module.parts().start {
        Some(_) => 1,
        None => 0,
    }
}

// How many modules have a start.
pub(crate) fn start_count(list: &[Module]) -> usize
    ensures { result ≡ length (flat_starts list.now) }
{
    let mut count = 0;
    for module in list {
        count += own_starts(module);
    }
    count
}

// Adds the names of publics to the index, the first of them at this position. Returns `Duplicate` with the
// first name that the index already has.
fn add_publics<'a>(
    alloc: Global,
    index: &mut NameIndex<'a>,
    first: u32,
    publics: &'a [Public],
) -> Result<(), LinkRefusal>
    requires { first + length publics.now < 2 ^ 32 }
    ensures { let names = names_of publics.now in
        MatchResult result (λ _. IsIndexed index.old first names index.new) (λ e. IsRefusedName index.old first names e) }
{
    for position in 0..publics.len() {
        let name = publics[position].name.as_slice();
        if index.add(name, first + position as u32)?.is_some() {
            return Err(LinkRefusal::Duplicate(Bytes::from_slice(alloc, name)?));
        }
    }
    Ok(())
}

// How many publics the modules have.
fn public_count(list: &[Module]) -> usize
    requires { length (public_names list.now) < 2 ^ 32 }
    ensures { result ≡ length (public_names list.now) }
{
    let mut count = 0;
    for module in list {
        count += module.parts().names.publics.len();
    }
    count
}

// The seed of an index of all public names of the list, of which there are `count`.
fn seed_of_publics(list: &[Module], count: usize) -> HashSeed {
    let mut seed = HashSeed::new();
    if count <= FEW_NAMES {
        return seed;
    }
    for module in list {
        seed.add_publics(module.parts().names.publics.as_slice());
    }
    seed
}

// The index of all public names of the list by their positions, or `Duplicate`.
pub(crate) fn index_publics<'a>(
    alloc: Global,
    list: &'a [Module],
) -> Result<NameIndex<'a>, LinkRefusal>
    requires { length (public_names list.now) < 2 ^ 32 }
    ensures { MatchResult result (λ index. IsIndexed [] 0 (public_names list.now) index) (λ e. IsRefusedName [] 0 (public_names list.now) e) }
{
    let count = public_count(list);
    let seed = seed_of_publics(list, count);
    let mut index = NameIndex::with_capacity(alloc, seed, count)?;
    let mut first = 0;
    for module in list {
        let publics = module.parts().names.publics.as_slice();
        add_publics(alloc, &mut index, first, publics)?;
        first += publics.len() as u32;
    }
    Ok(index)
}
