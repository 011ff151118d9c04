//! Indexes of the names of publics and of commons.

ghost use Rattle.std.specs.Prelude.{◌≡◌, ◌+◌, ◌<◌, ◌≤◌, ◌^◌, [], ◌&&◌, is_none, length, IfOk, OnOk};
ghost use Rattle.mufom_names.specs.Names.{names_of};
ghost use Rattle.mufom_names.specs.Index.{keys_of, numbered_from, position_of};
ghost use Rattle.mufom_meaning.specs.Flat.{is_common};
ghost use Rattle.mufom_image_values.specs.Names.{FindsFirst, with_name, asked_after};

use mufom_names::{HashSeed, NameIndex, Public, Reference};
use mufom_numbers::NoMemory;
use std::alloc::Global;

/// An index of the names of publics. It finds the first public of a name.
pub(crate) fn index_of_publics<'a>(
    alloc: Global,
    publics: &'a [Public],
) -> Result<NameIndex<'a>, NoMemory>
    requires { length publics.now < 2 ^ 32 }
    ensures { IfOk result (λ index. FindsFirst index (names_of publics.now)) }
{
    let mut seed = HashSeed::new();
    seed.add_publics(publics);
    let mut index = NameIndex::with_capacity(alloc, seed, publics.len())?;
    for place in 0..publics.len() {
        let _earlier = index.add(publics[place].name.as_slice(), place as u32)?;
    }
    Ok(index)
}

// Whether a reference requests a common: it is weak, its size is not 0, and no public has its name.
fn asks(publics: &NameIndex<'_>, reference: &Reference) -> bool
    ensures { result ≡ (is_common reference.now && is_none (position_of publics.now reference.now.name)) }
{
    match reference.weak {
        Some(weak) => weak.size != 0 && publics.find(reference.name.as_slice()).is_none(),
        None => false,
    }
}

// Adds a name at the end, unless it is already there. Returns the number of names after that.
fn add_name<'a>(index: &mut NameIndex<'a>, name: &'a [u8], count: u32) -> Result<u32, NoMemory>
    requires numbered { index.old ≡ numbered_from 0 (keys_of index.old) }
    requires count { count ≡ length (keys_of index.old) }
    requires room { count + 1 < 2 ^ 32 }
    ensures index { OnOk result (index.new ≡ numbered_from 0 (with_name (keys_of index.old) name.now)) }
    ensures count { IfOk result (λ after. after ≡ length (with_name (keys_of index.old) name.now)) }
{
    match index.add(name, count)? {
        Some(_) => Ok(count),
        None => Ok(count + 1),
    }
}

// The seed of the index of the commons' names. It is computed only from the names that are added to the index. The
// test is made again when they are added, which costs less than a list of them.
fn seed_of_commons(publics: &NameIndex<'_>, references: &[Reference]) -> HashSeed {
    let mut seed = HashSeed::new();
    for reference in references {
        if asks(publics, reference) {
            seed.add_name(reference.name.as_slice());
        }
    }
    seed
}

/// Returns an index of the names of the commons, each once, in the order in which references first request
/// them.
pub(crate) fn index_of_commons<'a>(
    alloc: Global,
    publics: &NameIndex<'_>,
    references: &'a [Reference],
) -> Result<NameIndex<'a>, NoMemory>
    requires { length references.now < 2 ^ 32 }
    ensures { IfOk result (λ index. index ≡ numbered_from 0 (asked_after publics.now [] references.now)) }
{
    let mut index = NameIndex::new(alloc, seed_of_commons(publics, references));
    let mut count = 0;
    for reference in references {
        if asks(publics, reference) {
            count = add_name(&mut index, reference.name.as_slice(), count)?;
        }
    }
    Ok(index)
}
