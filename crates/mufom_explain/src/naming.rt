//! Collecting names to look for.

ghost use Rattle.std.specs.Prelude.{◌≡◌, ◌+◌, ◌<◌, ◌≤◌, ◌^◌, ◌∷◌, [], IfOk, OnOk, length, map};
ghost use Rattle.mufom_names.specs.Index.{numbered_from};
ghost use Rattle.mufom_image_values.specs.Names.{with_name};
ghost use Rattle.mufom_explain.specs.Flat.{wanted_names};

use crate::wanted::Wanted;
use mufom_names::{HashSeed, NameIndex};
use mufom_numbers::NoMemory;
use std::alloc::Global;

/// Adds a name at the end, unless it is there already.
pub(crate) fn add_name<'a>(
    names: &mut Vec<&'a [u8]>,
    index: &mut NameIndex<'a>,
    name: &'a [u8],
) -> Result<(), NoMemory>
    requires indexed { index.old ≡ numbered_from 0 (map (λ name. name.now) names.old.items) }
    requires room { length names.old.items + 1 < 2 ^ 32 }
    ensures indexed { OnOk result (index.new ≡ numbered_from 0 (map (λ name. name.now) names.new.items)) }
    ensures names { OnOk result (map (λ name. name.now) names.new.items ≡ with_name (map (λ name. name.now) names.old.items) name.now) }
    ensures count { OnOk result (length names.new.items ≤ length names.old.items + 1) }
{
    match index.add(name, names.len() as u32)? {
        Some(_) => Ok(()),
        None => {
            names.push(name)?;
            Ok(())
        }
    }
}

/// One name.
pub(crate) fn one_name(alloc: Global, name: &[u8]) -> Result<Wanted<'_>, NoMemory>
    ensures { IfOk result (λ wanted. wanted_names wanted ≡ name.now ∷ []) }
{
    let mut names = Vec::new(alloc);
    let mut seed = HashSeed::new();
    seed.add_name(name);
    let mut index = NameIndex::new(alloc, seed);
    add_name(&mut names, &mut index, name)?;
    Ok(Wanted { names, index })
}
