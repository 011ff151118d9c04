//! Indexes of the names that the roots define, and of the members that provide a name.

ghost use Rattle.std.specs.Prelude.{◌≡◌, ◌<◌, ◌^◌, [], length, min, IfOk, OnOk};
ghost use Rattle.mufom_meaning.specs.Flat.{public_names};
ghost use Rattle.mufom_select.specs.Choice.{with_publics, with_providers};

use mufom_module::Module;
use mufom_names::{HashSeed, NameIndex, Public};
use mufom_numbers::NoMemory;
use std::alloc::Global;

// Adds the names of publics, all with this position. A name that the index already has keeps its position.
fn add_publics<'a>(
    index: &mut NameIndex<'a>,
    position: u32,
    publics: &'a [Public],
) -> Result<(), NoMemory>
    ensures { OnOk result (index.new ≡ with_publics index.old position publics.now) }
{
    for public in publics {
        let _position = index.add(public.name.as_slice(), position)?;
    }
    Ok(())
}

// The names that the roots define.
pub(crate) fn defined<'a>(alloc: Global, roots: &'a Module) -> Result<NameIndex<'a>, NoMemory>
    ensures { IfOk result (λ index. index ≡ with_publics [] 0 roots.now.names.publics) }
{
    let publics = roots.parts().names.publics.as_slice();
    let mut seed = HashSeed::new();
    seed.add_publics(publics);
    let mut index = NameIndex::with_capacity(alloc, seed, publics.len())?;
    add_publics(&mut index, 0, publics)?;
    Ok(index)
}

// The number of publics of the modules, or `usize::MAX` if there are more.
fn public_count(modules: &[Module]) -> usize
    ensures { result ≡ min (length (public_names modules.now)) usize.MAX }
{
    let mut count: usize = 0;
    for module in modules {
        count = count.saturating_add(module.parts().names.publics.len());
    }
    count
}

// The seed of an index of the public names of the members.
fn seed_of(members: &[Module]) -> HashSeed {
    let mut seed = HashSeed::new();
    for module in members {
        seed.add_publics(module.parts().names.publics.as_slice());
    }
    seed
}

// Each name that a member defines, with the first such member.
pub(crate) fn providers<'a>(alloc: Global, members: &'a [Module]) -> Result<NameIndex<'a>, NoMemory>
    requires { length members.now < 2 ^ 32 }
    ensures { IfOk result (λ index. index ≡ with_providers [] 0 members.now) }
{
    let seed = seed_of(members);
    let mut index = NameIndex::with_capacity(alloc, seed, public_count(members))?;
    for position in 0..members.len() {
        let publics = members[position].parts().names.publics.as_slice();
        add_publics(&mut index, position as u32, publics)?;
    }
    Ok(index)
}
