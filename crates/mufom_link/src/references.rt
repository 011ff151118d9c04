//! The references of a link: which publics resolve them, and which are kept.

ghost use Rattle.std.specs.Prelude.{◌≡◌, [], ◌+◌, ◌++◌, ◌<◌, ◌^◌, length, IfOk, OnOk};
ghost use Rattle.std.specs.List.{AllByRecursion};
ghost use Rattle.mufom_names.specs.Index.{keys_of, numbered_from};
ghost use Rattle.mufom_names.specs.Keys.{IsShortReference};
ghost use Rattle.mufom_meaning.specs.Joined.{position_of as place_of, same_reference};
ghost use Rattle.mufom_link.specs.References.{merged_with, kept_with, kept_after, target_in, targets_after, keyed};

use crate::facts::FEW_NAMES;
use mufom_copies::copy_reference;
use mufom_expr::Letter;
use mufom_module::Module;
use mufom_names::{HashSeed, KeyIndex, NameIndex, Reference, reference_key};
use mufom_numbers::{List, NoMemory};
use std::alloc::Global;

/// How many references the modules have, or `usize::MAX` if there are more.
pub(crate) fn reference_count(list: &[Module]) -> usize {
    let mut count: usize = 0;
    for module in list {
        count = count.saturating_add(module.parts().names.references.len());
    }
    count
}

// The seed of an index of the references of the modules.
fn seed_of(list: &[Module]) -> HashSeed {
    let mut seed = HashSeed::new();
    if reference_count(list) <= FEW_NAMES {
        return seed;
    }
    for module in list {
        seed.add_references(module.parts().names.references.as_slice());
    }
    seed
}

/// The references that a link keeps so far: of equal ones the first.
#[derive(Drop)]
pub(crate) struct References {
    // The keys of the kept references, each with its position among them.
    keys: KeyIndex,
    kept: List<Reference>,
}

impl References {
    // None yet.
    pub(crate) fn new(alloc: Global) -> References
        ensures kept { result.kept ≡ [] }
        ensures keys { result.keys ≡ [] }
    {
        References {
            keys: KeyIndex::new(alloc, HashSeed::new()),
            kept: List::new(alloc),
        }
    }

    // The kept references.
    pub(crate) fn into_kept(self) -> List<Reference>
        ensures { result ≡ self.kept }
    {
        let References { kept, .. } = self;
        kept
    }

    // Keeps the reference if no equal one is kept yet. Returns the position of the equal one that is
    // kept now.
    fn merge(&mut self, alloc: Global, reference: &Reference) -> Result<u32, NoMemory>
        requires keyed { self.old.keys ≡ keyed self.old.kept }
        requires short { IsShortReference reference.now }
        requires kept_short { AllByRecursion IsShortReference self.old.kept }
        requires room { length self.old.kept < 2 ^ 32 }
        ensures position { IfOk result (λ position. position ≡ place_of (same_reference reference.now) self.old.kept) }
        ensures kept { OnOk result (self.new.kept ≡ merged_with self.old.kept reference.now) }
        ensures keys { OnOk result (self.new.keys ≡ keyed self.new.kept) }
    {
        let key = reference_key(alloc, reference)?;
        let next = self.kept.len() as u32;
        if let Some(position) = self.keys.add(key, next)? {
            return Ok(position);
        }
        self.kept.push(copy_reference(alloc, reference)?)?;
        Ok(next)
    }

    // Before the first reference is kept, makes the index of keys anew, with a seed of all references of the
    // modules. A link that keeps none needs no seed.
    fn begin(&mut self, alloc: Global, list: &[Module])
        requires { self.old.keys ≡ keyed self.old.kept }
        ensures kept { self.new.kept ≡ self.old.kept }
        ensures keys { self.new.keys ≡ keyed self.old.kept }
    {
        if self.kept.is_empty() {
            self.keys = KeyIndex::new(alloc, seed_of(list));
        }
    }

    // The variable that replaces the reference of one of the modules in the link. If no public has its name,
    // the reference is kept.
    fn target(
        &mut self,
        alloc: Global,
        list: &[Module],
        publics: &NameIndex<'_>,
        reference: &Reference,
    ) -> Result<(Letter, u32), NoMemory>
        requires publics { publics.now ≡ numbered_from 0 (keys_of publics.now) }
        requires keyed { self.old.keys ≡ keyed self.old.kept }
        requires short { IsShortReference reference.now }
        requires kept_short { AllByRecursion IsShortReference self.old.kept }
        requires room { length self.old.kept < 2 ^ 32 }
        ensures target { IfOk result (λ target. target ≡ target_in (keys_of publics.now) self.old.kept reference.now) }
        ensures kept { OnOk result (self.new.kept ≡ kept_with (keys_of publics.now) self.old.kept reference.now) }
        ensures keys { OnOk result (self.new.keys ≡ keyed self.new.kept) }
    {
        match publics.find(reference.name.as_slice()) {
            Some(position) => Ok((Letter::I, position)),
            None => {
                self.begin(alloc, list);
                Ok((Letter::X, self.merge(alloc, reference)?))
            }
        }
    }

    // Adds the variables that replace references of one of the modules in the link, in order.
    pub(crate) fn resolve(
        &mut self,
        alloc: Global,
        list: &[Module],
        publics: &NameIndex<'_>,
        references: &[Reference],
        targets: &mut List<(Letter, u32)>,
    ) -> Result<(), NoMemory>
        requires publics { publics.now ≡ numbered_from 0 (keys_of publics.now) }
        requires keyed { self.old.keys ≡ keyed self.old.kept }
        requires short { AllByRecursion IsShortReference references.now }
        requires kept_short { AllByRecursion IsShortReference self.old.kept }
        requires room { length self.old.kept + length references.now < 2 ^ 32 }
        ensures targets { OnOk result (targets.new ≡ targets.old ++ targets_after (keys_of publics.now) self.old.kept references.now) }
        ensures kept { OnOk result (self.new.kept ≡ kept_after (keys_of publics.now) self.old.kept references.now) }
        ensures keys { OnOk result (self.new.keys ≡ keyed self.new.kept) }
    {
        for reference in references {
            targets.push(self.target(alloc, list, publics, reference)?)?;
        }
        Ok(())
    }
}
