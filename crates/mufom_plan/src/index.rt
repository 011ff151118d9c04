//! The section names of a plan, found by hashing.

use indexmap::IndexSet;
use mufom_names::HashSeed;
use mufom_numbers::NoMemory;
use std::alloc::Global;
use std::marker::Model;

/// A list of distinct names, in the order in which they were added, with an index that finds each by hashing.
///
/// Contracts see the list of the names.
pub struct NameList {
    alloc: Global,
    names: IndexSet<Vec<u8>, HashSeed>,
}

// Written out so that code that drops a list contains a single call: see "Drops" in docs/ARCHITECTURE.md.
impl Drop for NameList {
    fn drop(self) {
        let NameList { alloc: _, names: _ } = self;
    }
}

impl Model for NameList {
    ghost use Rattle.std.specs.Prelude.{ℕ, List, map};

    ghost Value = { List (List ℕ) };

    ghost view = { λ index. map (λ name. name.items) index.names.keys };
}

impl NameList {
    ghost use Rattle.std.specs.Prelude.{◌≡◌, ◌==◌, [], length, ◌∷◌, ◌++◌, IfOk, OnErr, not, position, if◌then◌else◌};
    ghost use Rattle.std.specs.Str.{bytes_eq};
    ghost use Rattle.mufom_plan.specs.Names.{has_name};

    /// An empty list, which keeps the allocator and hashes with this seed. Does not allocate.
    pub fn new(alloc: Global, seed: HashSeed) -> NameList
        ensures { result ≡ [] }
    {
        NameList {
            alloc,
            names: IndexSet::with_hasher(alloc, seed),
        }
    }

    /// The number of names.
    pub fn len(&self) -> usize
        ensures { result ≡ length self.now }
    {
        self.names.len()
    }

    /// Whether the list is empty.
    pub fn is_empty(&self) -> bool
        ensures { result ≡ (length self.now == 0) }
    {
        self.names.is_empty()
    }

    /// Adds a name at the end, and returns whether it was new. A name that is in the list already keeps its position.
    pub fn add(&mut self, name: &[u8]) -> Result<bool, NoMemory>
        ensures added { IfOk result (λ added. added ≡ not (has_name self.old name.now)) }
        ensures after { IfOk result (λ added. self.new ≡ (if added then self.old ++ name.now ∷ [] else self.old)) }
        ensures err { OnErr result (self.new ≡ self.old) }
    {
        let copy = Vec::from_slice(self.alloc, name)?;
        let added = self.names.insert(copy)?;
        Ok(added)
    }

    /// Whether a name is in the list. Does not allocate.
    pub fn contains(&self, name: &[u8]) -> bool
        ensures { result ≡ has_name self.now name.now }
    {
        self.names.contains(name)
    }

    /// The position of a name, or `None` if it is not in the list. Does not allocate.
    pub fn position(&self, name: &[u8]) -> Option<usize>
        ensures { result ≡ position (bytes_eq name.now) self.now }
    {
        self.names.get_index_of(name)
    }
}
