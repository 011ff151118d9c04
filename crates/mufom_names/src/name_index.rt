//! An index from names to positions.

use crate::hash_seed::HashSeed;
use crate::index_key::NameKey;
use indexmap::IndexSet;
use mufom_numbers::NoMemory;
use std::alloc::Global;
use std::marker::Model;

/// An index from names, which it borrows, to positions. It finds a name by hashing its bytes. Contracts
/// see the list of the pairs of names and positions, in the order in which they were added; no name
/// occurs twice.
pub struct NameIndex<'a> {
    names: IndexSet<NameKey<'a>, HashSeed>,
    positions: Vec<u32>,
}

impl<'a> Model for NameIndex<'a> {
    ghost use Rattle.std.specs.Prelude.{List, ◌≡◌, map, length};
    ghost use Rattle.std.specs.List.{zip, IsDistinct};
    ghost use Rattle.std.specs.Str.{bytes_eq};
    ghost use Rattle.mufom_names.specs.Index.{Entry};

    ghost Value = { List Entry };

    ghost view = { λ index. zip (map (λ name. name.bytes.now) index.names.keys) index.positions.items };

    ghost invariant = { λ index. (length index.names.keys ≡ length index.positions.items)
        × IsDistinct (λ name other. bytes_eq name.bytes.now other.bytes.now) index.names.keys };
}

// Written out so that each drop is one call: see "Drops" in docs/ARCHITECTURE.md.
impl Drop for NameIndex<'_> {
    fn drop(self) {
        let NameIndex {
            names: _,
            positions: _,
        } = self;
    }
}

impl<'a> NameIndex<'a> {
    ghost use Rattle.std.specs.Prelude.{◌≡◌, [], IfOk, OnOk, OnErr};
    ghost use Rattle.mufom_names.specs.Index.{position_of, with_entry, HaveDistinctKeys};

    /// An empty index, which hashes with this seed. Does not allocate.
    pub fn new(alloc: Global, seed: HashSeed) -> NameIndex<'a>
        ensures { result ≡ [] }
    {
        NameIndex {
            names: IndexSet::with_hasher(alloc, seed),
            positions: Vec::new(alloc),
        }
    }

    /// An empty index with room for `count` names, which hashes with this seed.
    pub fn with_capacity(
        alloc: Global,
        seed: HashSeed,
        count: usize,
    ) -> Result<NameIndex<'a>, NoMemory>
        ensures { IfOk result (λ index. index ≡ []) }
    {
        Ok(NameIndex {
            names: IndexSet::with_capacity_and_hasher(alloc, count, seed)?,
            positions: Vec::with_capacity(alloc, count)?,
        })
    }

    /// Adds a name with its position at the end and returns `None`. If the name is in the index already,
    /// returns its position and changes nothing. A call that runs out of memory changes nothing either.
    pub fn add(&mut self, name: &'a [u8], position: u32) -> Result<Option<u32>, NoMemory>
        ensures answer { IfOk result (λ found. found ≡ position_of self.old name.now) }
        ensures after { OnOk result (self.new ≡ with_entry self.old name.now position) }
        ensures err { OnErr result (self.new ≡ self.old) }
    {
        self.positions.push(position)?;
        match self.names.insert_full(NameKey { bytes: name }) {
            Ok((_, true)) => Ok(None),
            Ok((slot, false)) => {
                self.positions.pop();
                Ok(Some(self.positions[slot]))
            }
            Err(_) => {
                self.positions.pop();
                Err(NoMemory)
            }
        }
    }

    /// The position of a name, or `None` if it is not in the index. Does not allocate.
    pub fn find(&self, name: &[u8]) -> Option<u32>
        ensures value { result ≡ position_of self.now name.now }
        ensures distinct { HaveDistinctKeys self.now }
    {
        let slot = self.names.get_index_of(&NameKey { bytes: name })?;
        Some(self.positions[slot])
    }
}
