//! An index from keys to positions.

use crate::hash_seed::HashSeed;
use crate::index_key::OwnedKey;
use indexmap::IndexSet;
use mufom_numbers::NoMemory;
use std::alloc::Global;
use std::marker::Model;

/// An index from keys, which it owns, to positions. It finds a key by hashing it. Contracts see the list
/// of the pairs of keys and positions, in the order in which they were added; no key occurs twice.
pub struct KeyIndex {
    keys: IndexSet<OwnedKey, HashSeed>,
    positions: Vec<u32>,
}

impl Model for KeyIndex {
    ghost use Rattle.std.specs.Prelude.{List, ◌≡◌, map, length};
    ghost use Rattle.std.specs.List.{zip, IsDistinct};
    ghost use Rattle.std.specs.Str.{bytes_eq};
    ghost use Rattle.mufom_names.specs.Index.{Entry};

    ghost Value = { List Entry };

    ghost view = { λ index. zip (map (λ key. key.bytes.items) index.keys.keys) index.positions.items };

    ghost invariant = { λ index. (length index.keys.keys ≡ length index.positions.items)
        × IsDistinct (λ key other. bytes_eq key.bytes.items other.bytes.items) index.keys.keys };
}

// Written out so that each drop is one call: see "Drops" in docs/ARCHITECTURE.md.
impl Drop for KeyIndex {
    fn drop(self) {
        let KeyIndex {
            keys: _,
            positions: _,
        } = self;
    }
}

impl KeyIndex {
    ghost use Rattle.std.specs.Prelude.{◌≡◌, [], IfOk, OnOk, OnErr};
    ghost use Rattle.mufom_names.specs.Index.{position_of, with_entry};

    /// An empty index, which hashes with this seed. Does not allocate.
    pub fn new(alloc: Global, seed: HashSeed) -> KeyIndex
        ensures { result ≡ [] }
    {
        KeyIndex {
            keys: IndexSet::with_hasher(alloc, seed),
            positions: Vec::new(alloc),
        }
    }

    /// Adds a key with its position at the end and returns `None`. If the key is in the index already,
    /// returns its position and changes nothing. A call that runs out of memory changes nothing either.
    pub fn add(&mut self, key: Vec<u8>, position: u32) -> Result<Option<u32>, NoMemory>
        ensures answer { IfOk result (λ found. found ≡ position_of self.old key.items) }
        ensures after { OnOk result (self.new ≡ with_entry self.old key.items position) }
        ensures err { OnErr result (self.new ≡ self.old) }
    {
        self.positions.push(position)?;
        match self.keys.insert_full(OwnedKey { bytes: key }) {
            Ok((_, true)) => Ok(None),
            Ok((slot, false)) => {
                self.positions.pop();
                Ok(Some(self.positions[slot]))
            }
            Err(_) => {
                self.positions.pop();
                Err(NoMemory)
            }
        }
    }
}
