//! Indexes in any order, as an ordered map.

ghost use Rattle.std.specs.Prelude.{◌≡◌, ◌-◌, ◌^◌, ◌<◌, ◌==◌, [], ◌∷◌, ◌++◌, length, position, nat_eq, IfOk, OnOk, OnErr, false};
ghost use Rattle.std.specs.List.{list_any};

use mufom_numbers::NoMemory;
use std::alloc::Global;
use std::collections::BTreeMap;
use std::marker::Model;

/// Any indexes, in the order of their declarations, with an ordered map that finds their positions. So
/// each call takes time logarithmic in their count, even if the indexes were chosen to slow it down.
/// Contracts see the list of the indexes.
#[derive(Debug)]
pub(crate) struct Scattered {
    indexes: Vec<u32>,
    // The position of each index.
    positions: BTreeMap<u32, u32>,
    // The index that was added last, with its position: the next record often names it.
    last: Option<(u32, u32)>,
}

impl Model for Scattered {
    ghost use Rattle.std.specs.Prelude.{List, ℕ, ◌≡◌, Some, nat_eq, position};
    ghost use Rattle.std.specs.BTreeMap.{get};
    ghost use Rattle.std.specs.Ordering.{nat_cmp};

    ghost Value = { List ℕ };

    ghost view = { λ scattered. scattered.indexes.items };

    ghost invariant = { λ scattered. ((k : ℕ) → get nat_cmp scattered.positions k ≡ position (nat_eq k) scattered.indexes.items)
        × ((k place : ℕ) → scattered.last ≡ Some (k, place) → position (nat_eq k) scattered.indexes.items ≡ Some place) };
}

// Written out so that each drop is one call: see "Drops" in docs/ARCHITECTURE.md.
impl Drop for Scattered {
    fn drop(self) {
        let Scattered {
            indexes: _,
            positions: _,
            last: _,
        } = self;
    }
}

impl Scattered {
    /// A table without indexes. Does not allocate.
    pub(crate) fn new(alloc: Global) -> Scattered
        ensures { result ≡ [] }
    {
        Scattered {
            indexes: Vec::new(alloc),
            positions: BTreeMap::new(alloc),
            last: None,
        }
    }

    /// Whether there are no indexes.
    pub(crate) fn is_empty(&self) -> bool
        ensures { result ≡ (length self.now == 0) }
    {
        self.indexes.is_empty()
    }

    /// Adds an index that isn't there yet, and returns its position. If memory runs out, the indexes stay
    /// as they were.
    pub(crate) fn add(&mut self, index: u32) -> Result<u32, NoMemory>
        requires few { length self.old < 2 ^ 32 - 1 }
        requires new { list_any (nat_eq index) self.old ≡ false }
        ensures last { IfOk result (λ place. place ≡ length self.old) }
        ensures added { OnOk result (self.new ≡ self.old ++ index ∷ []) }
        ensures err { OnErr result (self.new ≡ self.old) }
    {
        let place = self.indexes.len() as u32;
        self.indexes.push(index)?;
        match self.positions.insert(index, place) {
            Ok(_) => {
                self.last = Some((index, place));
                Ok(place)
            }
            Err(_) => {
                self.indexes.pop();
                Err(NoMemory)
            }
        }
    }

    /// The position of an index, counted from 0, or `None` if it isn't there. Does not allocate.
    pub(crate) fn position(&self, index: u32) -> Option<u32>
        ensures { result ≡ position (nat_eq index) self.now }
    {
        match self.last {
            Some((last, place)) if last == index => Some(place),
            _ => self.positions.get(&index).copied(),
        }
    }
}
