//! A table from the indexes of a file to positions.

ghost use Rattle.std.specs.Prelude.{◌≡◌, ◌+◌, ◌-◌, ◌^◌, ◌<◌, ◌↔◌, ◌==◌, [], ◌∷◌, ◌++◌, length, position, slice_get, nat_eq, false, Contains, IsSome, IfSome};
ghost use Rattle.std.specs.Prelude.{IfOk, OnOk, OnErr};
ghost use Rattle.std.specs.List.{IsDistinct, list_any};

use crate::row::Row;
use crate::scattered::Scattered;
use mufom_numbers::NoMemory;
use std::alloc::Global;
use std::marker::Model;
use thiserror::Error;

/// Why an index is not added.
#[derive(Clone, Copy, Debug, PartialEq, Eq, Error)]
pub enum AddFault {
    #[error("the index is declared already")]
    Duplicate,
    #[error("there is no memory for one more index")]
    NoMemory,
}

/// The indexes that a file gives to its entries, in the order of their declarations. Contracts see
/// the table as the list of these indexes, none of which occurs twice.
///
/// Files mostly declare consecutive indexes, such as 1, 2, 3. The table keeps such a row as two numbers.
/// All indexes from the first one that does not continue the row are in an ordered map, so that `add`
/// and `position` take time logarithmic in their count, whichever indexes a file declares.
#[derive(Debug)]
pub struct IndexTable {
    row: Row,
    // The indexes after the row.
    others: Scattered,
}

impl Model for IndexTable {
    ghost use Rattle.std.specs.Prelude.{List, ℕ, length, nat_eq, ◌<◌, ◌^◌, ◌++◌};
    ghost use Rattle.std.specs.List.{IsDistinct};

    ghost Value = { List ℕ };

    ghost view = { λ table. table.row ++ table.others };

    ghost invariant = { λ table. (length (table.row ++ table.others) < 2 ^ 32) × IsDistinct nat_eq (table.row ++ table.others) };
}

// Written out so that each drop is one call: see "Drops" in docs/ARCHITECTURE.md.
impl Drop for IndexTable {
    fn drop(self) {
        let IndexTable { row: _, others: _ } = self;
    }
}

impl IndexTable {
    /// A table without indexes. Does not allocate.
    pub fn new(alloc: Global) -> IndexTable
        ensures { result ≡ [] }
    {
        IndexTable {
            row: Row::new(),
            others: Scattered::new(alloc),
        }
    }

    /// Declares an index and returns its position, counted from 0, or `Duplicate` if it is declared
    /// already. After an error, including out of memory, the table is unchanged. The table must contain
    /// fewer than 2^32 - 1 indexes.
    pub fn add(&mut self, index: u32) -> Result<u32, AddFault>
        requires { length self.old < 2 ^ 32 - 1 }
        ensures last { IfOk result (λ place. place ≡ length self.old) }
        ensures added { OnOk result (self.new ≡ self.old ++ index ∷ []) }
        ensures duplicate { (result ≡ Err AddFault.Duplicate) ↔ Contains self.old index }
        ensures err { OnErr result (self.new ≡ self.old) }
    {
        if self.position(index).is_some() {
            return Err(AddFault::Duplicate);
        }
        match self.add_new(index) {
            Ok(place) => Ok(place),
            Err(_) => Err(AddFault::NoMemory),
        }
    }

    /// Declares an index that is known not to be declared yet, and returns its position. If memory runs
    /// out, the table is unchanged. The table must contain fewer than 2^32 - 1 indexes.
    pub fn add_new(&mut self, index: u32) -> Result<u32, NoMemory>
        requires few { length self.old < 2 ^ 32 - 1 }
        requires new { list_any (λ other. other == index) self.old ≡ false }
        ensures last { IfOk result (λ place. place ≡ length self.old) }
        ensures added { OnOk result (self.new ≡ self.old ++ index ∷ []) }
        ensures err { OnErr result (self.new ≡ self.old) }
    {
        if self.others.is_empty() {
            if let Some(longer) = self.row.followed_by(index) {
                let place = self.row.len();
                self.row = longer;
                return Ok(place);
            }
        }
        let place = self.others.add(index)?;
        Ok(self.row.len() + place)
    }

    /// The position of an index, counted from 0, or `None` if it is not declared. Does not allocate.
    #[inline]
    pub fn position(&self, index: u32) -> Option<u32>
        ensures declared { IsSome result ↔ Contains self.now index }
        ensures there { IfSome result (λ place. slice_get self.now place ≡ Some index) }
        ensures value { result ≡ position (λ other. other == index) self.now }
        ensures distinct { IsDistinct nat_eq self.now }
    {
        if let Some(place) = self.row.position(index) {
            return Some(place);
        }
        let place = self.others.position(index)?;
        Some(self.row.len() + place)
    }
}
