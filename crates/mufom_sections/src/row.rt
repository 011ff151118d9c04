//! Indexes that follow one another, as a first index and a count.

ghost use Rattle.std.specs.Prelude.{◌≡◌, ◌-◌, ◌^◌, ◌<◌, [], ◌∷◌, ◌++◌, length, position, nat_eq, IfSome, false};
ghost use Rattle.std.specs.List.{list_any};

use std::marker::Model;

/// Consecutive indexes, each one more than the one before, kept as the first index and their count.
/// Contracts see the list of these indexes.
#[derive(Debug, Drop)]
pub(crate) struct Row {
    first: u32,
    count: u32,
}

impl Model for Row {
    ghost use Rattle.std.specs.Prelude.{List, ℕ, ◌+◌, ◌≤◌, ◌^◌};
    ghost use Rattle.std.specs.List.{range_with_len};

    ghost Value = { List ℕ };

    ghost view = { λ row. range_with_len row.first row.count };

    ghost invariant = { λ row. row.first + row.count ≤ 2 ^ 32 };
}

impl Row {
    /// An empty row.
    pub(crate) fn new() -> Row
        ensures { result ≡ [] }
    {
        Row { first: 0, count: 0 }
    }

    /// The count of the indexes.
    pub(crate) fn len(&self) -> u32
        ensures { result ≡ length self.now }
    {
        self.count
    }

    /// The row with one more index at its end, or `None` if the index does not continue the row. Any
    /// index continues the empty row. The row must contain fewer than 2^32 - 1 indexes.
    pub(crate) fn followed_by(&self, index: u32) -> Option<Row>
        requires { length self.now < 2 ^ 32 - 1 }
        ensures longer { IfSome result (λ row. row ≡ self.now ++ index ∷ []) }
        ensures added { IfSome result (λ _. list_any (nat_eq index) self.now ≡ false) }
    {
        if self.count == 0 {
            return Some(Row {
                first: index,
                count: 1,
            });
        }
        let next = u64::from(self.first) + u64::from(self.count);
        if next != u64::from(index) {
            return None;
        }
        Some(Row {
            first: self.first,
            count: self.count + 1,
        })
    }

    /// The position of an index, counted from 0, or `None` if it is not in the row.
    pub(crate) fn position(&self, index: u32) -> Option<u32>
        ensures { result ≡ position (nat_eq index) self.now }
    {
        if index < self.first {
            return None;
        }
        let place = index - self.first;
        if place >= self.count {
            return None;
        }
        Some(place)
    }
}
