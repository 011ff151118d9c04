//! A growing list, for types that contain themselves.

ghost use Rattle.std.specs.Prelude.{◌≡◌, ◌↔◌, List, [], ◌∷◌, ◌++◌, length, IfOk, OnOk, OnErr, IsNone, IsTrue, option_map, slice_get, option_to_list};

use crate::NoMemory;
use std::alloc::Global;
use std::marker::Model;

/// A list that grows at its end, over `Vec`. Contracts see it as the list of its items.
///
/// It can be used in a type that contains itself. Only [`push`](List::push),
/// [`single`](List::single) and [`with_capacity`](List::with_capacity) allocate.
#[derive(Debug, Drop)]
pub struct List<T> {
    items: Vec<T>,
}

impl<T> Model for List<T> {
    ghost use Rattle.std.specs.Prelude.{List};
    ghost use Rattle.std.specs.Coded.{coded_list};

    ghost Value = { List T };

    ghost coded = { coded_list T.code };

    ghost view = { λ l. l.items.items };
}

impl<T> List<T> {
    /// An empty list, which keeps the allocator.
    pub fn new(alloc: Global) -> List<T>
        ensures { result ≡ [] }
    {
        List {
            items: Vec::new(alloc),
        }
    }

    /// An empty list with room for `count` items, which can then be added without an allocation.
    pub fn with_capacity(alloc: Global, count: usize) -> Result<List<T>, NoMemory>
        ensures { IfOk result (λ list. list ≡ []) }
    {
        let items = Vec::with_capacity(alloc, count)?;
        Ok(List { items })
    }

    /// The list of the items of a `Vec`. Does not allocate.
    pub fn from_vec(items: Vec<T>) -> List<T>
        ensures { result ≡ items.items }
    {
        List { items }
    }

    /// The number of items.
    pub fn len(&self) -> usize
        ensures { result ≡ length self.now }
    {
        self.items.len()
    }

    /// Whether there are no items.
    pub fn is_empty(&self) -> bool
        ensures { IsTrue result ↔ (self.now ≡ []) }
    {
        self.items.is_empty()
    }

    /// The items as a slice.
    pub fn as_slice(&self) -> &[T]
        ensures { result.now ≡ self.now }
    {
        self.items.as_slice()
    }

    /// The item at a position, counted from 0, or `None` past the end.
    pub fn get(&self, place: usize) -> Option<&T>
        ensures { option_map (λ item. item.now) result ≡ slice_get self.now place }
    {
        self.items.get(place)
    }

    /// The items as the `Vec` that held them.
    pub fn into_vec(self) -> Vec<T>
        ensures { result.items ≡ self }
    {
        let List { items } = self;
        items
    }

    /// Removes and returns the last item, or returns `None` if the list is empty.
    pub fn pop(&mut self) -> Option<T>
        ensures last { self.old ≡ self.new ++ option_to_list result }
        ensures none { IsNone result ↔ (self.old ≡ []) }
    {
        self.items.pop()
    }
}

impl<T: Drop> List<T> {
    /// A list of one item, with an allocation for just that one.
    pub fn single(alloc: Global, item: T) -> Result<List<T>, NoMemory>
        ensures { IfOk result (λ list. list ≡ item ∷ []) }
    {
        let mut list = List::with_capacity(alloc, 1)?;
        list.push(item)?;
        Ok(list)
    }

    /// Adds an item at the end. If memory runs out, the list stays as it was.
    pub fn push(&mut self, item: T) -> Result<(), NoMemory>
        ensures ok { OnOk result (self.new ≡ self.old ++ item ∷ []) }
        ensures err { OnErr result (self.new ≡ self.old) }
    {
        self.items.push(item)?;
        Ok(())
    }
}
