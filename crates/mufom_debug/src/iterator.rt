//! Iterating over the address expressions of debug items.

ghost use Rattle.std.specs.Prelude.{◌≡◌, map};
ghost use Rattle.std.specs.Iterator.{YieldsFirstRef, item_count};

use mufom_expr::Postfix;
use std::marker::Model;
use std::vec::IntoIter;

/// An iterator over the expressions of debug items. Contracts see the list of those that are still to come.
#[derive(Drop)]
pub struct Addresses<'a> {
    rest: IntoIter<&'a Postfix>,
}

impl<'a> Model for Addresses<'a> {
    ghost use Rattle.std.specs.Prelude.{List, map};
    ghost use Rattle.std.specs.Vec.Iter.{into_iter_items};
    ghost use Rattle.std.specs.Coded.{coded_list};
    ghost use Rattle.mufom_expr.specs.Tree.{Tree};
    ghost use Rattle.mufom_expr.specs.TreeCode.{tree_code};

    ghost Value = { List Tree };

    ghost coded = { coded_list tree_code };

    ghost view = { λ a. map (λ e. e.now) (into_iter_items a.rest) };
}

impl<'a> Addresses<'a> {
    // Iterates over the expressions of the list, in its order.
    pub(crate) fn of(list: Vec<&'a Postfix>) -> Addresses<'a>
        ensures { result ≡ map (λ e. e.now) list.entry.items }
    {
        Addresses {
            rest: list.into_iter(),
        }
    }
}

impl<'a> Iterator for Addresses<'a> {
    type Item = &'a Postfix;

    ghost next_gives = { YieldsFirstRef (λ a. a) };

    ghost remaining = { item_count (λ a. a) };

    fn next(&mut self) -> Option<&'a Postfix> {
        self.rest.next()
    }
}
