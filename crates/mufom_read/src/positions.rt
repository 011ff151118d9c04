//! Replaces the indexes of the file by positions of entries, counted from 0.

ghost use Rattle.std.specs.Prelude.{◌≡◌, option_map};
ghost use Rattle.mufom_expr.specs.Spelled.{list_of};
ghost use Rattle.mufom_module.specs.SpelledRecords as records;
ghost use Rattle.mufom_read.specs.Kept.{indexes_by};

use crate::tables::{Tables, entries};
use mufom_expr::{Letter, Postfix, VarMap};
use mufom_sections::IndexTable;

/// The position of an index in the table, or 0 if the table does not have it.
pub(crate) fn position_in(table: &IndexTable, index: u32) -> u32
    ensures { result ≡ records.position_in table.now index }
{
    table.position(index).unwrap_or(0)
}

/// Replaces each index in an expression by the position of its entry.
#[derive(Clone, Copy)]
pub(crate) struct Positions<'a> {
    pub tables: &'a Tables,
}

impl VarMap for Positions<'_> {
    ghost meaning = { λ map letter index. records.positioned_variable (indexes_by map.tables.now) letter index };

    fn map(&self, letter: Letter, index: u32) -> (Letter, u32) {
        (letter, position_in(entries(self.tables, letter), index))
    }
}

/// The same expression, if there is one, with positions in place of the indexes of the file. Does not allocate.
pub(crate) fn renamed(tables: &Tables, tree: Option<Postfix>) -> Option<Postfix>
    ensures { result ≡ option_map (records.positioned (indexes_by tables.now)) tree }
{
    match tree {
        None => None,
        Some(tree) => Some(tree.renamed(&Positions { tables })),
    }
}
