//! The sections of a module, and the table of the indexes that a file gives to its entries.
//!
//! A file names its entries by indexes of its own choice; in memory each entry is named by its position.
//! An [`IndexTable`] keeps the indexes in the order of their declarations, each once, and finds the
//! position of an index in time logarithmic in their count. The crate depends on `mufom_numbers` and
//! `thiserror`. Its main clause is that [`IndexTable::position`] returns the position of an index in the
//! list of those that [`IndexTable::add`] accepted, and `None` for any other index.
#![tactic(auto)]

mod index_table;
mod row;
mod scattered;
mod section;

pub use index_table::{AddFault, IndexTable};
pub use section::{Purpose, Section};
