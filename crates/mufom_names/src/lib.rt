//! The names of a module: public names with their values, references to names of other modules, and
//! the notes on both.
//!
//! It depends on `mufom_numbers`, `mufom_expr`, `indexmap` and `arrayvec`. Names are bytes of no
//! character set, and two names are the same if their bytes are. [`NameTable::find`] returns the first
//! public with a name, and [`NameTable::duplicate`] the first public whose name an earlier one has;
//! neither allocates. A [`NameIndex`] finds names by hashing, and a [`KeyIndex`] finds equal references
//! by the keys that [`reference_key`] builds from them.
#![tactic(auto)]

mod hash_seed;
mod index_key;
mod key;
mod key_index;
mod name;
mod name_index;
mod name_table;

pub use hash_seed::HashSeed;
pub use key::{equal_keys_are_equal_references, reference_key};
pub use key_index::KeyIndex;
pub use name::{Note, Public, Reference, Weak};
pub use name_index::NameIndex;
pub use name_table::NameTable;
