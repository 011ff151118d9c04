//! Copies of modules and of their parts.
//!
//! Linking or locating modules that are to stay unchanged needs copies of what stays the same.
//! Debug items are copied unchanged, or with other expressions by an [`ExpressionMap`]. The crate
//! depends on `mufom_module` and the crates of a module's values. The clauses state that each copy
//! equals the original, apart from the expressions that are replaced; out of memory is the only error.
#![tactic(auto)]

mod debug;
mod entries;
mod module;

pub use debug::{ExpressionMap, copy_debug_items, map_debug_items};
pub use entries::{
    copy_bytes, copy_load, copy_note, copy_notes, copy_public, copy_reference, copy_section,
};
pub use module::{copy_module, copy_sections};
