//! Modules: everything that a file of the format states, as one value without a defect.
//!
//! [`Parts`] are what a module states, in lists whose entries refer to one another by position.
//! [`assemble`] checks them for thirteen defects in a fixed order. It returns the parts with the first
//! defect that they have, or a [`Module`] of exactly these parts: so a `Module` is valid by its type.
//! The crate depends on `mufom_numbers`, `mufom_expr`, `mufom_records`, `mufom_sections`,
//! `mufom_names`, `mufom_loads`, `mufom_debug`, `arrayvec` and `thiserror`. Its main clause is that
//! [`assemble`] returns a module if and only if the parts have no defect. [`Module::weight`] is the length
//! in bytes that the written form would have with nine bytes for each number (except the eight offsets of
//! the parts) and three for the lead of each string.
//!
//! `SpellsModule`, in `specs/Grammar.antt`, defines which bytes are the file of a module. It is a
//! relation on the whole file, which readers and writers share. The laws are the contracts of this
//! crate's functions with empty bodies.
#![tactic(auto)]

mod current;
mod debug_rules;
mod laws;
mod made;
mod module;
mod rules;
mod validity;
mod weight;

pub use current::current_after;
pub use laws::{
    a_file_is_one_module, a_module_is_valid, expressions_are_as_spelled,
    items_are_within_the_weight, positions_stand_for_indexes,
};
pub use module::{Defect, Module, Order, Parts};
pub use validity::assemble;
pub use weight::{debug_items_weight, notes_weight, sections_weight};
