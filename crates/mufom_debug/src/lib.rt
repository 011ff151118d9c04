//! The debug items of a module: blocks, names, and the values and notes of names.
//!
//! Blocks contain items, some of which are blocks. Contracts read the items as one flat list of marks, in
//! the order of the file: a block is its start, its items and its end. The crate depends on
//! `mufom_numbers`, `mufom_expr`, `mufom_names` and `arrayvec`. Its main clause is that [`addresses`]
//! returns every expression once, in the order of the marks: for a block its offset, then the expressions
//! of its items, then its end.
#![tactic(auto)]

mod boxed;
mod deepest;
mod gather;
mod item;
mod iterator;
mod laws;

pub use boxed::Boxed;
pub use deepest::{depth, is_within_depth};
pub use gather::addresses;
pub use item::{Block, BlockHead, DebugItem};
pub use iterator::Addresses;
pub use laws::{closed_marks_are_those_of_items, items_are_balanced, marks_determine_items};
