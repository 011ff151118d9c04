//! The loads of a module: the literal bytes and bracketed fields that it puts into its sections,
//! the steps that choose the section and its program counter, and repeats.
//!
//! It depends on `mufom_numbers` and `mufom_expr`. Its main clause is that [`loaded_bytes`] returns
//! exactly the number of bytes that all loads put into sections. For a repeat it adds a product, which a
//! law proves to be the length of all copies of the items.
#![tactic(auto)]

mod laws;
mod length;
mod load;

pub use laws::products_count_copies;
pub use length::{item_length, loaded_bytes};
pub use load::{Item, Load};
