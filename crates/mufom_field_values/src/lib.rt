//! The field that a module loads into a section at an address, and the lines about its value: its expression
//! and the names of the variables in it.
//!
//! It depends on `mufom_image_values` and `mufom_image` for the values of names, on `mufom_meaning` for the
//! definition of the steps of a module, and on `mufom_text` for lines. Its main clauses are those of
//! [`find_field`], which returns exactly the field that `field_of` defines, and of [`field_value`].
#![tactic(auto)]

mod lines;
mod search;

pub use lines::{FieldValue, field_value};
pub use search::find_field;
