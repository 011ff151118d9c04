//! The listing of a module: a text that people can read, keep under version control and change, and from
//! which the module can be built again.
//!
//! It depends on `mufom_text`, which defines and prints the lines of a module, and on `mufom_module` and
//! `mufom_host`. Its main clause is that of [`listing`]: the bytes are exactly the listing of the module.
#![tactic(auto)]

mod whole;

pub use whole::{listing, print_listing};
