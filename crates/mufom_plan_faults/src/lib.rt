//! Where bytes that are not a plan are wrong: the line of an error of syntax, and a key that a table may not
//! have.
//!
//! It depends on `mufom_plan` for the errors and the documents of plans, on `toml` for these documents, and on
//! `mufom_numbers`. Its main clauses are those of [`syntax_line`] and [`extra_key`]: the line follows the
//! longest run of leading lines that is a document, and the key is the least one that is not allowed.
#![tactic(auto)]

mod document;
mod keys;
mod lines;

pub use keys::extra_key;
pub use lines::syntax_line;
