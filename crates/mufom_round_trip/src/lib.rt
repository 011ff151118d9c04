//! The law that joins the reader and the writer, [`read_back`]: a reader returns the module that was written.
//! `mufom_headline` states the same of a later run. Tests read hand-made modules, write them and read them again.
#![tactic(auto)]

mod law;
#[cfg(test)]
mod rewritten;

pub use law::read_back;
