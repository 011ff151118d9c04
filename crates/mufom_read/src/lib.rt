//! Reads module files: returns the module whose file a stream of bytes is, or why there is none.
//!
//! A stream is checked record by record, each one against those before it. A [`Reader`] takes the stream in
//! chunks. It builds the parts of the module as records arrive. It keeps the indexes that they declare and
//! what they may state only once, and the bytes of an unfinished record, but not the records themselves.
//! The crate depends on `mufom_judging` for what a stream is, on `mufom_module` and on `mufom_records`. Its
//! main clause is that of [`Reader::feed`]: unless memory runs out, an error is returned if and only if the
//! stream so far has one, however it was cut into chunks.
#![tactic(auto)]

mod build;
mod contents;
mod debug;
mod header;
mod loads;
mod part;
mod positions;
mod prefix;
mod publics;
mod reader;
mod references;
mod refusal;
mod rules;
mod sections;
mod seen;
mod state;
mod tables;
mod whole;

pub use mufom_records::ReadOptions;
pub use reader::Reader;
pub use refusal::{ReadRefusal, ReadStop};
