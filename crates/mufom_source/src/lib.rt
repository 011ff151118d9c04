//! Reads a module from a source, such as an open file, up to a limit of bytes.
//!
//! It depends on `mufom_read` for the reader of a stream that comes in chunks, and on `mufom_host` for the
//! source. The main clause of [`read_module`] states that each of its results, except a failed read and out of
//! memory, follows from the bytes that the source has left.
#![tactic(auto)]

mod source;

pub use source::{SourceStop, read_module};
