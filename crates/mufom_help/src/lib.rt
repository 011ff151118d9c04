//! The texts of `help`, and the version.
//!
//! A text is a constant of the program: at most 40 lines of at most 80 bytes, each with its line
//! end. The crate uses only `std` and does not allocate. Its main clause is that of [`topic_text`]: it
//! returns the text of the one command, error or kind of error line that has exactly the given name, and
//! `None` for any other word.
#![tactic(auto)]

pub mod commands;
pub mod inputs;
mod laws;
pub mod lines;
pub mod linking;
pub mod listings;
pub mod locating;
pub mod records;
pub mod structure;
pub mod texts;
mod topics;
mod version;

pub use laws::{topics_are_pages, topics_have_own_names};
pub use topics::{command_list, topic_text};
pub use version::{VERSION, version_line};
