//! Laws of whole runs of the program.
//!
//! Each law is the contract of a function that does nothing. The laws are about runs as `mufom_works` defines
//! them and the contract of `run` in `mufom_command` states them. Begin with [`the_headline`].
#![tactic(auto)]

mod laws;
mod read_back;

pub use laws::{
    linked_files_replace_lists, linking_is_done, links_are_put_out, listings_are_built,
    same_works_end_the_same, staged_runs_are_flat, texts_come_back, the_headline,
    written_files_are_read_back,
};
pub use read_back::written_module_is_read_back;
