//! The self-test `make`: generated modules, linked in pairs and into one, and located. It shows that linking
//! and locating work on a machine, and how long they take there.
//!
//! [`locate_generated`] builds the requested number of modules, each of which refers to the next, links them
//! in pairs, links the results into one module, and locates that. [`summary_text`] is the text that is
//! printed about the location. The crate depends on `mufom_link` and `mufom_image` for the work and on
//! `mufom_meaning` for the definition of a location. The main clause is that of [`locate_generated`]: it
//! returns the location of the whole list of generated modules.
#![tactic(auto)]

mod generated;
mod laws;
mod linking;
mod making;
mod summary;

pub use laws::generated_modules_are_located;
pub use making::locate_generated;
pub use summary::summary_text;
