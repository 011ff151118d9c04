//! Explains the tasks that link modules: how they end, and what their error line names.
//!
//! [`explain_link`] and [`explain_location`] read the inputs of a task, and do its work up to the output. If
//! modules cannot be linked or located, they look up what the error names: the modules of the list that cannot
//! be linked, or the flat list and what is kept of it.
#![tactic(auto)]

mod explain_modules;
mod flat;

pub use explain_modules::{explain_link, explain_location};
