//! Lists of modules that earlier links made in stages, whatever the names of the links.
//!
//! The crate has definitions, over those of `mufom_meaning`, and laws. Each law is the contract of a function that
//! does nothing.
#![tactic(auto)]

mod laws;

pub use laws::{
    first_names_change_no_link, lists_link_as_their_leaves, modules_may_be_renamed,
    stages_are_links, stages_keep_link_facts, stages_keep_links,
};
