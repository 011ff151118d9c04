//! Links the modules of a tree of files: its groups, from the inside out, and the members that its roots need.
//!
//! [`link_modules`] links each group when its bracket closes, then the roots, selects members for them, and
//! links the roots with the members. Its main clause is that the module that it returns is the link of the
//! flat list, wherever the groups are, and that an error is the first link error.
#![tactic(auto)]

mod laws;
mod linking;
mod refused;

pub use laws::{
    groups_make_no_difference, link_facts_stand, linked_is_flat, links_are_single,
    links_stand_for_flat_lists,
};
pub use linking::{LinkedModules, file_count, link_modules, link_with_members};
pub use refused::{flat_places, refused_places};
