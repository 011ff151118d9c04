//! The origins of the entries of a flat list of modules: the module of each section, public and reference,
//! and the file from which that module was read.
//!
//! A link keeps the order of sections, publics and references but forgets the modules; this crate keeps the
//! number of each that every module had. Its main clause is that [`Origins::section`] returns the module of a
//! section of the flat list and the section's position in it, which [`sections_come_from_modules`] relates to
//! the flat list itself.
#![tactic(auto)]

mod files;
mod laws;
mod origins;
mod words;

pub use files::ModuleFiles;
pub use laws::{
    entries_left_keep_their_modules, publics_come_from_modules, references_come_from_modules,
    sections_come_from_modules, selected_origins_are_those_of_the_flat_list,
    the_start_comes_from_a_module,
};
pub use origins::{Origin, Origins, Place};
pub use words::{file_name, module_text};
