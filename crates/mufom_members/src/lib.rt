//! The modules of a file, which may be an archive: reads them from a source.
//!
//! [`read_members`] reads an archive as the modules of its members, and any other file as
//! `mufom_source::read_module` does. Its main clause is that each of its results, except a failed read and out
//! of memory, is the verdict on the bytes of the file, and that they have only one.
#![tactic(auto)]

mod archive;
mod content;
mod gathered;
mod laws;
mod members;
mod slices;
mod source;

pub use laws::{
    errors_before_the_limit_stay, files_have_a_verdict, files_have_member_names,
    files_have_one_verdict,
};
pub use members::{Members, MembersStop, name_at};
pub use source::read_members;
