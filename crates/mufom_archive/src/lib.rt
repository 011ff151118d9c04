//! The form of `ar` archives: reads the entries of an archive from a stream that arrives in chunks.
//!
//! It depends on `mufom_numbers`, `arrayvec` and `thiserror`. Contents are not copied: an [`Entry`] has the
//! offsets at which its contents start and end. The main clause is that [`Archive::finish`] returns the
//! members of the whole stream and its first error, however the stream was cut into chunks.
#![tactic(auto)]

mod archive;
mod entry;
mod label;
mod laws;
mod listing;

pub use archive::Archive;
pub use entry::{Entry, is_archive};
pub use laws::{
    archives_have_a_listing, archives_have_one_listing, listings_are_inside,
    only_archives_are_read, written_archives_are_read,
};
pub use listing::{BadArchive, Listing};
