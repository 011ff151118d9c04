//! Modules for tests: [`Draft`] builds a module entry by entry, [`Records`] makes a file of the records of its
//! parts, and [`files`] has whole files that were made by hand.
//!
//! Nothing but tests uses it. What goes wrong while a draft is built is kept, and is returned when it is finished, so
//! that a test has one call that may fail and not one for each entry.
#![tactic(auto)]

mod blocks;
mod draft;
mod fault;
pub mod files;
mod records;
mod samples;
mod tokens;

pub use blocks::Head;
pub use draft::{Data, Draft, SectionRow};
pub use fault::DraftFault;
pub use records::Records;
pub use samples::{CODE, loaded, small};
pub use tokens::{expression, note};
