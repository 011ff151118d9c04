//! Writes object modules: the written form of a module goes to a file, record by record.
//!
//! It depends on the crates of a module's entries, `mufom_module`, `mufom_meaning` for raw images,
//! `mufom_host`, `thiserror` and, in its proofs, `arrayvec`. It does not allocate. All records are written by
//! functions over one trait, whose two implementations pass bytes to a sink record by record, and count
//! bytes. The main clause is that of [`write_module`]: the file being made grows by exactly the written form,
//! which is a file of the module unless it is longer than a file may be. If a write fails, the count of
//! failed writes rises, and the file grows by a prefix of the form. [`layout`] returns the offsets of the
//! parts in the form, and its length.
#![tactic(auto)]

mod debug;
mod fields;
mod held;
mod laws;
mod loads;
mod measure;
mod names;
mod output;
mod parts;
mod places;
mod range;
mod raw;
mod sections;
mod write;

pub use laws::raw_images_are_ranges;
pub use measure::layout;
pub use places::FileLayout;
pub use range::write_range;
pub use raw::{raw_length, write_raw};
pub use write::{WriteStop, write_module};
