//! Locates a module: gives each section its base and each expression its value, and makes the image of
//! the loaded bytes.
//!
//! [`locate`] returns the location of one module by a plan, or the first error, in a fixed order. It depends
//! on `mufom_place` for the bases, on `mufom_image_values` for the values of names, on `mufom_image_bytes`
//! for the image, on `mufom_image_entries` for the entries and on `mufom_located` for the result.
//! `mufom_meaning` defines what a location is and what keeps a module from having one.
#![tactic(auto)]

mod commons;
mod entries;
mod locating;
mod names;
mod placing;
mod walk;

pub use commons::planned_commons;
pub use locating::locate;
pub use mufom_located::{Located, absolute};
pub use mufom_meaning::{LocatedParts, PublicValue, Run, Site};
pub use mufom_refusals::LocateRefusal;
