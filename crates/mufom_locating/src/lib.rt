//! Locates one module by a plan with symbols, and with regions that are loaded into other regions.
//!
//! [`locate_by_plan`] returns the location of a module by any plan, or the first error. A plan without symbols and
//! loads goes straight to `mufom_image`. Otherwise the symbols are a second module, which is linked with the
//! module; the link is located without copies, and then the copies of regions are added and the bytes of these
//! regions are moved into them. `mufom_planned` defines what a module means by such a plan.
#![tactic(auto)]

mod copied;
mod copies;
mod ends;
mod entries;
mod exports;
mod layout;
mod loaded;
mod locating;
mod moves;
mod numbers;
mod plain;
mod symbols;

pub use ends::region_ends;
pub use exports::{module_copies, planned_copies, with_plan_symbols};
pub use locating::locate_by_plan;
pub use mufom_refusals::PlannedRefusal;
