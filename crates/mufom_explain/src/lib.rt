//! Explains error lines of linking and locating: gives the sections, modules and files to which the numbers
//! of a line refer, and the modules that define a name or refer to it.
//!
//! It depends on `mufom_refusals` for the errors, on `mufom_place` for the regions, on
//! `mufom_origins` for the modules from which sections come, on `mufom_field_values` for the expressions of
//! fields, on `mufom_locating` for the copies of regions, and on `mufom_text` for numbers and names in text. Its
//! main clauses are those of [`explain_link`], [`explain_locate`], [`explain_shared`] and [`explain_name`]: the
//! lines are exactly those that `link_details`, `locate_details`, `shared_details` and `name_details` define.
#![tactic(auto)]

mod details;
mod entries;
mod finding;
mod laws;
mod lines;
mod link;
mod locate;
mod mention;
mod mention_lines;
mod mentions;
mod modules;
mod named;
mod naming;
mod regions;
mod shared;
mod undefined;
mod wanted;

pub use details::{LinkDetails, LocateContext, LocateDetails, NameDetails, SharedDetails};
pub use laws::explanations_are_alike;
pub use lines::{file_line, plan_line};
pub use link::explain_link;
pub use locate::explain_locate;
pub use modules::FlatModule;
pub use named::explain_name;
pub use shared::explain_shared;
