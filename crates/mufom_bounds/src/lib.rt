//! The bounds of what is read, linked and located: what a module's parts, and a plan, can have at most.
//!
//! The program can hold a module that has no defect and is within these bounds. The crate has definitions, over
//! those of `mufom_meaning` and `mufom_plan`, and laws. Each law is the contract of a function that does nothing.
#![tactic(auto)]

mod laws;

pub use laws::{
    absolutes_are_bounded, absolutes_are_light, files_are_bounded, links_are_bounded,
    planned_absolutes_are_bounded, planned_absolutes_are_light, plans_are_bounded,
    plans_name_bytes,
};
