//! What changes if debug parts are skipped: the debug items are missing, and nothing else.
//!
//! The crate has definitions, over those of `mufom_judging`, `mufom_meaning` and `mufom_planned`, and laws. Each
//! law is the contract of a function that does nothing.
#![tactic(auto)]

mod laws;

pub use laws::{
    debug_changes_no_link_fact, debug_parts_may_be_skipped, files_lose_debug_alone,
    links_lose_debug_alone, locations_lose_debug_alone, modules_stay_valid, plans_lose_debug_alone,
    readings_lose_debug_alone,
};
