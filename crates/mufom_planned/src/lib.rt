//! What a list of modules means by a plan with symbols and with regions that are loaded into other regions.
//!
//! The crate has definitions, over those of `mufom_meaning`. The symbols of a plan are one more module behind the
//! list, and the copy of a region is one more section of the list that is placed, after its commons.
#![tactic(auto)]

mod laws;

pub use laws::{
    places_do_not_depend_on_values, plain_plans_mean_the_same,
    planned_absolute_is_located_as_itself, planned_absolute_is_valid, planned_absolute_weighs,
    planned_is_locatable, planned_location_is_single, planned_locations_exist,
    staged_plans_mean_the_same,
};
