//! What a list of modules means: the value of each expression, the bytes that are loaded and their
//! addresses, and the facts that keep the list from being linked or located.
//!
//! The crate has definitions and laws, and the types that callers share: the parts of a location,
//! descriptors, and the sites of expressions. It depends on the crates of a module's values and on
//! `mufom_plan` and `mufom_place`. Linking, selecting and locating share its definitions; each law
//! is the contract of a function with an empty body. The main one is [`staged_means_the_same`]: a
//! list means the same, in whatever stages it was linked.
#![tactic(auto)]

mod call_laws;
mod fact_laws;
mod located;
mod location_laws;
mod staging_laws;

pub use call_laws::{are_valid_is_all, bases_by_position, modules_may_be_placed};
pub use fact_laws::{
    answers_are_facts, counts_agree, cycles_are_short, link_facts_grow, no_link_answer_is_linkable,
};
pub use located::{Descriptor, LocatedParts, PublicValue, Run, Site};
pub use location_laws::{
    absolute_is_located_as_itself, absolute_is_valid, absolute_weighs, all_valued,
    location_is_single, locations_exist, none_by_division, selection_is_single, values_exist,
};
pub use staging_laws::{
    facts_agree, groups_answer, joined_composes, joined_is_single, joined_is_valid,
    joined_stands_for, link_answers_agree, link_facts_agree, selection_agrees,
    staged_means_the_same,
};
