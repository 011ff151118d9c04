//! Placing: the base of each section of a flat list, by a memory plan.
//!
//! The main clause is that of [`place`]: it returns exactly the bases that the plan gives, if every
//! section has a place, lies within the address space and its region, and shares no address with
//! another; otherwise the error names the first of these conditions that fails.
#![tactic(auto)]

mod bases;
mod copied;
mod copies;
mod entries;
mod fit;
mod laws;
mod overlap;
mod placement;
mod placing;
mod refusal;
mod regions;

pub use bases::planned;
pub use copied::region_copies;
pub use copies::{add_copies, filled_to, place_copies};
pub use entries::{index_of_entries, waiting_sections};
pub use laws::{copies_move_nothing, fits_without_copies, place_refusals_are_facts};
pub use placement::place;
pub use placing::{Placing, RegionCopy, Waiting};
pub use refusal::PlaceRefusal;
pub use regions::{all_placings, section_regions};
