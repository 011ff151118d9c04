//! The map of a located program: the modules of which it consists, the used part of each region, the entries
//! of its list that place no section, and the sections and symbols at each address.
//!
//! It uses `mufom_plan`, `mufom_place`, `mufom_meaning` and `mufom_located` for the addresses,
//! `mufom_origins` for the modules from which entries come, and `mufom_text` for numbers and names in text
//! and for printing. Its main clause is that of [`print_map`]: the output grows by exactly the text of the
//! map; or a print failed, the host's count of failed writes rose, and the output grew by a prefix of that
//! text. [`print_address`] does the same with the lines of one address.
#![tactic(auto)]

mod address;
mod entries;
mod laws;
mod lines;
mod making;
mod map;
mod order;
mod points;
mod print;
mod regions;
mod room;
mod spot;
mod unused;

pub use address::print_address;
pub use laws::{
    cells_cover_a_region, sections_are_in_order, used_room_counts_addresses,
    used_room_is_the_number_of_covered_addresses,
};
pub use print::print_map;
