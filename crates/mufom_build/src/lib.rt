//! Builds a module from its listing, and defines which texts are the listing of a module.
//!
//! A line of a listing is defined as a list of pieces (words, spaces, numbers, names and bytes), and a text
//! by the bytes that spell them, so a listing may be written with more spaces, leading zeros and digits of
//! either case. The main clauses are those of [`build`]: it returns the module if the text is its listing
//! (`built`), and otherwise the first line that is wrong (`refused`), or the defect of the parts that the
//! text lists (`defect`). By [`texts_list_one_module`], [`texts_have_one_refusal`] and
//! [`listings_are_not_refused`] no other result would be right.
#![tactic(auto)]

mod ahead;
mod draft;
mod keyword;
mod laws;
mod module;
mod order;
mod outline;
mod read_debug;
mod read_loads;
mod read_names;
mod read_row;
mod read_sections;
mod refusal;
mod row;

pub use laws::{
    built_texts_have_the_shape, defects_build_nothing, listings_are_not_refused, listings_build,
    texts_have_one_refusal, texts_list_one_module,
};
pub use module::build;
pub use mufom_refusals::{BuildReason, BuildRefusal};
