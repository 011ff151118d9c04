//! The values of the public names of one module, once its sections have bases.
//!
//! [`resolve_references`] returns what each reference resolves to. [`first_undefined`], [`first_common`] and
//! [`first_on_cycle`] find the first name that keeps a module from being located.
//! [`PlacedModule::public_values`] returns the value of each public, and evaluates each once. The expected
//! time is linear in the number of names and of the tokens of their expressions; names are found by hashing.
//! The contracts cite definitions of `mufom_meaning`.
#![tactic(auto)]

mod components;
mod cycles;
mod graph;
mod names;
mod resolutions;
mod surroundings;
mod values;

pub use components::{Components, components_of};
pub use cycles::first_on_cycle;
pub use graph::Graph;
pub use resolutions::{Resolution, first_common, first_undefined, resolve_references};
pub use surroundings::{Evaluation, Surroundings};
pub use values::PlacedModule;
