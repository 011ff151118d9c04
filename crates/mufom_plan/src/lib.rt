//! Memory plans: the regions of the address space, the sections that each of them takes, the symbols that
//! the plan defines, and the sections that always stay.
//!
//! A plan is a TOML document. The crate depends on `mufom_numbers`, `mufom_names`, `indexmap`, `thiserror`
//! and `toml`, which defines the document that the bytes spell. Its main clause is that of [`read_plan`]: it
//! returns the plan that the document states, or the first error in a fixed order. In a plan that was read no
//! section name occurs twice.
#![tactic(auto)]

mod document;
mod index;
mod loads;
mod plan;
mod read;
mod refusal;
mod region;
mod symbol;
mod values;

pub use index::NameList;
pub use plan::{Plan, PlanSymbol, Region, SymbolValue};
pub use read::read_plan;
pub use refusal::{PlanField, PlanRefusal, PlanTable};
