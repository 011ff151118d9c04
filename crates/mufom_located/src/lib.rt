//! The location of a module, and the absolute module that it is written as.
//!
//! A [`Located`] is the location of a module by a plan: all sections have a base, each expression is
//! replaced by its value, and the loaded bytes are runs, which are bytes at consecutive addresses.
//! [`absolute`] makes the module as which a location is written, and [`Located::written_weight`] computes
//! its weight without making it. The crate depends on `mufom_module` and `mufom_meaning`. Its main clauses
//! are those of [`absolute`]: the module is the one that the definitions give, and locating it alone
//! results in the same location.
#![tactic(auto)]

mod absolute_module;
mod loads;
mod located;
mod runs;
mod weight;

pub use absolute_module::absolute;
pub use located::Located;
