//! Partial links: one module in the place of a list of modules.
//!
//! [`link_owned`] joins the sections, public symbols, loads and debug items of all modules in their order,
//! replaces each reference to a name that a module of the list defines by that public symbol, and
//! keeps the other references, equal ones once. No expression is evaluated. Names are found by hashing, so the
//! time grows with the sizes of the modules and not with their square.
//!
//! The crate depends on the crates of a module's values and on `mufom_meaning`, whose definitions the
//! contract of `link` cites.
#![tactic(auto)]

mod conditions;
mod debug_renaming;
mod facts;
mod joined;
mod linking;
mod references;
mod renaming;
mod renumbering;
mod resolved;

pub use conditions::may_be_linked;
pub use linking::{link, link_owned};
pub use mufom_refusals::LinkRefusal;
