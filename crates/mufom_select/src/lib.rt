//! Selection of library members: the modules of a library that a program needs.
//!
//! [`select`] returns the smallest choice of members that provides every name which the roots or a chosen
//! member needs and the roots do not define. Its contract cites the definition of the selection in
//! `mufom_meaning`.
#![tactic(auto)]

mod choosing;
mod providers;

pub use choosing::select;
