//! Tests of what a user gives: the words of a command line and those that name topics of help, memory plans, and the
//! sections that are placed by them.
//!
//! They are in a crate of their own, so that `mufom_words`, `mufom_help`, `mufom_plan` and `mufom_place` are
//! proved once.
#![tactic(auto)]

#[cfg(test)]
mod faulty;
#[cfg(test)]
mod help;
#[cfg(test)]
mod place;
#[cfg(test)]
mod plan;
#[cfg(test)]
mod words;
