//! Tests of reading the modules of a file.
//!
//! The tests are in a crate of their own, so that the gate proves the crate under test only once.
#![tactic(auto)]

#[cfg(test)]
mod files;
