//! Tests of the removal of what a program does not use (`mufom_prune`), in a crate of their own, so
//! that the crate that they test is proved once.
#![tactic(auto)]

#[cfg(test)]
mod removal;
