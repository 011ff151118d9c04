//! Tests of the crates for the parts of a module (numbers, expressions, index tables, names, loads and
//! debug items), of address queries over debug items, of the host in memory and of the real host.
//!
//! The tests are in a crate of their own, so that the gate proves the crates under test only once.
#![tactic(auto)]

#[cfg(test)]
mod addr;
#[cfg(test)]
mod debug;
#[cfg(test)]
mod expr;
#[cfg(test)]
mod loads;
#[cfg(test)]
mod memory_host;
#[cfg(test)]
mod names;
#[cfg(test)]
mod numbers;
#[cfg(test)]
mod real_host;
#[cfg(test)]
mod sections;
