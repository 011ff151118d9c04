//! Tests of `mufom_read`: valid streams, in chunks of several sizes, and streams with errors. Tests of
//! `mufom_records`: single records, and their errors. They are in a crate of their own, so that the crates
//! under test are proved only once.
#![tactic(auto)]

#[cfg(test)]
mod cuts;
#[cfg(test)]
mod gnu;
#[cfg(test)]
mod real;
#[cfg(test)]
mod records;
#[cfg(test)]
mod streams;
