//! Tests of `mufom_image`: each locates a module by a plan, and compares the result with one that was worked out by
//! hand. They state nothing that a contract states. Two more are tests of `mufom_image_bytes`: a module with a base for
//! its section, and the bytes that its loads put at addresses.
//!
//! The crate has tests alone, so that the libraries are proved without them.
#![tactic(auto)]

#[cfg(test)]
mod blocks;
#[cfg(test)]
mod commons;
#[cfg(test)]
mod images;
#[cfg(test)]
mod located;
#[cfg(test)]
mod names;
#[cfg(test)]
mod walks;
