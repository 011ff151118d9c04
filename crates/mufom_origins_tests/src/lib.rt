//! Tests of where the entries of a link come from (`mufom_origins`), and of what error lines name
//! (`mufom_explain`), in a crate of their own, so that the crates that they test are proved once.
#![tactic(auto)]

#[cfg(test)]
mod explanations;
#[cfg(test)]
mod origins;
