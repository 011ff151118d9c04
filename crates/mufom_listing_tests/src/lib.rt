//! Tests of listings: those from which modules are built (`mufom_build`), and those that are printed of modules
//! (`mufom_listing`). They are in a crate of their own, so that the tested crates are proved once.
#![tactic(auto)]

#[cfg(test)]
mod build;
#[cfg(test)]
mod small;
