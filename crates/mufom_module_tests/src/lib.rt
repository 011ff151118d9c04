//! Tests of modules (`mufom_module`): a weight, and each defect for which parts are refused, in a crate of their own, so
//! that the tested crate is proved once.
#![tactic(auto)]

#[cfg(test)]
mod module;
