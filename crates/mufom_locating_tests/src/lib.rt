//! Tests of `mufom_locating`: listings are built, located by the plan of a text, and the absolute module is
//! listed again.
#![tactic(auto)]

#[cfg(test)]
mod copies;
#[cfg(test)]
mod located;
#[cfg(test)]
mod symbols;
