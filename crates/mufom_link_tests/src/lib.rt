//! Tests of partial links (`mufom_link`), of copies (`mufom_copies`) and of the selection of members
//! (`mufom_select`), in a crate of their own, so that the crates that they test are proved once. The
//! modules are read from the records of their files, and a link is compared whole, as the bytes of its file.
#![tactic(auto)]

#[cfg(test)]
mod copies;
#[cfg(test)]
mod every_kind;
#[cfg(test)]
mod files;
#[cfg(test)]
mod pairs;
#[cfg(test)]
mod select;
#[cfg(test)]
mod uneven;
