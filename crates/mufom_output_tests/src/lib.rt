//! Tests of what is made of a module or an image: the lines that `mufom_text` prints, the bytes that `mufom_write`
//! writes, and the TI-TXT texts of `mufom_titxt`, which are also read. They are in a crate of their own, so that the
//! crates that they test are proved once.
#![tactic(auto)]

#[cfg(test)]
mod every_kind;
#[cfg(test)]
mod show;
#[cfg(test)]
mod titxt;
#[cfg(test)]
mod write;
