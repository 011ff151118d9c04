//! Whole runs over single files: what is shown, checked, dumped, built and written of a module, and the first error of
//! other files. They state nothing that a contract states.
#![tactic(auto)]

#[cfg(test)]
mod check;
#[cfg(test)]
mod debug;
#[cfg(test)]
mod images;
#[cfg(test)]
mod listings;
#[cfg(test)]
mod raw;
#[cfg(test)]
mod show;
#[cfg(test)]
mod texts;
#[cfg(test)]
mod transcripts;
