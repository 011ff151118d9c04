//! Whole runs over lists of modules: in groups and in stages, with members, plans, commons and maps, and with what
//! `--keep` keeps. They state nothing that a contract states.
#![tactic(auto)]

#[cfg(test)]
mod commons;
#[cfg(test)]
mod kept;
#[cfg(test)]
mod lists;
#[cfg(test)]
mod locate;
#[cfg(test)]
mod maps;
#[cfg(test)]
mod pieces;
