//! Whole runs that do not end well: arguments that give no command, and what `explain` prints of each error. They state
//! nothing that a contract states.
#![tactic(auto)]

#[cfg(test)]
mod explain;
#[cfg(test)]
mod long;
#[cfg(test)]
mod pieces;
#[cfg(test)]
mod usage;
