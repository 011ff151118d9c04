//! Whole runs in which a call of the host fails, each in its turn, over hosts that take and give whole chunks or single
//! bytes, and reveal nothing. They state nothing that a contract states.
#![tactic(auto)]

#[cfg(test)]
mod failing;
#[cfg(test)]
mod faults;
#[cfg(test)]
mod veiled;
