//! The top call of the program: it does what the arguments ask for over a host, and returns the outcome.
//!
//! `show FILE` prints the text of a module, and `check FILE ...` a line for each module. `link` writes a file
//! of the module into which modules are linked, with groups and members. `locate` writes a file of the
//! absolute module of their location by a plan, `dump` prints the image, `bin` writes a file of its raw bytes
//! and `txt` one of its TI-TXT text, `map` prints the sections and symbols with their addresses, and `addr`
//! prints the function and the source line at an address. `fromtxt` writes a file of the module of a TI-TXT
//! text, and `build` one of the module of a listing. `make` generates modules, locates them and prints a
//! summary. `help` and `version` print texts of the program. `explain` before any of these prints their
//! outcome, and what its error line names.
//!
//! A task is done in two steps: `prepare` of `mufom_prepare` reads its inputs and completes its output, and
//! `put_out` prints or writes that. `explain` takes the first step alone, and prints how the task ends.
//!
//! The main clause is the contract of [`run`]: each outcome has its cause in the arguments, the files or the
//! counts of I/O errors, and it states exactly what is output, printed as errors, and opened.
#![tactic(auto)]

mod command;
mod error_output;
mod explain;
mod output;
mod writing;

pub use command::run;
pub use mufom_outcome::{Input, Outcome, Refusal};
