//! Whole runs of the program over files in memory, for tests: a [`Session`] runs the lines of a transcript, and compares
//! what they print and how they end.
//!
//! ```text
//! $ link -o c a b
//! $ dump --plan p c
//! 00000100: 00 00 01 05
//! $ dump none
//! [3] read fault: file 0
//! ```
//!
//! A line that begins with a dollar sign has the arguments of a run. What follows it up to the next one is what the run
//! prints: after a status in brackets to the error output, and else, with status 0, to the output. Nothing is printed to
//! the other, and no file is made by a run that prints. A file that a run makes may be used by those after it. A line
//! that begins with `# ` is a remark, and so is what follows it up to the next run.
//!
//! A last line `(help WORD)` has the place of the text of `help WORD`, and `(help)` that of the list of commands.
#![tactic(auto)]

mod archive;
mod held;
mod mismatch;
mod session;
mod transcript;

pub use held::{File, Held};
pub use mismatch::Mismatch;
pub use session::{Session, memory_host, replay, run_line};
