//! The text that `explain` prints, and printing it: the error line of a run, the lines about what it names, and
//! the help text on it.
//!
//! [`print_explanation`] prints the text of an outcome with its [`Details`], and [`print_done`] that of a run
//! that would be done. The details of the arguments, the inputs and the output of a run are found here
//! ([`usage_details`], [`unread_details`], [`task_details`], [`out_of`]); those of modules by `mufom_explain`.
#![tactic(auto)]

mod details;
mod explanation;
mod input_lines;
mod plan_lines;

pub use details::{file_of, out_of, task_details, unread_details, usage_details};
pub use explanation::{Details, print_done, print_explanation};
