//! The outcome of a run, its error line, and the help topic on it.
//!
//! [`Outcome`] says how a run ended, and [`Refusal`] which error in its inputs ended it. `usage_line`,
//! `refusal_line` and `fault_line` return the line that is printed for an outcome, and `topic_of` the help
//! text on it. A [`Cause`] borrows the error that would be in an outcome. `outcome_of_stop`, `outcome_of_link`,
//! `outcome_of_locate`, `outcome_of_planned` and `outcome_of_prune` turn the errors of layers into outcomes.
#![tactic(auto)]

mod cause;
mod error_lines;
mod laws;
mod locate_text;
mod outcome;
mod stops;
mod topic;

pub use cause::Cause;
pub use error_lines::{
    fault_line, keep_line, link_line, locate_line, refusal_line, shared_line, usage_line,
};
pub use laws::{commands_have_texts, each_error_has_a_topic};
pub use locate_text::{push_at, push_quoted};
pub use outcome::{BinRefusal, Input, Outcome, Refusal};
pub use stops::{
    outcome_of_link, outcome_of_locate, outcome_of_planned, outcome_of_prune, outcome_of_stop,
};
pub use topic::topic_of;
