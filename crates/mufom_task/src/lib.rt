//! What the arguments of a run ask for, and reading the inputs of a task.
//!
//! [`request_of`] turns the command of the arguments into a [`Request`]: a [`Task`], or an explanation of other
//! arguments. A task is a sum in which each variant has what its work needs. [`read_inputs`] reads the plan and
//! the modules of a task, and [`read_text`] the text of a task that reads no modules; both return the outcome
//! of the run if they cannot. [`read_or_unread`] also returns the bytes of a plan that is refused.
#![tactic(auto)]

mod inputs;
mod module_file;
mod plan_file;
mod task;
mod text_file;
mod unread;
mod whole_file;

pub use inputs::{Loaded, read_inputs, read_or_unread};
pub use task::{Inputs, Product, Request, Task, request_of};
pub use text_file::read_text;
pub use unread::Unread;
