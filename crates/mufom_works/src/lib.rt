//! What the tasks and the runs of the program result in, as definitions, and the parts of their work that need
//! no host.
//!
//! The table of tasks is `work_of` of specs/Works.antt: the work of each task, from its inputs to its output.
//! `run_of` of specs/Result.antt is the result of a run with any arguments, `explain` included. Arguments and
//! files that hold bytes have one result at most (proofs/Runs.antt, proofs/ExplainSingle.antt).
//!
//! The calls are the parts that work on values alone: the lines of modules ([`module_lines`]) and of an address
//! ([`lines_at`]), the region with a name ([`region_named`]), the module of a text ([`module_of`],
//! [`built_from`]), and the modules that `make` generates ([`generated_text`]).
#![tactic(auto)]

mod lines;
mod making;
mod query;
mod regions;
mod texts;

pub use lines::module_lines;
pub use making::generated_text;
pub use query::lines_at;
pub use regions::region_named;
pub use texts::{built_from, module_of};
