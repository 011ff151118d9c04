//! The command that the arguments of a command line give.
//!
//! The first argument names the command, and `clap` reads the others, as one simple command for each
//! name: options, files in groups, and then members. The main clause is that of [`read_words`]: it
//! returns the command that the arguments give, or the first error in them, in a fixed order, unless
//! memory runs out.
#![tactic(auto)]

mod command;
mod count;
mod explain;
mod faulty;
mod form;
mod found;
mod help;
mod laws;
mod operands;
mod options;
mod read;
mod roles;
mod stop;
mod values;

pub use command::{Command, HelpText, Mark, Verb};
pub use faulty::{FaultyArgument, faulty_argument};
pub use laws::{commands_are_sound, trees_are_spelled};
pub use options::Setting;
pub use read::read_words;
pub use stop::{UsageFault, WordsStop};
