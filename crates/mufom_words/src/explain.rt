//! The command `explain`, which explains how a run with other arguments ends.

ghost use Rattle.std.specs.Prelude.{◌≡◌, map};
ghost use Rattle.std.specs.String.{string_bytes};
ghost use Rattle.mufom_words.specs.Explain.{explain_answer as answered, explain_command as command_of, may_be_explained as may, names_explain as named};

use crate::command::{Command, Verb};
use crate::stop::{UsageFault, WordsStop};
use mufom_numbers::List;
use std::alloc::Global;

/// Whether a first argument names the command.
pub(crate) fn names_explain(word: &str) -> bool
    ensures { result ≡ named word.now }
{
    word == "explain"
}

// Whether there are arguments to explain, the first of which is not `explain`.
fn may_be_explained(words: &[String]) -> bool
    ensures { result ≡ may (map (λ word. string_bytes word) words.now) }
{
    match words {
        [first, ..] => !names_explain(first.as_str()),
        [] => false,
    }
}

// The command, which has no files and no options.
fn explain_command(alloc: Global) -> Command
    ensures { result ≡ command_of }
{
    Command {
        verb: Verb::Explain,
        no_debug: false,
        gnu: false,
        name: None,
        out: None,
        plan: None,
        marks: List::new(alloc),
        files: List::new(alloc),
        count: 0,
        listing: false,
        fill: 0,
        at: None,
        maus: 4,
        keep: List::new(alloc),
        region: None,
        help: None,
    }
}

/// The command, if these arguments follow its name, or `BadWords` if they can't be explained. Does not read
/// the arguments, and does not allocate.
pub(crate) fn explain_answer(alloc: Global, words: &[String]) -> Result<Command, WordsStop>
    ensures { result ≡ answered (map (λ word. string_bytes word) words.now) }
{
    if may_be_explained(words) {
        Ok(explain_command(alloc))
    } else {
        Err(WordsStop::Usage(UsageFault::BadWords))
    }
}
