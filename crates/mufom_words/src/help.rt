//! The commands that print a text of the program itself: `help` and `version`.

ghost use Rattle.std.specs.Prelude.{◌≡◌, map, option_map};
ghost use Rattle.std.specs.String.{string_bytes};
ghost use Rattle.mufom_words.specs.Help.{help_text as help, own_answer as answered, own_command as command_of, own_text as text_of};
ghost use Rattle.mufom_words.specs.Help.{own_verb as named, version_text as version};

use crate::command::{Command, HelpText, Verb};
use crate::stop::{UsageFault, WordsStop};
use mufom_help::{command_list, topic_text, version_line};
use mufom_numbers::List;
use std::alloc::Global;

/// The command that a first argument names, if it is one of these.
pub(crate) fn own_verb(word: &str) -> Option<Verb>
    ensures { result ≡ named word.now }
{
    match word {
        "help" | "--help" | "-h" => Some(Verb::Help),
        "version" | "--version" | "-V" => Some(Verb::Version),
        _ => None,
    }
}

// What `help` prints with these arguments, or `None` if they are not valid.
fn help_text(words: &[String]) -> Option<&'static str>
    ensures { option_map (λ text. text.now) result ≡ help (map (λ word. string_bytes word) words.now) }
{
    match words {
        [] => Some(command_list()),
        [word] => topic_text(word.as_str()),
        _ => None,
    }
}

// What `version` prints with these arguments, or `None` if there are any.
fn version_text(words: &[String]) -> Option<&'static str>
    ensures { option_map (λ text. text.now) result ≡ version (map (λ word. string_bytes word) words.now) }
{
    match words {
        [] => Some(version_line()),
        _ => None,
    }
}

// What the command prints with these arguments, or `None` if they are not valid.
fn own_text(verb: Verb, words: &[String]) -> Option<&'static str>
    ensures { option_map (λ text. text.now) result ≡ text_of verb (map (λ word. string_bytes word) words.now) }
{
    match verb {
        Verb::Version => version_text(words),
        _ => help_text(words),
    }
}

// The command that prints a text.
fn own_command(alloc: Global, verb: Verb, text: &'static str) -> Command
    ensures { result ≡ command_of verb text.now }
{
    Command {
        verb,
        no_debug: false,
        gnu: false,
        name: None,
        out: None,
        plan: None,
        marks: List::new(alloc),
        files: List::new(alloc),
        count: 0,
        listing: false,
        fill: 0,
        at: None,
        maus: 4,
        keep: List::new(alloc),
        region: None,
        help: Some(HelpText::new(text)),
    }
}

/// The command that `verb` and the arguments after it give, or `BadWords` if there is no text for them. Does
/// not allocate.
pub(crate) fn own_answer(alloc: Global, verb: Verb, words: &[String]) -> Result<Command, WordsStop>
    ensures { result ≡ answered verb (map (λ word. string_bytes word) words.now) }
{
    match own_text(verb, words) {
        Some(text) => Ok(own_command(alloc, verb, text)),
        None => Err(WordsStop::Usage(UsageFault::BadWords)),
    }
}
