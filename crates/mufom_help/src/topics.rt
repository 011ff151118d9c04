//! The topics by their names, and the list of commands.

ghost use Rattle.std.specs.Prelude.{◌≡◌, option_map};
ghost use Rattle.mufom_help.specs.Topics.{content_errors, error_lines, errors, input_errors, link_errors, module_errors};
ghost use Rattle.mufom_help.specs.Topics.{read_errors, topic_in, topics};
ghost use Rattle.mufom_help.specs.declared.commands.TheConstants.{LIST};

use crate::commands::{LIST, command_topic};
use crate::inputs::input_topic;
use crate::lines::line_topic;
use crate::linking::linking_topic;
use crate::listings::listing_topic;
use crate::locating::locating_topic;
use crate::records::record_topic;
use crate::structure::structure_topic;
use crate::texts::text_topic;

/// What `help` prints without an argument: a line for each command with its form, and how to get more help.
pub fn command_list() -> &'static str
    ensures { result.now ≡ LIST.now }
{
    LIST
}

/// What `help` prints for a word: the text of the command or of the error that has exactly this
/// name, or of the error lines that begin with it; `None` if there is none.
#[tactic(auto, using(crate::proofs::Appended::topic_append), unfolding(crate::specs::Topics::topics))]
pub fn topic_text(word: &str) -> Option<&'static str>
    ensures { option_map (λ text. text.now) result ≡ topic_in topics word.now }
{
    command_topic(word).or_else(|| error_line(word))
}

#[tactic(auto, using(crate::proofs::Appended::topic_append), unfolding(crate::specs::Topics::error_lines))]
fn error_line(word: &str) -> Option<&'static str>
    ensures { option_map (λ text. text.now) result ≡ topic_in error_lines word.now }
{
    line_topic(word).or_else(|| error_topic(word))
}

#[tactic(auto, using(crate::proofs::Appended::topic_append), unfolding(crate::specs::Topics::errors))]
fn error_topic(word: &str) -> Option<&'static str>
    ensures { option_map (λ text. text.now) result ≡ topic_in errors word.now }
{
    read_error(word).or_else(|| link_error(word))
}

#[tactic(auto, using(crate::proofs::Appended::topic_append), unfolding(crate::specs::Topics::read_errors))]
fn read_error(word: &str) -> Option<&'static str>
    ensures { option_map (λ text. text.now) result ≡ topic_in read_errors word.now }
{
    module_error(word).or_else(|| input_error(word))
}

fn module_error(word: &str) -> Option<&'static str>
    ensures { option_map (λ text. text.now) result ≡ topic_in module_errors word.now }
{
    record_topic(word).or_else(|| structure_topic(word))
}

fn input_error(word: &str) -> Option<&'static str>
    ensures { option_map (λ text. text.now) result ≡ topic_in input_errors word.now }
{
    input_topic(word).or_else(|| content_error(word))
}

fn content_error(word: &str) -> Option<&'static str>
    ensures { option_map (λ text. text.now) result ≡ topic_in content_errors word.now }
{
    text_topic(word).or_else(|| listing_topic(word))
}

fn link_error(word: &str) -> Option<&'static str>
    ensures { option_map (λ text. text.now) result ≡ topic_in link_errors word.now }
{
    linking_topic(word).or_else(|| locating_topic(word))
}
