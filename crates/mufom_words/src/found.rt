//! What `clap` finds in the arguments.

ghost use Rattle.std.specs.Prelude.{◌≡◌, [], IfOk, IfSome, IsNone, map, option_map};
ghost use Rattle.std.specs.String.{string_bytes};
ghost use Rattle.clap.specs.Faults.{fault_of};
ghost use Rattle.clap.specs.Kinds.{FailsBy};
ghost use Rattle.clap.specs.Matches.{found_of};
ghost use Rattle.clap.specs.Simple.{matches_of};
ghost use Rattle.clap.specs.Walk.{rows_of};
ghost use Rattle.mufom_words.specs.Options.{app_for, is_true, operands_of, usage_of, value_in as valued, values_in as all_values};

use crate::form::Form;
use crate::options::{Setting, command_of};
use clap::{ArgMatches, Error};
use std::alloc::Global;

/// What `clap` finds in the arguments of a command, the first of which names it.
pub(crate) fn matches_in<'a>(
    alloc: Global,
    form: Form,
    words: &'a [String],
) -> Result<ArgMatches<'a>, Error>
    ensures found { IfOk result (λ m. rows_of (found_of m) ≡ matches_of (app_for form) (map (λ word. string_bytes word) words.now)) }
    ensures kinds { FailsBy (fault_of (app_for form) (map (λ word. string_bytes word) words.now)) result }
{
    let command = command_of(alloc, form)?;
    command.try_get_matches_from(words)
}

/// The value of an option, if the command has the option and the arguments give it.
pub(crate) fn value_in<'b, 'a: 'b>(
    matches: &'b ArgMatches<'a>,
    form: Form,
    setting: Setting,
) -> Option<&'b str>
    ensures { option_map (λ text. text.now) result ≡ valued (usage_of form).settings (rows_of (found_of matches.now)) setting }
{
    if !form.takes(setting) {
        return None;
    }
    matches.get_str(setting.id())
}

/// The values of an option that may be given several times, in the order of the arguments. `None` if there are
/// none, or if the command does not have the option.
pub(crate) fn values_in<'b, 'a: 'b>(
    matches: &'b ArgMatches<'a>,
    form: Form,
    setting: Setting,
) -> Option<&'b [&'a str]>
    ensures some { IfSome result (λ texts. map (λ text. text.now) texts.now
        ≡ all_values (usage_of form).settings (rows_of (found_of matches.now)) setting) }
    ensures none { IsNone result → all_values (usage_of form).settings (rows_of (found_of matches.now)) setting ≡ [] }
{
    if !form.takes(setting) {
        return None;
    }
    matches.get_strs(setting.id())
}

/// Whether an option that takes no value is among the arguments.
pub(crate) fn is_given(matches: &ArgMatches<'_>, form: Form, setting: Setting) -> bool
    ensures { result ≡ is_true (valued (usage_of form).settings (rows_of (found_of matches.now)) setting) }
{
    match value_in(matches, form, setting) {
        Some(text) => text == "true",
        None => false,
    }
}

/// The operands, or `None` if there are none.
pub(crate) fn operands_in<'b, 'a: 'b>(matches: &'b ArgMatches<'a>) -> Option<&'b [&'a str]>
    ensures some { IfSome result (λ words. map (λ word. word.now) words.now ≡ operands_of (rows_of (found_of matches.now))) }
    ensures none { IsNone result → operands_of (rows_of (found_of matches.now)) ≡ [] }
{
    matches.get_strs("files")
}
