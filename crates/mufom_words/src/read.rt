//! Reads the command that the arguments give.

ghost use Rattle.std.specs.Prelude.{◌≡◌, ◌≢◌, ◌<◌, ◌^◌, Some, Ok, Err, IfOk, IfErr, length, map, option_map};
ghost use Rattle.std.specs.String.{string_bytes};
ghost use Rattle.clap.specs.Matches.{found_of};
ghost use Rattle.clap.specs.Values.{kind_of};
ghost use Rattle.clap.specs.Walk.{rows_of};
ghost use Rattle.mufom_words.specs.Answer.{answer_for, answer_of, command_by, given_fault as wrong_given, given_stop, limit_stop as limited};
ghost use Rattle.mufom_words.specs.Answer.{missing_fault as missing, PrintsHelp, name_fault as name_wrong, number_by, number_in, stop_by, unless_stopped};
ghost use Rattle.mufom_words.specs.Answer.{usage_fault as first_fault};
ghost use Rattle.mufom_words.specs.Options.{given_by, operands_of, usage_of};
ghost use Rattle.mufom_words.specs.Sound.{IsSound};
ghost use Rattle.mufom_words.specs.Values.{address_of as address, byte_of as byte, maus_of as maus};

use crate::command::Command;
use crate::explain::{explain_answer, names_explain};
use crate::form::{Form, Operands};
use crate::found::{is_given, matches_in, operands_in, value_in, values_in};
use crate::help::{own_answer, own_verb};
use crate::operands::{
    count_fault, depth_of, file_count, files_of, marks_of, number_fault, number_of, operands_fault,
};
use crate::options::Setting;
use crate::stop::{UsageFault, WordsStop};
use crate::values::{address_of, byte_of, maus_of, value_fault};
use clap::error::ErrorKind;
use clap::{ArgMatches, Error};
use mufom_numbers::limits::MOST_STRING_BYTES;
use mufom_numbers::{Bytes, List, NoMemory, Text};
use std::alloc::Global;

/// The greatest number of files of a run.
const MOST_FILES: u32 = 1024;

/// The greatest number of groups that are open at once.
const MOST_OPEN: u32 = 64;

fn name_fault(name: Option<&str>) -> Option<UsageFault>
    ensures { result ≡ name_wrong (option_map (λ text. text.now) name.entry) }
{
    match name {
        Some(name) if name.len() > MOST_STRING_BYTES => Some(UsageFault::LongName),
        _ => None,
    }
}

// The error for a required option that is missing.
fn missing_fault(form: Form, setting: Setting, value: Option<&str>) -> Option<UsageFault>
    ensures { result ≡ missing (usage_of form) setting (option_map (λ text. text.now) value.entry) }
{
    if form.demands(setting) && value.is_none() {
        return Some(UsageFault::BadWords);
    }
    None
}

// The first error in arguments that `clap` accepts.
fn usage_fault(
    form: Form,
    out: Option<&str>,
    name: Option<&str>,
    words: &[&str],
) -> Option<UsageFault>
    requires { length words.now < 2 ^ 32 }
    ensures { let given = option_map (λ text. text.now) in
        result ≡ first_fault (usage_of form) (given out.entry) (given name.entry) (map (λ word. word.now) words.now) }
{
    if let Some(fault) = missing_fault(form, Setting::Out, out) {
        return Some(fault);
    }
    let operands = form.operands();
    if let Some(fault) = operands_fault(operands, words) {
        return Some(fault);
    }
    if let Some(fault) = number_fault(operands, words) {
        return Some(fault);
    }
    if let Some(fault) = name_fault(name) {
        return Some(fault);
    }
    count_fault(operands, words)
}

// The error for too many files, or else for too many groups that are open at once.
fn limit_stop(operands: Operands, words: &[&str]) -> Option<WordsStop>
    requires { length words.now < 2 ^ 32 }
    ensures { result ≡ limited operands (map (λ word. word.now) words.now) }
{
    let files = file_count(operands, words);
    if files > MOST_FILES {
        return Some(WordsStop::TooManyFiles(files));
    }
    let depth = depth_of(operands, words);
    if depth > MOST_OPEN {
        return Some(WordsStop::TooDeep(depth));
    }
    None
}

// The error of the arguments for an error of `clap`.
fn refusal(error: &Error) -> WordsStop
    ensures { result ≡ stop_by (kind_of error.now) }
{
    match error.kind() {
        ErrorKind::OutOfMemory => WordsStop::NoMemory,
        _ => WordsStop::Usage(UsageFault::BadWords),
    }
}

fn kept_text(alloc: Global, text: Option<&str>) -> Result<Option<Text>, NoMemory>
    ensures { IfOk result (λ kept. kept ≡ option_map (λ text. text.now) text.entry) }
{
    match text {
        Some(text) => Ok(Some(Text::from_str(alloc, text)?)),
        None => Ok(None),
    }
}

fn kept_bytes(alloc: Global, text: Option<&str>) -> Result<Option<Bytes>, NoMemory>
    ensures { IfOk result (λ kept. kept ≡ option_map (λ text. text.now) text.entry) }
{
    match text {
        Some(text) => Ok(Some(Bytes::from_slice(alloc, text.as_bytes())?)),
        None => Ok(None),
    }
}

// These texts, as bytes.
fn names_of(alloc: Global, texts: &[&str]) -> Result<List<Bytes>, NoMemory>
    ensures { IfOk result (λ names. names ≡ map (λ text. text.now) texts.now) }
{
    let mut names = List::new(alloc);
    for text in texts {
        names.push(Bytes::from_slice(alloc, text.as_bytes())?)?;
    }
    Ok(names)
}

// The names that `--keep` gives.
fn keep_in(alloc: Global, matches: &ArgMatches<'_>, form: Form) -> Result<List<Bytes>, NoMemory>
    ensures { IfOk result (λ names. names ≡ (given_by form (rows_of (found_of matches.now))).keep) }
{
    match values_in(matches, form, Setting::Keep) {
        Some(texts) => names_of(alloc, texts),
        None => Ok(List::new(alloc)),
    }
}

// The byte that `--fill` gives, or 0.
fn fill_in(matches: &ArgMatches<'_>, form: Form) -> u8
    ensures { result ≡ number_by byte 0 (given_by form (rows_of (found_of matches.now))).fill }
{
    match value_in(matches, form, Setting::Fill) {
        Some(text) => byte_of(text).unwrap_or(0),
        None => 0,
    }
}

// The address that `--at` gives, if there is one.
fn address_in(matches: &ArgMatches<'_>, form: Form) -> Option<u64>
    ensures { result ≡ number_in address (given_by form (rows_of (found_of matches.now))).at }
{
    match value_in(matches, form, Setting::At) {
        Some(text) => address_of(text),
        None => None,
    }
}

// The number of bytes in an address that `--maus` gives, or 4.
fn maus_in(matches: &ArgMatches<'_>, form: Form) -> u8
    ensures { result ≡ number_by maus 4 (given_by form (rows_of (found_of matches.now))).maus }
{
    match value_in(matches, form, Setting::Maus) {
        Some(text) => maus_of(text).unwrap_or(4),
        None => 4,
    }
}

// The command of arguments without an error.
fn command_from(
    alloc: Global,
    form: Form,
    matches: &ArgMatches<'_>,
    words: &[&str],
) -> Result<Command, NoMemory>
    requires few { length words.now < 2 ^ 32 }
    requires own { map (λ word. word.now) words.now ≡ operands_of (rows_of (found_of matches.now)) }
    ensures { IfOk result (λ command. command ≡ command_by (usage_of form) (given_by form (rows_of (found_of matches.now)))) }
{
    let operands = form.operands();
    let name = kept_bytes(alloc, value_in(matches, form, Setting::Name))?;
    let keep = keep_in(alloc, matches, form)?;
    let region = kept_bytes(alloc, value_in(matches, form, Setting::Region))?;
    let out = kept_text(alloc, value_in(matches, form, Setting::Out))?;
    let plan = kept_text(alloc, value_in(matches, form, Setting::Plan))?;
    let marks = marks_of(alloc, operands, words)?;
    let files = files_of(alloc, operands, words)?;
    Ok(Command {
        verb: form.verb(),
        no_debug: is_given(matches, form, Setting::NoDebug),
        gnu: is_given(matches, form, Setting::Gnu),
        name,
        out,
        plan,
        marks,
        files,
        count: number_of(operands, words),
        listing: is_given(matches, form, Setting::Listing),
        fill: fill_in(matches, form),
        at: address_in(matches, form),
        maus: maus_in(matches, form),
        keep,
        region,
        help: None,
    })
}

// The first error in arguments that `clap` accepts, except for the limits of a run.
fn given_fault(form: Form, matches: &ArgMatches<'_>, words: &[&str]) -> Option<UsageFault>
    requires few { length words.now < 2 ^ 32 }
    requires own { map (λ word. word.now) words.now ≡ operands_of (rows_of (found_of matches.now)) }
    ensures { result ≡ wrong_given (usage_of form) (given_by form (rows_of (found_of matches.now))) }
{
    let at = value_in(matches, form, Setting::At);
    if let Some(fault) = missing_fault(form, Setting::At, at) {
        return Some(fault);
    }
    let out = value_in(matches, form, Setting::Out);
    let name = value_in(matches, form, Setting::Name);
    if let Some(fault) = usage_fault(form, out, name, words) {
        return Some(fault);
    }
    let count = value_in(matches, form, Setting::Maus);
    let fill = value_in(matches, form, Setting::Fill);
    value_fault(count, fill, at)
}

// The command of arguments that `clap` accepts.
fn command_of_taken(
    alloc: Global,
    form: Form,
    matches: &ArgMatches<'_>,
    words: &[&str],
) -> Result<Command, WordsStop>
    requires few { length words.now < 2 ^ 32 }
    requires own { map (λ word. word.now) words.now ≡ operands_of (rows_of (found_of matches.now)) }
    ensures ok { let given = given_by form (rows_of (found_of matches.now)) in
        IfOk result (λ command. unless_stopped (given_stop (usage_of form) given) (command_by (usage_of form) given) ≡ Ok command) }
    ensures refused { let given = given_by form (rows_of (found_of matches.now)) in
        IfErr result (λ stop. stop ≢ WordsStop.NoMemory → given_stop (usage_of form) given ≡ Some stop) }
{
    if let Some(fault) = given_fault(form, matches, words) {
        return Err(WordsStop::Usage(fault));
    }
    if let Some(stop) = limit_stop(form.operands(), words) {
        return Err(stop);
    }
    match command_from(alloc, form, matches, words) {
        Ok(command) => Ok(command),
        Err(NoMemory) => Err(WordsStop::NoMemory),
    }
}

/// The command that the arguments give, read by a row of the table. The first argument names the command.
pub(crate) fn command_for(alloc: Global, form: Form, words: &[String]) -> Result<Command, WordsStop>
    requires { length words.now < 2 ^ 32 }
    ensures ok { IfOk result (λ command. answer_for (Some form) (map (λ word. string_bytes word) words.now) ≡ Ok command) }
    ensures refused { IfErr result (λ stop. stop ≢ WordsStop.NoMemory
        → answer_for (Some form) (map (λ word. string_bytes word) words.now) ≡ Err stop) }
{
    let matches = match matches_in(alloc, form, words) {
        Ok(matches) => matches,
        Err(error) => return Err(refusal(&error)),
    };
    match operands_in(&matches) {
        Some(operands) => command_of_taken(alloc, form, &matches, operands),
        None => command_of_taken(alloc, form, &matches, &[]),
    }
}

/// The command that the arguments give, or the first error in them.
///
/// `words` are the command line's arguments without the program's name, fewer than 2^32. The first
/// names the command, and `clap` reads the others, except those of `help` and `version`, which are
/// compared byte by byte, and those of `explain`, which are not read: they are the arguments of a
/// run of their own. The first error in this order is returned: no such command; the options;
/// brackets and `+` from left to right; at the end a group that is open, no file, or no member after the
/// `+`; the number of files; the name; the count; the values of `--maus`, `--fill` and `--at`; and
/// finally more than 1,024 files, and more than 64 groups that are open at once.
pub fn read_words(alloc: Global, words: &[String]) -> Result<Command, WordsStop>
    requires { length words.now < 2 ^ 32 }
    ensures ok { IfOk result (λ command. answer_of (map (λ word. string_bytes word) words.now) ≡ Ok command) }
    ensures refused { IfErr result (λ stop. stop ≢ WordsStop.NoMemory → answer_of (map (λ word. string_bytes word) words.now) ≡ Err stop) }
    // The marks are those of a tree over the first files, the options those of the verb, and the limits hold.
    ensures sound { IfOk result IsSound }
    // A command that prints a text of the program does not allocate.
    ensures memory { PrintsHelp (map (λ word. string_bytes word) words.now) → result ≢ Err WordsStop.NoMemory }
{
    let [first, others @ ..] = words else {
        return Err(WordsStop::Usage(UsageFault::NoCommand));
    };
    if let Some(verb) = own_verb(first.as_str()) {
        return own_answer(alloc, verb, others);
    }
    if names_explain(first.as_str()) {
        return explain_answer(alloc, others);
    }
    match Form::from_name(first.as_str()) {
        Some(form) => command_for(alloc, form, words),
        None => Err(WordsStop::Usage(UsageFault::NoCommand)),
    }
}
