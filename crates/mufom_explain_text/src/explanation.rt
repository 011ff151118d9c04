//! Prints the outcome of a run, what its error line names, and the help text on it.

ghost use Rattle.std.specs.Prelude.{◌≡◌, ◌≢◌, map, option_map, IfOk, Some};
ghost use Rattle.std.specs.String.{string_bytes};
ghost use Rattle.mufom_host.specs.World.{OnlyPrints};
ghost use Rattle.mufom_works.specs.ExplainText.{explain_text, first_line as line_of, topic_part};
ghost use Rattle.mufom_works.specs.InputLines.{untried_lines};
ghost use Rattle.mufom_outcome.specs.Outcomes.{cause_outcome};
ghost use Rattle.mufom_works.specs.Making.{IsPrinted};
ghost use Rattle.mufom_task.specs.Calls.{call_of};
ghost use Rattle.mufom_works.specs.HasDetails.{plan_lines};
ghost use Rattle.mufom_explain_text.specs.Told.{told_text};

use crate::input_lines::{missing_line, unread_file, unread_plan, untried_line, word_line};
use crate::plan_lines::{plan_and_key, plan_line_at};
use mufom_explain::{LinkDetails, LocateDetails, NameDetails, SharedDetails, file_line, plan_line};
use mufom_host::{Cause as FaultCause, Host};
use mufom_numbers::{Bytes, NoMemory, Text};
use mufom_outcome::{
    Cause, Outcome, fault_line, keep_line, link_line, locate_line, refusal_line, shared_line,
    topic_of, usage_line,
};
use mufom_text::{Lines, Output, PrintStop, print_lines};
use mufom_words::Setting;
use std::alloc::Global;

/// The lines about what an outcome names.
#[derive(Drop)]
pub enum Details<'a> {
    Nothing,
    /// The file with this number; `names` are the names of all files.
    File {
        names: &'a [Text],
        number: u32,
    },
    /// The plan, by the name of its file.
    Plan(&'a Text),
    /// A plan that is not a TOML document, with the number of the line at which its text stops being one.
    PlanAt {
        name: &'a Text,
        row: usize,
    },
    /// A plan with another error, and the key that the error is about, if it is one that a table may not have.
    PlanKey {
        name: &'a Text,
        key: Option<Bytes>,
    },
    /// The same for a file that could not be read, with the cause that the host told.
    UnreadFile {
        names: &'a [Text],
        number: u32,
        cause: FaultCause,
    },
    /// The same for a plan that could not be read.
    UnreadPlan {
        name: &'a Text,
        cause: FaultCause,
    },
    /// The argument with this number, from 0; `words` are all arguments.
    Argument {
        words: &'a [String],
        number: u32,
    },
    /// A required option that no argument gives.
    Missing(Setting),
    /// The file that a run would write; an explanation does not write it.
    NotTried(&'a Text),
    /// The things that a link error names.
    Link(LinkDetails<'a>),
    /// The modules that refer to a name that should be kept and that no module defines.
    Name(NameDetails<'a>),
    /// The symbol of the plan that has the name of a public, the modules that mention the name, and the plan, by
    /// the name of its file.
    Shared {
        details: SharedDetails<'a>,
        plan: Option<&'a Text>,
    },
    /// The things that an error of locating names.
    Locate(LocateDetails<'a>),
}

/// The whole text that `explain` prints.
#[derive(Drop)]
struct Explanation<'a> {
    /// The error line, with its line end.
    line: &'a [u8],
    details: &'a Details<'a>,
    /// The help text, if there is one.
    topic: Option<&'static str>,
}

// Puts the line of the plan, if one is named.
fn put_plan<K: Output>(out: &mut K, name: Option<&Text>)
    ensures { K.takes out.old out.new (plan_lines (option_map (λ name. name.now) name.entry)) }
{
    match name {
        Some(name) => plan_line(out, name),
        None => {}
    }
}

// Puts the lines about what an outcome names.
fn put_details<K: Output>(out: &mut K, details: &Details<'_>)
    ensures { K.takes out.old out.new (told_text details.now) }
{
    match details {
        Details::Nothing => {}
        Details::File { names, number } => file_line(out, names, *number),
        Details::Plan(name) => plan_line(out, name),
        Details::PlanAt { name, row } => plan_line_at(out, name, *row),
        Details::PlanKey { name, key } => plan_and_key(out, name, key),
        Details::UnreadFile {
            names,
            number,
            cause,
        } => unread_file(out, names, *number, *cause),
        Details::UnreadPlan { name, cause } => unread_plan(out, name, *cause),
        Details::Argument { words, number } => word_line(out, words, *number),
        Details::Missing(option) => missing_line(out, *option),
        Details::NotTried(name) => untried_line(out, name),
        Details::Link(details) => details.put_lines(out),
        Details::Name(details) => details.put_lines(out),
        Details::Shared { details, plan } => {
            details.put_lines(out);
            put_plan(out, *plan);
        }
        Details::Locate(details) => details.put_lines(out),
    }
}

// Puts an empty line and a help text.
fn put_help<K: Output>(out: &mut K, text: &str)
    ensures { K.takes out.old out.new (topic_part (Some text.now)) }
{
    out.put(b"\n");
    out.put(text.as_bytes());
}

// Puts an empty line and the help text, if there is one.
fn put_topic<K: Output>(out: &mut K, topic: Option<&'static str>)
    ensures { K.takes out.old out.new (topic_part (option_map (λ text. text.now) topic.entry)) }
{
    match topic {
        Some(text) => put_help(out, text),
        None => {}
    }
}

impl<'a> Lines for Explanation<'a> {
    ghost use Rattle.mufom_explain_text.specs.Told.{explanation_text};

    ghost text = { λ explanation. explanation_text explanation };

    fn put_lines<K: Output>(&self, out: &mut K) {
        out.put(self.line);
        put_details(out, self.details);
        put_topic(out, self.topic);
    }
}

// The error line of an outcome, or `done` if it has none.
fn outcome_line(alloc: Global, answer: &Outcome) -> Result<Vec<u8>, NoMemory>
    requires { answer.now ≢ Outcome.WriteFault }
    ensures line { IfOk result (λ text. text.items ≡ line_of answer.now) }
    ensures told { IfOk result (λ text. answer.now ≢ Outcome.NoMemory) }
{
    match answer {
        Outcome::Done => Ok(Vec::from_slice(alloc, b"done\n")?),
        Outcome::Refused(refusal) => refusal_line(alloc, refusal),
        Outcome::Usage(fault) => Ok(Vec::from_slice(alloc, usage_line(*fault).as_bytes())?),
        Outcome::ReadFault(input) => Ok(fault_line(alloc, *input)?.into_bytes()),
        Outcome::WriteFault => unreachable!(),
        Outcome::NoMemory => Err(NoMemory),
    }
}

// The first line of an explanation.
fn first_line(alloc: Global, cause: &Cause<'_>) -> Result<Vec<u8>, NoMemory>
    requires { cause_outcome cause.now ≢ Outcome.WriteFault }
    ensures line { IfOk result (λ text. text.items ≡ line_of (cause_outcome cause.now)) }
    ensures told { IfOk result (λ text. cause_outcome cause.now ≢ Outcome.NoMemory) }
{
    match cause {
        Cause::Outcome(outcome) => outcome_line(alloc, outcome),
        Cause::Link(refusal) => link_line(alloc, refusal),
        Cause::Keep(name) => keep_line(alloc, name),
        Cause::SharedName(name) => shared_line(alloc, name),
        Cause::Locate(refusal, maus) => locate_line(alloc, refusal, *maus),
    }
}

/// Prints how a run with these arguments ends: the error line, what that names, and the help text on it.
/// The run is explained before it writes anything, so it does not end with a write fault.
///
/// Returns the outcome of the explanation, whose error line is not printed yet. It is out of memory if memory
/// runs out here or ran out in that run; then nothing is printed.
pub fn print_explanation<H: Host>(
    alloc: Global,
    words: &[String],
    cause: &Cause<'_>,
    details: &Details<'_>,
    host: &mut H,
) -> Outcome
    requires { cause_outcome cause.now ≢ Outcome.WriteFault }
    ensures answer { IsPrinted (explain_text (map (λ word. string_bytes word) words.now) (cause_outcome cause.now) (told_text details.now))
        (call_of H.meaning H.faults host.old host.new) result }
    ensures told { result ≢ Outcome.NoMemory → cause_outcome cause.now ≢ Outcome.NoMemory }
    ensures only { OnlyPrints (H.meaning host.old) (H.meaning host.new) (H.faults host.old) (H.faults host.new) }
{
    let Ok(line) = first_line(alloc, cause) else {
        return Outcome::NoMemory;
    };
    let explanation = Explanation {
        line: line.as_slice(),
        details,
        topic: topic_of(words, cause),
    };
    match print_lines(alloc, host, &explanation) {
        Ok(()) => Outcome::Done,
        Err(PrintStop::Fault) => Outcome::WriteFault,
        Err(PrintStop::NoMemory) => Outcome::NoMemory,
    }
}

// The line of the file that a run would write, if it writes one.
fn untried_details(out: Option<&Text>) -> Details<'_>
    ensures { told_text result ≡ untried_lines (option_map (λ name. name.now) out.entry) }
{
    match out {
        Some(name) => Details::NotTried(name),
        None => Details::Nothing,
    }
}

/// Prints that a run with these arguments would be `Done`, up to writing the file `out`, if it writes one.
pub fn print_done<H: Host>(
    alloc: Global,
    words: &[String],
    out: Option<&Text>,
    host: &mut H,
) -> Outcome
    ensures answer { IsPrinted (explain_text (map (λ word. string_bytes word) words.now) Outcome.Done
        (untried_lines (option_map (λ name. name.now) out.entry))) (call_of H.meaning H.faults host.old host.new) result }
    ensures only { OnlyPrints (H.meaning host.old) (H.meaning host.new) (H.faults host.old) (H.faults host.new) }
{
    let done = Outcome::Done;
    let details = untried_details(out);
    print_explanation(alloc, words, &Cause::Outcome(&done), &details, host)
}
