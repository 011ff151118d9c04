//! The lines about what an outcome names of the arguments, the inputs and the output of a run.

ghost use Rattle.std.specs.Prelude.{◌≡◌, ◌<◌, ◌^◌, ℕ, List as list, Some, length, map, option_map, IfOk, IsSome};
ghost use Rattle.std.specs.String.{string_bytes};
ghost use Rattle.mufom_explain.specs.Lines.{file_line, plan_line};
ghost use Rattle.mufom_task.specs.InputsRead.{NamesPlan};
ghost use Rattle.mufom_task.specs.Tasks.{file_of as file_named, inputs_of as inputs_named, out_of as out_named};
ghost use Rattle.mufom_works.specs.HasDetails.{inputs_read, IsInputDetail, IsTaskDetail, IsUnreadDetail};
ghost use Rattle.mufom_works.specs.InputLines.{argument_lines, unread_file, unread_plan, usage_lines};
ghost use Rattle.mufom_explain_text.specs.Told.{told_text};

use crate::explanation::Details;
use crate::plan_lines::refused_plan_details;
use mufom_host::Cause as FaultCause;
use mufom_numbers::{NoMemory, Text};
use mufom_outcome::{Input, Outcome, Refusal};
use mufom_task::{Inputs, Product, Task, Unread};
use mufom_words::{FaultyArgument, WordsStop, faulty_argument};
use std::alloc::Global;

// The line of the plan, which could not be read.
fn unread_plan_details(inputs: &Inputs, cause: FaultCause) -> Details<'_>
    requires { IsSome inputs.now.plan }
    ensures { (name : list ℕ) → inputs.now.plan ≡ Some name → told_text result ≡ unread_plan name cause }
{
    match &inputs.plan {
        Some(name) => Details::UnreadPlan { name, cause },
        None => unreachable!(),
    }
}

// The line of a file that could not be read.
fn unread_file_details(inputs: &Inputs, number: u32, cause: FaultCause) -> Details<'_>
    ensures { told_text result ≡ unread_file inputs.now.files number cause }
{
    Details::UnreadFile {
        names: inputs.files.as_slice(),
        number,
        cause,
    }
}

// The line of the plan. There must be one.
fn plan_details(inputs: &Inputs) -> Details<'_>
    requires { IsSome inputs.now.plan }
    ensures { (name : list ℕ) → inputs.now.plan ≡ Some name → told_text result ≡ plan_line name }
{
    match &inputs.plan {
        Some(name) => Details::Plan(name),
        None => unreachable!(),
    }
}

// The line of a file.
fn file_details(inputs: &Inputs, number: u32) -> Details<'_>
    ensures { told_text result ≡ file_line inputs.now.files number }
{
    Details::File {
        names: inputs.files.as_slice(),
        number,
    }
}

// The line about the input that an outcome names; nothing if it names none. `cause` is what the host tells of
// its last failed call; it is for an input that could not be read.
fn input_details<'a>(inputs: &'a Inputs, cause: FaultCause, answer: &Outcome) -> Details<'a>
    requires { NamesPlan inputs.now.plan answer.now }
    ensures { IsInputDetail inputs.now cause answer.now (told_text result) }
{
    match answer {
        Outcome::ReadFault(Input::Plan) => unread_plan_details(inputs, cause),
        Outcome::ReadFault(Input::File(file)) => unread_file_details(inputs, *file, cause),
        Outcome::Refused(Refusal::Plan(_)) => plan_details(inputs),
        Outcome::Refused(Refusal::Read(file, _)) => file_details(inputs, *file),
        Outcome::Refused(Refusal::InputLimit(file)) => file_details(inputs, *file),
        Outcome::Refused(Refusal::Text(_)) => file_details(inputs, 0),
        Outcome::Refused(Refusal::Build(_)) => file_details(inputs, 0),
        _ => Details::Nothing,
    }
}

/// Returns the lines about the input for which not all inputs were read; the host told this cause of its last
/// failed call. If that input is the plan, one is named. The only error is out of memory.
pub fn unread_details<'a>(
    alloc: Global,
    inputs: &'a Inputs,
    cause: FaultCause,
    unread: &Unread,
) -> Result<Details<'a>, NoMemory>
    requires { NamesPlan inputs.now.plan unread.now.outcome }
    ensures { IfOk result (λ details. IsUnreadDetail inputs.now cause unread.now.plan.items unread.now.outcome (told_text details)) }
{
    match &unread.outcome {
        Outcome::Refused(Refusal::Plan(refusal)) => {
            refused_plan_details(alloc, inputs, unread.plan.as_slice(), *refusal)
        }
        answer => Ok(input_details(inputs, cause, answer)),
    }
}

// The inputs of a task that reads files.
fn inputs_of(task: &Task) -> Option<&Inputs>
    ensures { option_map (λ inputs. inputs.now) result ≡ inputs_read task.now }
{
    match task {
        Task::Show { inputs, .. } => Some(inputs),
        Task::Check { inputs } => Some(inputs),
        Task::Link { inputs, .. } => Some(inputs),
        Task::Locate { inputs, .. } => Some(inputs),
        Task::FromTxt { inputs, .. } => Some(inputs),
        Task::Build { inputs, .. } => Some(inputs),
        Task::Make { .. } => None,
        Task::Help { .. } => None,
    }
}

/// Returns the line about the input of a task that an outcome names; nothing if it names none. An outcome names
/// the plan only if the task has one. `cause` is what the host tells of its last failed call; it is for an input
/// that could not be read.
pub fn task_details<'a>(task: &'a Task, cause: FaultCause, answer: &Outcome) -> Details<'a>
    requires { NamesPlan (inputs_named task.now).plan answer.now }
    ensures { IsTaskDetail (inputs_read task.now) cause answer.now (told_text result) }
{
    match inputs_of(task) {
        Some(inputs) => input_details(inputs, cause, answer),
        None => Details::Nothing,
    }
}

/// The name of the file that is made of a location, if it is a file.
pub fn file_of(product: &Product) -> Option<&Text>
    ensures { option_map (λ name. name.now) result ≡ file_named product.now }
{
    match product {
        Product::Absolute { out } => Some(out),
        Product::Raw { out, .. } => Some(out),
        Product::Region { out, .. } => Some(out),
        Product::TiTxt { out } => Some(out),
        // a text
        _ => None,
    }
}

/// The name of the file that a task writes, if it writes one.
pub fn out_of(task: &Task) -> Option<&Text>
    ensures { option_map (λ name. name.now) result ≡ out_named task.now }
{
    match task {
        Task::Link { out, .. } => Some(out),
        Task::Locate { product, .. } => file_of(product),
        Task::FromTxt { out, .. } => Some(out),
        Task::Build { out, .. } => Some(out),
        Task::Show { .. } | Task::Check { .. } | Task::Make { .. } | Task::Help { .. } => None,
    }
}

// The line about the argument with an error, or the option that is missing.
fn argument_details(words: &[String], found: FaultyArgument) -> Details<'_>
    ensures { told_text result ≡ argument_lines (map (λ word. string_bytes word) words.now) found }
{
    match found {
        FaultyArgument::Word(number) => Details::Argument { words, number },
        FaultyArgument::Missing(option) => Details::Missing(option),
        FaultyArgument::Nothing => Details::Nothing,
    }
}

/// Returns the line about the error for which the arguments give no command. The only error is out of memory.
pub fn usage_details(
    alloc: Global,
    words: &[String],
    stop: WordsStop,
) -> Result<Details<'_>, NoMemory>
    requires { length words.now < 2 ^ 32 }
    ensures { IfOk result (λ details. told_text details ≡ usage_lines (map (λ word. string_bytes word) words.now) stop) }
{
    match stop {
        WordsStop::Usage(fault) => {
            let found = faulty_argument(alloc, words, fault)?;
            Ok(argument_details(words, found))
        }
        _ => Ok(Details::Nothing),
    }
}
