//! The command that explains how other arguments end: `explain`.

ghost use Rattle.std.specs.Prelude.{◌≡◌, ◌≢◌, ◌<◌, ◌^◌, Err, length, map};
ghost use Rattle.std.specs.String.{string_bytes};
ghost use Rattle.mufom_words.specs.Answer.{answer_of};
ghost use Rattle.mufom_task.specs.Calls.{call_of};
ghost use Rattle.mufom_task.specs.Sound.{IsSoundRequest, IsSoundTask};
ghost use Rattle.mufom_task.specs.declared.task.Request.TheVariants as request_variants;
ghost use Rattle.mufom_explain_text.specs.Explains.{AskFor, Explains};
ghost use Rattle.mufom_command.specs.RunParts.{NamesInputs};

use mufom_explain_modules::{explain_link, explain_location};
use mufom_explain_text::{
    Details, out_of, print_done, print_explanation, task_details, usage_details,
};
use mufom_host::Host;
use mufom_numbers::NoMemory;
use mufom_outcome::{Cause, Outcome, outcome_of_stop};
use mufom_prepare::prepare;
use mufom_task::{Request, Task, request_of};
use mufom_words::{UsageFault, WordsStop, read_words};
use std::alloc::Global;

// Explains a task that links no files.
fn explain_other<H: Host>(alloc: Global, words: &[String], task: &Task, host: &mut H) -> Outcome
    requires sound { IsSoundTask task.now }
    requires asks { AskFor (map (λ word. string_bytes word) words.now) (request_variants.Run task.now) }
    requires other { NamesInputs task.now }
    ensures { Explains (map (λ word. string_bytes word) words.now) (call_of H.meaning H.faults host.old host.new) result }
{
    let out = out_of(task);
    match prepare(alloc, task, host) {
        Ok(_) => print_done(alloc, words, out, host),
        Err(answer) => {
            let details = task_details(task, host.cause(), &answer);
            print_explanation(alloc, words, &Cause::Outcome(&answer), &details, host)
        }
    }
}

// Explains a task.
fn explain_task<H: Host>(alloc: Global, words: &[String], task: &Task, host: &mut H) -> Outcome
    requires sound { IsSoundTask task.now }
    requires asks { AskFor (map (λ word. string_bytes word) words.now) (request_variants.Run task.now) }
    ensures { Explains (map (λ word. string_bytes word) words.now) (call_of H.meaning H.faults host.old host.new) result }
{
    match task {
        Task::Link { inputs, name, out } => explain_link(alloc, words, inputs, name, out, host),
        Task::Locate {
            inputs,
            keep,
            product,
        } => explain_location(alloc, words, inputs, keep, product, host),
        _ => explain_other(alloc, words, task, host),
    }
}

// Explains what the arguments ask for. An explanation cannot be explained, which is an error in the arguments.
fn explain_request<H: Host>(
    alloc: Global,
    words: &[String],
    request: &Request,
    host: &mut H,
) -> Outcome
    requires sound { IsSoundRequest request.now }
    requires asks { AskFor (map (λ word. string_bytes word) words.now) request.now }
    ensures { Explains (map (λ word. string_bytes word) words.now) (call_of H.meaning H.faults host.old host.new) result }
{
    match request {
        Request::Run(task) => explain_task(alloc, words, task, host),
        Request::Explain => {
            let answer = Outcome::Usage(UsageFault::BadWords);
            print_explanation(
                alloc,
                words,
                &Cause::Outcome(&answer),
                &Details::Nothing,
                host,
            )
        }
    }
}

// Explains why the arguments give no command.
fn explain_stop<H: Host>(alloc: Global, words: &[String], stop: WordsStop, host: &mut H) -> Outcome
    requires few { length words.now < 2 ^ 32 }
    requires stops { stop ≢ WordsStop.NoMemory → answer_of (map (λ word. string_bytes word) words.now) ≡ Err stop }
    ensures { Explains (map (λ word. string_bytes word) words.now) (call_of H.meaning H.faults host.old host.new) result }
{
    let Ok(details) = usage_details(alloc, words, stop) else {
        return Outcome::NoMemory;
    };
    let answer = outcome_of_stop(stop);
    print_explanation(alloc, words, &Cause::Outcome(&answer), &details, host)
}

/// Does what these arguments ask for, up to the first file that they would create or the first text that they
/// would print, and prints how they end: the error line, what it names, and the help text on it. Returns the
/// outcome of the explanation, whose error line is not printed yet: `Done`, however the arguments end, unless
/// printing failed or memory ran out.
pub(crate) fn explain<H: Host>(alloc: Global, words: &[String], host: &mut H) -> Outcome
    requires { length words.now < 2 ^ 32 }
    ensures { Explains (map (λ word. string_bytes word) words.now) (call_of H.meaning H.faults host.old host.new) result }
{
    let command = match read_words(alloc, words) {
        Ok(command) => command,
        Err(stop) => return explain_stop(alloc, words, stop, host),
    };
    match request_of(alloc, command) {
        Ok(request) => explain_request(alloc, words, &request, host),
        Err(NoMemory) => Outcome::NoMemory,
    }
}
