//! The top call.

ghost use Rattle.std.specs.Prelude.{◌≡◌, ◌<◌, ◌^◌, drop, length, map};
ghost use Rattle.std.specs.String.{string_bytes};
ghost use Rattle.mufom_words.specs.Answer.{PrintsHelp};
ghost use Rattle.mufom_task.specs.Calls.{call_of};
ghost use Rattle.mufom_task.specs.Sound.{IsSoundRequest, IsSoundTask};
ghost use Rattle.mufom_task.specs.Tasks.{AsksForHelp, IsHelpTask};
ghost use Rattle.mufom_command.specs.Contract.{IsRun};
ghost use Rattle.mufom_command.specs.RunParts.{Does, DoesWith, DoesWords};
ghost use Rattle.mufom_command.specs.PutOut.{NeedsNoMemory};

use crate::error_output::print_error_line;
use crate::explain::explain;
use crate::output::put_out;
use mufom_host::Host;
use mufom_numbers::NoMemory;
use mufom_outcome::{Outcome, outcome_of_stop};
use mufom_prepare::prepare;
use mufom_task::{Request, Task, request_of};
use mufom_words::read_words;
use std::alloc::Global;

// The arguments that `explain` explains: those after `explain`.
fn explained(words: &[String]) -> &[String]
    ensures { result.now ≡ drop 1 words.now }
{
    words.get(1..).unwrap_or(&[])
}

// Does a task, and returns its outcome. The error line is not printed yet.
fn carry_out<H: Host>(alloc: Global, task: &Task, host: &mut H) -> Outcome
    requires { IsSoundTask task.now }
    ensures does { Does task.now (call_of H.meaning H.faults host.old host.new) result }
    ensures memory { IsHelpTask task.now → NeedsNoMemory result }
{
    match prepare(alloc, task, host) {
        Ok(ready) => put_out(alloc, &ready, host),
        Err(stop) => stop,
    }
}

// Does what the arguments ask for. The error line is not printed yet.
fn answer_request<H: Host>(
    alloc: Global,
    words: &[String],
    request: &Request,
    host: &mut H,
) -> Outcome
    requires few { length words.now < 2 ^ 32 }
    requires sound { IsSoundRequest request.now }
    ensures does { DoesWith (map (λ word. string_bytes word) words.now) request.now (call_of H.meaning H.faults host.old host.new) result }
    ensures memory { AsksForHelp request.now → NeedsNoMemory result }
{
    match request {
        Request::Run(task) => carry_out(alloc, task, host),
        Request::Explain => explain(alloc, explained(words), host),
    }
}

// Reads the arguments and does what they ask for. The error line is not printed yet.
fn answer<H: Host>(alloc: Global, words: &[String], host: &mut H) -> Outcome
    requires { length words.now < 2 ^ 32 }
    ensures does { DoesWords (map (λ word. string_bytes word) words.now) (call_of H.meaning H.faults host.old host.new) result }
    ensures memory { PrintsHelp (map (λ word. string_bytes word) words.now) → NeedsNoMemory result }
{
    let command = match read_words(alloc, words) {
        Ok(command) => command,
        Err(stop) => return outcome_of_stop(stop),
    };
    match request_of(alloc, command) {
        Ok(request) => answer_request(alloc, words, &request, host),
        Err(NoMemory) => Outcome::NoMemory,
    }
}

/// Runs the command that the arguments name: `show FILE`, `check FILE ...`, `link -o OUT FILES`, `locate -o
/// OUT FILES`, `dump FILES`, `map FILES`, `make COUNT`, `addr --at ADDRESS FILES`, `bin -o OUT FILES`, `txt
/// -o OUT FILES`, `fromtxt -o OUT FILE`, `build -o OUT FILE`, `help` or `version`, each with its options; or
/// `explain` before any of these.
///
/// `words` are the arguments of the command line without the program's name, fewer than 2^32. The plan, if
/// one is named, is read first, and then the files. Every outcome except `Done` prints one error line; if
/// printing it fails, the outcome does not change. A file is created only once its whole contents are known.
///
/// The record `IsRun` of specs/Contract.antt states what is proved about a run. Its fields: each outcome has
/// its cause, and exactly its output was made (`answers`); the arguments and the files determine the outcome,
/// unless an I/O call failed or memory ran out (`complete`); the inputs were opened in order, and nothing
/// else was (`opens`); the error line was printed, or the failure to print it was counted (`line`); no count
/// of I/O errors fell (`counts`); and `help` and `version` never run out of memory (`memory`).
pub fn run<H: Host>(alloc: Global, words: &[String], host: &mut H) -> Outcome
    requires { length words.now < 2 ^ 32 }
    ensures { IsRun (map (λ word. string_bytes word) words.now) (call_of H.meaning H.faults host.old host.new) result }
{
    let outcome = answer(alloc, words, host);
    print_error_line(alloc, outcome, host)
}
