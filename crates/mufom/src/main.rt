//! The program `mufom`: it passes the arguments of the command line to [`run`] over the files and streams of
//! the process, and ends with the status of the outcome.
//!
//! It depends on `mufom_command`, whose contract states what every outcome means, on `mufom_headline`, whose
//! laws state what follows for linking and locating, and on `mufom_host`. The main clause is that of
//! [`program`]: over any host, the arguments after the program's name are run, what is linked and located is
//! as the laws say, and the exit status is that of the outcome. `main` itself has no contract: it hands over
//! what the system gives.
#![tactic(auto)]

ghost use Rattle.std.specs.Prelude.{◌≡◌, ◌<◌, ◌^◌, drop, length, map};
ghost use Rattle.std.specs.Process.{exit_status};
ghost use Rattle.std.specs.String.{string_bytes};
ghost use Rattle.mufom.specs.Program.{IsProgramRun};
ghost use Rattle.mufom_outcome.specs.Complaint.{status_of};
ghost use Rattle.mufom_outcome.specs.declared.outcome.Outcome.{Outcome};
ghost use Rattle.mufom_task.specs.Calls.{call_of};

use mufom_command::run;
use mufom_headline::{links_are_put_out, the_headline};
use mufom_host::{Host, RealHost};
use mufom_outcome::Outcome;
use std::alloc::Global;
use std::env;
use std::io::ErrorKind;
use std::process::ExitCode;

/// The status if an argument is not UTF-8, or there are too many: as for arguments that are not a command.
const BAD_WORDS: u8 = 2;

/// The status if memory runs out for the arguments.
const NO_MEMORY: u8 = 5;

// The arguments after the program's name.
fn after_name(arguments: &[String]) -> &[String]
    ensures { result.now ≡ drop 1 arguments.now }
{
    arguments.get(1..).unwrap_or(&[])
}

// Runs the arguments. The laws are called for what they state of each run.
fn proved_run<H: Host>(alloc: Global, words: &[String], host: &mut H) -> Outcome
    requires { length words.now < 2 ^ 32 }
    ensures { IsProgramRun (map (λ word. string_bytes word) words.now) (call_of H.meaning H.faults host.old host.new) result }
{
    let outcome = run(alloc, words, host);
    the_headline();
    links_are_put_out();
    outcome
}

// Runs the arguments after the program's name, and returns the exit status of the outcome.
fn program<H: Host>(alloc: Global, arguments: &[String], host: &mut H) -> ExitCode
    requires { length arguments.now < 2 ^ 32 }
    ensures { (outcome : Outcome)
        × IsProgramRun (map (λ word. string_bytes word) (drop 1 arguments.now)) (call_of H.meaning H.faults host.old host.new) outcome
        × (exit_status result ≡ status_of outcome) }
{
    let outcome = proved_run(alloc, after_name(arguments), host);
    ExitCode::from(outcome.status())
}

// All arguments, the program's name among them, or the status to end with if they cannot be read.
fn all_arguments(rt: &HostRuntime) -> Result<Vec<String>, u8> {
    match env::args(rt) {
        Ok(arguments) => arguments.collect(rt.alloc()).map_err(|_| NO_MEMORY),
        Err(error) if error.kind() == ErrorKind::OutOfMemory => Err(NO_MEMORY),
        Err(_) => Err(BAD_WORDS),
    }
}

fn main(rt: HostRuntime) -> ExitCode {
    let arguments = match all_arguments(&rt) {
        Ok(arguments) => arguments,
        Err(status) => return ExitCode::from(status),
    };
    if arguments.len() > u32::MAX as usize {
        return ExitCode::from(BAD_WORDS);
    }
    let alloc = rt.alloc();
    let mut host = RealHost::new(rt);
    program(alloc, &arguments, &mut host)
}
