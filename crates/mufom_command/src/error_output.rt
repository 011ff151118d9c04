//! Printing the error line of an outcome.

ghost use Rattle.std.specs.Prelude.{◌≡◌, List, ℕ};
ghost use Rattle.mufom_host.specs.World.{OnlyPrintsErrors};
ghost use Rattle.mufom_outcome.specs.Complaint.{complaint};
ghost use Rattle.mufom_task.specs.Calls.{call_of};
ghost use Rattle.mufom_works.specs.Run.{AddsErrorLine, PrintsErrorLine};
ghost use Rattle.mufom_command.specs.RunParts.{IsPrintedAs};

use mufom_host::{Failed, Host};
use mufom_numbers::NoMemory;
use mufom_outcome::{Outcome, fault_line, refusal_line, usage_line};
use std::alloc::Global;

// Prints a line on the error output. If that fails, the line or its end is lost.
fn print_line<H: Host>(line: &[u8], host: &mut H)
    ensures added { AddsErrorLine (call_of H.meaning H.faults host.old host.new) line.now }
    ensures only { OnlyPrintsErrors (H.meaning host.old) (H.meaning host.new) (H.faults host.old) (H.faults host.new) }
{
    match host.complain(line) {
        Ok(()) => {}
        Err(Failed) => {}
    }
}

// Prints the error line of out of memory.
fn out_of_memory<H: Host>(host: &mut H) -> Outcome
    ensures same { result ≡ Outcome.NoMemory }
    ensures added { AddsErrorLine (call_of H.meaning H.faults host.old host.new) (complaint Outcome.NoMemory) }
    ensures only { OnlyPrintsErrors (H.meaning host.old) (H.meaning host.new) (H.faults host.old) (H.faults host.new) }
{
    print_line(b"out of memory\n", host);
    Outcome::NoMemory
}

/// Prints the error line of an outcome, unless it is `Done`, and returns the outcome. If there is no memory
/// for the line of a `Refused` or a `ReadFault`, the outcome is `NoMemory` instead.
pub(crate) fn print_error_line<H: Host>(alloc: Global, outcome: Outcome, host: &mut H) -> Outcome
    ensures same { IsPrintedAs outcome result }
    ensures line { PrintsErrorLine (call_of H.meaning H.faults host.old host.new) result }
    ensures only { OnlyPrintsErrors (H.meaning host.old) (H.meaning host.new) (H.faults host.old) (H.faults host.new) }
{
    match &outcome {
        Outcome::Done => {}
        Outcome::Usage(fault) => print_line(usage_line(*fault).as_bytes(), host),
        Outcome::WriteFault => print_line(b"write fault\n", host),
        Outcome::NoMemory => print_line(b"out of memory\n", host),
        Outcome::Refused(refusal) => match refusal_line(alloc, refusal) {
            Ok(line) => print_line(line.as_slice(), host),
            Err(NoMemory) => return out_of_memory(host),
        },
        Outcome::ReadFault(input) => match fault_line(alloc, *input) {
            Ok(line) => print_line(line.as_bytes(), host),
            Err(NoMemory) => return out_of_memory(host),
        },
    }
    outcome
}
