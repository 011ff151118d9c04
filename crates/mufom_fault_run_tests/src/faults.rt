//! Runs in which a call of the host fails.

use mufom_outcome::{Input, Outcome, Refusal};
use mufom_runs::{File, Held, memory_host, replay, run_line};
use mufom_words::UsageFault;
use std::alloc::Global;
use std::process::Abort;

const FILES: &[File] = &[("a", Held::Absolute)];

/// A run: its arguments, the reads and the writes that fail, the status that it ends with, and its error line.
type Row = (
    &'static str,
    &'static [u64],
    &'static [u64],
    u8,
    &'static [u8],
);

/// A failed open or read is a read fault, and a failed print a write fault; the error line may fail too.
const RUNS: [Row; 7] = [
    ("check a", &[0], &[], 3, b"read fault: file 0\n"),
    ("dump a", &[1], &[], 3, b"read fault: file 0\n"),
    ("show a", &[2], &[], 3, b"read fault: file 0\n"),
    ("check a", &[], &[0], 4, b"write fault\n"),
    ("dump a", &[], &[0], 4, b"write fault\n"),
    ("show a", &[], &[0], 4, b"write fault\n"),
    ("dump a", &[], &[0, 1], 4, b""),
];

fn ends(rt: &impl Abort, alloc: Global, row: &Row) {
    let (line, reads, writes, status, text) = *row;
    let host = memory_host(alloc, FILES, reads, writes);
    let mut host = host.expect(rt, "memory");
    assert_eq!(rt; run_line(alloc, &mut host, line), Ok(status), "{line}");
    assert!(rt; host.out().is_empty(), "{line}");
    assert_eq!(rt; host.err(), text, "{line}");
}

#[test]
fn a_failed_call_is_a_fault(rt: HostRuntime) {
    for row in &RUNS {
        ends(&rt, rt.alloc(), row);
    }
}

const MISSING: &str = r#"
$ dump --plan p a
[3] read fault: plan
$ dump nowhere
[3] read fault: file 0
"#;

#[test]
fn a_file_that_is_not_there_is_a_read_fault(rt: HostRuntime) {
    replay(rt.alloc(), FILES, MISSING).expect(&rt, "a transcript");
}

#[test]
fn statuses_are_those_of_the_outcomes(rt: HostRuntime) {
    assert_eq!(rt; Outcome::Done.status(), 0);
    assert_eq!(rt; Outcome::Refused(Refusal::TooDeep(65)).status(), 1);
    assert_eq!(rt; Outcome::Usage(UsageFault::NoFile).status(), 2);
    assert_eq!(rt; Outcome::ReadFault(Input::Plan).status(), 3);
    assert_eq!(rt; Outcome::WriteFault.status(), 4);
    assert_eq!(rt; Outcome::NoMemory.status(), 5);
}
