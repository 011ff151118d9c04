//! Each read and each write that fails in its turn, over a host that reveals nothing and goes by whole
//! chunks or by bytes.

use crate::veiled::Veiled;
use mufom_drafts::files::{ABSOLUTE, LINKED};
use mufom_host::MemHost;
use mufom_runs::{File, Held, memory_host, run_line};
use std::alloc::Global;
use std::process::Abort;

/// A region for sections named `t`.
const PAGE: &[u8] = b"[[region]]\nname = \"page\"\nbase = 256\nsize = 256\nsections = [\"t\"]\n";

/// The absolute module, the two that need each other, and a plan for them.
const FILES: &[File] = &[
    ("m", Held::Absolute),
    ("a", Held::First),
    ("b", Held::Second),
    ("p", Held::Bytes(PAGE)),
];

/// More calls than any of these runs makes.
const MANY_CALLS: u64 = 1_000;

/// What a run does with the host, and which call of it fails.
#[derive(Clone, Copy)]
struct Script<'a> {
    line: &'a str,
    by_bytes: bool,
    failing_read: Option<u64>,
    failing_write: Option<u64>,
}

// A host with the files, on which the call of the script fails.
fn host(rt: &impl Abort, alloc: Global, script: &Script) -> Veiled {
    let reads = script.failing_read.as_slice();
    let writes = script.failing_write.as_slice();
    let inner = memory_host(alloc, FILES, reads, writes);
    Veiled {
        inner: inner.expect(rt, "memory"),
        by_bytes: script.by_bytes,
    }
}

// The status that the run ends with, and the host after it.
fn run_script(rt: &impl Abort, alloc: Global, script: &Script) -> (u8, MemHost) {
    let mut host = host(rt, alloc, script);
    let status = run_line(alloc, &mut host, script.line).expect(rt, "memory");
    (status, host.inner)
}

// Whether the host has printed nothing, and no file is made or begun.
fn is_untouched(host: &MemHost) -> bool {
    host.out().is_empty() && host.made().is_none() && host.making().is_none()
}

// One read of the run fails, with this complaint and with nothing made.
fn read_fails(rt: &impl Abort, alloc: Global, script: &Script, call: u64, complaint: &str) {
    let mut script = *script;
    script.failing_read = Some(call);
    let (status, host) = run_script(rt, alloc, &script);
    assert_eq!(rt; status, 3, "read {call}");
    assert_eq!(rt; host.err(), complaint.as_bytes(), "read {call}");
    assert!(rt; is_untouched(&host), "read {call}");
}

// Each of the reads from one to another fails in its turn, with this complaint.
fn reads_fail(rt: &impl Abort, alloc: Global, script: &Script, reads: (u64, u64), complaint: &str) {
    for call in reads.0..reads.1 {
        read_fails(rt, alloc, script, call, complaint);
    }
}

// The run has just this many reads: one after them never fails.
fn has_reads(rt: &impl Abort, alloc: Global, script: &Script, reads: u64) {
    let mut script = *script;
    script.failing_read = Some(reads);
    assert_eq!(rt; run_script(rt, alloc, &script).0, 0, "after {reads} reads");
}

// A run that no call keeps from its end.
fn undisturbed<'a>(line: &'a str, by_bytes: bool) -> Script<'a> {
    Script {
        line,
        by_bytes,
        failing_read: None,
        failing_write: None,
    }
}

#[test]
fn each_read_of_one_file_fails_in_its_turn(rt: HostRuntime) {
    let alloc = rt.alloc();
    let complaint = "read fault: file 0\n";
    let whole = undisturbed("dump m", false);
    reads_fail(&rt, alloc, &whole, (0, 3), complaint);
    has_reads(&rt, alloc, &whole, 3);
    let by_bytes = undisturbed("dump m", true);
    reads_fail(&rt, alloc, &by_bytes, (0, 122), complaint);
    has_reads(&rt, alloc, &by_bytes, 122);
}

const LINK: &str = "link -o c a b";

const LOCATE: &str = "locate --plan p -o d a b";

#[test]
fn each_read_of_two_files_fails_in_its_turn(rt: HostRuntime) {
    let alloc = rt.alloc();
    let whole = undisturbed(LINK, false);
    reads_fail(&rt, alloc, &whole, (0, 3), "read fault: file 0\n");
    reads_fail(&rt, alloc, &whole, (3, 6), "read fault: file 1\n");
    has_reads(&rt, alloc, &whole, 6);
    let by_bytes = undisturbed(LINK, true);
    reads_fail(&rt, alloc, &by_bytes, (0, 111), "read fault: file 0\n");
    reads_fail(&rt, alloc, &by_bytes, (111, 226), "read fault: file 1\n");
    has_reads(&rt, alloc, &by_bytes, 226);
}

#[test]
fn each_read_of_a_plan_and_its_files_fails_in_its_turn(rt: HostRuntime) {
    let alloc = rt.alloc();
    let whole = undisturbed(LOCATE, false);
    reads_fail(&rt, alloc, &whole, (0, 3), "read fault: plan\n");
    reads_fail(&rt, alloc, &whole, (3, 6), "read fault: file 0\n");
    reads_fail(&rt, alloc, &whole, (6, 9), "read fault: file 1\n");
    has_reads(&rt, alloc, &whole, 9);
}

// Whether the first bytes of a whole are these.
fn begins_with(whole: &[u8], bytes: &[u8]) -> bool {
    match whole.get(..bytes.len()) {
        Some(prefix) => prefix == bytes,
        None => false,
    }
}

// Whether what there is of the output, printed or being made, is a prefix of the whole.
fn has_prefix(host: &MemHost, whole: &[u8]) -> bool {
    let begun = match host.making() {
        Some((_, bytes)) => bytes,
        None => b"",
    };
    begins_with(whole, host.out()) && begins_with(whole, begun)
}

// What the run prints, or the bytes of the file that it makes, where no call fails.
fn output(rt: &impl Abort, alloc: Global, script: &Script) -> Vec<u8> {
    let (status, host) = run_script(rt, alloc, script);
    assert_eq!(rt; status, 0, "no call fails");
    match host.made() {
        Some((_, bytes)) => Vec::from_slice(alloc, bytes).expect(rt, "memory"),
        None => Vec::from_slice(alloc, host.out()).expect(rt, "memory"),
    }
}

// Whether this write of the run fails: then with its complaint, no file, and a prefix of the whole.
fn write_fails(rt: &impl Abort, alloc: Global, script: &Script, call: u64, whole: &[u8]) -> bool {
    let mut script = *script;
    script.failing_write = Some(call);
    let (status, host) = run_script(rt, alloc, &script);
    if status == 0 {
        return false;
    }
    assert_eq!(rt; status, 4, "write {call}");
    assert_eq!(rt; host.err(), b"write fault\n".as_slice(), "write {call}");
    assert!(rt; host.made().is_none(), "write {call}");
    assert!(rt; has_prefix(&host, whole), "write {call}");
    true
}

// How many writes the run has, each of which fails in its turn.
fn failing_writes(rt: &impl Abort, alloc: Global, script: &Script) -> u64 {
    let whole = output(rt, alloc, script);
    for call in 0..MANY_CALLS {
        if !write_fails(rt, alloc, script, call, &whole) {
            return call;
        }
    }
    MANY_CALLS
}

#[test]
fn each_print_fails_in_its_turn(rt: HostRuntime) {
    let alloc = rt.alloc();
    let whole = undisturbed("dump m", false);
    assert_eq!(rt; failing_writes(&rt, alloc, &whole), 1);
}

// A file is created, written in groups of records or byte by byte, and finished.
#[test]
fn each_write_of_a_file_fails_in_its_turn(rt: HostRuntime) {
    let alloc = rt.alloc();
    assert_eq!(rt; failing_writes(&rt, alloc, &undisturbed(LINK, false)), 5);
    let by_bytes = failing_writes(&rt, alloc, &undisturbed(LINK, true));
    assert_eq!(rt; by_bytes, 138);
    assert_eq!(rt; failing_writes(&rt, alloc, &undisturbed(LOCATE, false)), 5);
}

// The file is created by the call with number 0, and has its first nine records when number 2 fails.
#[test]
fn a_write_that_fails_between_records_leaves_those_before_it(rt: HostRuntime) {
    let alloc = rt.alloc();
    let mut script = undisturbed("link -o c m", false);
    script.failing_write = Some(2);
    let (status, host) = run_script(&rt, alloc, &script);
    assert_eq!(rt; status, 4);
    assert_eq!(rt; host.err(), b"write fault\n".as_slice());
    assert!(rt; host.made().is_none());
    let (name, bytes) = host.making().expect(&rt, "a file that is begun");
    assert_eq!(rt; name, b"c".as_slice());
    assert_eq!(rt; bytes, &ABSOLUTE[..69]);
}

#[test]
fn what_is_read_and_written_by_bytes_is_the_same(rt: HostRuntime) {
    let alloc = rt.alloc();
    let linked = output(&rt, alloc, &undisturbed(LINK, true));
    assert_eq!(rt; linked.as_slice(), LINKED.as_slice());
    let whole = output(&rt, alloc, &undisturbed(LOCATE, false));
    let located = output(&rt, alloc, &undisturbed(LOCATE, true));
    assert_eq!(rt; located, whole);
    let image = output(&rt, alloc, &undisturbed("dump m", true));
    let text = b"00001000: 4E 71 4E 75\nstart 00001000\n".as_slice();
    assert_eq!(rt; image.as_slice(), text);
}
