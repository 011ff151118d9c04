//! Tests of a host in memory: how many bytes each call takes or gives, which calls fail by their number or because
//! the room is used up, and the file and the texts after the calls.

use mufom_host::{Host, MemHost, Sink, Source, write_all};
use mufom_numbers::{Bytes, List, Text};
use std::alloc::Global;
use std::process::Abort;

#[derive(Clone, Copy, Debug)]
enum Call {
    Open(&'static str),
    /// Into a buffer of three bytes.
    Read,
    Create(&'static str),
    Write(&'static str),
    WriteAll(&'static str),
    Finish,
    Print(&'static str),
    Complain(&'static str),
}

type Named = Option<(&'static str, &'static str)>;

/// The file that is being made, the finished file, and the texts that were printed.
#[derive(Clone, Copy, Debug)]
struct Known {
    making: Named,
    made: Named,
    out: &'static str,
    err: &'static str,
}

/// A test of a host with the files `a` and `b`: the numbers of its calls that fail, and its room in bytes; the calls,
/// each with the number of bytes that it takes or gives (0 for calls that return no number, `None` for those that
/// fail); and the state after them.
struct Script {
    fail_reads: &'static [u64],
    fail_writes: &'static [u64],
    room: usize,
    calls: &'static [(Call, Option<usize>)],
    after: Known,
}

// The number of bytes that a call took or gave, 0 for other calls, and `None` for one that failed.
fn taken(host: &mut MemHost, call: Call) -> Option<usize> {
    let mut buffer = [0u8; 3];
    let answer = match call {
        Call::Open(name) => host.open(name).map(|()| 0),
        Call::Read => host.read(&mut buffer),
        Call::Create(name) => host.create(name).map(|()| 0),
        Call::Write(chunk) => host.write(chunk.as_bytes()),
        Call::WriteAll(bytes) => write_all(host, bytes.as_bytes()).map(|()| 0),
        Call::Finish => host.finish().map(|()| 0),
        Call::Print(text) => host.print(text.as_bytes()).map(|()| 0),
        Call::Complain(text) => host.complain(text.as_bytes()).map(|()| 0),
    };
    answer.ok()
}

fn is_file(file: Option<(&[u8], &[u8])>, want: Named) -> bool {
    match (file, want) {
        (None, None) => true,
        (Some(file), Some(want)) => file.0 == want.0.as_bytes() && file.1 == want.1.as_bytes(),
        _ => false,
    }
}

fn reveals(host: &MemHost, want: &Known) -> bool {
    is_file(host.making(), want.making)
        && is_file(host.made(), want.made)
        && host.out() == want.out.as_bytes()
        && host.err() == want.err.as_bytes()
}

fn numbers(rt: &impl Abort, alloc: Global, from: &[u64]) -> List<u64> {
    let mut list = List::new(alloc);
    for number in from {
        list.push(*number).expect(rt, "memory");
    }
    list
}

fn add_file(
    rt: &impl Abort,
    alloc: Global,
    files: &mut List<(Text, Bytes)>,
    name: &str,
    bytes: &str,
) {
    let name = Text::from_str(alloc, name).expect(rt, "memory");
    let bytes = Bytes::from_slice(alloc, bytes.as_bytes()).expect(rt, "memory");
    files.push((name, bytes)).expect(rt, "memory");
}

// A host with the files `a` and `b`.
fn host(rt: &impl Abort, alloc: Global, script: &Script) -> MemHost {
    let mut files = List::new(alloc);
    add_file(rt, alloc, &mut files, "a", "hello");
    add_file(rt, alloc, &mut files, "b", "xyz");
    let fail_reads = numbers(rt, alloc, script.fail_reads);
    let fail_writes = numbers(rt, alloc, script.fail_writes);
    MemHost::new(alloc, files, fail_reads, fail_writes, script.room).expect(rt, "memory")
}

fn do_all(rt: &impl Abort, alloc: Global, script: &Script) {
    let mut host = host(rt, alloc, script);
    for (call, want) in script.calls {
        assert!(rt; taken(&mut host, *call) == *want, "{call:?}");
    }
    assert!(rt; reveals(&host, &script.after), "after the calls");
}

// The room, in bytes, of the hosts that have enough of it.
const ROOM: usize = 1_048_576;

// What a fresh host reveals.
const FRESH: Known = Known {
    making: None,
    made: None,
    out: "",
    err: "",
};

const READING: Script = Script {
    fail_reads: &[],
    fail_writes: &[],
    room: ROOM,
    calls: &[
        (Call::Read, Some(0)),
        (Call::Open("a"), Some(0)),
        (Call::Read, Some(3)),
        (Call::Read, Some(2)),
        (Call::Read, Some(0)),
        (Call::Open("b"), Some(0)),
        (Call::Read, Some(3)),
    ],
    after: FRESH,
};

#[test]
fn files_are_opened_and_read_in_chunks(rt: HostRuntime) {
    do_all(&rt, rt.alloc(), &READING);
}

const WRITING: Script = Script {
    fail_reads: &[],
    fail_writes: &[],
    room: ROOM,
    calls: &[
        (Call::Write("lost"), Some(4)),
        (Call::Finish, Some(0)),
        (Call::Create("out"), Some(0)),
        (Call::Write("one "), Some(4)),
        (Call::WriteAll("two"), Some(0)),
    ],
    after: Known {
        making: Some(("out", "one two")),
        ..FRESH
    },
};

#[test]
fn a_file_is_written_in_chunks(rt: HostRuntime) {
    do_all(&rt, rt.alloc(), &WRITING);
}

const FINISHING: Script = Script {
    fail_reads: &[],
    fail_writes: &[],
    room: ROOM,
    calls: &[
        (Call::Create("out"), Some(0)),
        (Call::WriteAll("one two"), Some(0)),
        (Call::Finish, Some(0)),
        (Call::Print("to "), Some(0)),
        (Call::Print("print"), Some(0)),
        (Call::Complain("oh"), Some(0)),
    ],
    after: Known {
        made: Some(("out", "one two")),
        out: "to print",
        err: "oh",
        ..FRESH
    },
};

#[test]
fn a_file_is_made_and_texts_are_printed(rt: HostRuntime) {
    do_all(&rt, rt.alloc(), &FINISHING);
}

// The last call fails, since there is no file `c`.
const FAILING_READS: Script = Script {
    fail_reads: &[1, 3],
    fail_writes: &[],
    room: ROOM,
    calls: &[
        (Call::Open("a"), Some(0)),
        (Call::Read, None),
        (Call::Read, Some(3)),
        (Call::Open("b"), None),
        (Call::Read, Some(2)),
        (Call::Open("c"), None),
    ],
    after: FRESH,
};

#[test]
fn reads_and_opens_fail_by_their_numbers(rt: HostRuntime) {
    do_all(&rt, rt.alloc(), &FAILING_READS);
}

// The last call fails, since a file is finished already.
const FAILING_WRITES: Script = Script {
    fail_reads: &[],
    fail_writes: &[0, 2, 4, 6, 8],
    room: ROOM,
    calls: &[
        (Call::Create("o"), None),
        (Call::Create("p"), Some(0)),
        (Call::Write("x"), None),
        (Call::Write("y"), Some(1)),
        (Call::Finish, None),
        (Call::Finish, Some(0)),
        (Call::Print("x"), None),
        (Call::Print("y"), Some(0)),
        (Call::Complain("x"), None),
        (Call::Create("q"), None),
    ],
    after: Known {
        made: Some(("p", "y")),
        out: "y",
        ..FRESH
    },
};

#[test]
fn other_calls_fail_by_their_numbers(rt: HostRuntime) {
    do_all(&rt, rt.alloc(), &FAILING_WRITES);
}

const SHORT_OF_BYTES: Script = Script {
    fail_reads: &[],
    fail_writes: &[],
    room: 20,
    calls: &[
        (Call::Print("fifteen letters"), Some(0)),
        (Call::Print("six me"), None),
        (Call::Print("five."), Some(0)),
        (Call::Complain("more than twenty letters"), None),
        (Call::Create("o"), Some(0)),
        (Call::Write("fifteen letters"), Some(15)),
        (Call::Write("six me"), None),
        (Call::Write("five."), Some(5)),
    ],
    after: Known {
        making: Some(("o", "fifteen lettersfive.")),
        out: "fifteen lettersfive.",
        ..FRESH
    },
};

#[test]
fn bytes_that_pass_the_room_are_refused(rt: HostRuntime) {
    do_all(&rt, rt.alloc(), &SHORT_OF_BYTES);
}

// Each name takes 8 bytes more than its length. Opened names that take 18 bytes fit, and so does a created one that
// takes 20; with 27 and 28 bytes a call fails, and so does each later one of its kind.
const SHORT_OF_NAMES: Script = Script {
    fail_reads: &[],
    fail_writes: &[],
    room: 20,
    calls: &[
        (Call::Open("a"), Some(0)),
        (Call::Open("b"), Some(0)),
        (Call::Create("twelve bytes"), Some(0)),
        (Call::Open("a"), None),
        (Call::Create(""), None),
        (Call::Open(""), None),
        (Call::Create(""), None),
    ],
    after: Known {
        making: Some(("twelve bytes", "")),
        ..FRESH
    },
};

#[test]
fn names_that_pass_the_room_end_their_list(rt: HostRuntime) {
    do_all(&rt, rt.alloc(), &SHORT_OF_NAMES);
}
