//! How runs end that are explained: the error line, what it names, and the text of help on it. Each error that the
//! transcripts of runs have is here once.

use crate::pieces::{PAGE, REFERENCE, SECTION};
use mufom_drafts::Records;
use mufom_help::topic_text;
use mufom_runs::{File, Held, memory_host, replay, run_line};
use std::alloc::Global;
use std::process::Abort;

/// A file with a module, one with a first byte that is wrong, and one that begins as a module.
const SINGLE: &[File] = &[
    ("a", Held::Absolute),
    ("bad", Held::Changed(0, 0)),
    ("cut", Held::Cut(20, b"")),
];

const ENDS: &str = r#"
# Runs that are done, also where the file or the folder could not be made.
$ explain dump a
done
$ explain show --listing a
done
$ explain check a a
done
$ explain link -o c a
done
not tried: writing "c"
$ explain locate -o none/c a
done
not tried: writing "none/c"
$ explain make 2
done
$ explain help Misfit
done
$ explain --help
done
# Inputs that are not there.
$ explain show nothing
read fault: file 0
file 0: "nothing": no such file

(help read)
$ explain dump --plan none a
read fault: plan
plan: "none": no such file

(help read)
"#;

#[test]
fn runs_end_as_they_are_explained(rt: HostRuntime) {
    replay(rt.alloc(), SINGLE, ENDS).expect(&rt, "a transcript");
}

/// A region of 13 bytes for two sections and a common of 6.
const TIGHT: &[u8] =
    b"[[region]]\nname = \"ram\"\nbase = 256\nsize = 13\nsections = [\"t\"]\ncommon = true\n";

const UNTRUE: &[u8] =
    b"[[region]]\nname = \"ram\"\nbase = 256\nsize = 64\nsections = [\"t\"]\ncommon = 1\n";

/// Modules that request sizes of 4 and 6 bytes for `c`, and plans.
const COMMONS: &[File] = &[
    (
        "a",
        Held::Section(SECTION, b"\xE9\x0B\x01c\xF4\x0B\x04", REFERENCE),
    ),
    (
        "b",
        Held::Section(SECTION, b"\xE9\x0B\x01c\xF4\x0B\x06", REFERENCE),
    ),
    ("p", Held::Bytes(TIGHT)),
    ("page", Held::Bytes(PAGE)),
    ("untrue", Held::Bytes(UNTRUE)),
    ("brackets", Held::Bytes(b"[[")),
    ("third", Held::Bytes(b"keep = []\n\nregion = = 1\n")),
    (
        "lengthy",
        Held::Bytes(b"region = [{ name = \"a\", base = 0, zz = 1, length = 1 }]"),
    ),
    ("other", Held::Bytes(b"zz = 1\nkeep = []\nother = 1\n")),
    (
        "beyond",
        Held::Bytes(
            b"[[region]]\nname = \"r\"\nbase = 9223372036854775807\nsize = 1\nsections = [\"*\"]\n",
        ),
    ),
    ("text", Held::Bytes(b"00 11\nq\n")),
];

const BROKEN: &str = r#"
$ explain check a bad
refused: file 1 at 0: BadHeader
file 1: "bad"

(help BadHeader)
$ explain dump cut a
refused: file 0 at 20: Truncated
file 0: "cut"

(help Truncated)
"#;

const INPUTS: &str = r#"
$ explain dump --plan untrue a b
refused: plan: Shape region 0 common
plan: "untrue"

(help Shape)
$ explain map --plan brackets a
refused: plan: Syntax
plan: "brackets" line 1

(help Syntax)
$ explain dump --plan third a
refused: plan: Syntax
plan: "third" line 3

(help Syntax)
$ explain dump --plan lengthy a
refused: plan: Shape region 0 extra
plan: "lengthy"
key: "length"

(help Shape)
$ explain dump --plan other a
refused: plan: Shape extra
plan: "other"
key: "other"

(help Shape)
$ explain txt --plan beyond -o c a
refused: plan: Beyond region 0
plan: "beyond"

(help Beyond)
$ explain fromtxt -o c text
refused: text line 1: NoAddress
file 0: "text"

(help NoAddress)
$ explain fromtxt -o c none
read fault: file 0
file 0: "none": no such file

(help read)
"#;

#[test]
fn refused_inputs_are_explained(rt: HostRuntime) {
    let alloc = rt.alloc();
    replay(alloc, SINGLE, BROKEN).expect(&rt, "a transcript");
    replay(alloc, COMMONS, INPUTS).expect(&rt, "a transcript");
}

/// Modules with the publics `h`, `f`, and `f` with a reference to it; modules that can't be linked with
/// them; and one with a start.
const LINKS: &[File] = &[
    ("r", Held::Names(b"\xE8\x20\x01h\xE2\xC9\x20\x00")),
    ("a", Held::Names(b"\xE8\x20\x01f\xE2\xC9\x20\x00")),
    (
        "b",
        Held::Names(b"\xE8\x20\x01f\xE2\xC9\x20\x00\xE9\x0B\x01f"),
    ),
    ("n", Held::Names(b"\xE9\x0B\x01f")),
    (
        "short",
        Held::Records(Records {
            descriptor: b"\xEC\x08\x02\xCD",
            ..Records::NONE
        }),
    ),
    ("m1", Held::Absolute),
];

const UNLINKED: &str = r#"
# The list of the first group that can't be linked, in which its modules are counted.
$ explain dump r [ a b ]
refused: link: Duplicate "f"
"f": public in module 0
"f": public in module 1
"f": reference in module 1
module 0 "m" file 1: "a"
module 1 "m" file 2: "b"

(help Duplicate)
# Groups in the order of their closing brackets: the inner one first, and then the next.
$ explain link -o c [ r [ m1 m1 ] a a ]
refused: link: DuplicateStart
module 0 "A" file 1: "m1"
module 1 "A" file 2: "m1"

(help DuplicateStart)
$ explain link -o c [ n a ] [ r short ] [ a b ]
refused: link: Mismatch 4 M 2 M
module 0 "m" file 2: "r"
module 1 "m" file 3: "short"

(help Mismatch)
# All files of the tree, without the members.
$ explain link -o c [ r ] [ n a ] b + m1
refused: link: Duplicate "f"
"f": reference in module 1
"f": public in module 2
"f": public in module 3
"f": reference in module 3
module 1 "m" file 1: "n"
module 2 "m" file 2: "a"
module 3 "m" file 3: "b"

(help Duplicate)
$ explain bin -o c m1 m1
refused: link: DuplicateStart
module 0 "A" file 0: "m1"
module 1 "A" file 1: "m1"

(help DuplicateStart)
$ explain dump --keep q r
refused: keep: Unknown "q"

(help Unknown)
$ explain map --keep f r n
refused: keep: Unknown "f"
"f": reference in module 1
module 1 "m" file 1: "n"

(help Unknown)
"#;

/// A root with `f` that needs `g`, a member that defines `h`, and one that defines `g` and `f`.
const DUPLICATES: &[File] = &[
    (
        "r",
        Held::Names(b"\xE8\x20\x01f\xE2\xC9\x20\x00\xE9\x0B\x01g"),
    ),
    ("m0", Held::Names(b"\xE8\x20\x01h\xE2\xC9\x20\x00")),
    (
        "m1",
        Held::Names(b"\xE8\x20\x01g\xE2\xC9\x20\x00\xE8\x21\x01f\xE2\xC9\x21\x00"),
    ),
];

/// The flat list: a member has its place among the modules that are linked, and the number of its file.
const MEMBERS: &str = r#"
$ explain dump r + m0 m1
refused: link: Duplicate "f"
"f": public in module 0
"f": public in module 1
module 0 "m" file 0: "r"
module 1 "m" file 2: "m1"

(help Duplicate)
"#;

#[test]
fn lists_that_are_not_linked_are_explained(rt: HostRuntime) {
    let alloc = rt.alloc();
    replay(alloc, LINKS, UNLINKED).expect(&rt, "a transcript");
    replay(alloc, DUPLICATES, MEMBERS).expect(&rt, "a transcript");
}

/// A section of two bytes at 16.
const TWO_AT_16: &[u8] = b"\xE6\x01\xC1\xD3\x01t\xE2\xD3\x01\x02\xE2\xCC\x01\x10";

const PLACES: &[File] = &[
    ("s", Held::Section(TWO_AT_16, b"", b"")),
    ("out", Held::Section(TWO_AT_16, b"", b"\xE5\x01\xED\x03abc")),
    (
        "twice",
        Held::Section(
            TWO_AT_16,
            b"",
            b"\xE5\x01\xED\x01a\xE2\xD0\x01\x10\xED\x01b",
        ),
    ),
    (
        "far",
        Held::Section(
            b"\xE6\x01\xC1\xD3\x01t\xE2\xD3\x01\x11\xE2\xCC\x01\x84\xFF\xFF\xFF\xF0",
            b"",
            b"",
        ),
    ),
    ("u", Held::First),
    (
        "zero",
        Held::Names(b"\xE8\x20\x01d\xE2\xC9\x20\x01\x00\xA7"),
    ),
    (
        "apart",
        Held::Section(
            b"\xE6\x01\xC1\xD3\x01t\xE2\xD3\x01\x01\xE2\xCC\x01\x10\xE6\x02\xC1\xD3\x01t\xE2\xD3\x02\x01\xE2\xCC\x02\x84\x04\x00\x00\x10",
            b"",
            b"\xE5\x01\xED\x01\x62\xE5\x02\xED\x01\x63",
        ),
    ),
    (
        "many",
        Held::Section(TWO_AT_16, b"", b"\xE5\x01\xF7\x84\xFF\xFF\xFF\xFF\xED\x01a"),
    ),
    ("start", Held::Bytes(DIVIDED_START)),
];

/// A module with nothing but a start address, which is divided by 0.
const DIVIDED_START: &[u8] = b"\xE0\x0568000\x01m\xEC\x08\x04\xCD\xE2\xD7\x00\x84\x00\x00\x00\x00\
    \xE2\xD7\x01\x84\x00\x00\x00\x00\xE2\xD7\x02\x84\x00\x00\x00\x00\xE2\xD7\x03\x84\x00\x00\x00\x00\
    \xE2\xD7\x04\x84\x00\x00\x00\x00\xE2\xD7\x05\x84\x00\x00\x00\x00\xE2\xD7\x06\x84\x00\x00\x00\x4D\
    \xE2\xD7\x07\x84\x00\x00\x00\x54\xE2\xC7\xBE\x01\x00\xA7\xBF\xE1";

/// A section's base and 256 in one byte; divisions by zero in a counter, in a field and in the value of a debug name.
const VALUES: &[File] = &[
    (
        "over",
        Held::Section(
            TWO_AT_16,
            b"",
            b"\xE5\x01\xE4\xBE\xD2\x01\x82\x01\x00\xA5\x90\x01\xBF",
        ),
    ),
    (
        "counter",
        Held::Section(TWO_AT_16, b"", b"\xE5\x01\xE2\xD0\x01\x10\x00\xA7"),
    ),
    (
        "field",
        Held::Section(TWO_AT_16, b"", b"\xE5\x01\xE4\xBE\x01\x00\xA7\x90\x01\xBF"),
    ),
    (
        "debug",
        Held::Records(Records {
            sections: TWO_AT_16,
            debug: b"\xF8\x03\x00\x01p\xF0\x20\x01x\xF1\xCE\x20\x00\x07\x01\x00\xE2\xCE\x20\x01\x00\xA7\xF9",
            ..Records::NONE
        }),
    ),
];

const OVERFLOWS: &str = r#"
$ explain dump over
refused: locate: Overflow section 0 at 00000010 either 1 value 00000110
section 0: "t" size 2 align 1 base 00000010, module 0 "m" file 0: "over"
value: (R0 + 256)
  R0: "t"

(help Overflow)
$ explain dump counter
refused: locate: DivideByZero counter of section 0
section 0: "t" size 2 align 1 base 00000010, module 0 "m" file 0: "counter"

(help DivideByZero)
$ explain txt -o c field
refused: locate: DivideByZero field at 00000010 in section 0
section 0: "t" size 2 align 1 base 00000010, module 0 "m" file 0: "field"
value: (1 / 0)

(help DivideByZero)
$ explain addr --at 0 debug
refused: locate: DivideByZero debug 0

(help DivideByZero)
"#;

#[test]
fn values_that_do_not_fit_are_explained(rt: HostRuntime) {
    replay(rt.alloc(), VALUES, OVERFLOWS).expect(&rt, "a transcript");
}

const UNPLACED: &str = r#"
$ explain dump s u
refused: locate: Unplaced section 1
section 1: "t" size 4 align 1, module 1 "a" file 1: "u"

(help Unplaced)
$ explain dump far
refused: locate: Misfit section 0
section 0: "t" size 17 align 1 base FFFFFFF0, module 0 "m" file 0: "far"

(help Misfit)
$ explain dump s s
refused: locate: Overlap section 0 section 1
section 0: "t" size 2 align 1 base 00000010, module 0 "m" file 0: "s"
section 1: "t" size 2 align 1 base 00000010, module 1 "m" file 1: "s"

(help Overlap)
$ explain dump out
refused: locate: LoadOutside section 0 at 00000012
section 0: "t" size 2 align 1 base 00000010, module 0 "m" file 0: "out"

(help LoadOutside)
$ explain dump twice
refused: locate: LoadedTwice 00000010

(help LoadedTwice)
$ explain addr --at 0 zero
refused: locate: DivideByZero public "d"
"d": public in module 0
module 0 "m" file 0: "zero"

(help DivideByZero)
$ explain dump start
refused: locate: DivideByZero start

(help DivideByZero)
$ explain dump many
refused: locate: ImageLimit 4294967295

(help ImageLimit)
$ explain bin -o c apart
refused: bin: TooLong 67108865

(help TooLong)
"#;

const TIGHT_ROOM: &str = r#"
$ explain dump --plan p a b
refused: locate: Misfit section 2 region 0
common 2: "c" size 6 align 8
  module 0 "m" file 0: "a"
  module 1 "m" file 1: "b"
region 0: "ram" base 00000100 size 13, its sections take 14

(help Misfit)
"#;

#[test]
fn sections_that_are_not_placed_are_explained(rt: HostRuntime) {
    let alloc = rt.alloc();
    replay(alloc, PLACES, UNPLACED).expect(&rt, "a transcript");
    replay(alloc, COMMONS, TIGHT_ROOM).expect(&rt, "a transcript");
}

/// A root that needs `z` and `y`, a member that nothing needs, and one that the root needs and that needs
/// `z` and `y` too; and a public that refers to itself.
const UNKNOWN: &[File] = &[
    (
        "r",
        Held::Names(b"\xE9\x0B\x01y\xF4\x0B\x00\xE9\x0C\x01f\xE9\x0D\x01z"),
    ),
    ("k0", Held::Names(b"\xE8\x20\x01h\xE2\xC9\x20\x00")),
    (
        "k1",
        Held::Names(b"\xE8\x20\x01f\xE2\xC9\x20\x00\xE9\x0B\x01z\xE9\x0C\x01y"),
    ),
    ("circle", Held::Names(b"\xE8\x20\x01d\xE2\xC9\x20\xC9\x20")),
];

/// Three sections of four bytes: `main` is in the first, which names the third. Before them a module with
/// a section that `main` does not need.
const KEPT: &[File] = &[
    (
        "a",
        Held::Section(
            b"\xE6\x01\xC3\x01a\xE2\xD3\x01\x04\xE6\x02\xC3\x01b\xE2\xD3\x02\x04\xE6\x03\xC3\x01c\xE2\xD3\x03\x04",
            b"\xE8\x20\x04main\xE2\xC9\x20\xD2\x01",
            b"\xE5\x01\xE4\xBE\xD2\x03\xBF",
        ),
    ),
    ("w", Held::Section(SECTION, b"", b"")),
    (
        "p",
        Held::Bytes(b"[[region]]\nname = \"r\"\nbase = 0\nsize = 6\nsections = [\"*\"]\n"),
    ),
];

const UNDEFINED: &str = r#"
$ explain dump r + k0 k1
refused: locate: Undefined "z"
"z": reference in module 0
"z": reference in module 1
"y": reference in module 0
"y": reference in module 1
module 0 "m" file 0: "r"
module 1 "m" file 2: "k1"

(help Undefined)
$ explain dump circle
refused: locate: Cycle "d"
"d": public in module 0
module 0 "m" file 0: "circle"

(help Cycle)
"#;

const NO_ROOM: &str = r#"
$ explain map --plan page a b
refused: locate: CommonUnplaced "c"
"c": reference in module 0
"c": reference in module 1
module 0 "m" file 0: "a"
module 1 "m" file 1: "b"

(help CommonUnplaced)
"#;

/// Of what is kept, sections have new numbers, and come from the modules of the whole list.
const RENUMBERED: &str = r#"
$ explain map --plan p --keep main w a
refused: locate: Misfit section 1 region 0
section 1: "c" size 4 align 1, module 1 "m" file 1: "a"
region 0: "r" base 00000000 size 6, its sections take 8

(help Misfit)
"#;

#[test]
fn names_without_a_value_are_explained(rt: HostRuntime) {
    let alloc = rt.alloc();
    replay(alloc, UNKNOWN, UNDEFINED).expect(&rt, "a transcript");
    replay(alloc, COMMONS, NO_ROOM).expect(&rt, "a transcript");
    replay(alloc, KEPT, RENUMBERED).expect(&rt, "a transcript");
}

/// A plan and a text that are longer than the limit.
const LONG: &[File] = &[
    ("a", Held::Absolute),
    ("plan", Held::Spaces(65_537)),
    ("text", Held::Spaces(67_108_865)),
];

const LIMITS: &str = r#"
$ explain dump --plan plan a
refused: plan: TooLong
plan: "plan"

(help TooLong)
$ explain fromtxt -o c text
refused: file 0: InputLimit
file 0: "text"

(help InputLimit)
"#;

#[test]
fn long_inputs_are_explained(rt: HostRuntime) {
    replay(rt.alloc(), LONG, LIMITS).expect(&rt, "a transcript");
}

// `explain` without a command, or before itself.
const REFUSED: &str = r#"
$ explain
[2] usage: bad words
$ explain explain dump a
[2] usage: bad words
"#;

#[test]
fn an_explanation_is_not_explained(rt: HostRuntime) {
    replay(rt.alloc(), SINGLE, REFUSED).expect(&rt, "a transcript");
}

// A run over the absolute module in the file `a` ends with this status and these outputs, where the calls with these
// numbers fail.
fn ends(
    rt: &impl Abort,
    alloc: Global,
    line: &str,
    failing: (&[u64], &[u64]),
    wanted: (u8, &[u8], &[u8]),
) {
    let host = memory_host(alloc, SINGLE, failing.0, failing.1);
    let mut host = host.expect(rt, "memory");
    assert_eq!(rt; run_line(alloc, &mut host, line), Ok(wanted.0), "{line}");
    assert_eq!(rt; host.out(), wanted.1, "{line}");
    assert_eq!(rt; host.err(), wanted.2, "{line}");
    assert!(rt; host.made().is_none(), "{line}");
    assert!(rt; host.making().is_none(), "{line}");
}

#[test]
fn failed_calls_are_explained_or_fail(rt: HostRuntime) {
    let alloc = rt.alloc();
    let line = "explain dump a";
    let help = topic_text("read").unwrap_or("");
    let fault = format!(in alloc; "read fault: file 0\nfile 0: \"a\"\n\n{help}");
    let fault = fault.expect(&rt, "memory");
    let fault = fault.as_bytes();
    ends(&rt, alloc, line, (&[0], &[]), (0, fault, b""));
    ends(&rt, alloc, line, (&[1], &[]), (0, fault, b""));
    ends(&rt, alloc, line, (&[], &[0]), (4, b"", b"write fault\n"));
    // Writes of the run that is explained are not met.
    let line = "explain locate -o c a";
    let done = b"done\nnot tried: writing \"c\"\n";
    ends(&rt, alloc, line, (&[], &[1]), (0, done, b""));
}
