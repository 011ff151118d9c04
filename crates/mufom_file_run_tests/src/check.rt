//! Lines of modules, and files that are refused.

use mufom_runs::{File, Held, replay};

const MODULES: &[File] = &[
    ("m1", Held::Absolute),
    ("m7", Held::Relocatable),
    ("m7b", Held::Library),
    ("empty", Held::Empty),
];

const LINES: &str = r#"
$ check m1
file 0 "A": sections 1 publics 0 references 0 loads 3 debug 0
$ check m1 m7 m7b
file 0 "A": sections 1 publics 0 references 0 loads 3 debug 0
file 1 "prog": sections 1 publics 1 references 1 loads 5 debug 0
file 2 "lib": sections 1 publics 1 references 0 loads 2 debug 0
$ check empty
file 0 "A": sections 0 publics 0 references 0 loads 0 debug 0
"#;

#[test]
fn modules_have_their_lines_in_order(rt: HostRuntime) {
    replay(rt.alloc(), MODULES, LINES).expect(&rt, "a transcript");
}

/// The absolute module with one byte changed, added or left out.
const FAULTY: &[File] = &[
    ("m1", Held::Absolute),
    ("gap", Held::Changed(60, 0x65)),
    ("begin", Held::Changed(0, 0xE1)),
    ("descriptor", Held::Changed(9, 0xE2)),
    ("number", Held::Changed(10, 0x89)),
    ("bits", Held::Changed(10, 0x10)),
    ("units", Held::Changed(11, 0x09)),
    ("order", Held::Changed(76, 0x00)),
    ("late", Held::Changed(36, 0x4E)),
    ("index", Held::Changed(78, 0x02)),
    ("align", Held::Changed(89, 0x00)),
    ("load", Held::Changed(101, 0x02)),
    ("length", Held::Changed(108, 0xE0)),
    ("after", Held::Cut(120, b"\0")),
    ("cut", Held::Cut(119, b"")),
    ("nothing", Held::Cut(0, b"")),
    ("short", Held::Cut(50, b"")),
];

const REFUSED: &str = r#"
# An offset in the middle of a part leaves a gap.
$ check gap
[1] refused: file 0 at 100: PartGap
# A byte of the header.
$ check begin
[1] refused: file 0 at 0: BadHeader
$ check descriptor
[1] refused: file 0 at 9: BadHeader
$ check number
[1] refused: file 0 at 10: BadNumber
$ check bits
[1] refused: file 0 at 9: BadDescriptor
$ check units
[1] refused: file 0 at 9: BadDescriptor
$ check order
[1] refused: file 0 at 69: OffsetOrder
$ check late
[1] refused: file 0 at 77: PartGap
# A byte of a part.
$ check index
[1] refused: file 0 at 87: UnknownIndex
$ check align
[1] refused: file 0 at 87: BadAlignment
$ check load
[1] refused: file 0 at 100: UnknownIndex
$ check length
[1] refused: file 0 at 114: BadId
# A byte after the end.
$ check after
[1] refused: file 0 at 120: AfterEnd
# Files that are cut off, of which the second of two is refused by its number.
$ check cut
[1] refused: file 0 at 119: Truncated
$ check nothing
[1] refused: file 0 at 0: Truncated
$ check m1 short
[1] refused: file 1 at 50: Truncated
"#;

#[test]
fn files_are_refused_at_the_place_of_their_first_fault(rt: HostRuntime) {
    replay(rt.alloc(), FAULTY, REFUSED).expect(&rt, "a transcript");
}

const USAGE: &str = r#"
$ check [ m1 ]
[2] usage: stray bracket
$ check m1 + m1
[2] usage: bad members
$ check
[2] usage: no file
$ check -x m1
[2] usage: bad words
"#;

#[test]
fn words_that_name_no_files_are_usage_faults(rt: HostRuntime) {
    replay(rt.alloc(), MODULES, USAGE).expect(&rt, "a transcript");
}
