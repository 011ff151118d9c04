//! What a list of modules results in, wherever its groups are.

use crate::pieces::PAGE;
use mufom_runs::{File, Held, replay};

/// Two modules that need each other, each at its place on the page.
const PAGED: &[File] = &[
    ("a", Held::First),
    ("b", Held::Second),
    ("p", Held::Bytes(PAGE)),
];

const PAGES: &str = r#"
$ dump --plan=p a b
00000100: 00 00 01 05 00 00 01 02
public 00000100 "f"
public 00000105 "g"
$ dump --plan=p [ a b ]
00000100: 00 00 01 05 00 00 01 02
public 00000100 "f"
public 00000105 "g"
$ dump --plan=p [ [ a ] b ]
00000100: 00 00 01 05 00 00 01 02
public 00000100 "f"
public 00000105 "g"
"#;

/// Two modules, each with a public that is the other's and a little more or less.
const CIRCLE: &[File] = &[
    (
        "a",
        Held::Names(b"\xE8\x20\x01a\xE2\xC9\x20\xD8\x0B\x01\xA5\xE9\x0B\x01b"),
    ),
    (
        "b",
        Held::Names(b"\xE8\x20\x01b\xE2\xC9\x20\xD8\x0B\x01\xA6\xE9\x0B\x01a"),
    ),
];

/// Two modules with a public `main`, and one with nothing.
const NAMESAKES: &[File] = &[
    ("a", Held::Names(b"\xE8\x20\x04main\xE2\xC9\x20\x00")),
    ("b", Held::Names(b"\xE8\x20\x04main\xE2\xC9\x20\x00")),
    ("c", Held::Names(b"")),
];

const CYCLES: &str = r#"
$ dump a b
[1] refused: locate: Cycle "a"
$ dump [ a ] b
[1] refused: locate: Cycle "a"
$ dump [ a b ]
[1] refused: locate: Cycle "a"
"#;

const DUPLICATES: &str = r#"
$ dump a b
[1] refused: link: Duplicate "main"
$ dump a [ b ]
[1] refused: link: Duplicate "main"
$ dump [ a b ] c
[1] refused: link: Duplicate "main"
"#;

#[test]
fn lists_come_to_the_same_wherever_the_groups_stand(rt: HostRuntime) {
    let alloc = rt.alloc();
    replay(alloc, PAGED, PAGES).expect(&rt, "a transcript");
    replay(alloc, CIRCLE, CYCLES).expect(&rt, "a transcript");
    replay(alloc, NAMESAKES, DUPLICATES).expect(&rt, "a transcript");
}

const AT_ZERO: &[u8] = b"[[region]]\nname = \"r\"\nbase = 0\nsize = 16\nsections = [\"*\"]\n";

/// Two sections of one byte, each of which holds a weak reference `x` of no size, with the defaults 1
/// and 2, and a public for them.
const WEAK: &[File] = &[
    (
        "a",
        Held::Section(
            b"\xE6\x01\xC3\x01t\xE2\xD3\x01\x01",
            b"\xE9\x0B\x01x\xF4\x0B\x00\x01",
            b"\xE5\x01\xE4\xBC\xD8\x0B\x90\x01\xBD",
        ),
    ),
    (
        "b",
        Held::Section(
            b"\xE6\x01\xC3\x01t\xE2\xD3\x01\x01",
            b"\xE9\x0B\x01x\xF4\x0B\x00\x02",
            b"\xE5\x01\xE4\xBC\xD8\x0B\x90\x01\xBD",
        ),
    ),
    ("x", Held::Names(b"\xE8\x20\x01x\xE2\xC9\x20\x07")),
    ("p", Held::Bytes(AT_ZERO)),
];

/// A module with a reference `q`, another with it, and one that has a note of it.
const REFERENCES: &[File] = &[
    ("a", Held::Names(b"\xE9\x0B\x01q")),
    ("b", Held::Names(b"\xE9\x0B\x01q")),
    ("n", Held::Names(b"\xE9\x0B\x01q\xF1\xD8\x0B\x01\x02\x03")),
];

/// A module that needs `f`, two that define it, of which the first needs `g`, and one that nothing needs.
const MEMBERS: &[File] = &[
    ("r", Held::Names(b"\xE9\x0B\x01f")),
    (
        "a",
        Held::Names(b"\xE8\x20\x01f\xE2\xC9\x20\x00\xE9\x0B\x01g"),
    ),
    (
        "b",
        Held::Names(b"\xE8\x20\x01f\xE2\xC9\x20\x00\xE8\x21\x01g\xE2\xC9\x21\x00"),
    ),
    (
        "h",
        Held::Names(b"\xE8\x20\x01h\xE2\xC9\x20\x00\xE9\x0B\x01g"),
    ),
];

/// Weak references keep their defaults until a public meets them.
const DEFAULTS: &str = r#"
$ dump --plan p a b
00000000: 01 02
$ link -o c a b
$ dump --plan p c
00000000: 01 02
$ dump --plan p a b x
00000000: 07 07
public 00000007 "x"
$ dump --plan p c x
00000000: 07 07
public 00000007 "x"
"#;

/// Equal references are one in a link, and a note keeps them apart.
const MERGED: &str = r#"
$ link -o c a b
$ show c
module "m" processor "68000" maus 4 order M
reference 0 "q"
$ link -o d a n
$ show d
module "m" processor "68000" maus 4 order M
reference 0 "q"
reference 1 "q"
note type 1 attribute 2 3
"#;

/// Members that define one name clash, and one that nothing needs is passed over.
const SELECTED: &str = r#"
$ dump r + a b
[1] refused: link: Duplicate "f"
$ dump r + h b
public 00000000 "f"
public 00000000 "g"
"#;

#[test]
fn references_and_members_come_to_this(rt: HostRuntime) {
    let alloc = rt.alloc();
    replay(alloc, WEAK, DEFAULTS).expect(&rt, "a transcript");
    replay(alloc, REFERENCES, MERGED).expect(&rt, "a transcript");
    replay(alloc, MEMBERS, SELECTED).expect(&rt, "a transcript");
}
