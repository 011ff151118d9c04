//! What is at which address, and which modules and files it comes from.

use crate::pieces::{REFERENCE, SECTION};
use mufom_runs::{File, Held, replay};

const RAM: &[u8] =
    b"[[region]]\nname = \"ram\"\nbase = 256\nsize = 64\nsections = [\"t\"]\ncommon = true\n";

/// Two modules that request sizes of 4 and 6 bytes for `c`, the second with a public after its section, and
/// a plan.
const FILES: &[File] = &[
    (
        "a",
        Held::Section(SECTION, b"\xE9\x0B\x01c\xF4\x0B\x04", REFERENCE),
    ),
    (
        "b",
        Held::Section(
            SECTION,
            b"\xE8\x20\x03end\xE2\xC9\x20\xD2\x01\x04\xA5\xE9\x0B\x01c\xF4\x0B\x06",
            REFERENCE,
        ),
    ),
    ("p", Held::Bytes(RAM)),
];

const MAPS: &str = r#"
$ map --plan p a b
module 0 "m" file 0: "a"
module 1 "m" file 1: "b"
region 0 "ram" at 00000100 size 64 used 14 free 50 [#######.........................]
section 0 00000100 size 4 align 1 "t" module 0 region 0
section 1 00000104 size 4 align 1 "t" module 1 region 0
common 2 00000108 size 6 align 8 "c" region 0
public 00000108 "end" module 1
sections 3 bytes 14 loaded 8
$ map --plan p --no-debug [ a b ]
module 0 "m" file 0: "a"
module 1 "m" file 1: "b"
region 0 "ram" at 00000100 size 64 used 14 free 50 [#######.........................]
section 0 00000100 size 4 align 1 "t" module 0 region 0
section 1 00000104 size 4 align 1 "t" module 1 region 0
common 2 00000108 size 6 align 8 "c" region 0
public 00000108 "end" module 1
sections 3 bytes 14 loaded 8
# Of a partial link the map knows one module.
$ link -o c a b
$ map --plan p c
module 0 "m" file 0: "c"
region 0 "ram" at 00000100 size 64 used 14 free 50 [#######.........................]
section 0 00000100 size 4 align 1 "t" module 0 region 0
section 1 00000104 size 4 align 1 "t" module 0 region 0
common 2 00000108 size 6 align 8 "c" region 0
public 00000108 "end" module 0
sections 3 bytes 14 loaded 8
# One address: in a section whose end a public names, in a section without publics, and in no section.
$ map --plan p --at 10A a b
common 2 00000108 size 6 align 8 "c" region 0
public 00000108 "end" module 1 offset 2
$ map --plan p --at=107 a b
section 1 00000104 size 4 align 1 "t" module 1 region 0
public none
$ map --plan p --at 10E a b
section none
public none
$ map b
[1] refused: locate: Unplaced section 0
$ map -o c a
[2] usage: bad words
"#;

const TWO: &[u8] =
    b"[[region]]\nname = \"rom\"\nbase = 512\nsize = 32\nsections = [\"code\", \"*\"]\n\
    [[region]]\nname = \"ram\"\nbase = 256\nsize = 32\nsections = [\"tt\"]\ncommon = true\n";

/// A module with a public after its section.
const ENDED: Held = Held::Section(SECTION, b"\xE8\x20\x03end\xE2\xC9\x20\xD2\x01\x04\xA5", b"");

/// A module with a section at 4,096, one that is placed, and a plan with entries that place no section.
const SPELLED: &[File] = &[("a", Held::Absolute), ("b", ENDED), ("q", Held::Bytes(TWO))];

/// The publics `w` = 4,096, and `y` and `z` = 4,098, beside a section of 4 bytes at 4,096.
const LABELS: &[File] = &[
    ("a", Held::Absolute),
    (
        "b",
        Held::Names(
            b"\xE8\x20\x01w\xE2\xC9\x20\x82\x10\x00\xE8\x21\x01y\xE2\xC9\x21\x82\x10\x02\xE8\x22\x01z\xE2\xC9\x22\x82\x10\x02",
        ),
    ),
];

/// A root that needs `g`, a member that defines `h`, and one that defines `g`.
const MEMBERS: &[File] = &[
    (
        "r",
        Held::Names(b"\xE8\x20\x01f\xE2\xC9\x20\x00\xE9\x0B\x01g"),
    ),
    ("m0", Held::Names(b"\xE8\x20\x01h\xE2\xC9\x20\x00")),
    ("m1", Held::Names(b"\xE8\x20\x01g\xE2\xC9\x20\x00")),
];

/// The root, and an archive of the two members.
const ARCHIVED: &[File] = &[
    (
        "r",
        Held::Names(b"\xE8\x20\x01f\xE2\xC9\x20\x00\xE9\x0B\x01g"),
    ),
    (
        "l.a",
        Held::Archive(&[
            (b"b.o/            ", b"\xE8\x20\x01h\xE2\xC9\x20\x00"),
            (b"c.o/            ", b"\xE8\x20\x01g\xE2\xC9\x20\x00"),
        ]),
    ),
];

/// An entry that only a section with a base of its own has the name of, and one of no section at all.
const UNUSED: &str = r#"
$ map a
module 0 "A" file 0: "a"
section 0 00001000 size 4 align 2 "code" module 0
start 00001000 module 0
sections 1 bytes 4 loaded 4
$ map --plan q a b
module 0 "A" file 0: "a"
module 1 "m" file 1: "b"
region 0 "rom" at 00000200 size 32 used 4 free 28 [####............................]
region 1 "ram" at 00000100 size 32 used 0 free 32 [................................]
unused region 0 "code"
unused region 1 "tt"
section 1 00000200 size 4 align 1 "t" module 1 region 0
section 0 00001000 size 4 align 2 "code" module 0
public 00000204 "end" module 1
start 00001000 module 0
sections 2 bytes 8 loaded 4
"#;

/// The greatest value, and of equal values the first.
const NEAREST: &str = r#"
$ map --at 1003 a b
section 0 00001000 size 4 align 2 "code" module 0
public 00001002 "y" module 1 offset 1
"#;

/// A member has the number of its file.
const NUMBERED: &str = r#"
$ map r + m0 m1
module 0 "m" file 0: "r"
module 1 "m" file 2: "m1"
public 00000000 "f" module 0
public 00000000 "g" module 1
sections 0 bytes 0 loaded 0
$ map r r
[1] refused: link: Duplicate "f"
"#;

/// A member of an archive has its name in the archive.
const NAMED: &str = r#"
$ map r + l.a
module 0 "m" file 0: "r"
module 1 "m" file 1: "l.a(c.o)"
public 00000000 "f" module 0
public 00000000 "g" module 1
sections 0 bytes 0 loaded 0
"#;

#[test]
fn maps_tell_modules_and_addresses(rt: HostRuntime) {
    let alloc = rt.alloc();
    replay(alloc, FILES, MAPS).expect(&rt, "a transcript");
    replay(alloc, SPELLED, UNUSED).expect(&rt, "a transcript");
    replay(alloc, LABELS, NEAREST).expect(&rt, "a transcript");
    replay(alloc, MEMBERS, NUMBERED).expect(&rt, "a transcript");
    replay(alloc, ARCHIVED, NAMED).expect(&rt, "a transcript");
}
