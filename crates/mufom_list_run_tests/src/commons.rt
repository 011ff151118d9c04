//! Space that weak references request, over several files.

use crate::pieces::{REFERENCE, SECTION};
use mufom_runs::{File, Held, replay};

const RAM: &[u8] =
    b"[[region]]\nname = \"ram\"\nbase = 256\nsize = 64\nsections = [\"t\"]\ncommon = true\n";

/// Room for the two sections and five bytes after them.
const TIGHT: &[u8] =
    b"[[region]]\nname = \"ram\"\nbase = 256\nsize = 13\nsections = [\"t\"]\ncommon = true\n";

const NO_COMMON: &[u8] = b"[[region]]\nname = \"ram\"\nbase = 256\nsize = 64\nsections = [\"t\"]\n";

const NO_TRUTH: &[u8] =
    b"[[region]]\nname = \"ram\"\nbase = 256\nsize = 64\nsections = [\"t\"]\ncommon = 1\n";

/// Modules that request sizes of 4 and 6 bytes for `c`, one that defines it, one with a strong reference to
/// it, and plans.
const FILES: &[File] = &[
    (
        "a",
        Held::Section(SECTION, b"\xE9\x0B\x01c\xF4\x0B\x04", REFERENCE),
    ),
    (
        "b",
        Held::Section(SECTION, b"\xE9\x0B\x01c\xF4\x0B\x06", REFERENCE),
    ),
    ("seven", Held::Names(b"\xE8\x20\x01c\xE2\xC9\x20\x07")),
    ("strong", Held::Names(b"\xE9\x0B\x01c")),
    ("p", Held::Bytes(RAM)),
    ("tight", Held::Bytes(TIGHT)),
    ("none", Held::Bytes(NO_COMMON)),
    ("untrue", Held::Bytes(NO_TRUTH)),
];

const SHARED: &str = r#"
$ dump --plan=p a b
00000100: 00 00 01 08 00 00 01 08
$ dump --plan=p [ a b ]
00000100: 00 00 01 08 00 00 01 08
$ link -o c a b
$ dump --plan=p c
00000100: 00 00 01 08 00 00 01 08
# A public of the name takes the place of the common, and a strong reference resolves to it.
$ dump --plan=p a b seven
00000100: 00 00 00 07 00 00 00 07
public 00000007 "c"
$ dump --plan=p a b strong
00000100: 00 00 01 08 00 00 01 08
# Room that no region has.
$ dump --plan tight a b
[1] refused: locate: Misfit section 2 region 0
$ dump --plan none a b
[1] refused: locate: CommonUnplaced "c"
$ dump --plan untrue a b
[1] refused: plan: Shape region 0 common
"#;

#[test]
fn room_is_shared_or_refused(rt: HostRuntime) {
    replay(rt.alloc(), FILES, SHARED).expect(&rt, "a transcript");
}

/// Modules that request sizes of 6 bytes for `c`, of 4 for `d`, and of 4 for `c`, and a plan.
const TWO_NAMES: &[File] = &[
    (
        "x",
        Held::Section(SECTION, b"\xE9\x0B\x01c\xF4\x0B\x06", REFERENCE),
    ),
    (
        "y",
        Held::Section(SECTION, b"\xE9\x0B\x01d\xF4\x0B\x04", REFERENCE),
    ),
    (
        "z",
        Held::Section(SECTION, b"\xE9\x0B\x01c\xF4\x0B\x04", REFERENCE),
    ),
    ("p", Held::Bytes(RAM)),
];

/// The three sections end at 10C, so the first common begins at 110, and the next at 118. The order is that in which the
/// names first appear, and the size is the greatest, although a later module requests less.
const ORDERED: &str = r#"
$ dump --plan=p x y z
00000100: 00 00 01 10 00 00 01 18 00 00 01 10
$ link -o c x y z
$ dump --plan=p c
00000100: 00 00 01 10 00 00 01 18 00 00 01 10
$ dump --plan=p y x z
00000100: 00 00 01 10 00 00 01 18 00 00 01 18
$ map --plan=p x y z
module 0 "m" file 0: "x"
module 1 "m" file 1: "y"
module 2 "m" file 2: "z"
region 0 "ram" at 00000100 size 64 used 22 free 42 [######..###.##..................]
section 0 00000100 size 4 align 1 "t" module 0 region 0
section 1 00000104 size 4 align 1 "t" module 1 region 0
section 2 00000108 size 4 align 1 "t" module 2 region 0
common 3 00000110 size 6 align 8 "c" region 0
common 4 00000118 size 4 align 8 "d" region 0
sections 5 bytes 22 loaded 12
"#;

#[test]
fn commons_are_in_order_with_their_greatest_sizes(rt: HostRuntime) {
    replay(rt.alloc(), TWO_NAMES, ORDERED).expect(&rt, "a transcript");
}
