//! What a public symbol needs is kept, and all else is left out.

use crate::pieces::{REFERENCE, SECTION};
use mufom_runs::{File, Held, Session, replay};

/// Three sections of four bytes. `main` is in the first, which names the third; the second names `q`, which
/// nothing defines.
const MODULE: Held = Held::Section(
    b"\xE6\x01\xC3\x01a\xE2\xD3\x01\x04\xE6\x02\xC3\x01b\xE2\xD3\x02\x04\xE6\x03\xC3\x01c\xE2\xD3\x03\x04",
    b"\xE8\x20\x04main\xE2\xC9\x20\xD2\x01\xE8\x21\x01u\xE2\xC9\x21\xD2\x02\xE9\x0B\x01q",
    b"\xE5\x01\xE4\xBE\xD2\x03\xBF\xE5\x02\xE4\xBE\xD8\x0B\xBF\xE5\x03\xED\x04\x01\x02\x03\x04",
);

const PLAN: &[u8] = b"[[region]]\nname = \"r\"\nbase = 0\nsize = 16\nsections = [\"*\"]\n";

/// The module, its plan, one that is linked only if it is needed, and one with a section and a public that
/// nothing needs.
const FILES: &[File] = &[
    ("a", MODULE),
    ("p", Held::Bytes(PLAN)),
    ("n", Held::Names(b"\xE8\x20\x01z\xE2\xC9\x20\x07")),
    (
        "w",
        Held::Section(SECTION, b"\xE8\x20\x01z\xE2\xC9\x20\xD2\x01", b""),
    ),
];

const KEPT: &str = r#"
$ dump --plan p --keep main a
00000000: 00 00 00 04 01 02 03 04
public 00000000 "main"
$ dump --plan p --keep=main [ a ] + n
00000000: 00 00 00 04 01 02 03 04
public 00000000 "main"
$ link -o c a
$ dump --plan p --keep main c
00000000: 00 00 00 04 01 02 03 04
public 00000000 "main"
$ locate --plan p --keep main -o d a
$ dump d
00000000: 00 00 00 04 01 02 03 04
public 00000000 "main"
# A map counts what is kept, and its modules are all that are linked: `w` has a line, and no section of it is there.
$ map --plan p --keep main w a
module 0 "m" file 0: "w"
module 1 "m" file 1: "a"
region 0 "r" at 00000000 size 16 used 8 free 8 [.#.#.#.#.#.#.#.#................]
section 0 00000000 size 4 align 1 "a" module 1 region 0
section 1 00000004 size 4 align 1 "c" module 1 region 0
public 00000000 "main" module 1
sections 2 bytes 8 loaded 8
$ map --plan p --keep=main [ w a ] + n
module 0 "m" file 0: "w"
module 1 "m" file 1: "a"
region 0 "r" at 00000000 size 16 used 8 free 8 [.#.#.#.#.#.#.#.#................]
section 0 00000000 size 4 align 1 "a" module 1 region 0
section 1 00000004 size 4 align 1 "c" module 1 region 0
public 00000000 "main" module 1
sections 2 bytes 8 loaded 8
$ map --plan p --keep q a
[1] refused: keep: Unknown "q"
# All is located where no name is given.
$ dump --plan p a
[1] refused: locate: Undefined "q"
# A name that no public of the list has, an empty one, and one of a member that nothing needs.
$ dump --plan p --keep q a
[1] refused: keep: Unknown "q"
$ dump --keep= a
[1] refused: keep: Unknown ""
$ dump --plan p --keep z a + n
[1] refused: keep: Unknown "z"
# It is looked for after the link and before the location.
$ dump --keep z a a
[1] refused: link: Duplicate "main"
$ dump --keep main a
[1] refused: locate: Unplaced section 0
"#;

/// Arguments, and the bytes of the file that they make.
const MADE: [(&str, &[u8]); 2] = [
    (
        "\n$ bin --plan p --keep main -o c a",
        b"\x00\x00\x00\x04\x01\x02\x03\x04",
    ),
    (
        "\n$ txt --plan p --keep main -o c a",
        b"@0000\n00 00 00 04 01 02 03 04\nq\n",
    ),
];

#[test]
fn what_a_public_needs_is_kept(rt: HostRuntime) {
    replay(rt.alloc(), FILES, KEPT).expect(&rt, "a transcript");
    for (line, bytes) in MADE {
        let mut session = Session::new(rt.alloc(), FILES);
        session.replay(line).expect(&rt, "a transcript");
        assert_eq!(rt; session.made(), bytes, "{line}");
    }
}

/// Room for the sections of three modules, and for commons.
const WIDE: &[u8] =
    b"[[region]]\nname = \"r\"\nbase = 0\nsize = 32\nsections = [\"*\"]\ncommon = true\n";

/// A public and the section with a base that it is in.
const BASED: Held = Held::Section(
    b"\xE6\x01\xC1\xD3\x01t\xE2\xD3\x01\x02\xE2\xCC\x01\x20",
    b"\xE8\x20\x01y\xE2\xC9\x20\xD2\x01",
    b"\xE5\x01\xED\x02\x05\x06",
);

/// Two sections: the one of `main` requests the common `v`, and the other for the common `u`.
const ASKING: Held = Held::Section(
    b"\xE6\x01\xC3\x01a\xE2\xD3\x01\x04\xE6\x02\xC3\x01b\xE2\xD3\x02\x04",
    b"\xE8\x20\x04main\xE2\xC9\x20\xD2\x01\xE9\x0B\x01u\xF4\x0B\x06\xE9\x0C\x01v\xF4\x0C\x04",
    b"\xE5\x01\xE4\xBE\xD8\x0C\xBF\xE5\x02\xE4\xBE\xD8\x0B\xBF",
);

/// Three sections: the counter of the one of `main` is set by an expression that names the third.
const COUNTING: Held = Held::Section(
    b"\xE6\x01\xC3\x01a\xE2\xD3\x01\x04\xE6\x02\xC3\x01b\xE2\xD3\x02\x04\xE6\x03\xC3\x01c\xE2\xD3\x03\x04",
    b"\xE8\x20\x04main\xE2\xC9\x20\xD2\x01",
    b"\xE5\x01\xE2\xD0\x01\xD2\x01\xD2\x03\xA5\xD2\x03\xA6\xED\x04\x0A\x0B\x0C\x0D\xE5\x03\xED\x04\x01\x02\x03\x04",
);

/// Three sections: `main` is in the first, the second holds its address, and nothing needs the third.
const VECTORS: Held = Held::Section(
    b"\xE6\x01\xC3\x01a\xE2\xD3\x01\x04\xE6\x02\xC3\x01v\xE2\xD3\x02\x04\xE6\x03\xC3\x01u\xE2\xD3\x03\x04",
    b"\xE8\x20\x04main\xE2\xC9\x20\xD2\x01",
    b"\xE5\x01\xED\x04\x01\x02\x03\x04\xE5\x02\xE4\xBE\xD2\x01\xBF\xE5\x03\xED\x04\x05\x06\x07\x08",
);

/// A plan that keeps the section `v`, and one that keeps `b`.
const KEEPS_V: &[u8] =
    b"keep = [\"v\", \"none\"]\n[[region]]\nname = \"r\"\nbase = 0\nsize = 16\nsections = [\"v\", \"*\"]\n";

const KEEPS_B: &[u8] =
    b"keep = [\"b\"]\n[[region]]\nname = \"r\"\nbase = 0\nsize = 16\nsections = [\"*\"]\n";

/// Modules of which more is needed than the section of a public and those that its fields name, and plans.
const USES: &[File] = &[
    ("p", Held::Bytes(PLAN)),
    ("wide", Held::Bytes(WIDE)),
    ("a", MODULE),
    ("based", BASED),
    ("asking", ASKING),
    ("counting", COUNTING),
    ("vectors", VECTORS),
    ("keeps-v", Held::Bytes(KEEPS_V)),
    ("keeps-b", Held::Bytes(KEEPS_B)),
    ("program", Held::Relocatable),
    ("library", Held::Library),
    // `main`, and a reference to `z`.
    (
        "x",
        Held::Section(
            SECTION,
            b"\xE8\x20\x04main\xE2\xC9\x20\xD2\x01\xE9\x0B\x01z",
            REFERENCE,
        ),
    ),
    (
        "w",
        Held::Section(SECTION, b"\xE8\x20\x01z\xE2\xC9\x20\xD2\x01", b""),
    ),
];

/// What is kept by each rule of docs/COMMANDS.md.
const RULES: &str = r#"
# What the start address uses, and what that needs: of `program` all but its public.
$ dump --plan wide --keep z program library w
00000000: 4E 71 4E 71 00 00 00 04 00 00 00 04 4E 75
start 00000004
public 0000000C "exit"
public 0000000E "z"
# A section with a base, but not its public.
$ dump --plan p --keep main a based
00000000: 00 00 00 04 01 02 03 04
00000020: 05 06
public 00000000 "main"
# A common that a kept section requests, and not the other one.
$ map --plan wide --keep main asking
module 0 "m" file 0: "asking"
region 0 "r" at 00000000 size 32 used 8 free 24 [####....####....................]
section 0 00000000 size 4 align 1 "a" module 0 region 0
common 1 00000008 size 4 align 8 "v" region 0
public 00000000 "main" module 0
sections 2 bytes 8 loaded 4
# A public of another module, by a reference.
$ dump --plan p --keep main x w
00000000: 00 00 00 04
public 00000000 "main"
public 00000004 "z"
# A section that only the setting of a program counter names.
$ dump --plan p --keep main counting
00000000: 0A 0B 0C 0D 01 02 03 04
public 00000000 "main"
# Two symbols, the second of which needs `q`.
$ dump --plan p --keep main --keep u a
[1] refused: locate: Undefined "q"
# A symbol twice.
$ dump --plan p --keep main --keep=main a
00000000: 00 00 00 04 01 02 03 04
public 00000000 "main"
# The first name that no public has.
$ dump --plan p --keep main --keep z --keep y a
[1] refused: keep: Unknown "z"
# A section that the plan keeps needs `q`.
$ dump --plan keeps-b --keep main a
[1] refused: locate: Undefined "q"
# A section that the plan keeps, though nothing mentions it.
$ dump --plan keeps-v --keep main vectors
00000000: 00 00 00 04 01 02 03 04
public 00000004 "main"
# Without `--keep` the plan's key changes nothing.
$ dump --plan keeps-v vectors
00000000: 00 00 00 04 01 02 03 04 05 06 07 08
public 00000004 "main"
"#;

#[test]
fn each_rule_keeps_what_it_says(rt: HostRuntime) {
    replay(rt.alloc(), USES, RULES).expect(&rt, "a transcript");
}
