//! Listings, from which modules are built.

use mufom_runs::{File, Held, Session, replay};

/// The listing of the absolute module.
const LISTING: &[u8] = b"module \"A\" processor \"68000\" maus 4 order M\n\
    section 0 \"code\" ASP size 4 align 2 base 4096\n\
    select 0\n\
    counter 0 = 4096\n\
    bytes 4 4E714E75\n\
    start = 4096\n";

/// The same as it may be written by hand: spaces, blank lines, leading zeros, digits of either case, and the
/// byte of a name by its digits.
const UNTIDY: &[u8] = b"\n  module  \"\\x41\" processor \"68000\"  maus 04 order M \n\n\
    section 00 \"code\" ASP size 4 align 2 base 4096\n\
    select 0\n  counter 0  = 4096\n\
    bytes 04 4e714E75\n\
    start = 4096";

/// The two listings, the module of both, a listing of no more than a module, and listings that are wrong.
const FILES: &[File] = &[
    ("a", Held::Absolute),
    ("listing", Held::Bytes(LISTING)),
    ("untidy", Held::Bytes(UNTIDY)),
    (
        "good",
        Held::Bytes(b"module \"A\" processor \"6\" maus 4 order M\n"),
    ),
    ("none", Held::Bytes(b"")),
    ("word", Held::Bytes(b"modul \"A\"\n")),
    (
        "units",
        Held::Bytes(b"module \"A\" processor \"68000\" maus 256 order M\nsection 1 \"s\"\n"),
    ),
    (
        "place",
        Held::Bytes(
            b"module \"A\" processor \"6\" maus 4 order M\nsection 1 \"s\" C size 0 align 1\n",
        ),
    ),
    (
        "count",
        Held::Bytes(b"module \"A\" processor \"6\" maus 4 order M\nbytes 3 4E71\n"),
    ),
    (
        "defect",
        Held::Bytes(
            b"module \"A\" processor \"6\" maus 4 order M\nsection 0 \"s\" C size 0 align 0\n",
        ),
    ),
    (
        "block",
        Held::Bytes(b"module \"A\" processor \"6\" maus 4 order M\nblock 3 \"b\"\n"),
    ),
];

#[test]
fn modules_are_built_from_listings(rt: HostRuntime) {
    let mut linked = Session::new(rt.alloc(), FILES);
    let done = linked.replay("\n$ link -o d a");
    done.expect(&rt, "a transcript");
    assert!(rt; !linked.made().is_empty());
    for line in ["\n$ build -o d listing", "\n$ build -o d untidy"] {
        let mut built = Session::new(rt.alloc(), FILES);
        built.replay(line).expect(&rt, "a transcript");
        assert!(rt; built.made() == linked.made(), "{line}");
    }
}

const WRONG: &str = r#"
$ build -o c none
[1] refused: listing line 1 column 1: BadText
$ build -o c word
[1] refused: listing line 1 column 1: BadText
$ build -o c units
[1] refused: listing line 1 column 35: TooGreat
$ build -o c place
[1] refused: listing line 2 column 9: Position
$ build -o c count
[1] refused: listing line 2 column 7: Count
$ build -o c defect
[1] refused: listing: BadAlign
$ build -o c block
[1] refused: listing line 2 column 1: BadText
$ build -o c a
[1] refused: listing line 1 column 1: BadText
$ build -o c t
[3] read fault: file 0
"#;

#[test]
fn listings_are_refused_at_their_first_error(rt: HostRuntime) {
    replay(rt.alloc(), FILES, WRONG).expect(&rt, "a transcript");
}

const EXPLAINED: &str = r#"
$ explain build -o c place
refused: listing line 2 column 9: Position
file 0: "place"

(help Position)
$ explain build -o c defect
refused: listing: BadAlign
file 0: "defect"

(help BadAlign)
$ explain build -o c good
done
not tried: writing "c"
"#;

#[test]
fn refused_listings_are_explained(rt: HostRuntime) {
    replay(rt.alloc(), FILES, EXPLAINED).expect(&rt, "a transcript");
}
