//! Modules of one file that are located, and what keeps them from that.

use mufom_drafts::Records;
use mufom_drafts::files::EMPTY;
use mufom_runs::{File, Held, Session, replay};

/// Among them a module with an empty section inside another, one whose section ends with the addresses, and ones with
/// addresses of one byte and of eight.
const FILES: &[File] = &[
    ("empty", Held::Empty),
    ("m", Held::Absolute),
    (
        "inside",
        Held::Section(
            b"\xE6\x01\xC1\xD3\x01t\xE2\xD3\x01\x10\xE2\xCC\x01\x82\x01\x00\xE6\x02\xC1\xD3\x01t\xE2\xCC\x02\x82\x01\x00",
            b"",
            b"",
        ),
    ),
    (
        "last",
        Held::Section(
            b"\xE6\x01\xC1\xD3\x01t\xE2\xD3\x01\x10\xE2\xCC\x01\x84\xFF\xFF\xFF\xF0",
            b"",
            b"",
        ),
    ),
    (
        "byte",
        Held::Records(Records {
            descriptor: b"\xEC\x08\x01\xCD",
            sections: b"\xE6\x01\xC1\xD3\x01t\xE2\xD3\x01\x04\xE2\xCC\x01\x81\xFC",
            data: b"\xE5\x01\xF7\x04\xE4\xBC\xD0\x01\x90\x01\xBD",
            ..Records::NONE
        }),
    ),
    (
        "eight",
        Held::Records(Records {
            descriptor: b"\xEC\x08\x08\xCD",
            sections: b"\xE6\x01\xC1\xD3\x01t\xE2\xD3\x01\x04\xE2\xCC\x01\x88\xFF\xFF\xFF\xFF\xFF\xFF\xFF\xFC",
            data: b"\xE5\x01\xE4\xBA\xD2\x01\x90\x04\xBB",
            ..Records::NONE
        }),
    ),
];

const IMAGES: &str = r#"
$ dump empty
$ locate -o c m
$ dump c
00001000: 4E 71 4E 75
start 00001000
$ dump inside
$ dump last
$ dump byte
FC: FC FD FE FF
$ dump eight
FFFFFFFFFFFFFFFC: FF FF FF FC
"#;

#[test]
fn modules_have_their_images(rt: HostRuntime) {
    replay(rt.alloc(), FILES, IMAGES).expect(&rt, "a transcript");
}

/// Sections past the last address; bytes outside of their section, which has two at 16, and twice; and names without a
/// value.
const WITHOUT: &[File] = &[
    (
        "past",
        Held::Section(
            b"\xE6\x01\xC1\xD3\x01t\xE2\xD3\x01\x11\xE2\xCC\x01\x84\xFF\xFF\xFF\xF0",
            b"",
            b"",
        ),
    ),
    (
        "high",
        Held::Section(
            b"\xE6\x01\xC1\xD3\x01t\xE2\xCC\x01\x85\x01\x00\x00\x00\x00",
            b"",
            b"",
        ),
    ),
    (
        "wide",
        Held::Records(Records {
            descriptor: b"\xEC\x08\x08\xCD",
            sections: b"\xE6\x01\xC1\xD3\x01t\xE2\xD3\x01\x05\xE2\xCC\x01\x88\xFF\xFF\xFF\xFF\xFF\xFF\xFF\xFC",
            ..Records::NONE
        }),
    ),
    (
        "outside",
        Held::Section(
            b"\xE6\x01\xC1\xD3\x01t\xE2\xD3\x01\x02\xE2\xCC\x01\x10",
            b"",
            b"\xE5\x01\xED\x03abc",
        ),
    ),
    (
        "twice",
        Held::Section(
            b"\xE6\x01\xC1\xD3\x01t\xE2\xD3\x01\x02\xE2\xCC\x01\x10",
            b"",
            b"\xE5\x01\xED\x01a\xE2\xD0\x01\x10\xED\x01b",
        ),
    ),
    ("undefined", Held::Section(b"", b"\xE9\x0B\x01q", b"")),
    (
        "zero",
        Held::Section(b"", b"\xE8\x20\x01d\xE2\xC9\x20\x01\x00\xA7", b""),
    ),
    (
        "common",
        Held::Section(b"", b"\xE9\x0B\x01c\xF4\x0B\x04", b""),
    ),
];

const REFUSED: &str = r#"
$ dump past
[1] refused: locate: Misfit section 0
$ dump high
[1] refused: locate: Misfit section 0
$ dump wide
[1] refused: locate: Misfit section 0
$ dump outside
[1] refused: locate: LoadOutside section 0 at 00000012
$ dump twice
[1] refused: locate: LoadedTwice 00000010
$ dump undefined
[1] refused: locate: Undefined "q"
$ dump zero
[1] refused: locate: DivideByZero public "d"
$ dump common
[1] refused: locate: CommonUnplaced "c"
"#;

#[test]
fn modules_without_an_image_are_refused(rt: HostRuntime) {
    replay(rt.alloc(), WITHOUT, REFUSED).expect(&rt, "a transcript");
}

/// The absolute module as it is located.
const LOCATED: &[u8] = b"\
    \xE0\x05\x36\x38\x30\x30\x30\x01\x41\xEC\x08\x04\xCD\xE2\xD7\x00\x84\x00\x00\x00\x00\xE2\xD7\x01\x84\x00\x00\x00\x00\xE2\xD7\x02\
    \x84\x00\x00\x00\x4D\xE2\xD7\x03\x84\x00\x00\x00\x00\xE2\xD7\x04\x84\x00\x00\x00\x00\xE2\xD7\x05\x84\x00\x00\x00\x64\xE2\xD7\x06\
    \x84\x00\x00\x00\x72\xE2\xD7\x07\x84\x00\x00\x00\x79\xE6\x01\xC1\xD3\xD0\x04\x63\x6F\x64\x65\xE7\x01\x02\xE2\xD3\x01\x04\xE2\xCC\
    \x01\x82\x10\x00\xE5\x01\xE2\xD0\x01\x82\x10\x00\xED\x04\x4E\x71\x4E\x75\xE2\xC7\xBE\x82\x10\x00\xBF\xE1\
    ";

#[test]
fn absolute_modules_are_located_as_they_are(rt: HostRuntime) {
    let mut session = Session::new(rt.alloc(), FILES);
    let located = session.replay("\n$ locate -o d empty");
    located.expect(&rt, "a transcript");
    assert!(rt; session.made() == EMPTY.as_slice());
    let located = session.replay("\n$ locate -o e m");
    located.expect(&rt, "a transcript");
    assert!(rt; session.made() == LOCATED);
}
