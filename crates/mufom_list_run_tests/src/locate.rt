//! Programs that are located by a plan, and lists of modules that are linked.

use crate::pieces::PAGE;
use mufom_drafts::files::LINKED;
use mufom_runs::{File, Held, Session, replay};

/// A region for the sections of the program and its library.
const BOARD: &[u8] =
    b"[[region]]\nname = \"rom\"\nbase = 8192\nsize = 256\nsections = [\".text\"]\n";

const BOARDED: &[File] = &[
    ("p", Held::Bytes(BOARD)),
    ("m", Held::Relocatable),
    ("l", Held::Library),
];

const BOARD_TEXT: &str = r#"
$ dump --plan p m l
00002000: 4E 71 4E 71 00 00 20 04 00 00 00 04 4E 75
start 00002004
public 00002004 "main"
public 0000200C "exit"
"#;

/// Two modules that need each other, their link, one with nothing, a plan for them, and a file that is not a plan.
const BOTH: &[File] = &[
    ("a", Held::First),
    ("b", Held::Second),
    ("linked", Held::Linked),
    ("m", Held::Empty),
    ("p", Held::Bytes(PAGE)),
    ("bad", Held::Bytes(b"[[")),
];

/// The plan is read before the files; and what is not defined or not placed is refused.
const LOCATED: &str = r#"
$ locate --plan p -o d a b
$ dump d
00000100: 00 00 01 05 00 00 01 02
public 00000100 "f"
public 00000105 "g"
$ dump --plan none none
[3] read fault: plan
$ dump --plan bad none
[1] refused: plan: Syntax
$ dump --plan=p a
[1] refused: locate: Undefined "g"
$ dump a
[1] refused: locate: Unplaced section 0
"#;

#[test]
fn programs_are_located_by_their_plan(rt: HostRuntime) {
    let alloc = rt.alloc();
    replay(alloc, BOARDED, BOARD_TEXT).expect(&rt, "a transcript");
    replay(alloc, BOTH, LOCATED).expect(&rt, "a transcript");
}

/// The last one has a member that the roots need.
const LINKS: [&str; 4] = [
    "\n$ link -o c a b",
    "\n$ link [ [ a ] b ] -oc",
    "\n$ link a [ b ] -o=c",
    "\n$ link -o c a + m b",
];

#[test]
fn two_modules_are_linked_wherever_the_groups_stand(rt: HostRuntime) {
    for line in LINKS {
        let mut session = Session::new(rt.alloc(), BOTH);
        session.replay(line).expect(&rt, "a transcript");
        assert!(rt; session.made() == LINKED.as_slice(), "{line}");
    }
}

#[test]
fn groups_and_stages_are_located_as_the_flat_list(rt: HostRuntime) {
    let mut flat = Session::new(rt.alloc(), BOTH);
    let done = flat.replay("\n$ locate --plan p -o d a b");
    done.expect(&rt, "a transcript");
    assert!(rt; !flat.made().is_empty());
    for line in [
        "\n$ locate --plan=p -o d [ [ a ] b ]",
        "\n$ locate -od --plan=p linked",
    ] {
        let mut other = Session::new(rt.alloc(), BOTH);
        other.replay(line).expect(&rt, "a transcript");
        assert!(rt; other.made() == flat.made(), "{line}");
    }
}

/// A module, one with shorter addresses, and one with a start.
const UNLIKE: &[File] = &[
    ("a", Held::First),
    (
        "s",
        Held::Bytes(
            b"\
        \xE0\x05\x36\x38\x30\x30\x30\x01\x41\xEC\x08\x02\xCD\xE2\xD7\x00\x84\x00\x00\x00\x00\xE2\xD7\x01\x84\x00\x00\x00\x00\xE2\xD7\x02\
        \x84\x00\x00\x00\x00\xE2\xD7\x03\x84\x00\x00\x00\x00\xE2\xD7\x04\x84\x00\x00\x00\x00\xE2\xD7\x05\x84\x00\x00\x00\x00\xE2\xD7\x06\
        \x84\x00\x00\x00\x00\xE2\xD7\x07\x84\x00\x00\x00\x4D\xE1\
        ",
        ),
    ),
    ("m1", Held::Absolute),
];

const REFUSED: &str = r#"
$ link -o c a [ a ]
[1] refused: link: Duplicate "f"
$ link -o c a s
[1] refused: link: Mismatch 4 M 2 M
$ link -o c m1 m1
[1] refused: link: DuplicateStart
"#;

#[test]
fn lists_that_cannot_be_linked_are_refused(rt: HostRuntime) {
    replay(rt.alloc(), UNLIKE, REFUSED).expect(&rt, "a transcript");
}
