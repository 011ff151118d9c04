//! Images as TI-TXT texts, both ways.

use mufom_runs::{File, Held, Session, replay};

/// The text of four bytes at 4096.
const IMAGE: &[u8] = b"@1000\n4E 71 4E 75\nq\n";

const ORDERED: &[u8] =
    b"@0020\nAA BB\n@FFFE\n01 02 03 04 05 06 07 08 09 0A 0B 0C 0D 0E 0F 10\n11\nq\n";

/// Texts and modules. The text `unordered` has two rows, out of order and in lines of other lengths than those that are
/// written.
const FILES: &[File] = &[
    ("t", Held::Bytes(IMAGE)),
    ("returns", Held::Bytes(b"@f000\r\n4e\r\nq\r\n")),
    (
        "unordered",
        Held::Bytes(
            b"@fFfE\n01 02\n\n 03 04 05 06 07 08 09 0a 0b 0C 0D 0E 0F 10 11\r\n@20\n aa  bb\nQ\n\n",
        ),
    ),
    ("absolute", Held::Absolute),
    ("empty", Held::Empty),
    ("a", Held::Relocatable),
];

/// Arguments, and the text that they make.
const MADE: [(&str, &[u8]); 3] = [
    ("\n$ txt -o c absolute", IMAGE),
    ("\n$ txt --no-debug -oc empty", b"q\n"),
    ("\n$ fromtxt -o c unordered\n$ txt -o d c", ORDERED),
];

#[test]
fn images_are_written_as_texts(rt: HostRuntime) {
    for (line, text) in MADE {
        let mut session = Session::new(rt.alloc(), FILES);
        session.replay(line).expect(&rt, "a transcript");
        assert_eq!(rt; session.made(), text, "{line}");
    }
}

const MODULES: &str = r#"
$ fromtxt -o c t
$ check c
file 0 "text": sections 1 publics 0 references 0 loads 2 debug 0
$ dump c
00001000: 4E 71 4E 75
$ fromtxt --maus 2 -o d t
$ show d
module "text" processor "TXT" maus 2 order M
section 0 "txt" AS size 4 align 1 base 4096
select 0
bytes 4 4E714E75
$ fromtxt -o e returns
$ dump e
0000F000: 4E
$ txt -o c a
[1] refused: locate: Unplaced section 0
$ fromtxt -o c nowhere
[3] read fault: file 0
"#;

#[test]
fn texts_have_modules(rt: HostRuntime) {
    replay(rt.alloc(), FILES, MODULES).expect(&rt, "a transcript");
}

/// Texts that are wrong.
const FAULTY: &[File] = &[
    ("no-address", Held::Bytes(b"00 11\nq\n")),
    ("twice", Held::Bytes(b"@0\n00\n@0\n01\nq\n")),
    ("beyond", Held::Bytes(b"@FFFFFFFF\n00 01\nq\n")),
    ("no-end", Held::Bytes(b"@10\n")),
    ("nothing", Held::Bytes(b"")),
    ("odd", Held::Bytes(b"@10\n0\nq\n")),
    ("after", Held::Bytes(b"q\n\n@10\n")),
    (
        "last-twice",
        Held::Bytes(b"@FFFFFFFF\n00\n@FFFFFFFF\n00\nq\n"),
    ),
    ("first-wrong", Held::Bytes(b"@0\n00\n@0\n01\nx\nq\n")),
];

const WRONG: &str = r#"
$ fromtxt -o c no-address
[1] refused: text line 1: NoAddress
$ fromtxt -o c twice
[1] refused: text line 4: Twice 0
$ fromtxt -o c beyond
[1] refused: text line 2: Beyond
$ fromtxt -o c no-end
[1] refused: text line 2: NoEnd
$ fromtxt -o c nothing
[1] refused: text line 1: NoEnd
$ fromtxt -o c odd
[1] refused: text line 2: BadLine
$ fromtxt -o c after
[1] refused: text line 3: AfterEnd
$ fromtxt -o c last-twice
[1] refused: text line 4: Twice 4294967295
$ fromtxt -o c first-wrong
[1] refused: text line 4: Twice 0
"#;

#[test]
fn texts_are_refused_at_their_first_wrong_line(rt: HostRuntime) {
    replay(rt.alloc(), FAULTY, WRONG).expect(&rt, "a transcript");
}
