//! Raw images, the listing of a module, and the texts of the program itself.

use mufom_runs::{File, Held, Session, replay};

/// Two sections of one byte, at 16 and 19, with a byte each.
const TWO_BYTES: Held = Held::Section(
    b"\xE6\x01\xC1\xD3\x01t\xE2\xD3\x01\x01\xE2\xCC\x01\x10\xE6\x02\xC1\xD3\x01t\xE2\xD3\x02\x01\xE2\xCC\x02\x13",
    b"",
    b"\xE5\x01\xED\x01\x62\xE5\x02\xED\x01\x63",
);

/// These two sections; the second of them at 67,108,880; a repeat; other modules; and a plan with regions before, between
/// and behind the bytes, and one that is too large.
const FILES: &[File] = &[
    ("a", TWO_BYTES),
    (
        "far",
        Held::Section(
            b"\xE6\x01\xC1\xD3\x01t\xE2\xD3\x01\x01\xE2\xCC\x01\x10\xE6\x02\xC1\xD3\x01t\xE2\xD3\x02\x01\xE2\xCC\x02\x84\x04\x00\x00\x10",
            b"",
            b"\xE5\x01\xED\x01\x62\xE5\x02\xED\x01\x63",
        ),
    ),
    (
        "twice",
        Held::Section(
            b"\xE6\x01\xC1\xD3\x01t\xE2\xD3\x01\x04\xE2\xCC\x01\x10",
            b"",
            b"\xE5\x01\xF7\x02\xED\x01\x09",
        ),
    ),
    ("absolute", Held::Absolute),
    ("empty", Held::Empty),
    (
        "p",
        Held::Bytes(
            b"region = [\n\
                { name = \"low\", base = 14, size = 3, sections = [] },\n\
                { name = \"high\", base = 17, size = 4, sections = [] },\n\
                { name = \"wide\", base = 0, size = 67108865, sections = [] },\n\
            ]\n",
        ),
    ),
];

/// Arguments, and the bytes of the file that they make.
const MADE: [(&str, &[u8]); 6] = [
    ("\n$ bin --plan p --region low -o c a", b"\x00\x00\x62"),
    (
        "\n$ bin --plan p --region high --fill FF -o c a",
        b"\xFF\xFF\x63\xFF",
    ),
    ("\n$ bin -o c absolute", b"\x4E\x71\x4E\x75"),
    ("\n$ bin -o c --fill Fa a", b"\x62\xFA\xFA\x63"),
    ("\n$ bin -oc a", b"\x62\x00\x00\x63"),
    ("\n$ bin -o c empty", b""),
];

#[test]
fn regions_and_runs_are_written_with_what_is_between(rt: HostRuntime) {
    for (line, bytes) in MADE {
        let mut session = Session::new(rt.alloc(), FILES);
        session.replay(line).expect(&rt, "a transcript");
        assert_eq!(rt; session.made(), bytes, "{line}");
    }
}

const TEXTS: &str = r#"
$ bin --plan p --region rom -o c a
[1] refused: bin: Region "rom"
$ bin --plan p --region wide -o c a
[1] refused: bin: TooLong 67108865
$ bin -o c far
[1] refused: bin: TooLong 67108865
$ show --listing twice
module "m" processor "68000" maus 4 order M
section 0 "t" AS size 4 align 1 base 16
select 0
repeat 2
  bytes 1 09
end
$ version
mufom 1.0.0
$ --version
mufom 1.0.0
$ help nothing
[2] usage: bad words
$ help
(help)
$ --help
(help)
$ -h
(help)
"#;

#[test]
fn texts_are_printed_and_long_images_refused(rt: HostRuntime) {
    replay(rt.alloc(), FILES, TEXTS).expect(&rt, "a transcript");
}
