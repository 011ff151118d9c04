//! Debug parts: addresses of a located one, and one of another form that is passed over.

use mufom_drafts::Records;
use mufom_runs::{File, Held, replay};

/// A module block with a name and a global function, which has a name with a note and a value.
const BLOCKS: &[u8] =
    b"\xF8\x03\x00\x04prog\xF0\x20\x01x\xF8\x04\x00\x04main\x00\x00\xD2\x01\xF0\x21\x01l\
      \xF1\xCE\x21\x00\x07\x0C\x00\xE2\xCE\x21\xD2\x01\x02\xA5\xF9\xD2\x01\x0F\xA5\xF9";

const AT_256: &[u8] = b"[[region]]\nname = \"r\"\nbase = 256\nsize = 16\nsections = [\"*\"]\n";

/// A section `code` of 16 bytes, and the blocks; and a plan.
const LOCAL: &[File] = &[
    (
        "a",
        Held::Records(Records {
            sections: b"\xE6\x01\xC3\xD0\x04code\xE2\xD3\x01\x10",
            debug: BLOCKS,
            ..Records::NONE
        }),
    ),
    ("p", Held::Bytes(AT_256)),
];

/// The absolute module with a debug part of another form before its loads.
const OTHER_FORM: &[File] = &[(
    "a",
    Held::Bytes(
        b"\
    \xE0\x05\x36\x38\x30\x30\x30\x01\x41\xEC\x08\x04\xCD\xE2\xD7\x00\x84\x00\x00\x00\x00\xE2\xD7\x01\x84\x00\x00\x00\x00\xE2\xD7\x02\
    \x84\x00\x00\x00\x4D\xE2\xD7\x03\x84\x00\x00\x00\x00\xE2\xD7\x04\x84\x00\x00\x00\x64\xE2\xD7\x05\x84\x00\x00\x00\x68\xE2\xD7\x06\
    \x84\x00\x00\x00\x76\xE2\xD7\x07\x84\x00\x00\x00\x7B\xE6\x01\xC1\xD3\xD0\x04\x63\x6F\x64\x65\xE7\x01\x02\xE2\xD3\x01\x04\xE2\xCC\
    \x01\x82\x10\x00\xF2\x20\xCE\x01\xE5\x01\xE2\xD0\x01\x82\x10\x00\xED\x04\x4E\x71\x4E\x75\xE2\xC7\x82\x10\x00\xE1\
    ",
    ),
)];

const ADDRESSES: &str = r#"
$ dump --plan p a
debug 0 00000100 begin 4 "main"
debug 1 00000102 name "l"
debug 2 0000010F end 4 "main"
$ addr --at 105 --plan p a
function 4 "main" 00000100 0000010F
line 12 00000102 source none
$ addr --plan p --at=101 a
function 4 "main" 00000100 0000010F
line none
$ addr --plan p a --at 0000000000000110
function none
line 12 00000102 source none
$ show a
module "m" processor "68000" maus 4 order M
section 0 "code" CP size 16 align 1
block 3 "prog"
  name 0 "x"
  block 4 "main" stack 0 type 0 offset R0
    name 1 "l"
    note 1 type 0 attribute 7 12 0
    value 1 = (R0 + 2)
  end = (R0 + 15)
end
$ check a
file 0 "m": sections 1 publics 0 references 0 loads 0 debug 6
"#;

const PASSED_OVER: &str = r#"
$ dump a
[1] refused: file 0 at 100: UnsupportedRecord
$ dump --no-debug a
00001000: 4E 71 4E 75
start 00001000
"#;

#[test]
fn debug_parts_are_located_or_refused_or_passed_over(rt: HostRuntime) {
    let alloc = rt.alloc();
    replay(alloc, LOCAL, ADDRESSES).expect(&rt, "a transcript");
    replay(alloc, OTHER_FORM, PASSED_OVER).expect(&rt, "a transcript");
}
