//! Three modules with unlike numbers of sections, publics, references and debug names, so that each kind of
//! position moves by another number in each. Names are met in both directions across all three.

use crate::files::links_to;
use mufom_drafts::Records;

// One section and the public `one`, which is its base. The reference `three` is defined in the second module,
// and `five` in the third; there is a field of each.
const FIRST: Records<'static> = Records {
    sections: b"\xE6\x01\xC3\x02a0\xE2\xD3\x01\x10",
    external: b"\
    \xE8\x20\x03one\xE2\xC9\x20\xD2\x01\
    \xE9\x0B\x05three\
    \xE9\x0C\x04five",
    debug: b"\xF0\x20\x01u",
    data: b"\
    \xE5\x01\
    \xE4\xBE\xD8\x0B\x90\x04\xBF\
    \xE4\xBE\xD8\x0C\xD0\x01\xA6\x90\x04\xBF",
    ..Records::NONE
};

// Three sections and two publics: `three` of a section, and `four` of a section, that public and a reference. The
// reference `one` is defined in the first module, `lost`, with the default 3, in none, and `six`, which requests four
// bytes, in the third. There are two debug names and a value of the second, and in the data a counter, a field of `lost`, and
// repeats of a byte and a field of the counter and `six`.
const SECOND: Records<'static> = Records {
    sections: b"\xE6\x01\xC3\x02b0\xE2\xD3\x01\x10\xE6\x02\xC3\x02b1\xE2\xD3\x02\x10\xE6\x03\xC3\x02b2\xE2\xD3\x03\x10",
    external: b"\
    \xE8\x20\x05three\xE2\xC9\x20\xD2\x01\x08\xA5\
    \xE8\x21\x04four\xE2\xC9\x21\xD2\x03\xC9\x20\xA5\xD8\x0B\xA6\
    \xE9\x0B\x03one\
    \xE9\x0C\x04lost\xF4\x0C\x00\x03\
    \xE9\x0D\x03six\xF4\x0D\x04\x01",
    debug: b"\xF0\x20\x01v\xF0\x21\x01w\xE2\xCE\x21\xD2\x03",
    data: b"\
    \xE5\x02\
    \xE2\xD0\x02\xCC\x02\x04\xA5\
    \xE4\xBE\xD8\x0C\x90\x04\xBF\
    \xF7\x02\xE4\x01\x09\xBA\xD0\x02\xD8\x0D\xA5\x90\x04\xBB",
    ..Records::NONE
};

// Two sections and three publics: `five` of a section, `six` of a section and a reference, and `seven` of these two.
// No module defines the references `lost`, which is that of the second module, and `gone`; the second module defines
// `four` and the first one `one`. A module block holds a name, a function and a part of the second section; the function
// holds a part of the first section with a name, a note of it, and a value of the name before. The start is of a
// section and `four`.
const THIRD: Records<'static> = Records {
    sections: b"\xE6\x01\xC3\x02c0\xE2\xD3\x01\x10\xE6\x02\xC3\x02c1\xE2\xD3\x02\x10",
    external: b"\
    \xE8\x20\x04five\xE2\xC9\x20\xD2\x02\
    \xE8\x21\x03six\xE2\xC9\x21\xD3\x01\xD8\x0C\xA5\
    \xE8\x22\x05seven\xE2\xC9\x22\xC9\x20\xC9\x21\xA5\
    \xE9\x0B\x04lost\xF4\x0B\x00\x03\
    \xE9\x0C\x04four\
    \xE9\x0D\x03one\
    \xE9\x0E\x04gone",
    debug: b"\
    \xF8\x03\x00\x01b\
    \xF0\x20\x01x\
    \xF8\x04\x00\x01b\x07\x08\xC9\x21\
    \xF8\x0B\x00\x01b\x01\x01\xD2\x01\
    \xF0\x21\x01y\
    \xF1\xCE\x21\x00\x07\x0C\
    \xE2\xCE\x20\xD8\x0C\x01\xA5\
    \xF9\xD2\x01\x02\xA5\
    \xF9\xD8\x0E\
    \xF8\x0B\x00\x01b\x01\x02\xD2\x02\
    \xF9\x05\
    \xF9",
    data: b"\
    \xE5\x01\
    \xE4\xBE\xD8\x0D\xD8\x0E\xA5\x90\x04\xBF\
    \xE5\x02\
    \xE4\xBE\xD8\x0B\x90\x04\xBF",
    trailer: b"\xE2\xC7\xBE\xD2\x02\xD8\x0C\xA5\xBF",
    ..Records::NONE
};

// Their link. The sections of the second module are 2 to 4, those of the third 5 and 6.
const SECTIONS: &[u8] = b"\
    \xE6\x01\xC3\x02a0\xE2\xD3\x01\x10\
    \xE6\x02\xC3\x02b0\xE2\xD3\x02\x10\
    \xE6\x03\xC3\x02b1\xE2\xD3\x03\x10\
    \xE6\x04\xC3\x02b2\xE2\xD3\x04\x10\
    \xE6\x05\xC3\x02c0\xE2\xD3\x05\x10\
    \xE6\x06\xC3\x02c1\xE2\xD3\x06\x10";

// The publics are 20 to 25 in their order. In `four` the section moves by 1, `three` is 21, and the reference is
// `one`, 20; in `five` and `six` the section moves by 4, and the reference is `four`, 22; `seven` is the sum of 23
// and 24. The two references that no module defines are 0B and 0C.
const NAMES: &[u8] = b"\
    \xE8\x20\x03one\xE2\xC9\x20\xD2\x01\
    \xE8\x21\x05three\xE2\xC9\x21\xD2\x02\x08\xA5\
    \xE8\x22\x04four\xE2\xC9\x22\xD2\x04\xC9\x21\xA5\xC9\x20\xA6\
    \xE8\x23\x04five\xE2\xC9\x23\xD2\x06\
    \xE8\x24\x03six\xE2\xC9\x24\xD3\x05\xC9\x22\xA5\
    \xE8\x25\x05seven\xE2\xC9\x25\xC9\x23\xC9\x24\xA5\
    \xE9\x0B\x04lost\xF4\x0B\x00\x03\
    \xE9\x0C\x04gone";

// The names of the second module move by 1, those of the third by 3. The function goes from `six`, 24, to `gone`, 0C,
// and the value in it is `four`, 22, and 1.
const DEBUG: &[u8] = b"\
    \xF0\x20\x01u\
    \xF0\x21\x01v\xF0\x22\x01w\xE2\xCE\x22\xD2\x04\
    \xF8\x03\x00\x01b\
    \xF0\x23\x01x\
    \xF8\x04\x00\x01b\x07\x08\xC9\x24\
    \xF8\x0B\x00\x01b\x01\x05\xD2\x05\
    \xF0\x24\x01y\
    \xF1\xCE\x24\x00\x07\x0C\
    \xE2\xCE\x23\xC9\x22\x01\xA5\
    \xF9\xD2\x05\x02\xA5\
    \xF9\xD8\x0C\
    \xF8\x0B\x00\x01b\x01\x06\xD2\x06\
    \xF9\x05\
    \xF9";

// In the first module `three`, 21, and `five`, 23, meet the references; in the second `lost` is 0B, and `six`, 24, is
// met; in the third `one`, 20, is met, and `gone` is 0C. `lost` is that of the second module.
const LOADS: &[u8] = b"\
    \xE5\x01\
    \xE4\xBE\xC9\x21\x90\x04\xBF\
    \xE4\xBE\xC9\x23\xD0\x01\xA6\x90\x04\xBF\
    \xE5\x03\
    \xE2\xD0\x03\xCC\x03\x04\xA5\
    \xE4\xBE\xD8\x0B\x90\x04\xBF\
    \xF7\x02\xE4\x01\x09\xBA\xD0\x03\xC9\x24\xA5\x90\x04\xBB\
    \xE5\x05\
    \xE4\xBE\xC9\x20\xD8\x0C\xA5\x90\x04\xBF\
    \xE5\x06\
    \xE4\xBE\xD8\x0B\x90\x04\xBF";

// The start is that of the third module: its section moves by 4, and `four` defines its name.
const ALL: Records<'static> = Records {
    sections: SECTIONS,
    external: NAMES,
    debug: DEBUG,
    data: LOADS,
    trailer: b"\xE2\xC7\xBE\xD2\x06\xC9\x22\xA5\xBF",
    ..Records::NONE
};

#[test]
fn positions_move_in_each_module_by_numbers_of_its_own(rt: HostRuntime) {
    links_to(&rt, rt.alloc(), &[&FIRST, &SECOND, &THIRD], &ALL);
}
