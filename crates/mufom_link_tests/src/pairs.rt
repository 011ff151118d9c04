//! Lists of two modules that are linked: two halves that need each other, each refusal, and
//! references that become one, stay apart or are met.

use crate::files::{Unlinked, links_to, refuses};
use mufom_drafts::Records;
use mufom_link::may_be_linked;
use mufom_meaning::Descriptor;
use mufom_module::Order;

#[test]
fn an_empty_list_may_not_be_linked(rt: HostRuntime) {
    assert_eq!(rt; may_be_linked(&[], b"a"), false);
}

// ---- two halves

// A section `t` of four bytes.
const FOUR_BYTES: &[u8] = b"\xE6\x01\xC3\x01t\xE2\xD3\x01\x04";

// It has the public `f`, which is the base of its section, and a field of the reference `g`.
const F_HALF: Records<'static> = Records {
    sections: FOUR_BYTES,
    external: b"\xE8\x20\x01f\xE2\xC9\x20\xD2\x01\xE9\x0B\x01g",
    data: b"\xE5\x01\xE4\xBE\xD8\x0B\x90\x04\xBF",
    ..Records::NONE
};

// It has the public `g`, which is one more than the base of its section, and a field of the reference `f` and 2.
const G_HALF: Records<'static> = Records {
    sections: FOUR_BYTES,
    external: b"\xE8\x20\x01g\xE2\xC9\x20\xD2\x01\x01\xA5\xE9\x0B\x01f",
    data: b"\xE5\x01\xE4\xBE\xD8\x0B\x02\xA5\x90\x04\xBF",
    ..Records::NONE
};

// The section of the second half is 2 here, and its public 21. Both references are gone, and the publics are in
// their places: I 21 for `g`, and I 20 for `f`.
const HALVES: Records<'static> = Records {
    sections: b"\xE6\x01\xC3\x01t\xE2\xD3\x01\x04\xE6\x02\xC3\x01t\xE2\xD3\x02\x04",
    external: b"\xE8\x20\x01f\xE2\xC9\x20\xD2\x01\
    \xE8\x21\x01g\xE2\xC9\x21\xD2\x02\x01\xA5",
    data: b"\xE5\x01\xE4\xBE\xC9\x21\x90\x04\xBF\
    \xE5\x02\xE4\xBE\xC9\x20\x02\xA5\x90\x04\xBF",
    ..Records::NONE
};

#[test]
fn references_become_the_publics_that_meet_them(rt: HostRuntime) {
    links_to(&rt, rt.alloc(), &[&F_HALF, &G_HALF], &HALVES);
}

// ---- refusals

// The public `main`, which is 0.
const MAIN: &[u8] = b"\xE8\x20\x04main\xE2\xC9\x20\x00";

// The start is 1000.
const START: &[u8] = b"\xE2\xC7\xBE\x82\x10\x00\xBF";

const DEFINING: Records<'static> = Records {
    external: MAIN,
    ..Records::NONE
};

const STARTING: Records<'static> = Records {
    trailer: START,
    ..Records::NONE
};

const BOTH: Records<'static> = Records {
    external: MAIN,
    trailer: START,
    ..Records::NONE
};

// As that one, with two units in an address.
const TWO_UNITS: Records<'static> = Records {
    descriptor: b"\xEC\x08\x02\xCD",
    external: MAIN,
    trailer: START,
    ..Records::NONE
};

// As that one, with the least significant byte first.
const LEAST_FIRST: Records<'static> = Records {
    descriptor: b"\xEC\x08\x04\xCC",
    external: MAIN,
    trailer: START,
    ..Records::NONE
};

// The descriptors of these modules.
const FOUR_MOST: Descriptor = Descriptor {
    maus: 4,
    order: Order::Most,
};

const TWO_MOST: Descriptor = Descriptor {
    maus: 2,
    order: Order::Most,
};

const FOUR_LEAST: Descriptor = Descriptor {
    maus: 4,
    order: Order::Least,
};

// Two modules, and why they are not linked.
const REFUSED: [([&Records<'static>; 2], Unlinked); 5] = [
    ([&DEFINING, &DEFINING], Unlinked::Duplicate(b"main")),
    ([&BOTH, &BOTH], Unlinked::Duplicate(b"main")),
    ([&BOTH, &TWO_UNITS], Unlinked::Mismatch(FOUR_MOST, TWO_MOST)),
    (
        [&BOTH, &LEAST_FIRST],
        Unlinked::Mismatch(FOUR_MOST, FOUR_LEAST),
    ),
    ([&STARTING, &STARTING], Unlinked::DuplicateStart),
];

#[test]
fn lists_are_refused_in_order(rt: HostRuntime) {
    for number in 0..REFUSED.len() {
        let (list, why) = &REFUSED[number];
        refuses(&rt, rt.alloc(), number, list, why);
    }
}

// ---- references of one name

// A section `t` of one byte.
const ONE_BYTE: &[u8] = b"\xE6\x01\xC3\x01t\xE2\xD3\x01\x01";

const TWO_OF_ONE_BYTE: &[u8] =
    b"\xE6\x01\xC3\x01t\xE2\xD3\x01\x01\xE6\x02\xC3\x01t\xE2\xD3\x02\x01";

// A field of one byte, which has the value of the first reference.
const FIELD: &[u8] = b"\xE5\x01\xE4\xBC\xD8\x0B\x90\x01\xBD";

// Two such fields, of the first reference and of the second.
const FIRST_AND_SECOND: &[u8] =
    b"\xE5\x01\xE4\xBC\xD8\x0B\x90\x01\xBD\xE5\x02\xE4\xBC\xD8\x0C\x90\x01\xBD";

// The reference `q`.
const STRONG: Records<'static> = Records {
    sections: ONE_BYTE,
    external: b"\xE9\x0B\x01q",
    data: FIELD,
    ..Records::NONE
};

// The reference `q` with a note.
const NOTED: Records<'static> = Records {
    sections: ONE_BYTE,
    external: b"\xE9\x0B\x01q\xF1\xD8\x0B\x00\x07\x01",
    data: FIELD,
    ..Records::NONE
};

// The weak reference `q`, with the default 1.
const WEAK_ONE: Records<'static> = Records {
    sections: ONE_BYTE,
    external: b"\xE9\x0B\x01q\xF4\x0B\x00\x01",
    data: FIELD,
    ..Records::NONE
};

// The weak reference `q`, with the default 2.
const WEAK_TWO: Records<'static> = Records {
    sections: ONE_BYTE,
    external: b"\xE9\x0B\x01q\xF4\x0B\x00\x02",
    data: FIELD,
    ..Records::NONE
};

// The public `q`, which is 7.
const PUBLIC: Records<'static> = Records {
    external: b"\xE8\x20\x01q\xE2\xC9\x20\x07",
    ..Records::NONE
};

// The field of the second module has the one reference too.
const ONE_REFERENCE: Records<'static> = Records {
    sections: TWO_OF_ONE_BYTE,
    external: b"\xE9\x0B\x01q",
    data: b"\xE5\x01\xE4\xBC\xD8\x0B\x90\x01\xBD\xE5\x02\xE4\xBC\xD8\x0B\x90\x01\xBD",
    ..Records::NONE
};

#[test]
fn equal_references_become_one(rt: HostRuntime) {
    links_to(&rt, rt.alloc(), &[&STRONG, &STRONG], &ONE_REFERENCE);
}

// The second reference, with its note, is 0C here.
const NOTED_APART: Records<'static> = Records {
    sections: TWO_OF_ONE_BYTE,
    external: b"\xE9\x0B\x01q\xE9\x0C\x01q\xF1\xD8\x0C\x00\x07\x01",
    data: FIRST_AND_SECOND,
    ..Records::NONE
};

#[test]
fn a_note_keeps_references_apart(rt: HostRuntime) {
    links_to(&rt, rt.alloc(), &[&STRONG, &NOTED], &NOTED_APART);
}

// The second reference, with its default, is 0C here.
const DEFAULTS_APART: Records<'static> = Records {
    sections: TWO_OF_ONE_BYTE,
    external: b"\xE9\x0B\x01q\xF4\x0B\x00\x01\xE9\x0C\x01q\xF4\x0C\x00\x02",
    data: FIRST_AND_SECOND,
    ..Records::NONE
};

// I 20 replaces both references.
const BOTH_MET: Records<'static> = Records {
    sections: TWO_OF_ONE_BYTE,
    external: b"\xE8\x20\x01q\xE2\xC9\x20\x07",
    data: b"\xE5\x01\xE4\xBC\xC9\x20\x90\x01\xBD\xE5\x02\xE4\xBC\xC9\x20\x90\x01\xBD",
    ..Records::NONE
};

#[test]
fn weak_references_stay_apart_and_a_public_meets_both(rt: HostRuntime) {
    links_to(&rt, rt.alloc(), &[&WEAK_ONE, &WEAK_TWO], &DEFAULTS_APART);
    links_to(&rt, rt.alloc(), &[&WEAK_ONE, &WEAK_TWO, &PUBLIC], &BOTH_MET);
}
