//! One walk over the loads: each copy of a field has a counter of its own, and of the bytes that
//! are loaded twice the first goes by the order of the loads.

use crate::located::COUNTER;
use mufom_drafts::{Data, Draft};
use mufom_expr::FieldKind::Unsigned;
use mufom_expr::Token::Number;
use mufom_expr::{Env, Letter};
use mufom_image_bytes::{ImageStop, LoadRefusal, image_of_module};
use std::alloc::Global;

// An environment in which no variable has a value.
#[derive(Drop)]
struct Empty;

impl Env for Empty {
    ghost use Rattle.std.specs.Prelude.{None};

    ghost meaning = { λ _ letter n. None };

    fn lookup(&self, _letter: Letter, _index: u32) -> Option<u64> {
        None
    }
}

// One section of 16 bytes, into which all is put.
fn section(alloc: Global) -> Draft {
    let mut draft = Draft::new(alloc, 2);
    draft.section(b"t", 16, None);
    draft.select(0);
    draft
}

// One byte at an address.
fn byte_at(draft: &mut Draft, address: u64) {
    draft.counter(0, &[Number(address)]);
    draft.once(Data::Bytes(b"x"));
}

// A byte at 264, and a field of two bytes with the counter, three times from 256 on.
fn copies(alloc: Global) -> Draft {
    let mut draft = section(alloc);
    byte_at(&mut draft, 264);
    draft.counter(0, &[Number(256)]);
    draft.repeat(3, &[Data::Field(Unsigned, 2, &[COUNTER])]);
    draft
}

// Bytes at 260 and 256, and again both.
fn doubles(alloc: Global) -> Draft {
    let mut draft = section(alloc);
    byte_at(&mut draft, 260);
    byte_at(&mut draft, 256);
    byte_at(&mut draft, 260);
    byte_at(&mut draft, 256);
    draft
}

#[test]
fn copies_of_a_field_have_their_own_counters(rt: HostRuntime) {
    let alloc = rt.alloc();
    let module = copies(alloc).module().expect(&rt, "a module");
    let Ok(runs) = image_of_module(alloc, module.parts(), &[256], &Empty) else {
        panic!(rt; "no image");
    };
    let [first, second] = runs.as_slice() else {
        panic!(rt; "not two rows");
    };
    assert_eq!(rt; first.address, 256);
    assert_eq!(rt; first.bytes.as_slice(), &[1, 0, 1, 2, 1, 4][..]);
    assert_eq!(rt; second.address, 264);
    assert_eq!(rt; second.bytes.as_slice(), &b"x"[..]);
}

#[test]
fn the_first_double_goes_by_the_order_of_the_loads(rt: HostRuntime) {
    let alloc = rt.alloc();
    let module = doubles(alloc).module().expect(&rt, "a module");
    match image_of_module(alloc, module.parts(), &[256], &Empty) {
        Err(ImageStop::Refused(LoadRefusal::Twice { address })) => assert_eq!(rt; address, 260),
        _ => panic!(rt; "no double"),
    }
}
