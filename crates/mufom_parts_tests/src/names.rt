//! Tests of finding public symbols by name: in the table of a module, and in an index.

ghost use Rattle.std.specs.Prelude.{◌<◌, ◌^◌, length};

use mufom_expr::Postfix;
use mufom_names::{
    HashSeed, KeyIndex, NameIndex, NameTable, Public, Reference, Weak, reference_key,
};
use mufom_numbers::{Bytes, List};
use std::alloc::Global;
use std::process::Abort;

// Adds a public with this name.
fn declare(rt: &impl Abort, alloc: Global, table: &mut NameTable, name: &[u8]) {
    let public = Public {
        name: Bytes::from_slice(alloc, name).expect(rt, "memory"),
        value: Postfix::constant(alloc, 0).expect(rt, "memory"),
        notes: List::new(alloc),
    };
    table.publics.push(public).expect(rt, "memory");
}

// A table with the publics `f` and `g`.
fn table(rt: &impl Abort, alloc: Global) -> NameTable {
    let mut table = NameTable {
        publics: List::new(alloc),
        references: List::new(alloc),
    };
    declare(rt, alloc, &mut table, b"f");
    declare(rt, alloc, &mut table, b"g");
    table
}

fn find(rt: &impl Abort, table: &NameTable, name: &[u8]) -> Option<u32> {
    assert!(rt; table.publics.len() < 1 << 32);
    table.find(name)
}

fn duplicate(rt: &impl Abort, table: &NameTable) -> Option<u32> {
    assert!(rt; table.publics.len() < 1 << 32);
    table.duplicate()
}

// Names, and their positions in a table with `f`, `g` and `f` again.
static PLACES: [(&[u8], Option<u32>); 3] = [(b"f", Some(0)), (b"g", Some(1)), (b"h", None)];

#[test]
fn publics_are_found_by_name(rt: HostRuntime) {
    let mut table = table(&rt, rt.alloc());
    declare(&rt, rt.alloc(), &mut table, b"f");
    for (name, want) in &PLACES {
        assert_eq!(rt; &find(&rt, &table, name), want, "{name:?}");
    }
}

#[test]
fn a_name_that_stands_twice_is_found(rt: HostRuntime) {
    let mut table = table(&rt, rt.alloc());
    assert_eq!(rt; duplicate(&rt, &table), None);
    declare(&rt, rt.alloc(), &mut table, b"f");
    assert_eq!(rt; duplicate(&rt, &table), Some(2));
}

// Names, and their positions in an index to which `f` was added as 7 and then as 9, and `g` as 9.
static POSITIONS: [(&[u8], Option<u32>); 3] = [(b"f", Some(7)), (b"g", Some(9)), (b"h", None)];

#[test]
fn a_name_keeps_its_first_position(rt: HostRuntime) {
    let mut index = NameIndex::new(rt.alloc(), HashSeed::new());
    assert_eq!(rt; index.add(b"f", 7), Ok(None));
    assert_eq!(rt; index.add(b"f", 9), Ok(Some(7)));
    assert_eq!(rt; index.add(b"g", 9), Ok(None));
    for (name, want) in &POSITIONS {
        assert_eq!(rt; &index.find(name), want, "{name:?}");
    }
}

// The key of a reference to `q` with this weak part.
fn key(rt: &impl Abort, alloc: Global, weak: Option<Weak>) -> Vec<u8> {
    let reference = Reference {
        name: Bytes::from_slice(alloc, b"q").expect(rt, "memory"),
        weak,
        notes: List::new(alloc),
    };
    reference_key(alloc, &reference).expect(rt, "memory")
}

const WEAK: Weak = Weak {
    size: 4,
    default: 0,
};

#[test]
fn equal_references_have_one_position(rt: HostRuntime) {
    let alloc = rt.alloc();
    let mut index = KeyIndex::new(alloc, HashSeed::new());
    assert_eq!(rt; index.add(key(&rt, alloc, None), 0), Ok(None));
    assert_eq!(rt; index.add(key(&rt, alloc, Some(WEAK)), 1), Ok(None));
    assert_eq!(rt; index.add(key(&rt, alloc, None), 2), Ok(Some(0)));
}
