//! Members that are selected for roots: for members, for weak and defined names, in a circle and in
//! a chain.

use crate::files::module;
use mufom_drafts::Records;
use mufom_module::Module;
use mufom_select::select;
use std::alloc::Global;
use std::process::Abort;

// The names that a module defines, those that it needs and those to which it refers weakly, each a byte below 128.
type Names<'a> = [&'a [u8]; 3];

// Adds records.
fn add(rt: &impl Abort, external: &mut Vec<u8>, records: &[u8]) {
    external.extend_from_slice(records).expect(rt, "memory");
}

// Adds publics of these names, each with the value 0. A name is its own index.
fn add_publics(rt: &impl Abort, external: &mut Vec<u8>, names: &[u8]) {
    for name in names {
        add(rt, external, &[0xE8, *name, 1, *name, 0xE2, 0xC9, *name, 0]);
    }
}

// Adds references to these names.
fn add_references(rt: &impl Abort, external: &mut Vec<u8>, names: &[u8]) {
    for name in names {
        add(rt, external, &[0xE9, *name, 1, *name]);
    }
}

// Adds weak references to these names, each of no size.
fn add_weak(rt: &impl Abort, external: &mut Vec<u8>, names: &[u8]) {
    for name in names {
        add(rt, external, &[0xE9, *name, 1, *name, 0xF4, *name, 0]);
    }
}

// The module of these names.
fn module_with(rt: &impl Abort, alloc: Global, names: &Names<'_>) -> Module {
    let mut external = Vec::new(alloc);
    let [defines, needs, wants] = names;
    add_publics(rt, &mut external, defines);
    add_references(rt, &mut external, needs);
    add_weak(rt, &mut external, wants);
    let records = Records {
        external: &external,
        ..Records::NONE
    };
    module(rt, alloc, &records)
}

// The modules of these names.
fn modules_with(rt: &impl Abort, alloc: Global, all_names: &[Names<'_>]) -> Vec<Module> {
    let mut all = Vec::new(alloc);
    for names in all_names {
        all.push(module_with(rt, alloc, names)).expect(rt, "memory");
    }
    all
}

// Of these members the ones at the wanted positions are selected for the roots.
fn selects(
    rt: &impl Abort,
    alloc: Global,
    roots: &Names<'_>,
    members: &[Names<'_>],
    wanted: &[u32],
) {
    let roots = module_with(rt, alloc, roots);
    let all = modules_with(rt, alloc, members);
    assert!(rt; all.len() < 1 << 32);
    let chosen = select(alloc, &roots, &all).expect(rt, "memory");
    assert_eq!(rt; chosen.as_slice(), wanted, "{members:?}");
}

const NEEDS_F: Names<'static> = [b"", b"f", b""];

const FIRST_AND_SECOND: [Names<'static>; 2] = [[b"f", b"g", b""], [b"fg", b"", b""]];

const SECOND_ALONE: [Names<'static>; 2] = [[b"h", b"", b""], [b"fg", b"", b""]];

#[test]
fn members_are_selected_for_members(rt: HostRuntime) {
    selects(&rt, rt.alloc(), &NEEDS_F, &FIRST_AND_SECOND, &[0, 1]);
    selects(&rt, rt.alloc(), &NEEDS_F, &SECOND_ALONE, &[1]);
}

const DEFINES_A: Names<'static> = [b"a", b"ab", b"c"];

const MEMBERS: [Names<'static>; 4] = [
    [b"a", b"", b""],
    [b"c", b"", b""],
    [b"d", b"e", b""],
    [b"b", b"ad", b"c"],
];

#[test]
fn weak_and_defined_names_select_nothing(rt: HostRuntime) {
    selects(&rt, rt.alloc(), &DEFINES_A, &MEMBERS, &[2, 3]);
}

const NEEDS_B: Names<'static> = [b"", b"b", b""];

const CIRCLE: [Names<'static>; 3] = [[b"a", b"b", b""], [b"b", b"c", b""], [b"c", b"a", b""]];

#[test]
fn a_circle_is_selected_whole(rt: HostRuntime) {
    selects(&rt, rt.alloc(), &NEEDS_B, &CIRCLE, &[0, 1, 2]);
}

// The numbers from 0 to the last.
fn numbers(rt: &impl Abort, alloc: Global, last: u8) -> Vec<u8> {
    let mut names = Vec::new(alloc);
    for name in 0..last {
        names.push(name).expect(rt, "memory");
    }
    names.push(last).expect(rt, "memory");
    names
}

// Members of which each defines a name and needs the one before it.
fn chain<'a>(rt: &impl Abort, alloc: Global, names: &'a [u8]) -> Vec<Names<'a>> {
    let mut members = Vec::new(alloc);
    for pair in names.windows(2) {
        let (needs, defines) = pair.split_at(1);
        members.push([defines, needs, b""]).expect(rt, "memory");
    }
    members
}

// The positions below the last.
fn positions(rt: &impl Abort, alloc: Global, last: u32) -> Vec<u32> {
    let mut positions = Vec::new(alloc);
    for position in 0..last {
        positions.push(position).expect(rt, "memory");
    }
    positions
}

#[test]
fn a_chain_is_selected_from_its_end(rt: HostRuntime) {
    let alloc = rt.alloc();
    let names = numbers(&rt, alloc, 100);
    let members = chain(&rt, alloc, &names);
    let wanted = positions(&rt, alloc, 100);
    selects(&rt, alloc, &[b"", &[100], b""], &members, &wanted);
}
