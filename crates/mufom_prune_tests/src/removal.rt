//! One module of three sections, of which a public needs two.

use mufom_drafts::{Data, Draft};
use mufom_expr::FieldKind::Either;
use mufom_expr::Letter::{R, X};
use mufom_expr::Postfix;
use mufom_expr::Token::Var;
use mufom_loads::{Item, Load};
use mufom_module::{Module, Parts};
use mufom_numbers::{Bytes, List};
use mufom_prune::{PruneRefusal, prune, prune_for, prune_with_marks};
use std::alloc::Global;
use std::process::Abort;

fn text(rt: &impl Abort, alloc: Global, bytes: &[u8]) -> Bytes {
    Bytes::from_slice(alloc, bytes).expect(rt, "memory")
}

// The sections `a`, `b` and `c`, the publics `main` in the first and `u` in the second, and the
// reference `q`. The first section holds the address of the third one, the second one that of `q`.
fn draft(alloc: Global) -> Draft {
    let mut draft = Draft::new(alloc, 4);
    draft.section(b"a", 4, None);
    draft.section(b"b", 4, None);
    draft.section(b"c", 4, None);
    draft.public(b"main", &[Var(R, 0)]);
    draft.public(b"u", &[Var(R, 1)]);
    draft.reference(b"q");
    draft.select(0);
    draft.once(Data::Field(Either, 4, &[Var(R, 2)]));
    draft.select(1);
    draft.once(Data::Field(Either, 4, &[Var(X, 0)]));
    draft.select(2);
    draft.once(Data::Bytes(&[1, 2, 3, 4]));
    draft
}

fn module_of(rt: &impl Abort, draft: Draft) -> Module {
    draft.module().expect(rt, "a module")
}

fn program(rt: &impl Abort, alloc: Global) -> Module {
    module_of(rt, draft(alloc))
}

fn has_section(rt: &impl Abort, parts: &Parts, place: usize, name: &[u8]) {
    match parts.sections.get(place) {
        Some(section) => assert_eq!(rt; section.name.as_slice(), name, "{place}"),
        None => panic!(rt; "no section {place}"),
    }
}

fn has_public(rt: &impl Abort, parts: &Parts, place: usize, name: &[u8]) {
    match parts.names.publics.get(place) {
        Some(public) => assert_eq!(rt; public.name.as_slice(), name, "{place}"),
        None => panic!(rt; "no public {place}"),
    }
}

// A field that holds the base of this section.
fn has_field(rt: &impl Abort, parts: &Parts, place: usize, section: u32) {
    let base = Postfix::single(Var(R, section));
    match parts.loads.get(place) {
        Some(Load::One(Item::Field { value, .. })) => assert!(rt;
            value.equals(&base),
            "load {place}"
        ),
        _ => panic!(rt; "load {place} is not a field"),
    }
}

#[test]
fn what_main_does_not_need_is_gone(rt: HostRuntime) {
    let alloc = rt.alloc();
    let module = program(&rt, alloc);
    match prune(alloc, &module, b"main") {
        Ok(rest) => {
            let parts = rest.parts();
            assert_eq!(rt; parts.sections.len(), 2, "sections");
            has_section(&rt, parts, 0, b"a");
            has_section(&rt, parts, 1, b"c");
            assert_eq!(rt; parts.names.publics.len(), 1, "publics");
            has_public(&rt, parts, 0, b"main");
            assert_eq!(rt; parts.names.references.len(), 0, "references");
            assert_eq!(rt; parts.loads.len(), 4, "loads");
            // The section `c` is now the second one.
            has_field(&rt, parts, 1, 1);
        }
        Err(_) => panic!(rt; "main is refused"),
    }
}

#[test]
fn a_name_that_no_public_has_is_unknown(rt: HostRuntime) {
    let alloc = rt.alloc();
    let module = program(&rt, alloc);
    match prune(alloc, &module, b"z") {
        Err(PruneRefusal::Unknown(name)) => assert_eq!(rt; name.as_slice(), b"z".as_slice()),
        _ => panic!(rt; "an unknown name"),
    }
}

#[test]
fn what_the_start_mentions_is_kept(rt: HostRuntime) {
    let alloc = rt.alloc();
    let mut draft = draft(alloc);
    draft.start(&[Var(R, 1)]);
    match prune(alloc, &module_of(&rt, draft), b"main") {
        Ok(rest) => {
            let parts = rest.parts();
            assert_eq!(rt; parts.sections.len(), 3, "sections");
            // The section of `u` is kept, with the reference in its loads, but not `u`.
            assert_eq!(rt; parts.names.publics.len(), 1, "publics");
            assert_eq!(rt; parts.names.references.len(), 1, "references");
            assert_eq!(rt; parts.loads.len(), 6, "loads");
            assert!(rt; parts.start.is_some(), "the start");
        }
        Err(_) => panic!(rt; "main is refused"),
    }
}

#[test]
fn a_section_with_a_base_is_kept_and_marked(rt: HostRuntime) {
    let alloc = rt.alloc();
    let mut draft = draft(alloc);
    draft.section(b"d", 4, Some(4096));
    match prune_with_marks(alloc, &module_of(&rt, draft), b"main") {
        Ok(left) => {
            has_section(&rt, left.module.parts(), 2, b"d");
            let sections = [true, false, true, true];
            assert_eq!(rt; left.sections.as_slice(), sections.as_slice(), "sections");
            assert_eq!(rt;
                left.publics.as_slice(),
                [true, false].as_slice(),
                "publics"
            );
        }
        Err(_) => panic!(rt; "main is refused"),
    }
}

// What is left for these names of publics, if the sections with these other names always stay: a mark for each
// section and each public, or the name that no public has.
fn left_for(rt: &impl Abort, alloc: Global, names: &[&[u8]], stays: &[&[u8]]) -> String {
    let mut kept = List::new(alloc);
    for name in names {
        kept.push(text(rt, alloc, name)).expect(rt, "memory");
    }
    let mut staying = List::new(alloc);
    for name in stays {
        staying.push(text(rt, alloc, name)).expect(rt, "memory");
    }
    let module = program(rt, alloc);
    match prune_for(alloc, &module, kept.as_slice(), staying.as_slice()) {
        Ok(left) => {
            let (sections, publics) = (left.sections, left.publics);
            format!(in alloc; "{sections:?} {publics:?}").expect(rt, "memory")
        }
        Err(refusal) => format!(in alloc; "{refusal:?}").expect(rt, "memory"),
    }
}

#[test]
fn several_names_and_sections_are_kept(rt: HostRuntime) {
    let alloc = rt.alloc();
    let (main, u, y, z): (&[u8], &[u8], &[u8], &[u8]) = (b"main", b"u", b"y", b"z");
    let (b, none): (&[u8], &[u8]) = (b"b", b"none");
    let all = "[true, true, true] [true, true]";
    assert_eq!(rt;
        left_for(&rt, alloc, &[main, u], &[]).as_str(),
        all,
        "both names"
    );
    let once = "[true, false, true] [true, false]";
    assert_eq!(rt;
        left_for(&rt, alloc, &[main, main], &[]).as_str(),
        once,
        "a name twice"
    );
    let second = "[true, true, true] [true, false]";
    let staying = left_for(&rt, alloc, &[main], &[b, none, b]);
    assert_eq!(rt; staying.as_str(), second, "a section that stays");
    let alone = "[false, true, false] [false, false]";
    assert_eq!(rt; left_for(&rt, alloc, &[], &[b]).as_str(), alone, "no name");
    let first = "Unknown(Bytes { held: [122] })";
    assert_eq!(rt;
        left_for(&rt, alloc, &[main, z, y], &[]).as_str(),
        first,
        "unknown names"
    );
}
