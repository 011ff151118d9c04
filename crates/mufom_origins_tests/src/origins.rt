//! Origins of three modules of one public each, of which the last has a start.

use mufom_drafts::Draft;
use mufom_expr::Token::Number;
use mufom_origins::{Origins, Place};
use std::alloc::Global;
use std::process::Abort;

// A module of this name with a public of that name.
fn draft(alloc: Global, name: &[u8]) -> Draft {
    let mut draft = Draft::new(alloc, 4);
    draft.title(b"", name);
    draft.public(name, &[Number(0)]);
    draft
}

fn three(rt: &impl Abort, alloc: Global) -> Origins {
    let mut last = draft(alloc, b"m1");
    last.start(&[Number(0)]);
    let mut modules = Vec::new(alloc);
    for draft in [draft(alloc, b"r"), draft(alloc, b"m0"), last] {
        let module = draft.module().expect(rt, "a module");
        modules.push(module).expect(rt, "memory");
    }
    assert!(rt; modules.len() < 1 << 32);
    Origins::of(alloc, &modules).expect(rt, "memory")
}

#[test]
fn entries_have_places(rt: HostRuntime) {
    let origins = three(&rt, rt.alloc());
    assert_eq!(rt; origins.as_slice().len(), 3);
    assert_eq!(rt;
        origins.public(1),
        Some(Place {
            module: 1,
            entry: 0
        })
    );
    assert_eq!(rt; origins.public(3), None);
    assert_eq!(rt; origins.section(0), None);
    assert_eq!(rt; origins.reference(0), None);
    assert_eq!(rt; origins.start(), Some(2));
}

#[test]
fn selected_members_keep_their_files(rt: HostRuntime) {
    let origins = three(&rt, rt.alloc());
    let flat = origins.selected(rt.alloc(), 1, &[1]).expect(&rt, "memory");
    let modules = flat.as_slice();
    assert_eq!(rt; modules.len(), 2);
    assert_eq!(rt; (modules[0].place, modules[1].place), (0, 2));
    assert_eq!(rt; modules[1].name.as_slice(), &b"m1"[..]);
    assert_eq!(rt;
        flat.public(1),
        Some(Place {
            module: 1,
            entry: 0
        })
    );
    assert_eq!(rt; flat.start(), Some(1));
}

#[test]
fn publics_that_are_left_keep_their_modules(rt: HostRuntime) {
    let origins = three(&rt, rt.alloc());
    let left = origins
        .left(rt.alloc(), &[], &[false, true, true])
        .expect(&rt, "memory");
    assert_eq!(rt; left.as_slice().len(), 3);
    assert_eq!(rt;
        left.public(0),
        Some(Place {
            module: 1,
            entry: 0
        })
    );
    assert_eq!(rt;
        left.public(1),
        Some(Place {
            module: 2,
            entry: 0
        })
    );
    assert_eq!(rt; left.public(2), None);
    assert_eq!(rt; left.start(), Some(2));
}
