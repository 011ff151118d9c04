//! What is printed of a common that does not fit its region, and of undefined names.

ghost use Rattle.std.specs.Prelude.{◌∷◌, [], IsTrue};
ghost use Rattle.mufom_plan.specs.SoundPlans.{IsSoundPlan};
ghost use Rattle.mufom_image.specs.Refusals.{IsMet};
ghost use Rattle.mufom_planned.specs.Planned.{copied_answer};
ghost use Rattle.mufom_planned.specs.PlanLaws.{AreLoadedInPlace};
ghost use Rattle.mufom_names.specs.Names.{names_of, AreDistinct};

use mufom_drafts::Draft;
use mufom_explain::{FlatModule, LocateContext, explain_locate};
use mufom_host::MemHost;
use mufom_image::{LocateRefusal, locate};
use mufom_module::Module;
use mufom_numbers::List;
use mufom_origins::{ModuleFiles, Origins};
use mufom_plan::{Plan, read_plan};
use mufom_text::print_lines;
use std::alloc::Global;
use std::process::Abort;

const PLAN: &[u8] = b"\
[[region]]
name = \"ram\"
base = 256
size = 13
sections = [\"t\"]
common = true
";

const MISFIT: &str = "\
    common 2: \"c\" size 6 align 8\n\
    \x20 module 0 \"a\" file 0: \"a.695\"\n\
    \x20 module 1 \"b\" file 1: \"b.695\"\n\
    region 0: \"ram\" base 00000100 size 13, its sections take 14\n\
    ";

const UNDEFINED: &str = "\
    \"z\": reference in module 0\n\
    \"z\": reference in module 1\n\
    \"y\": reference in module 0\n\
    \"y\": reference in module 1\n\
    module 0 \"a\" file 0: \"a.695\"\n\
    module 1 \"b\" file 1: \"b.695\"\n\
    ";

/// References by name, each with its size if it is weak.
type References<'a> = &'a [(&'a [u8], Option<u64>)];

// The module of this name with sections `t` of four units and with these references.
fn module(rt: &impl Abort, alloc: Global, name: &[u8], sections: u32, all: References) -> Module {
    let mut draft = Draft::new(alloc, 4);
    draft.title(b"", name);
    for _ in 0..sections {
        draft.section_row(&(b"t", false, None, 4, 4, None));
    }
    for (name, size) in all {
        match size {
            Some(size) => draft.weak(name, *size, 0),
            None => draft.reference(name),
        }
    }
    draft.module().expect(rt, "a module")
}

// Modules `a` and `b` with these references.
fn two(rt: &impl Abort, alloc: Global, first: References, second: References) -> Vec<Module> {
    let mut modules = Vec::new(alloc);
    let first = module(rt, alloc, b"a", 1, first);
    modules.push(first).expect(rt, "memory");
    let second = module(rt, alloc, b"b", 1, second);
    modules.push(second).expect(rt, "memory");
    modules
}

// The files of modules `a` and `b`.
fn files(rt: &impl Abort, alloc: Global) -> ModuleFiles {
    let mut files = ModuleFiles::new(alloc);
    files.add(alloc, 0, "a.695", None, 1).expect(rt, "memory");
    files.add(alloc, 1, "b.695", None, 1).expect(rt, "memory");
    files
}

// Whether each region is loaded where it is.
fn loads_in_place(plan: &Plan) -> bool
    ensures { IsTrue result → AreLoadedInPlace plan.now.regions }
{
    plan.regions
        .as_slice()
        .iter()
        .all(|region| region.load.is_none())
}

// The error of a module that is not located by a plan.
fn refusal(rt: &impl Abort, alloc: Global, module: &Module, plan: &Plan) -> LocateRefusal
    requires { IsSoundPlan plan.now }
    ensures names { AreDistinct (names_of «module».now.names.publics) }
    ensures met { IsMet (copied_answer («module».now ∷ []) plan.now) result }
{
    if !loads_in_place(plan) {
        panic!(rt; "a region is loaded elsewhere");
    }
    let names = &module.parts().names;
    assert!(rt; names.publics.len() < 1 << 32);
    let None = names.duplicate() else {
        panic!(rt; "a name occurs twice");
    };
    match locate(alloc, module, plan) {
        Ok(_) => panic!(rt; "it is located"),
        Err(refusal) => refusal,
    }
}

// What is printed of the error of a module by a plan, which is the link of modules.
fn explains(
    rt: &impl Abort,
    alloc: Global,
    modules: &[Module],
    module: &Module,
    plan: &[u8],
    lines: &str,
) {
    let plan = read_plan(alloc, plan).expect(rt, "a plan");
    assert!(rt; modules.len() < 1 << 32);
    let origins = Origins::of(alloc, modules).expect(rt, "memory");
    let mut flat = Vec::new(alloc);
    for position in 0..modules.len() {
        let flat_module = FlatModule {
            place: position as u32,
            parts: modules[position].parts(),
        };
        flat.push(flat_module).expect(rt, "memory");
    }
    let names = files(rt, alloc);
    let refusal = refusal(rt, alloc, module, &plan);
    assert!(rt; flat.len() < 1 << 32);
    let context = LocateContext {
        names: &names,
        flat: &flat,
        origins: &origins,
        module,
        own: module,
        plan: &plan,
    };
    let details = explain_locate(alloc, context, &refusal).expect(rt, "memory");
    let (reads, writes) = (List::new(alloc), List::new(alloc));
    let host = MemHost::new(alloc, List::new(alloc), reads, writes, 4096);
    let mut host = host.expect(rt, "memory");
    assert!(rt; print_lines(alloc, &mut host, &details).is_ok());
    assert_eq!(rt; host.out(), lines.as_bytes());
}

#[test]
fn a_common_does_not_fit(rt: HostRuntime) {
    let alloc = rt.alloc();
    let modules = two(&rt, alloc, &[(b"c", Some(4))], &[(b"c", Some(6))]);
    let all: References = &[(b"c", Some(4)), (b"c", Some(6))];
    let module = module(&rt, alloc, b"a", 2, all);
    explains(&rt, alloc, &modules, &module, PLAN, MISFIT);
}

#[test]
fn names_are_undefined(rt: HostRuntime) {
    let alloc = rt.alloc();
    let first: References = &[(b"y", Some(0)), (b"z", None)];
    let modules = two(&rt, alloc, first, &[(b"z", None), (b"y", None)]);
    let all: References = &[(b"y", Some(0)), (b"z", None), (b"y", None)];
    let module = module(&rt, alloc, b"a", 2, all);
    explains(&rt, alloc, &modules, &module, PLAN, UNDEFINED);
}
