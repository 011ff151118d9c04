//! Explains the tasks that link modules.

ghost use Rattle.std.specs.Prelude.{◌≡◌, ◌≢◌, ◌<◌, ◌^◌, ◌∷◌, [], ℕ, List as list, Option as option, None, Some, length, map, All, IfOk, IfSome};
ghost use Rattle.std.specs.String.{string_bytes};
ghost use Rattle.mufom_host.specs.World.{NamedFile};
ghost use Rattle.mufom_image.specs.Refusals.{IsMet};
ghost use Rattle.mufom_planned.specs.Planned.{copied_answer, planned_answer, shared_name};
ghost use Rattle.mufom_locating.specs.Light.{weight_limit};
ghost use Rattle.mufom_planned.specs.ReadPlans.{IsReadPlan};
ghost use Rattle.mufom_locating.specs.Refusals.{IsMetBy};
ghost use Rattle.mufom_module.specs.declared.module.Parts.{Parts};
ghost use Rattle.mufom_names.specs.Names.{names_of, AreDistinct};
ghost use Rattle.mufom_module.specs.Written.{weight};
ghost use Rattle.mufom_plan.specs.declared.plan.Plan.{Plan as Planned};
ghost use Rattle.mufom_origins.specs.declared.origins.Origin.{Origin};
ghost use Rattle.mufom_origins.specs.Words.{all_files};
ghost use Rattle.mufom_meaning.specs.Absolute.{absolute_of};
ghost use Rattle.mufom_meaning.specs.Facts.{LinkFact};
ghost use Rattle.mufom_explain.specs.Flat.{flat_of};
ghost use Rattle.mufom_words.specs.Tree.{tree_of};
ghost use Rattle.mufom_groups.specs.Groups.{StopsWork};
ghost use Rattle.mufom_groups.specs.Linked.{linked, linked_module};
ghost use Rattle.mufom_groups.specs.Work.{stops};
ghost use Rattle.mufom_task.specs.Calls.{call_of};
ghost use Rattle.mufom_task.specs.Sound.{IsSoundInputs};
ghost use Rattle.mufom_task.specs.declared.task.Inputs.{Inputs as Reads};
ghost use Rattle.mufom_task.specs.declared.task.Product.{Product as Made};
ghost use Rattle.mufom_task.specs.declared.task.Request.TheVariants as request_variants;
ghost use Rattle.mufom_task.specs.declared.task.Task.{Task as Tasks};
ghost use Rattle.mufom_task.specs.declared.task.Task.TheVariants as task_variants;
ghost use Rattle.mufom_works.specs.FlatFiles.{files_with};
ghost use Rattle.mufom_works.specs.HasDetails.{IsRefusedFlat};
ghost use Rattle.mufom_prepare.specs.Locations.{AreLinkable, AreLocated, AreMapped, HasPlaces, HasPlan, IsObstacle};
ghost use Rattle.mufom_works.specs.Roots.{roots_by};
ghost use Rattle.mufom_prepare.specs.Prepared.{AreReadFrom};
ghost use Rattle.mufom_explain_modules.specs.Lists.{AreRefusedKept, AreUnkept, AreUnlocated, IsLocatedAs};
ghost use Rattle.mufom_explain_text.specs.Explains.{AskFor, Explains};
ghost use Rattle.mufom_explain_modules.specs.Lists.{LinksLists};
ghost use Rattle.mufom_explain_text.specs.Explains.{Tells};

use crate::flat::{copies, flat_modules};
use mufom_explain::{
    FlatModule, LocateContext, explain_link as link_details, explain_locate, explain_name,
    explain_shared,
};
use mufom_explain_text::{Details, file_of, print_done, print_explanation, unread_details};
use mufom_groups::{flat_places, refused_places};
use mufom_host::Host;
use mufom_locating::{PlannedRefusal, with_plan_symbols};
use mufom_module::Module;
use mufom_numbers::{Bytes, List, NoMemory, Text};
use mufom_origins::ModuleFiles;
use mufom_outcome::{Cause, Outcome};
use mufom_plan::Plan;
use mufom_prepare::{
    Location, Obstacle, Places, TracedModule, link_file, locate_modules, ready_of,
};
use mufom_refusals::{LinkRefusal, LocateRefusal, PruneRefusal};
use mufom_task::{Inputs, Loaded, Product, read_or_unread};
use std::alloc::Global;

// ---- lists that cannot be linked

// The modules of the list that cannot be linked, with their places among all modules that were read.
fn refused_list<'a>(
    alloc: Global,
    inputs: &Inputs,
    modules: &'a [Module],
) -> Result<Vec<FlatModule<'a>>, NoMemory>
    requires linkable { AreLinkable inputs.now modules.now }
    ensures list { IfOk result (λ flat. (f : LinkFact) → linked (tree_of inputs.now.marks) modules.now (stops f)
        → IsRefusedFlat inputs.now modules.now f (flat_of flat.items)) }
    ensures few { IfOk result (λ flat. length flat.items < 2 ^ 32) }
{
    let places = refused_places(alloc, inputs.marks.as_slice(), modules)?;
    flat_modules(alloc, modules, places.as_slice())
}

// Explains that modules cannot be linked; `names` are their files.
fn explain_refused<H: Host>(
    alloc: Global,
    words: &[String],
    inputs: &Inputs,
    names: &ModuleFiles,
    modules: &[Module],
    refusal: &LinkRefusal,
    host: &mut H,
) -> Outcome
    requires linkable { AreLinkable inputs.now modules.now }
    requires memory { refusal.now ≢ LinkRefusal.NoMemory }
    ensures { (files : option (list NamedFile)) (plan : Planned) (task : Tasks) (name : option (list ℕ))
        → AreReadFrom files inputs.now (all_files names.now) plan modules.now → LinksLists task inputs.now name
        → StopsWork (linked_module (tree_of inputs.now.marks) name modules.now) refusal.now
        → Tells (map (λ word. string_bytes word) words.now) task files (call_of H.meaning H.faults host.old host.new) result }
{
    let Ok(flat) = refused_list(alloc, inputs, modules) else {
        return Outcome::NoMemory;
    };
    match link_details(alloc, names, &flat, refusal) {
        Ok(details) => print_explanation(
            alloc,
            words,
            &Cause::Link(refusal),
            &Details::Link(details),
            host,
        ),
        Err(NoMemory) => Outcome::NoMemory,
    }
}

// Explains why modules are not linked: they cannot be, or memory ran out.
fn explain_unlinked<H: Host>(
    alloc: Global,
    words: &[String],
    inputs: &Inputs,
    names: &ModuleFiles,
    modules: &[Module],
    refusal: &LinkRefusal,
    host: &mut H,
) -> Outcome
    requires linkable { AreLinkable inputs.now modules.now }
    ensures { (files : option (list NamedFile)) (plan : Planned) (task : Tasks) (name : option (list ℕ))
        → AreReadFrom files inputs.now (all_files names.now) plan modules.now → LinksLists task inputs.now name
        → StopsWork (linked_module (tree_of inputs.now.marks) name modules.now) refusal.now
        → Tells (map (λ word. string_bytes word) words.now) task files (call_of H.meaning H.faults host.old host.new) result }
{
    match refusal {
        LinkRefusal::NoMemory => Outcome::NoMemory,
        _ => explain_refused(alloc, words, inputs, names, modules, refusal, host),
    }
}

// ---- what is kept

// The modules of the flat list, with their places among all modules that were read.
fn flat_list<'a>(
    alloc: Global,
    inputs: &Inputs,
    modules: &'a [Module],
    places: &Places,
) -> Result<Vec<FlatModule<'a>>, NoMemory>
    requires linkable { AreLinkable inputs.now modules.now }
    requires places { HasPlaces (tree_of inputs.now.marks) modules.now places.now }
    ensures flat { IfOk result (λ flat. flat_of flat.items ≡ files_with (tree_of inputs.now.marks) modules.now places.now.chosen) }
    ensures few { IfOk result (λ flat. length flat.items < 2 ^ 32) }
{
    let places = flat_places(alloc, places.roots, places.chosen.as_slice())?;
    flat_modules(alloc, modules, places.as_slice())
}

// Explains that no public symbol has the name that should be kept.
fn explain_unknown<H: Host>(
    alloc: Global,
    words: &[String],
    names: &ModuleFiles,
    flat: &[FlatModule<'_>],
    name: &Bytes,
    host: &mut H,
) -> Outcome
    requires few { length flat.now < 2 ^ 32 }
    ensures { (files : option (list NamedFile)) (inputs : Reads) (plan : Planned) (ms : list Parts) (keep : list (list ℕ)) (made : Made)
        → AreUnkept files inputs (all_files names.now) keep plan ms (flat_of flat.now) name.now
        → Tells (map (λ word. string_bytes word) words.now) (task_variants.Locate inputs keep made) files
        (call_of H.meaning H.faults host.old host.new) result }
{
    match explain_name(alloc, names, flat, name.as_slice()) {
        Ok(details) => print_explanation(
            alloc,
            words,
            &Cause::Keep(name),
            &Details::Name(details),
            host,
        ),
        Err(NoMemory) => Outcome::NoMemory,
    }
}

// Explains why nothing is kept of the link: no public symbol has the name, or memory ran out.
fn explain_unkept<H: Host>(
    alloc: Global,
    words: &[String],
    names: &ModuleFiles,
    flat: &[FlatModule<'_>],
    refusal: &PruneRefusal,
    host: &mut H,
) -> Outcome
    requires few { length flat.now < 2 ^ 32 }
    ensures { (files : option (list NamedFile)) (inputs : Reads) (plan : Planned) (ms : list Parts) (keep : list (list ℕ)) (made : Made)
        → AreRefusedKept files inputs (all_files names.now) keep plan ms (flat_of flat.now) refusal.now
        → Tells (map (λ word. string_bytes word) words.now) (task_variants.Locate inputs keep made) files
        (call_of H.meaning H.faults host.old host.new) result }
{
    match refusal {
        PruneRefusal::Unknown(name) => explain_unknown(alloc, words, names, flat, name, host),
        PruneRefusal::NoMemory => Outcome::NoMemory,
    }
}

// ---- locating

// Explains that a symbol of the plan has the name of a public of what is kept.
fn explain_shared_name<H: Host>(
    alloc: Global,
    words: &[String],
    inputs: &Inputs,
    names: &ModuleFiles,
    flat: &[FlatModule<'_>],
    plan: &Plan,
    name: &Bytes,
    host: &mut H,
) -> Outcome
    requires few { length flat.now < 2 ^ 32 }
    requires plan { IsReadPlan plan.now }
    ensures { (files : option (list NamedFile)) (ms : list Parts) (keep : list (list ℕ)) (made : Made) (part : Parts) (origins : list Origin)
        → AreUnlocated files inputs.now (all_files names.now) keep plan.now ms (flat_of flat.now) part origins
        → planned_answer (part ∷ []) plan.now ≡ Some (shared_name name.now)
        → Tells (map (λ word. string_bytes word) words.now) (task_variants.Locate inputs.now keep made) files
        (call_of H.meaning H.faults host.old host.new) result }
{
    match explain_shared(alloc, names, flat, plan, name.as_slice()) {
        Ok(details) => print_explanation(
            alloc,
            words,
            &Cause::SharedName(name),
            &Details::Shared {
                details,
                plan: inputs.plan.as_ref(),
            },
            host,
        ),
        Err(NoMemory) => Outcome::NoMemory,
    }
}

// Explains that what is kept cannot be located; `module` is what is located, with the plan's symbols.
fn explain_fact<H: Host>(
    alloc: Global,
    words: &[String],
    names: &ModuleFiles,
    flat: &[FlatModule<'_>],
    part: &TracedModule,
    module: &Module,
    plan: &Plan,
    refusal: &LocateRefusal,
    host: &mut H,
) -> Outcome
    requires few { length flat.now < 2 ^ 32 }
    requires names { AreDistinct (names_of «module».now.names.publics) }
    requires plan { IsReadPlan plan.now }
    requires met { IsMet (copied_answer («module».now ∷ []) plan.now) refusal.now }
    requires memory { refusal.now ≢ LocateRefusal.NoMemory }
    ensures { (files : option (list NamedFile)) (inputs : Reads) (ms : list Parts) (keep : list (list ℕ)) (made : Made)
        → AreUnlocated files inputs (all_files names.now) keep plan.now ms (flat_of flat.now) part.now.module part.now.origins
        → IsLocatedAs part.now.module plan.now «module».now
        → IsMetBy (planned_answer (part.now.module ∷ []) plan.now) (PlannedRefusal.Locate refusal.now)
        → Tells (map (λ word. string_bytes word) words.now) (task_variants.Locate inputs keep made) files
        (call_of H.meaning H.faults host.old host.new) result }
{
    let context = LocateContext {
        names,
        flat,
        origins: &part.origins,
        module,
        own: &part.module,
        plan,
    };
    let maus = module.parts().maus;
    match explain_locate(alloc, context, refusal) {
        Ok(details) => print_explanation(
            alloc,
            words,
            &Cause::Locate(refusal, maus),
            &Details::Locate(details),
            host,
        ),
        Err(NoMemory) => Outcome::NoMemory,
    }
}

// Explains an error of locating that is not out of memory. If the plan has symbols, what is kept is linked with
// them first.
fn explain_planned<H: Host>(
    alloc: Global,
    words: &[String],
    names: &ModuleFiles,
    flat: &[FlatModule<'_>],
    part: &TracedModule,
    plan: &Plan,
    refusal: &LocateRefusal,
    host: &mut H,
) -> Outcome
    requires few { length flat.now < 2 ^ 32 }
    requires names { AreDistinct (names_of part.now.module.names.publics) }
    requires light { weight part.now.module < weight_limit }
    requires plan { IsReadPlan plan.now }
    requires met { IsMetBy (planned_answer (part.now.module ∷ []) plan.now) (PlannedRefusal.Locate refusal.now) }
    requires memory { refusal.now ≢ LocateRefusal.NoMemory }
    ensures { (files : option (list NamedFile)) (inputs : Reads) (ms : list Parts) (keep : list (list ℕ)) (made : Made)
        → AreUnlocated files inputs (all_files names.now) keep plan.now ms (flat_of flat.now) part.now.module part.now.origins
        → Tells (map (λ word. string_bytes word) words.now) (task_variants.Locate inputs keep made) files
        (call_of H.meaning H.faults host.old host.new) result }
{
    if plan.symbols.is_empty() {
        let module = &part.module;
        return explain_fact(alloc, words, names, flat, part, module, plan, refusal, host);
    }
    match with_plan_symbols(alloc, &part.module, plan) {
        Ok(module) => explain_fact(
            alloc, words, names, flat, part, &module, plan, refusal, host,
        ),
        Err(NoMemory) => Outcome::NoMemory,
    }
}

// Explains why what is kept is not located: it cannot be, or memory ran out.
fn explain_unlocated<H: Host>(
    alloc: Global,
    words: &[String],
    inputs: &Inputs,
    names: &ModuleFiles,
    flat: &[FlatModule<'_>],
    part: &TracedModule,
    plan: &Plan,
    refusal: &PlannedRefusal,
    host: &mut H,
) -> Outcome
    requires few { length flat.now < 2 ^ 32 }
    requires names { AreDistinct (names_of part.now.module.names.publics) }
    requires light { weight part.now.module < weight_limit }
    requires plan { IsReadPlan plan.now }
    requires met { IsMetBy (planned_answer (part.now.module ∷ []) plan.now) refusal.now }
    ensures { (files : option (list NamedFile)) (ms : list Parts) (keep : list (list ℕ)) (made : Made)
        → AreUnlocated files inputs.now (all_files names.now) keep plan.now ms (flat_of flat.now) part.now.module part.now.origins
        → Tells (map (λ word. string_bytes word) words.now) (task_variants.Locate inputs.now keep made) files
        (call_of H.meaning H.faults host.old host.new) result }
{
    match refusal {
        PlannedRefusal::SharedName(name) => {
            explain_shared_name(alloc, words, inputs, names, flat, plan, name, host)
        }
        PlannedRefusal::Locate(LocateRefusal::NoMemory) => Outcome::NoMemory,
        PlannedRefusal::Locate(refusal) => {
            explain_planned(alloc, words, names, flat, part, plan, refusal, host)
        }
    }
}

// Explains what keeps modules from being located.
fn explain_obstacle<H: Host>(
    alloc: Global,
    words: &[String],
    inputs: &Inputs,
    keep: &List<Bytes>,
    names: &ModuleFiles,
    modules: &[Module],
    obstacle: &Obstacle,
    host: &mut H,
) -> Outcome
    requires linkable { AreLinkable inputs.now modules.now }
    requires obstacle { IsObstacle (tree_of inputs.now.marks) keep.now modules.now obstacle.now }
    ensures { (files : option (list NamedFile)) (plan : Planned) (made : Made) → AreReadFrom files inputs.now (all_files names.now) plan modules.now
        → HasPlan plan obstacle.now
        → Tells (map (λ word. string_bytes word) words.now) (task_variants.Locate inputs.now keep.now made) files
        (call_of H.meaning H.faults host.old host.new) result }
{
    match obstacle {
        Obstacle::Unlinked(refusal) => {
            explain_unlinked(alloc, words, inputs, names, modules, refusal, host)
        }
        Obstacle::Unkept {
            refusal,
            places,
            ..
        } => {
            let Ok(flat) = flat_list(alloc, inputs, modules, places) else {
                return Outcome::NoMemory;
            };
            explain_unkept(alloc, words, names, &flat, refusal, host)
        }
        Obstacle::Unlocated {
            refusal,
            part,
            plan,
            places,
        } => {
            let Ok(flat) = flat_list(alloc, inputs, modules, places) else {
                return Outcome::NoMemory;
            };
            explain_unlocated(
                alloc, words, inputs, names, &flat, part, plan, refusal, host,
            )
        }
    }
}

// Explains what is made of a location; `names` are the files of all modules that were read.
fn explain_product<H: Host>(
    alloc: Global,
    words: &[String],
    product: &Product,
    names: ModuleFiles,
    location: Location,
    host: &mut H,
) -> Outcome
    requires located { AreLocated location }
    requires light { weight (absolute_of location.located) < 2 ^ 32 }
    ensures { (files : option (list NamedFile)) (inputs : Reads) (keep : list (list ℕ)) (plan : Planned) (ms : list Parts)
        → AreReadFrom files inputs (all_files names) plan ms → AreMapped (tree_of inputs.marks) (roots_by keep plan) plan ms location
        → Tells (map (λ word. string_bytes word) words.now) (task_variants.Locate inputs keep product.now) files
        (call_of H.meaning H.faults host.old host.new) result }
{
    let out = file_of(product);
    match ready_of(alloc, product, names, location) {
        Ok(_) => print_done(alloc, words, out, host),
        Err(answer) => print_explanation(
            alloc,
            words,
            &Cause::Outcome(&answer),
            &Details::Nothing,
            host,
        ),
    }
}

// Explains the locating of modules that were read. They are copied, since what an error names is looked up in
// them.
fn explain_loaded<H: Host>(
    alloc: Global,
    words: &[String],
    inputs: &Inputs,
    keep: &List<Bytes>,
    product: &Product,
    loaded: Loaded,
    host: &mut H,
) -> Outcome
    requires linkable { AreLinkable inputs.now loaded.modules }
    requires plan { IsReadPlan loaded.plan }
    ensures { (files : option (list NamedFile)) → AreReadFrom files inputs.now (all_files loaded.files) loaded.plan loaded.modules
        → Tells (map (λ word. string_bytes word) words.now) (task_variants.Locate inputs.now keep.now product.now) files
        (call_of H.meaning H.faults host.old host.new) result }
{
    let Loaded {
        plan,
        modules,
        files,
    } = loaded;
    let Ok(spare) = copies(alloc, modules.as_slice()) else {
        return Outcome::NoMemory;
    };
    match locate_modules(alloc, inputs, keep, plan, spare) {
        Ok(location) => explain_product(alloc, words, product, files, location, host),
        Err(obstacle) => {
            let modules = modules.as_slice();
            explain_obstacle(alloc, words, inputs, keep, &files, modules, &obstacle, host)
        }
    }
}

/// Explains a task that locates files.
pub fn explain_location<H: Host>(
    alloc: Global,
    words: &[String],
    inputs: &Inputs,
    keep: &List<Bytes>,
    product: &Product,
    host: &mut H,
) -> Outcome
    requires sound { IsSoundInputs inputs.now }
    requires asks { AskFor (map (λ word. string_bytes word) words.now)
        (request_variants.Run (task_variants.Locate inputs.now keep.now product.now)) }
    ensures { Explains (map (λ word. string_bytes word) words.now) (call_of H.meaning H.faults host.old host.new) result }
{
    match read_or_unread(alloc, inputs, host) {
        Ok(loaded) => explain_loaded(alloc, words, inputs, keep, product, loaded, host),
        Err(unread) => {
            let told = host.cause();
            let Ok(details) = unread_details(alloc, inputs, told, &unread) else {
                return Outcome::NoMemory;
            };
            let cause = Cause::Outcome(&unread.outcome);
            print_explanation(alloc, words, &cause, &details, host)
        }
    }
}

// ---- linking

// Explains the linking of modules that were read. They are copied, since what an error names is looked up in
// them.
fn explain_linked<H: Host>(
    alloc: Global,
    words: &[String],
    inputs: &Inputs,
    name: &Option<Bytes>,
    out: &Text,
    loaded: &Loaded,
    host: &mut H,
) -> Outcome
    requires linkable { AreLinkable inputs.now loaded.now.modules }
    requires short { IfSome name.now (λ given. length given < 2 ^ 16) }
    ensures { (files : option (list NamedFile)) → AreReadFrom files inputs.now (all_files loaded.now.files) loaded.now.plan loaded.now.modules
        → Tells (map (λ word. string_bytes word) words.now) (task_variants.Link inputs.now name.now out.now) files
        (call_of H.meaning H.faults host.old host.new) result }
{
    let modules = loaded.modules.as_slice();
    let Ok(spare) = copies(alloc, modules) else {
        return Outcome::NoMemory;
    };
    match link_file(alloc, inputs, name, out, spare) {
        Ok(_) => print_done(alloc, words, Some(out), host),
        Err(refusal) => {
            let names = &loaded.files;
            explain_unlinked(alloc, words, inputs, names, modules, &refusal, host)
        }
    }
}

/// Explains a task that links files.
pub fn explain_link<H: Host>(
    alloc: Global,
    words: &[String],
    inputs: &Inputs,
    name: &Option<Bytes>,
    out: &Text,
    host: &mut H,
) -> Outcome
    requires sound { IsSoundInputs inputs.now }
    requires short { IfSome name.now (λ given. length given < 2 ^ 16) }
    requires asks { AskFor (map (λ word. string_bytes word) words.now)
        (request_variants.Run (task_variants.Link inputs.now name.now out.now)) }
    ensures { Explains (map (λ word. string_bytes word) words.now) (call_of H.meaning H.faults host.old host.new) result }
{
    match read_or_unread(alloc, inputs, host) {
        Ok(loaded) => explain_linked(alloc, words, inputs, name, out, &loaded, host),
        Err(unread) => {
            let told = host.cause();
            let Ok(details) = unread_details(alloc, inputs, told, &unread) else {
                return Outcome::NoMemory;
            };
            let cause = Cause::Outcome(&unread.outcome);
            print_explanation(alloc, words, &cause, &details, host)
        }
    }
}
