//! The work of a task, up to its output.

ghost use Rattle.std.specs.Prelude.{◌≡◌, ◌<◌, ◌≤◌, ◌^◌, IfErr, IfOk, IfSome, length, true};
ghost use Rattle.mufom_host.specs.World.{OnlyOpens};
ghost use Rattle.mufom_module.specs.declared.module.Parts.{Parts};
ghost use Rattle.mufom_module.specs.Written.{written};
ghost use Rattle.mufom_numbers.specs.declared.limits.TheConstants.{MOST_MODULES};
ghost use Rattle.mufom_words.specs.Tree.{tree_of};
ghost use Rattle.mufom_groups.specs.Groups.{StopsWork};
ghost use Rattle.mufom_groups.specs.Linked.{linked_module};
ghost use Rattle.mufom_groups.specs.Work.{gives};
ghost use Rattle.mufom_task.specs.Calls.{call_of};
ghost use Rattle.mufom_task.specs.Sound.{IsSoundFile, IsSoundFiles, IsSoundInputs, IsSoundTask};
ghost use Rattle.mufom_task.specs.declared.task.Task.TheVariants as task_variants;
ghost use Rattle.mufom_prepare.specs.Locations.{AreLinkable};
ghost use Rattle.mufom_prepare.specs.Ready.{ready_output, IsReady};
ghost use Rattle.mufom_prepare.specs.Prepared.{IsPrepared, IsUnprepared, MakesLink, PrintsHelpText};
ghost use Rattle.mufom_works.specs.Works.{form_of as form_by};

use crate::locating::{locate_modules, outcome_of_obstacle};
use crate::ready::{Ready, ready_of};
use mufom_groups::link_modules;
use mufom_host::Host;
use mufom_module::{Module, a_module_is_valid};
use mufom_numbers::{Bytes, List, NoMemory, Text};
use mufom_outcome::{Outcome, outcome_of_link};
use mufom_refusals::LinkRefusal;
use mufom_task::{Inputs, Loaded, Product, Task, read_inputs, read_text};
use mufom_text::TextForm;
use mufom_works::{built_from, generated_text, module_lines, module_of};
use std::alloc::Global;

// The form in which a module is printed.
fn form_of(listing: bool) -> TextForm
    ensures { result ≡ form_by listing }
{
    if listing {
        TextForm::Listing
    } else {
        TextForm::Summary
    }
}

// Reads the one module whose text is printed.
fn prepare_show<'a, H: Host>(
    alloc: Global,
    inputs: &Inputs,
    listing: bool,
    host: &mut H,
) -> Result<Ready<'a>, Outcome>
    requires sound { IsSoundFile inputs.now }
    ensures ok { IfOk result (IsPrepared (task_variants.Show inputs.now listing) (call_of H.meaning H.faults host.old host.new)) }
    ensures err { IfErr result (IsUnprepared (task_variants.Show inputs.now listing) (call_of H.meaning H.faults host.old host.new)) }
    ensures only { OnlyOpens (H.meaning host.old) (H.meaning host.new) (H.faults host.old) (H.faults host.new) }
{
    match read_inputs(alloc, inputs, host) {
        Ok(loaded) => Ok(Ready::Listing {
            modules: loaded.modules,
            form: form_of(listing),
        }),
        Err(stop) => Err(stop),
    }
}

// Reads the modules of which a line is printed for each.
fn prepare_check<'a, H: Host>(
    alloc: Global,
    inputs: &Inputs,
    host: &mut H,
) -> Result<Ready<'a>, Outcome>
    requires sound { IsSoundFiles inputs.now }
    ensures ok { IfOk result (IsPrepared (task_variants.Check inputs.now) (call_of H.meaning H.faults host.old host.new)) }
    ensures err { IfErr result (IsUnprepared (task_variants.Check inputs.now) (call_of H.meaning H.faults host.old host.new)) }
    ensures only { OnlyOpens (H.meaning host.old) (H.meaning host.new) (H.faults host.old) (H.faults host.new) }
{
    let loaded = match read_inputs(alloc, inputs, host) {
        Ok(loaded) => loaded,
        Err(stop) => return Err(stop),
    };
    match module_lines(alloc, loaded.modules.as_slice()) {
        Ok(lines) => Ok(Ready::Lines(lines)),
        Err(NoMemory) => Err(Outcome::NoMemory),
    }
}

/// Links the modules of a task, for a file with this name.
pub fn link_file<'a>(
    alloc: Global,
    inputs: &Inputs,
    name: &Option<Bytes>,
    out: &'a Text,
    modules: List<Module>,
) -> Result<Ready<'a>, LinkRefusal>
    requires linkable { AreLinkable inputs.now modules }
    requires short { IfSome name.now (λ given. length given < 2 ^ 16) }
    ensures ok { IfOk result (MakesLink (tree_of inputs.now.marks) name.now out.now modules) }
    ensures refused { IfErr result (λ e. StopsWork (linked_module (tree_of inputs.now.marks) name.now modules) e) }
{
    match link_modules(alloc, inputs.marks.as_slice(), name, modules) {
        Ok(module) => {
            a_module_is_valid(&module);
            Ok(Ready::File { out, module })
        }
        Err(refusal) => Err(refusal),
    }
}

// Reads and links the files whose link is written.
fn prepare_link<'a, H: Host>(
    alloc: Global,
    inputs: &Inputs,
    name: &Option<Bytes>,
    out: &'a Text,
    host: &mut H,
) -> Result<Ready<'a>, Outcome>
    requires sound { IsSoundInputs inputs.now }
    requires short { IfSome name.now (λ given. length given < 2 ^ 16) }
    ensures ok { IfOk result (IsPrepared (task_variants.Link inputs.now name.now out.now) (call_of H.meaning H.faults host.old host.new)) }
    ensures err { IfErr result (IsUnprepared (task_variants.Link inputs.now name.now out.now) (call_of H.meaning H.faults host.old host.new)) }
    ensures only { OnlyOpens (H.meaning host.old) (H.meaning host.new) (H.faults host.old) (H.faults host.new) }
{
    let loaded = match read_inputs(alloc, inputs, host) {
        Ok(loaded) => loaded,
        Err(stop) => return Err(stop),
    };
    match link_file(alloc, inputs, name, out, loaded.modules) {
        Ok(ready) => Ok(ready),
        Err(refusal) => Err(outcome_of_link(refusal)),
    }
}

// Reads, links and locates the files of whose location something is made.
fn prepare_location<'a, H: Host>(
    alloc: Global,
    inputs: &Inputs,
    keep: &List<Bytes>,
    product: &'a Product,
    host: &mut H,
) -> Result<Ready<'a>, Outcome>
    requires sound { IsSoundInputs inputs.now }
    ensures ok { IfOk result (IsPrepared (task_variants.Locate inputs.now keep.now product.now) (call_of H.meaning H.faults host.old host.new)) }
    ensures err { IfErr result
        (IsUnprepared (task_variants.Locate inputs.now keep.now product.now) (call_of H.meaning H.faults host.old host.new)) }
    ensures only { OnlyOpens (H.meaning host.old) (H.meaning host.new) (H.faults host.old) (H.faults host.new) }
{
    let loaded = match read_inputs(alloc, inputs, host) {
        Ok(loaded) => loaded,
        Err(stop) => return Err(stop),
    };
    let Loaded {
        plan,
        modules,
        files,
    } = loaded;
    let location = match locate_modules(alloc, inputs, keep, plan, modules) {
        Ok(location) => location,
        Err(obstacle) => return Err(outcome_of_obstacle(obstacle)),
    };
    match ready_of(alloc, product, files, location) {
        Ok(ready) => Ok(ready),
        Err(stop) => Err(stop),
    }
}

// Reads a TI-TXT text, and makes the module of its bytes.
fn prepare_text<'a, H: Host>(
    alloc: Global,
    inputs: &Inputs,
    maus: u8,
    out: &'a Text,
    host: &mut H,
) -> Result<Ready<'a>, Outcome>
    requires sound { IsSoundFile inputs.now }
    requires low { 1 ≤ maus }
    requires high { maus ≤ 8 }
    ensures ok { IfOk result (IsPrepared (task_variants.FromTxt inputs.now maus out.now) (call_of H.meaning H.faults host.old host.new)) }
    ensures err { IfErr result (IsUnprepared (task_variants.FromTxt inputs.now maus out.now) (call_of H.meaning H.faults host.old host.new)) }
    ensures only { OnlyOpens (H.meaning host.old) (H.meaning host.new) (H.faults host.old) (H.faults host.new) }
{
    let text = match read_text(alloc, inputs, host) {
        Ok(text) => text,
        Err(stop) => return Err(stop),
    };
    match module_of(alloc, text.as_slice(), maus) {
        Ok(module) => {
            a_module_is_valid(&module);
            Ok(Ready::File { out, module })
        }
        Err(stop) => Err(stop),
    }
}

// Reads a listing, and builds its module.
fn prepare_listing<'a, H: Host>(
    alloc: Global,
    inputs: &Inputs,
    out: &'a Text,
    host: &mut H,
) -> Result<Ready<'a>, Outcome>
    requires sound { IsSoundFile inputs.now }
    ensures ok { IfOk result (IsPrepared (task_variants.Build inputs.now out.now) (call_of H.meaning H.faults host.old host.new)) }
    ensures err { IfErr result (IsUnprepared (task_variants.Build inputs.now out.now) (call_of H.meaning H.faults host.old host.new)) }
    ensures only { OnlyOpens (H.meaning host.old) (H.meaning host.new) (H.faults host.old) (H.faults host.new) }
{
    let text = match read_text(alloc, inputs, host) {
        Ok(text) => text,
        Err(stop) => return Err(stop),
    };
    match built_from(alloc, text.as_slice()) {
        Ok(module) => {
            a_module_is_valid(&module);
            Ok(Ready::File { out, module })
        }
        Err(stop) => Err(stop),
    }
}

/// Does the work of a task up to its output: reads its inputs, and makes the output complete up to the calls
/// that print or write it. Returns the outcome of the run if the task has no output.
pub fn prepare<'a, H: Host>(
    alloc: Global,
    task: &'a Task,
    host: &mut H,
) -> Result<Ready<'a>, Outcome>
    requires { IsSoundTask task.now }
    ensures ok { IfOk result (IsPrepared task.now (call_of H.meaning H.faults host.old host.new)) }
    ensures err { IfErr result (IsUnprepared task.now (call_of H.meaning H.faults host.old host.new)) }
    ensures help { PrintsHelpText task.now result }
    ensures only { OnlyOpens (H.meaning host.old) (H.meaning host.new) (H.faults host.old) (H.faults host.new) }
{
    match task {
        Task::Show { inputs, listing } => prepare_show(alloc, inputs, *listing, host),
        Task::Check { inputs } => prepare_check(alloc, inputs, host),
        Task::Link { inputs, name, out } => prepare_link(alloc, inputs, name, out, host),
        Task::Locate {
            inputs,
            keep,
            product,
        } => prepare_location(alloc, inputs, keep, product, host),
        Task::FromTxt { inputs, maus, out } => prepare_text(alloc, inputs, *maus, out, host),
        Task::Build { inputs, out } => prepare_listing(alloc, inputs, out, host),
        Task::Make { count } => match generated_text(alloc, *count) {
            Ok(text) => Ok(Ready::Lines(text)),
            Err(stop) => Err(stop),
        },
        Task::Help { text } => Ok(Ready::Help(text)),
    }
}
