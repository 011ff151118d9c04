//! Reads the inputs of a task: its plan, and then its module files in their order.

ghost use Rattle.std.specs.Prelude.{◌≡◌, ◌<◌, ◌≤◌, ◌^◌, ◌++◌, length, IfErr, IfOk, IfSome, OnOk};
ghost use Rattle.mufom_meaning.specs.Staging.{AreValid};
ghost use Rattle.mufom_meaning.specs.StagingLaws.{total_weight};
ghost use Rattle.mufom_host.specs.World.{GrowsBy, OnlyOpens};
ghost use Rattle.mufom_planned.specs.ReadPlans.{IsReadPlan};
ghost use Rattle.mufom_groups.specs.Groups.{most_weight};
ghost use Rattle.mufom_groups.specs.Work.{gives};
ghost use Rattle.mufom_words.specs.Sound.{HasTree};
ghost use Rattle.mufom_origins.specs.Words.{all_files, own_files};
ghost use Rattle.mufom_task.specs.FilesRead.{FilesStop, HaveCounts, OpensFiles};
ghost use Rattle.mufom_task.specs.Inputs.{ComeTo, HaveRoots, accepted, files_from, module_files, root_count};
ghost use Rattle.mufom_task.specs.InputsRead.{inputs_in, InputsStop, KeepsPlan, NamesPlan};
ghost use Rattle.mufom_task.specs.Calls.{call_of, OpensInputs};
ghost use Rattle.mufom_task.specs.Tasks.{input_names};

use crate::module_file::read_file;
use crate::plan_file::read_plan_of;
use crate::task::Inputs;
use crate::unread::Unread;
use mufom_groups::file_count;
use mufom_host::Host;
use mufom_members::Members;
use mufom_module::{Module, a_module_is_valid};
use mufom_numbers::limits::{MOST_FILE_BYTES, MOST_MODULES};
use mufom_numbers::{List, NoMemory, Text};
use mufom_origins::ModuleFiles;
use mufom_outcome::{Outcome, Refusal};
use mufom_plan::Plan;
use mufom_read::ReadOptions;
use std::alloc::Global;

// The greatest total length of the module files of a run, in bytes.
const MOST_INPUT_BYTES: u64 = MOST_FILE_BYTES as u64;

// Moves the modules of a file to the end of a list.
fn add_modules(all: &mut List<Module>, own: List<Module>) -> Result<(), NoMemory>
    ensures added { OnOk result (all.new ≡ all.old ++ own) }
    ensures valid { OnOk result (AreValid own) }
{
    for entry in own.into_vec() {
        a_module_is_valid(&entry);
        all.push(entry)?;
    }
    Ok(())
}

// Moves the modules of a file to the end of a list, and adds their file.
fn add_file(
    alloc: Global,
    modules: &mut List<Module>,
    files: &mut ModuleFiles,
    number: u32,
    name: &str,
    read: Members,
) -> Result<(), NoMemory>
    ensures modules { OnOk result (modules.new ≡ modules.old ++ read.modules) }
    ensures files { OnOk result (all_files files.new ≡ all_files files.old
        ++ own_files (record { number = number; name = name.now; listing = read.listing; modules = length read.modules })) }
    ensures valid { OnOk result (AreValid read.modules) }
{
    files.add(alloc, number, name, read.listing, read.modules.len())?;
    add_modules(modules, read.modules)
}

// Reads the modules of the files with these names, of which the first are roots, as many as are given. Returns
// them with the file of each.
fn read_files<H: Host>(
    alloc: Global,
    names: &[Text],
    roots: usize,
    options: ReadOptions,
    host: &mut H,
) -> Result<(List<Module>, ModuleFiles), Outcome>
    requires few { length names.now < 2 ^ 32 }
    ensures read { IfOk result (λ read. IfSome (H.meaning host.old).files
        (λ files. ComeTo options roots files names.now (accepted read.0))) }
    ensures files { IfOk result (λ read. IfSome (H.meaning host.old).files (λ files. all_files read.1 ≡ files_from files roots 0 names.now)) }
    ensures count { IfOk result (λ read. HaveCounts roots (length names.now) (length read.0)) }
    ensures all { IfOk result (λ read. GrowsBy (H.meaning host.old).opened (H.meaning host.new).opened names.now) }
    ensures valid { IfOk result (λ read. AreValid read.0) }
    ensures light { IfOk result (λ read. total_weight read.0 ≤ most_weight) }
    ensures stops { IfErr result (λ stop. FilesStop options roots names.now (call_of H.meaning H.faults host.old host.new) stop) }
    ensures opened { IfErr result (λ stop. OpensFiles names.now (call_of H.meaning H.faults host.old host.new) stop) }
    ensures only { OnlyOpens (H.meaning host.old) (H.meaning host.new) (H.faults host.old) (H.faults host.new) }
{
    let mut modules = List::new(alloc);
    let mut files = ModuleFiles::new(alloc);
    let mut room = MOST_INPUT_BYTES;
    for number in 0..names.len() {
        let name = names[number].as_str();
        let is_root = number < roots;
        let read = match read_file(alloc, name, number as u32, is_root, room, options, host) {
            Ok(read) => read,
            Err(stop) => return Err(stop),
        };
        room = room.saturating_sub(read.length);
        match add_file(alloc, &mut modules, &mut files, number as u32, name, read) {
            Ok(()) => {}
            Err(NoMemory) => return Err(Outcome::NoMemory),
        }
    }
    Ok((modules, files))
}

// The number of roots among the files of a task.
fn roots_of(inputs: &Inputs) -> usize
    requires tree { HasTree inputs.now.marks (length inputs.now.files) }
    ensures { result ≡ root_count inputs.now }
{
    file_count(inputs.marks.as_slice())
}

// Reads the modules of the files of a task, and refuses more of them than a run may have.
fn read_few<H: Host>(
    alloc: Global,
    inputs: &Inputs,
    host: &mut H,
) -> Result<(List<Module>, ModuleFiles), Outcome>
    requires few { length inputs.now.files < 2 ^ 32 }
    requires tree { HasTree inputs.now.marks (length inputs.now.files) }
    ensures read { IfOk result (λ read. IfSome (H.meaning host.old).files
        (λ files. ComeTo inputs.now.options (root_count inputs.now) files inputs.now.files (accepted read.0))) }
    ensures files { IfOk result (λ read. IfSome (H.meaning host.old).files (λ files. all_files read.1 ≡ module_files files inputs.now)) }
    ensures count { IfOk result (λ read. HaveRoots inputs.now read.0) }
    ensures few { IfOk result (λ read. length read.0 ≤ MOST_MODULES) }
    ensures all { IfOk result (λ read. GrowsBy (H.meaning host.old).opened (H.meaning host.new).opened inputs.now.files) }
    ensures valid { IfOk result (λ read. AreValid read.0) }
    ensures light { IfOk result (λ read. total_weight read.0 ≤ most_weight) }
    ensures stops { IfErr result (λ stop. FilesStop inputs.now.options (root_count inputs.now) inputs.now.files
        (call_of H.meaning H.faults host.old host.new) stop) }
    ensures opened { IfErr result (λ stop. OpensFiles inputs.now.files (call_of H.meaning H.faults host.old host.new) stop) }
    ensures only { OnlyOpens (H.meaning host.old) (H.meaning host.new) (H.faults host.old) (H.faults host.new) }
{
    let roots = roots_of(inputs);
    let names = inputs.files.as_slice();
    let (modules, files) = match read_files(alloc, names, roots, inputs.options, host) {
        Ok(read) => read,
        Err(stop) => return Err(stop),
    };
    let count = modules.len() as u64;
    if count > MOST_MODULES as u64 {
        return Err(Outcome::Refused(Refusal::TooManyModules(count)));
    }
    Ok((modules, files))
}

/// What was read of the inputs of a task.
#[derive(Drop)]
pub struct Loaded {
    /// The plan, or the one without regions if the task names none.
    pub plan: Plan,
    /// The modules of the files, in their order.
    pub modules: List<Module>,
    /// The files of these modules.
    pub files: ModuleFiles,
}

/// Reads the inputs of a task: its plan, and then its files in their order. Returns the outcome of the run if
/// one of them is refused or cannot be read, or if memory runs out; then no further input was opened. If the
/// plan is refused, its bytes are returned too, so that the place of the error can be looked up in them.
pub fn read_or_unread<H: Host>(
    alloc: Global,
    inputs: &Inputs,
    host: &mut H,
) -> Result<Loaded, Unread>
    requires few { length inputs.now.files < 2 ^ 32 }
    requires tree { HasTree inputs.now.marks (length inputs.now.files) }
    ensures read { IfOk result (λ loaded. IfSome (H.meaning host.old).files
        (λ files. inputs_in files inputs.now (gives (loaded.plan, loaded.modules)))) }
    ensures sound { IfOk result (λ loaded. IsReadPlan loaded.plan) }
    ensures files { IfOk result (λ loaded. IfSome (H.meaning host.old).files (λ files. all_files loaded.files ≡ module_files files inputs.now)) }
    ensures count { IfOk result (λ loaded. HaveRoots inputs.now loaded.modules) }
    ensures few { IfOk result (λ loaded. length loaded.modules ≤ MOST_MODULES) }
    ensures all { IfOk result (λ loaded. GrowsBy (H.meaning host.old).opened (H.meaning host.new).opened (input_names inputs.now)) }
    ensures valid { IfOk result (λ loaded. AreValid loaded.modules) }
    ensures light { IfOk result (λ loaded. total_weight loaded.modules ≤ most_weight) }
    ensures stops { IfErr result (λ unread. InputsStop inputs.now (call_of H.meaning H.faults host.old host.new) unread.outcome) }
    ensures named { IfErr result (λ unread. NamesPlan inputs.now.plan unread.outcome) }
    ensures text { IfErr result (λ unread. KeepsPlan inputs.now.plan (H.meaning host.old).files unread.plan.items unread.outcome) }
    ensures opened { IfErr result (λ unread. OpensInputs inputs.now (call_of H.meaning H.faults host.old host.new) unread.outcome) }
    ensures only { OnlyOpens (H.meaning host.old) (H.meaning host.new) (H.faults host.old) (H.faults host.new) }
{
    let plan = match read_plan_of(alloc, inputs, host) {
        Ok(plan) => plan,
        Err(unread) => return Err(unread),
    };
    match read_few(alloc, inputs, host) {
        Ok((modules, files)) => Ok(Loaded {
            plan,
            modules,
            files,
        }),
        Err(stop) => Err(Unread::without_plan(alloc, stop)),
    }
}

/// Reads the inputs of a task: its plan, and then its files in their order. Returns the outcome of the run if
/// one of them is refused or cannot be read, or if memory runs out; then no further input was opened.
pub fn read_inputs<H: Host>(alloc: Global, inputs: &Inputs, host: &mut H) -> Result<Loaded, Outcome>
    requires few { length inputs.now.files < 2 ^ 32 }
    requires tree { HasTree inputs.now.marks (length inputs.now.files) }
    ensures read { IfOk result (λ loaded. IfSome (H.meaning host.old).files
        (λ files. inputs_in files inputs.now (gives (loaded.plan, loaded.modules)))) }
    ensures sound { IfOk result (λ loaded. IsReadPlan loaded.plan) }
    ensures files { IfOk result (λ loaded. IfSome (H.meaning host.old).files (λ files. all_files loaded.files ≡ module_files files inputs.now)) }
    ensures count { IfOk result (λ loaded. HaveRoots inputs.now loaded.modules) }
    ensures few { IfOk result (λ loaded. length loaded.modules ≤ MOST_MODULES) }
    ensures all { IfOk result (λ loaded. GrowsBy (H.meaning host.old).opened (H.meaning host.new).opened (input_names inputs.now)) }
    ensures valid { IfOk result (λ loaded. AreValid loaded.modules) }
    ensures light { IfOk result (λ loaded. total_weight loaded.modules ≤ most_weight) }
    ensures stops { IfErr result (λ stop. InputsStop inputs.now (call_of H.meaning H.faults host.old host.new) stop) }
    ensures named { IfErr result (NamesPlan inputs.now.plan) }
    ensures opened { IfErr result (λ stop. OpensInputs inputs.now (call_of H.meaning H.faults host.old host.new) stop) }
    ensures only { OnlyOpens (H.meaning host.old) (H.meaning host.new) (H.faults host.old) (H.faults host.new) }
{
    match read_or_unread(alloc, inputs, host) {
        Ok(loaded) => Ok(loaded),
        Err(unread) => Err(unread.outcome),
    }
}
