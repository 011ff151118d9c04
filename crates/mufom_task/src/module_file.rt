//! Reads the modules of one module file of a task.

ghost use Rattle.std.specs.Prelude.{◌≡◌, ◌*◌, ◌≤◌, ◌∷◌, [], length, None, true, false, IfErr, IfOk, OnSome};
ghost use Rattle.mufom_meaning.specs.StagingLaws.{total_weight};
ghost use Rattle.mufom_host.specs.World.{GrowsBy, OnlyOpens};
ghost use Rattle.mufom_task.specs.FilesRead.{FileHas, FileStops, HasFile};
ghost use Rattle.mufom_task.specs.FilesRead.{outcome_of_members_stop as of_members, outcome_of_source_stop as of_source};
ghost use Rattle.mufom_task.specs.Inputs.{most_input_bytes};

use mufom_archive::BadArchive;
use mufom_host::{Failed, Host};
use mufom_members::{Members, MembersStop, read_members};
use mufom_module::Module;
use mufom_numbers::{List, NoMemory, Reason};
use mufom_outcome::{Input, Outcome, Refusal};
use mufom_read::{ReadOptions, ReadRefusal};
use mufom_source::{SourceStop, read_module};
use std::alloc::Global;

// The outcome if the root with this number could not be read.
fn outcome_of_source_stop(number: u32, stop: SourceStop) -> Outcome
    ensures { result ≡ of_source number stop }
{
    match stop {
        SourceStop::Refused(refusal) => Outcome::Refused(Refusal::Read(number, refusal)),
        SourceStop::Limit => Outcome::Refused(Refusal::InputLimit(number)),
        SourceStop::Fault => Outcome::ReadFault(Input::File(number)),
        SourceStop::NoMemory => Outcome::NoMemory,
    }
}

// The outcome if the file of members with this number could not be read.
fn outcome_of_members_stop(number: u32, stop: MembersStop) -> Outcome
    ensures { result ≡ of_members number stop }
{
    match stop {
        MembersStop::Refused(refusal) => Outcome::Refused(Refusal::Read(number, refusal)),
        MembersStop::BadArchive(BadArchive { offset }) => Outcome::Refused(Refusal::Read(
            number,
            ReadRefusal {
                offset,
                reason: Reason::BadArchive,
            },
        )),
        MembersStop::Limit => Outcome::Refused(Refusal::InputLimit(number)),
        MembersStop::Fault => Outcome::ReadFault(Input::File(number)),
        MembersStop::NoMemory => Outcome::NoMemory,
    }
}

// The only module of a file that is not an archive.
fn only_module(alloc: Global, module: Module, length: u64) -> Result<Members, NoMemory>
    ensures { IfOk result (λ read. read ≡ record { modules = «module» ∷ []; length = length; listing = None }) }
{
    Ok(Members {
        modules: List::single(alloc, module)?,
        length,
        listing: None,
    })
}

// Opens the root with this name and number, and reads its module, of at most the given number of bytes.
fn read_root<H: Host>(
    alloc: Global,
    name: &str,
    number: u32,
    limit: u64,
    options: ReadOptions,
    host: &mut H,
) -> Result<Members, Outcome>
    requires { limit ≤ most_input_bytes }
    ensures read { IfOk result (λ read. FileHas name.now (H.meaning host.old).files (HasFile options true limit read)) }
    ensures one { IfOk result (λ read. length read.modules ≡ 1) }
    ensures weighs { IfOk result (λ read. (total_weight read.modules ≤ 10 * read.length) × (read.length ≤ limit)) }
    ensures stops { IfErr result
        (λ stop. FileStops options true name.now number limit (H.meaning host.old).files (H.faults host.old) (H.faults host.new) stop) }
    ensures opened { OnSome (H.meaning host.new).opened (GrowsBy (H.meaning host.old).opened (H.meaning host.new).opened (name.now ∷ [])) }
    ensures opens { IfOk result (λ read. GrowsBy (H.meaning host.old).opened (H.meaning host.new).opened (name.now ∷ [])) }
    ensures only { OnlyOpens (H.meaning host.old) (H.meaning host.new) (H.faults host.old) (H.faults host.new) }
{
    let Ok(()) = host.open(name) else {
        return Err(Outcome::ReadFault(Input::File(number)));
    };
    match read_module(alloc, host, limit, options) {
        Ok((entry, length)) => match only_module(alloc, entry, length) {
            Ok(read) => Ok(read),
            Err(NoMemory) => Err(Outcome::NoMemory),
        },
        Err(stop) => Err(outcome_of_source_stop(number, stop)),
    }
}

// Opens the file with this name and number, which is not a root, and reads its modules, of at most the given
// number of bytes.
fn read_member_file<H: Host>(
    alloc: Global,
    name: &str,
    number: u32,
    limit: u64,
    options: ReadOptions,
    host: &mut H,
) -> Result<Members, Outcome>
    requires { limit ≤ most_input_bytes }
    ensures read { IfOk result (λ read. FileHas name.now (H.meaning host.old).files (HasFile options false limit read)) }
    ensures weighs { IfOk result (λ read. (total_weight read.modules ≤ 10 * read.length) × (read.length ≤ limit)) }
    ensures stops { IfErr result
        (λ stop. FileStops options false name.now number limit (H.meaning host.old).files (H.faults host.old) (H.faults host.new) stop) }
    ensures opened { OnSome (H.meaning host.new).opened (GrowsBy (H.meaning host.old).opened (H.meaning host.new).opened (name.now ∷ [])) }
    ensures opens { IfOk result (λ read. GrowsBy (H.meaning host.old).opened (H.meaning host.new).opened (name.now ∷ [])) }
    ensures only { OnlyOpens (H.meaning host.old) (H.meaning host.new) (H.faults host.old) (H.faults host.new) }
{
    let Ok(()) = host.open(name) else {
        return Err(Outcome::ReadFault(Input::File(number)));
    };
    match read_members(alloc, host, limit, options) {
        Ok(read) => Ok(read),
        Err(stop) => Err(outcome_of_members_stop(number, stop)),
    }
}

/// Opens the file with this name and number, and reads its modules, of at most the given number of bytes. A root
/// has one module; another file may be an archive.
pub(crate) fn read_file<H: Host>(
    alloc: Global,
    name: &str,
    number: u32,
    is_root: bool,
    limit: u64,
    options: ReadOptions,
    host: &mut H,
) -> Result<Members, Outcome>
    requires { limit ≤ most_input_bytes }
    ensures read { IfOk result (λ read. FileHas name.now (H.meaning host.old).files (HasFile options is_root limit read)) }
    ensures one { IfOk result (λ read. is_root ≡ true → length read.modules ≡ 1) }
    ensures weighs { IfOk result (λ read. (total_weight read.modules ≤ 10 * read.length) × (read.length ≤ limit)) }
    ensures stops { IfErr result
        (λ stop. FileStops options is_root name.now number limit (H.meaning host.old).files (H.faults host.old) (H.faults host.new) stop) }
    ensures opened { OnSome (H.meaning host.new).opened (GrowsBy (H.meaning host.old).opened (H.meaning host.new).opened (name.now ∷ [])) }
    ensures opens { IfOk result (λ read. GrowsBy (H.meaning host.old).opened (H.meaning host.new).opened (name.now ∷ [])) }
    ensures only { OnlyOpens (H.meaning host.old) (H.meaning host.new) (H.faults host.old) (H.faults host.new) }
{
    if is_root {
        read_root(alloc, name, number, limit, options, host)
    } else {
        read_member_file(alloc, name, number, limit, options, host)
    }
}
