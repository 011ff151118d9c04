//! Printing or writing the output of a task.

ghost use Rattle.std.specs.Prelude.{◌≡◌, ◌<◌, Some, flat_map, length};
ghost use Rattle.mufom_host.specs.World.{OnlyPrints};
ghost use Rattle.mufom_map.specs.MapText.{address_text, map_text, view_text};
ghost use Rattle.mufom_origins.specs.Words.{all_files};
ghost use Rattle.mufom_text.specs.Image.{image_text};
ghost use Rattle.mufom_text.specs.Show.{text_of};
ghost use Rattle.mufom_titxt.specs.Written.{txt_text};
ghost use Rattle.mufom_write.specs.Range.{range_image};
ghost use Rattle.mufom_write.specs.Raw.{raw_image};
ghost use Rattle.mufom_task.specs.Calls.{call_of};
ghost use Rattle.mufom_prepare.specs.Locations.{shown_of, AreLocated};
ghost use Rattle.mufom_works.specs.Making.{IsMadeAlone, IsPrinted};
ghost use Rattle.mufom_prepare.specs.Ready.{ready_output, IsHelp, IsReady};
ghost use Rattle.mufom_command.specs.PutOut.{IsPutOut, NeedsNoMemory};

use crate::writing::{make_file, make_range_file, make_raw_file, make_text_file};
use mufom_host::{Failed, Host};
use mufom_located::Located;
use mufom_locating::planned_copies;
use mufom_map::{print_address, print_map};
use mufom_module::Module;
use mufom_numbers::NoMemory;
use mufom_origins::ModuleFiles;
use mufom_outcome::Outcome;
use mufom_prepare::{Location, Ready};
use mufom_text::{PrintStop, TextForm, print_image, print_text};
use std::alloc::Global;

// Prints a text in memory. Returns the outcome, whose error line is not printed yet.
fn print_bytes<H: Host>(text: &[u8], host: &mut H) -> Outcome
    ensures answer { IsPrinted text.now (call_of H.meaning H.faults host.old host.new) result }
    ensures only { OnlyPrints (H.meaning host.old) (H.meaning host.new) (H.faults host.old) (H.faults host.new) }
    ensures memory { NeedsNoMemory result }
{
    match host.print(text) {
        Ok(()) => Outcome::Done,
        Err(Failed) => Outcome::WriteFault,
    }
}

// Prints the text of one module.
fn print_one<H: Host>(alloc: Global, form: TextForm, modules: &[Module], host: &mut H) -> Outcome
    requires { length modules.now ≡ 1 }
    ensures answer { IsPrinted (flat_map (text_of form) modules.now) (call_of H.meaning H.faults host.old host.new) result }
    ensures only { OnlyPrints (H.meaning host.old) (H.meaning host.new) (H.faults host.old) (H.faults host.new) }
{
    match print_text(alloc, host, form, &modules[0]) {
        Ok(()) => Outcome::Done,
        Err(PrintStop::Fault) => Outcome::WriteFault,
        Err(PrintStop::NoMemory) => Outcome::NoMemory,
    }
}

// Prints the image of a location.
fn print_located<H: Host>(alloc: Global, located: &Located, host: &mut H) -> Outcome
    ensures answer { IsPrinted (image_text located.now) (call_of H.meaning H.faults host.old host.new) result }
    ensures only { OnlyPrints (H.meaning host.old) (H.meaning host.new) (H.faults host.old) (H.faults host.new) }
{
    match print_image(alloc, host, located) {
        Ok(()) => Outcome::Done,
        Err(PrintStop::Fault) => Outcome::WriteFault,
        Err(PrintStop::NoMemory) => Outcome::NoMemory,
    }
}

// Prints the whole map of a location.
fn print_whole_map<H: Host>(
    alloc: Global,
    names: &ModuleFiles,
    location: &Location,
    host: &mut H,
) -> Outcome
    requires { AreLocated location.now }
    ensures answer { IsPrinted (map_text (all_files names.now) (shown_of location.now)) (call_of H.meaning H.faults host.old host.new) result }
    ensures only { OnlyPrints (H.meaning host.old) (H.meaning host.new) (H.faults host.old) (H.faults host.new) }
{
    let Location {
        origins,
        module,
        plan,
        located,
    } = location;
    let Ok(copies) = planned_copies(alloc, module, plan) else {
        return Outcome::NoMemory;
    };
    match print_map(
        alloc,
        host,
        names,
        origins,
        module,
        plan,
        copies.as_slice(),
        located,
    ) {
        Ok(()) => Outcome::Done,
        Err(PrintStop::Fault) => Outcome::WriteFault,
        Err(PrintStop::NoMemory) => Outcome::NoMemory,
    }
}

// Prints the lines of one address of the map of a location.
fn print_spot<H: Host>(alloc: Global, address: u64, location: &Location, host: &mut H) -> Outcome
    requires { AreLocated location.now }
    ensures answer { IsPrinted (address_text address (shown_of location.now)) (call_of H.meaning H.faults host.old host.new) result }
    ensures only { OnlyPrints (H.meaning host.old) (H.meaning host.new) (H.faults host.old) (H.faults host.new) }
{
    let Location {
        origins,
        module,
        plan,
        located,
    } = location;
    let Ok(copies) = planned_copies(alloc, module, plan) else {
        return Outcome::NoMemory;
    };
    match print_address(
        alloc,
        host,
        origins,
        module,
        plan,
        copies.as_slice(),
        located,
        address,
    ) {
        Ok(()) => Outcome::Done,
        Err(PrintStop::Fault) => Outcome::WriteFault,
        Err(PrintStop::NoMemory) => Outcome::NoMemory,
    }
}

// Prints the map of a location, or the lines of one address of it.
fn print_mapped<H: Host>(
    alloc: Global,
    names: &ModuleFiles,
    at: Option<u64>,
    location: &Location,
    host: &mut H,
) -> Outcome
    requires { AreLocated location.now }
    ensures answer { IsPrinted (view_text (all_files names.now) at (shown_of location.now)) (call_of H.meaning H.faults host.old host.new) result }
    ensures only { OnlyPrints (H.meaning host.old) (H.meaning host.new) (H.faults host.old) (H.faults host.new) }
{
    match at {
        None => print_whole_map(alloc, names, location, host),
        Some(address) => print_spot(alloc, address, location, host),
    }
}

// Writes the TI-TXT text of a location to a file with this name.
fn make_text<H: Host>(name: &str, located: &Located, host: &mut H) -> Outcome
    ensures { IsMadeAlone name.now (txt_text located.now.runs) (call_of H.meaning H.faults host.old host.new) result }
{
    make_text_file(name, located.parts().runs.as_slice(), host)
}

// Writes the raw image of a location to a file with this name.
fn make_raw<H: Host>(name: &str, fill: u8, located: &Located, host: &mut H) -> Outcome
    ensures { IsMadeAlone name.now (raw_image fill located.now.runs) (call_of H.meaning H.faults host.old host.new) result }
{
    make_raw_file(name, located.parts().runs.as_slice(), fill, host)
}

// Writes the bytes of a range of addresses of a location to a file with this name.
fn make_range<H: Host>(
    name: &str,
    fill: u8,
    from: u64,
    count: u64,
    located: &Located,
    host: &mut H,
) -> Outcome
    ensures { IsMadeAlone name.now (range_image fill from count located.now.runs) (call_of H.meaning H.faults host.old host.new) result }
{
    let runs = located.parts().runs.as_slice();
    make_range_file(name, runs, fill, from, count, host)
}

/// Prints or writes an output. Returns the outcome, whose error line is not printed yet: `Done`, or a write
/// fault; or out of memory if there is none for the page of a text, and then nothing is printed.
pub(crate) fn put_out<H: Host>(alloc: Global, ready: &Ready<'_>, host: &mut H) -> Outcome
    requires { IsReady ready.now }
    ensures puts { IsPutOut (ready_output ready.now) (call_of H.meaning H.faults host.old host.new) result }
    ensures memory { IsHelp ready.now → NeedsNoMemory result }
{
    match ready {
        Ready::Lines(text) => print_bytes(text, host),
        Ready::Help(text) => print_bytes(text.as_str().as_bytes(), host),
        Ready::Listing { modules, form } => print_one(alloc, *form, modules.as_slice(), host),
        Ready::File { out, module } => make_file(out.as_str(), module, host),
        Ready::Raw { out, fill, located } => make_raw(out.as_str(), *fill, located, host),
        Ready::Range {
            out,
            fill,
            from,
            count,
            located,
        } => make_range(out.as_str(), *fill, *from, *count, located, host),
        Ready::TiTxt { out, located } => make_text(out.as_str(), located, host),
        Ready::Image(located) => print_located(alloc, located, host),
        Ready::Map {
            names,
            at,
            location,
        } => print_mapped(alloc, names, *at, location, host),
    }
}
