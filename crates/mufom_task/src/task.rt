//! What the arguments of a run ask for.

ghost use Rattle.std.specs.Prelude.{◌≡◌, [], unwrap_or, IfOk, OnErr};
ghost use Rattle.mufom_words.specs.Sound.{IsSound};
ghost use Rattle.mufom_task.specs.Sound.{IsSoundRequest};
ghost use Rattle.mufom_task.specs.Tasks.{AsksForHelp, bytes_product as bytes_of, inputs_named as inputs, locating, request_by, request_of as request};

use mufom_numbers::{Bytes, List, NoMemory, Text};
use mufom_read::ReadOptions;
use mufom_words::{Command, HelpText, Mark, Verb};
use std::alloc::Global;

/// What a task reads: its plan, if it names one, and then its files.
#[derive(Debug, Drop)]
pub struct Inputs {
    /// The file of the memory plan.
    pub plan: Option<Text>,
    /// The names of all files, in the order of the arguments. The members come last.
    pub files: List<Text>,
    /// The files that are not members, with the brackets around groups.
    pub marks: List<Mark>,
    /// How the module files are read.
    pub options: ReadOptions,
}

/// What is made of a location.
#[derive(Debug, Drop)]
pub enum Product {
    /// The absolute module, in a file.
    Absolute { out: Text },
    /// The raw bytes of the image, in a file. Addresses without a loaded byte get the fill byte.
    Raw { fill: u8, out: Text },
    /// The bytes of the region with a name, in a file: one for each of its addresses. Addresses without a loaded
    /// byte get the fill byte.
    Region { name: Bytes, fill: u8, out: Text },
    /// The TI-TXT text of the image, in a file.
    TiTxt { out: Text },
    /// The text of the image.
    Image,
    /// The text that shows what is at which address, with modules and files; or the lines of one address of it.
    Map { at: Option<u64> },
    /// The lines of the function and the source line at an address.
    Hit { address: u64 },
}

/// What a run has to do. Each variant has what its work needs.
#[derive(Debug, Drop)]
pub enum Task {
    /// Prints the text of one module, as a listing or a summary.
    Show {
        inputs: Inputs,
        listing: bool,
    },
    /// Prints a line for each module.
    Check {
        inputs: Inputs,
    },
    /// Links files, and writes the linked module to a file. It gets the given name, or that of its first
    /// module.
    Link {
        inputs: Inputs,
        name: Option<Bytes>,
        out: Text,
    },
    /// Links and locates files, or what the public symbols `keep` need of them if there is one, and puts out
    /// what is made of the location.
    Locate {
        inputs: Inputs,
        keep: List<Bytes>,
        product: Product,
    },
    /// Reads a TI-TXT text, and writes a module that loads its bytes to a file. An address has `maus` units.
    FromTxt {
        inputs: Inputs,
        maus: u8,
        out: Text,
    },
    /// Reads the listing of a module, and writes the module to a file.
    Build {
        inputs: Inputs,
        out: Text,
    },
    /// Generates this many modules, links and locates them, and prints a summary.
    Make {
        count: u32,
    },
    /// Prints a text of the program.
    Help {
        text: HelpText,
    },
}

/// What the arguments of a run ask for.
#[derive(Debug, Drop)]
pub enum Request {
    /// A task.
    Run(Task),
    /// An explanation of the arguments after `explain`.
    Explain,
}

// The inputs that a command names.
fn inputs_named(command: Command) -> Inputs
    ensures { result ≡ inputs command }
{
    Inputs {
        plan: command.plan,
        files: command.files,
        marks: command.marks,
        options: ReadOptions {
            debug: !command.no_debug,
            gnu: command.gnu,
        },
    }
}

// The name of the file that a command writes; the empty name if it has none.
fn named(alloc: Global, out: Option<Text>) -> Result<Text, NoMemory>
    ensures { IfOk result (λ name. name ≡ unwrap_or out []) }
{
    match out {
        Some(name) => Ok(name),
        None => Text::from_str(alloc, ""),
    }
}

// The text of a command; the empty text if it has none.
fn help_of(text: Option<HelpText>) -> HelpText
    ensures { result ≡ unwrap_or text [] }
{
    match text {
        Some(text) => text,
        None => HelpText::new(""),
    }
}

// Links the files of a command.
fn link(alloc: Global, mut command: Command) -> Result<Request, NoMemory>
    ensures { IfOk result (λ asked. asked ≡ request_by Verb.Link command) }
{
    let name = command.name.take();
    let out = named(alloc, command.out.take())?;
    Ok(Request::Run(Task::Link {
        inputs: inputs_named(command),
        name,
        out,
    }))
}

// Makes this of the location of a command's files.
fn locate(command: Command, product: Product) -> Request
    ensures { result ≡ locating command product }
{
    let inputs = Inputs {
        plan: command.plan,
        files: command.files,
        marks: command.marks,
        options: ReadOptions {
            debug: !command.no_debug,
            gnu: command.gnu,
        },
    };
    Request::Run(Task::Locate {
        inputs,
        keep: command.keep,
        product,
    })
}

// Writes the absolute module of a location.
fn locate_module(alloc: Global, mut command: Command) -> Result<Request, NoMemory>
    ensures { IfOk result (λ asked. asked ≡ request_by Verb.Locate command) }
{
    let out = named(alloc, command.out.take())?;
    Ok(locate(command, Product::Absolute { out }))
}

// The raw image of a location, or the bytes of a region, if one is named.
fn bytes_product(region: Option<Bytes>, fill: u8, out: Text) -> Product
    ensures { result ≡ bytes_of region fill out }
{
    match region {
        Some(name) => Product::Region { name, fill, out },
        None => Product::Raw { fill, out },
    }
}

// Writes the raw image of a location, or the bytes of a region.
fn locate_raw(alloc: Global, mut command: Command) -> Result<Request, NoMemory>
    ensures { IfOk result (λ asked. asked ≡ request_by Verb.Bin command) }
{
    let fill = command.fill;
    let region = command.region.take();
    let out = named(alloc, command.out.take())?;
    Ok(locate(command, bytes_product(region, fill, out)))
}

// Writes the TI-TXT text of a location.
fn locate_text(alloc: Global, mut command: Command) -> Result<Request, NoMemory>
    ensures { IfOk result (λ asked. asked ≡ request_by Verb.Txt command) }
{
    let out = named(alloc, command.out.take())?;
    Ok(locate(command, Product::TiTxt { out }))
}

// Makes a module from a TI-TXT text.
fn from_txt(alloc: Global, mut command: Command) -> Result<Request, NoMemory>
    ensures { IfOk result (λ asked. asked ≡ request_by Verb.FromTxt command) }
{
    let maus = command.maus;
    let out = named(alloc, command.out.take())?;
    Ok(Request::Run(Task::FromTxt {
        inputs: inputs_named(command),
        maus,
        out,
    }))
}

// Makes a module from a listing.
fn build(alloc: Global, mut command: Command) -> Result<Request, NoMemory>
    ensures { IfOk result (λ asked. asked ≡ request_by Verb.Build command) }
{
    let out = named(alloc, command.out.take())?;
    Ok(Request::Run(Task::Build {
        inputs: inputs_named(command),
        out,
    }))
}

// Prints the text of a module.
fn show(command: Command) -> Request
    ensures { result ≡ request_by Verb.Show command }
{
    let listing = command.listing;
    Request::Run(Task::Show {
        inputs: inputs_named(command),
        listing,
    })
}

// Looks up an address.
fn look_up(command: Command) -> Request
    ensures { result ≡ request_by Verb.Addr command }
{
    let address = command.at.unwrap_or(0);
    locate(command, Product::Hit { address })
}

// Prints a map, or the lines of one address of it.
fn map(command: Command) -> Request
    ensures { result ≡ request_by Verb.Map command }
{
    let at = command.at;
    locate(command, Product::Map { at })
}

// What a command asks for.
fn request_named(alloc: Global, command: Command) -> Result<Request, NoMemory>
    ensures is { IfOk result (λ asked. asked ≡ request command) }
    ensures memory { AsksForHelp (request command) → OnErr result ⊥ }
{
    match command.verb {
        Verb::Show => Ok(show(command)),
        Verb::Check => Ok(Request::Run(Task::Check {
            inputs: inputs_named(command),
        })),
        Verb::Link => link(alloc, command),
        Verb::Locate => locate_module(alloc, command),
        Verb::Dump => Ok(locate(command, Product::Image)),
        Verb::Map => Ok(map(command)),
        Verb::Make => Ok(Request::Run(Task::Make {
            count: command.count,
        })),
        Verb::Addr => Ok(look_up(command)),
        Verb::Bin => locate_raw(alloc, command),
        Verb::Txt => locate_text(alloc, command),
        Verb::FromTxt => from_txt(alloc, command),
        Verb::Build => build(alloc, command),
        Verb::Help | Verb::Version => Ok(Request::Run(Task::Help {
            text: help_of(command.help),
        })),
        Verb::Explain => Ok(Request::Explain),
    }
}

/// What a command asks for. A missing name of an output file is read as the empty name; arguments give none.
/// Allocates nothing for `help` and `version`.
pub fn request_of(alloc: Global, command: Command) -> Result<Request, NoMemory>
    requires sound { IsSound command }
    ensures is { IfOk result (λ asked. asked ≡ request command) }
    ensures sound { IfOk result IsSoundRequest }
    ensures memory { AsksForHelp (request command) → OnErr result ⊥ }
{
    request_named(alloc, command)
}
