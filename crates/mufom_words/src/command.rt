//! A command, as the arguments give it.

use mufom_numbers::{Bytes, List, Text};
use std::marker::Model;

/// What a command does.
#[derive(Clone, Copy, Debug, PartialEq, Eq)]
pub enum Verb {
    /// Prints the text of a module.
    Show,
    /// Reads modules and prints a line for each.
    Check,
    /// Links files, and writes the linked module.
    Link,
    /// Links and locates files, and writes the absolute module.
    Locate,
    /// Links and locates files, and prints the image.
    Dump,
    /// Links and locates files, and prints what is at each address.
    Map,
    /// Generates modules, links and locates them, and prints a summary.
    Make,
    /// Links and locates files, and prints the function and the line at an address.
    Addr,
    /// Links and locates files, and writes the image as raw bytes.
    Bin,
    /// Links and locates files, and writes the image as a TI-TXT text.
    Txt,
    /// Reads a TI-TXT text, and writes a module that loads its bytes.
    FromTxt,
    /// Reads the listing of a module, and writes the module.
    Build,
    /// Prints the list of commands, or a text about a command or an error.
    Help,
    /// Prints the version of the program.
    Version,
    /// Runs the command that follows it up to its first output, and explains how that run ends.
    Explain,
}

/// A text that `help` or `version` prints, which is part of the program. Contracts see its bytes.
#[derive(Debug, Drop)]
pub struct HelpText {
    text: &'static str,
}

impl Model for HelpText {
    ghost use Rattle.std.specs.Prelude.{List, ℕ};

    ghost Value = { List ℕ };

    ghost view = { λ help. help.text.now };
}

impl HelpText {
    ghost use Rattle.std.specs.Prelude.{◌≡◌};

    /// The text as a value of its own.
    pub fn new(text: &'static str) -> HelpText
        ensures { result ≡ text.now }
    {
        HelpText { text }
    }

    /// The text.
    pub fn as_str(&self) -> &'static str
        ensures { result.now ≡ self.now }
    {
        self.text
    }
}

/// One argument of FILES: a bracket, or a file.
#[derive(Clone, Copy, Debug, PartialEq, Eq)]
pub enum Mark {
    /// A group begins.
    Open,
    /// The innermost open group ends.
    Close,
    /// The file with this number, from 0 in the order of the arguments.
    File(u32),
}

/// A command, with what its arguments give.
#[derive(Debug, Drop)]
pub struct Command {
    pub verb: Verb,
    /// `--no-debug`: the debug parts are skipped.
    pub no_debug: bool,
    /// `--gnu`: the forms in which GNU binutils writes modules are accepted too.
    pub gnu: bool,
    /// `--name`: the name of the linked module.
    pub name: Option<Bytes>,
    /// `-o`: the file to write. It is `Some` if and only if the command writes one.
    pub out: Option<Text>,
    /// `--plan`: the file of the memory plan.
    pub plan: Option<Text>,
    /// The files that are not members, with the brackets around groups.
    pub marks: List<Mark>,
    /// The names of all files, in the order of the arguments. The members come last.
    pub files: List<Text>,
    /// COUNT of `make`: the number of modules to generate; 0 for other commands.
    pub count: u32,
    /// `--listing`: the module is printed in full.
    pub listing: bool,
    /// `--fill`: the byte for addresses without a loaded byte; 0 without the option.
    pub fill: u8,
    /// `--at`: the address that is looked up.
    pub at: Option<u64>,
    /// `--maus`: the number of bytes in an address of the module that `fromtxt` makes; 4 without the option.
    pub maus: u8,
    /// `--keep`: the public symbols to keep, in the order of the arguments. If there is one, all that is needed
    /// neither by these, nor by the start address, nor by a section that always stays is left out.
    pub keep: List<Bytes>,
    /// `--region`: the region of the plan whose bytes alone are written.
    pub region: Option<Bytes>,
    /// The text that `help` or `version` prints; `None` for other commands.
    pub help: Option<HelpText>,
}
