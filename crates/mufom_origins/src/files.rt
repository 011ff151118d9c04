//! The files from which modules were read.

ghost use Rattle.std.specs.Prelude.{◌≡◌, ◌++◌, [], OnOk, option_map, slice_get};
ghost use Rattle.mufom_origins.specs.Words.{all_files, file_at, own_files};

use mufom_archive::Listing;
use mufom_numbers::{List, NoMemory, Text};
use std::alloc::Global;

/// A file from which modules were read.
#[derive(Drop)]
pub(crate) struct ReadFile {
    /// The number of the file, from 0.
    pub(crate) number: u32,
    /// The name of the file as it was given.
    pub(crate) name: Text,
    /// The members of an archive.
    pub(crate) listing: Option<Listing>,
    /// The number of modules.
    pub(crate) modules: usize,
}

/// The files of all modules, in the order in which the modules were read. Names of members are not copied.
#[derive(Drop)]
pub struct ModuleFiles {
    pub(crate) files: List<ReadFile>,
}

impl ModuleFiles {
    /// No modules.
    pub fn new(alloc: Global) -> ModuleFiles
        ensures { all_files result ≡ [] }
    {
        ModuleFiles {
            files: List::new(alloc),
        }
    }

    /// Adds a file with its number, its name and the number of its modules. If the file is an archive, the modules
    /// are those of the listing's entries. Out of memory is the only error.
    pub fn add(
        &mut self,
        alloc: Global,
        number: u32,
        name: &str,
        listing: Option<Listing>,
        modules: usize,
    ) -> Result<(), NoMemory>
        ensures { OnOk result (all_files self.new ≡ all_files self.old
            ++ own_files (record { number = number; name = name.now; listing = listing; modules = modules })) }
    {
        let name = Text::from_str(alloc, name)?;
        self.files.push(ReadFile {
            number,
            name,
            listing,
            modules,
        })
    }

    /// The file of the module at a place among all modules, and the position of the module in the file.
    pub(crate) fn find(&self, place: usize) -> Option<(&ReadFile, usize)>
        ensures { option_map (λ found. file_at found.0.now found.1) result ≡ slice_get (all_files self.now) place }
    {
        let mut rest = place;
        for file in self.files.as_slice() {
            if rest < file.modules {
                return Some((file, rest));
            }
            rest -= file.modules;
        }
        None
    }
}
