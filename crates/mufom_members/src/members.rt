//! The modules of a file, or why it has none.

ghost use Rattle.std.specs.Prelude.{◌≡◌, option_map};
ghost use Rattle.mufom_members.specs.Names.{name_at};

use mufom_archive::{BadArchive, Listing};
use mufom_module::Module;
use mufom_numbers::List;
use mufom_read::ReadRefusal;
use thiserror::Error;

/// The modules of a file.
#[derive(Drop)]
pub struct Members {
    /// The modules in their order: those of an archive, or the only one of another file.
    pub modules: List<Module>,
    /// The length of the file in bytes.
    pub length: u64,
    /// The listing of an archive, with the entries of the modules alone. None if the file is not an archive.
    pub listing: Option<Listing>,
}

/// The name of the module at this position of a file, without the path of the file, given the listing of the
/// file's modules. `None` if the file is not an archive, or if it has no such module. Does not allocate.
pub fn name_at(listing: &Option<Listing>, position: usize) -> Option<&[u8]>
    ensures { option_map (λ name. name.now) result ≡ name_at listing.now position }
{
    let listing = listing.as_ref()?;
    let entry = listing.entries.get(position)?;
    listing.name(entry)
}

impl Members {
    /// The name of the module at this position in the archive, without its path. `None` if the file is not an
    /// archive, or if it has no such module. Does not allocate.
    pub fn name(&self, position: usize) -> Option<&[u8]>
        ensures { option_map (λ name. name.now) result ≡ name_at self.now.listing position }
    {
        name_at(&self.listing, position)
    }
}

/// Why a file has no modules.
#[derive(Clone, Copy, Debug, PartialEq, Eq, Error)]
pub enum MembersStop {
    /// The bytes of a module contain an error. In an archive its offset is counted from the start of the
    /// archive.
    #[error(transparent)]
    Refused(ReadRefusal),
    /// The file begins as an archive, and an entry is invalid.
    #[error(transparent)]
    BadArchive(BadArchive),
    /// The file has more bytes than may be read, and those that may be read contain no error, or, in an archive,
    /// only one that the bytes after them may mend.
    #[error("the file is too long")]
    Limit,
    #[error("the file cannot be read")]
    Fault,
    #[error("out of memory")]
    NoMemory,
}
