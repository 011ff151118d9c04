//! The outcome of a run, and the reasons for which it is refused.

ghost use Rattle.std.specs.Prelude.{◌≡◌};
ghost use Rattle.mufom_outcome.specs.Complaint.{status_of};

use mufom_numbers::Bytes;
use mufom_plan::PlanRefusal;
use mufom_read::ReadRefusal;
use mufom_refusals::{BuildRefusal, LinkRefusal, LocateRefusal, TxtRefusal};
use mufom_words::UsageFault;

/// An input of a run.
#[derive(Clone, Copy, Debug, PartialEq, Eq)]
pub enum Input {
    /// The file of the plan.
    Plan,
    /// The file with this number, from 0 in the order of the arguments.
    File(u32),
}

/// Why `bin` does not write the bytes of a location.
#[derive(Debug, Drop)]
pub enum BinRefusal {
    /// The file would have this many bytes, which is too many.
    TooLong(u128),
    /// No region of the plan has this name.
    Region(Bytes),
}

/// Why a run is refused.
#[derive(Debug, Drop)]
pub enum Refusal {
    /// The file with this number is not a valid module.
    Read(u32, ReadRefusal),
    /// The total length of the files exceeds the limit in the file with this number.
    InputLimit(u32),
    /// The files have this many modules, which is too many.
    TooManyModules(u64),
    /// The arguments name this many files, which is too many.
    TooManyFiles(u32),
    /// This many groups are open at once, which is more than a run may have.
    TooDeep(u32),
    /// The file of the plan is not a valid plan.
    Plan(PlanRefusal),
    /// The files, or those of a group, cannot be linked.
    Link(LinkRefusal),
    /// The files cannot be located. The number is the length of an address in units.
    Locate(LocateRefusal, u8),
    /// A public symbol of the modules that are located has this name, which a symbol of the plan has too.
    SharedName(Bytes),
    /// No public symbol of the linked modules has this name, which should be kept.
    Keep(Bytes),
    /// The files can be located, but `bin` does not write the bytes.
    Bin(BinRefusal),
    /// The file is not a valid TI-TXT text.
    Text(TxtRefusal),
    /// The file is not the listing of a module.
    Build(BuildRefusal),
}

/// The outcome of a run.
#[derive(Debug, Drop)]
pub enum Outcome {
    /// The command succeeded.
    Done,
    /// An input is refused.
    Refused(Refusal),
    /// The arguments are not a command.
    Usage(UsageFault),
    /// An input could not be opened or read.
    ReadFault(Input),
    /// The output could not be written.
    WriteFault,
    /// Memory ran out.
    NoMemory,
}

impl Outcome {
    /// The status with which the program ends, 0 to 5. Does not allocate.
    pub fn status(&self) -> u8
        ensures { result ≡ status_of self.now }
    {
        match self {
            Outcome::Done => 0,
            Outcome::Refused(_) => 1,
            Outcome::Usage(_) => 2,
            Outcome::ReadFault(_) => 3,
            Outcome::WriteFault => 4,
            Outcome::NoMemory => 5,
        }
    }
}
