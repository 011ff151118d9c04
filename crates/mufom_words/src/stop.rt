//! Errors in the arguments.

use thiserror::Error;

/// An error in the arguments.
#[derive(Clone, Copy, Debug, PartialEq, Eq, Error)]
pub enum UsageFault {
    /// No argument, or a first argument that names no command.
    #[error("no such command")]
    NoCommand,
    /// An option that the command does not have, that occurs twice, that lacks its value or has one
    /// although it takes none, or that is required and missing; or arguments of `help`, `version` or
    /// `explain` that are not valid.
    #[error("invalid arguments")]
    BadWords,
    /// No file.
    #[error("no input file")]
    NoFile,
    /// A group without a file.
    #[error("a group is empty")]
    EmptyGroup,
    /// A group that is not closed.
    #[error("a group is not closed")]
    OpenGroup,
    /// A bracket that closes no group, or a bracket for a command without groups.
    #[error("unexpected bracket")]
    StrayBracket,
    /// A `+` that no members may follow, a bracket that opens a group after the `+`, or no member
    /// after it.
    #[error("misplaced +")]
    BadMembers,
    /// Another number of files, or of counts, than the command takes.
    #[error("wrong number of files")]
    FileCount,
    /// A count that is not a decimal number from 1 to 65,536, or a value of `--maus` that is not one digit from
    /// 1 to 8.
    #[error("invalid count")]
    BadCount,
    /// A byte that is not two hexadecimal digits.
    #[error("invalid byte")]
    BadByte,
    /// An address that is not 1 to 16 hexadecimal digits.
    #[error("invalid address")]
    BadAddress,
    /// A name of a module that has more than 65,535 bytes.
    #[error("the name is longer than 65,535 bytes")]
    LongName,
}

/// Why the arguments give no command.
#[derive(Clone, Copy, Debug, PartialEq, Eq, Error)]
pub enum WordsStop {
    /// The arguments are not a command.
    #[error(transparent)]
    Usage(UsageFault),
    /// The arguments name this number of files, more than 1,024.
    #[error("{0} files, more than 1,024")]
    TooManyFiles(u32),
    /// This number of groups is open at once, more than 64.
    #[error("{0} groups are open at once, more than 64")]
    TooDeep(u32),
    /// Memory ran out.
    #[error("out of memory")]
    NoMemory,
}
