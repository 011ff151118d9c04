//! Why the bytes of a file are not a module.

use thiserror::Error;

/// Why a file is not an object module.
#[derive(Clone, Copy, Debug, PartialEq, Eq, Error)]
pub enum Reason {
    /// A number is expected and the byte does not begin one, or an index is 2^32 or more.
    #[error("invalid number")]
    BadNumber,
    /// A string is expected and the byte does not begin one.
    #[error("invalid string")]
    BadId,
    /// The byte, or the pair of bytes, does not begin a record.
    #[error("invalid record")]
    BadRecord,
    /// A record of the standard that this profile leaves out.
    #[error("unsupported record")]
    UnsupportedRecord,
    /// A function of the standard that this profile leaves out.
    #[error("unsupported function")]
    UnsupportedFunction,
    /// A variable of the standard that this profile leaves out.
    #[error("unsupported variable")]
    UnsupportedVariable,
    /// A function has fewer terms before it than it takes operands.
    #[error("too few operands for the function")]
    Underflow,
    /// An expression ends with more than one term.
    #[error("the expression leaves more than one term")]
    SurplusTerms,
    /// An expression is expected, but there is no token.
    #[error("empty expression")]
    Empty,
    /// An expression has a 256th token.
    #[error("the expression has more than 255 tokens")]
    TooLong,
    /// A run of literal bytes is longer than 65,535 bytes.
    #[error("the run of bytes is longer than 65,535")]
    LongRun,
    /// A field's size is not 1 to 8 bytes.
    #[error("the size of a field is not 1 to 8")]
    BadFieldSize,
    /// A closing bracket is expected, and the byte is not the one that matches the opening bracket.
    #[error("mismatched bracket")]
    BracketMismatch,
    /// A section's letters are neither `C` nor `A S`.
    #[error("invalid section type")]
    BadSectionType,
    /// A kind of debug block that this profile leaves out.
    #[error("unsupported kind of debug block")]
    UnsupportedBlock,
    /// An attribute of a debug note that this profile leaves out.
    #[error("unsupported attribute of a debug record")]
    UnsupportedAttribute,
    /// The file ends before the module does.
    #[error("unexpected end of the file")]
    Truncated,
    /// The header contains an unexpected record.
    #[error("invalid header")]
    BadHeader,
    /// The addressable units are not those of this profile.
    #[error("unsupported addressable units")]
    BadDescriptor,
    /// The offsets of the parts decrease, or that of the end is 0.
    #[error("the offsets of the parts are out of order")]
    OffsetOrder,
    /// A record crosses the end of its part, or the parts do not begin after the offsets.
    #[error("a record crosses the boundary of its part")]
    PartGap,
    /// A record is in a part to which it does not belong.
    #[error("the record does not belong to this part")]
    WrongPart,
    /// An index is declared twice.
    #[error("duplicate index")]
    DuplicateIndex,
    /// An index is used that is not declared.
    #[error("undeclared index")]
    UnknownIndex,
    /// A value is given twice.
    #[error("duplicate value")]
    DuplicateValue,
    /// A public name has no value.
    #[error("a public symbol has no value")]
    MissingValue,
    /// An absolute section has no base.
    #[error("an absolute section has no base")]
    MissingBase,
    /// An alignment is 0 or above 2^31.
    #[error("invalid alignment")]
    BadAlignment,
    /// A load occurs before a section is set.
    #[error("no section is set")]
    NoSection,
    /// An expression uses a program counter where there is none.
    #[error("misplaced program counter")]
    BadP,
    /// The end of a debug block has no matching beginning, has a value that it cannot have, or is missing.
    #[error("unbalanced debug blocks")]
    BlockNesting,
    /// A 33rd debug block is opened inside 32 open ones.
    #[error("debug blocks are nested too deeply")]
    Depth,
    /// A byte follows the end of the module.
    #[error("data after the end of the module")]
    AfterEnd,
    /// The file is longer than 67,108,864 bytes.
    #[error("the file is longer than 67,108,864 bytes")]
    FileLimit,
    /// A file begins as an archive, and an entry of it is invalid.
    #[error("invalid archive")]
    BadArchive,
}
