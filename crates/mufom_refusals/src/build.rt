//! Why no module is built from a text.

use mufom_module::Defect;

/// What is wrong at a place of a text, in the order in which two errors at one place are named.
#[derive(Clone, Copy, Debug, PartialEq, Eq)]
pub enum BuildReason {
    /// The line is not one of a listing, or may not come after the lines before it.
    BadText,
    /// A number is greater than its field holds.
    TooGreat,
    /// A line states a wrong position.
    Position,
    /// A line states a wrong number of bytes.
    Count,
    /// An expression has more than 255 tokens.
    TooLong,
    /// More than 32 blocks are open.
    Deep,
}

/// Why no module is built from a text.
#[derive(Clone, Copy, Debug, PartialEq, Eq)]
pub enum BuildRefusal {
    /// The text is wrong at this line and column, which count from 1; a column counts bytes.
    At {
        line: u32,
        column: u32,
        reason: BuildReason,
    },
    /// The text is the listing of parts with this defect, which are not a module.
    Module(Defect),
    /// Memory ran out.
    NoMemory,
}
