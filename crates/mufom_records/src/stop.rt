//! Why no record is read.

use mufom_numbers::Reason;

/// Why no record was read: `More` if the input is only the start of a record, without an error; `Bad` for any other input.
#[derive(Clone, Copy, Debug, PartialEq, Eq)]
pub enum Stop {
    /// The input ends too early.
    More,
    /// The first error, and the offset of the byte at which it is reported.
    Bad { offset: usize, reason: Reason },
}
