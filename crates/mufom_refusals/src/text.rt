//! Why a text is not a TI-TXT text.

use thiserror::Error;

/// The error of a line of a TI-TXT text, or of its end.
#[derive(Clone, Copy, Debug, PartialEq, Eq, Error)]
pub enum TxtReason {
    /// The line is neither blank, nor an address, nor bytes, nor `q`.
    #[error("invalid line")]
    BadLine,
    /// Bytes come before any address.
    #[error("bytes before any address")]
    NoAddress,
    /// A byte is not below the end of the address space.
    #[error("a byte lies beyond the address space")]
    Beyond,
    /// This address already has a byte.
    #[error("address {0} has a second byte")]
    Twice(u64),
    /// The line is not blank, and follows `q`.
    #[error("text after the end line")]
    AfterEnd,
    /// The text has no line `q`.
    #[error("the end line is missing")]
    NoEnd,
}

/// The first error in a TI-TXT text.
#[derive(Clone, Copy, Debug, PartialEq, Eq, Error)]
#[error("line {line}: {reason}")]
pub struct TxtRefusal {
    /// The first line with an error, counted from 1. For [`NoEnd`](TxtReason::NoEnd) it is the last line.
    pub line: u32,
    pub reason: TxtReason,
}
