//! The result of reading a part of a stream: a value, more bytes needed, or an error.

use crate::Reason;

/// A part of an input: the position of its first byte, and its length in bytes.
#[derive(Clone, Copy, Debug, PartialEq, Eq)]
pub struct Span {
    pub start: usize,
    pub len: usize,
}

/// The result of reading at the start of an input.
#[derive(Clone, Copy, Debug, PartialEq, Eq, Drop)]
pub enum Taken<T> {
    /// A value, and the number of bytes of the input that it takes.
    Got(T, usize),
    /// There is no error so far, and more bytes are needed.
    More,
    /// An error at this byte offset in the input, whatever bytes follow.
    Bad { offset: usize, reason: Reason },
}
