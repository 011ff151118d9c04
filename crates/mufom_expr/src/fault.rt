//! Errors of token sequences that are not one expression.

use thiserror::Error;

/// Why a sequence of tokens is not an expression.
#[derive(Clone, Copy, Debug, PartialEq, Eq, Error)]
pub enum ExprFault {
    /// A function finds fewer terms before it than it has operands.
    #[error("a function has too few terms")]
    Underflow,
    /// More than one term is left at the end.
    #[error("more than one term is left")]
    SurplusTerms,
    /// There are no tokens.
    #[error("there is no token")]
    Empty,
    /// There are more than 255 tokens.
    #[error("there are more than 255 tokens")]
    TooLong,
    #[error("out of memory")]
    NoMemory,
}
