//! The pieces of a listing, as they are read from its text: words, numbers, positions, names, bytes and
//! expressions in infix form.
//!
//! A [`Cursor`] is a place in a text, with its line, its column and the first error of its line. The crate
//! depends on `mufom_expr` for expressions, and on `mufom_text` for the bytes of a name that are printed as
//! themselves. The main clause of each call is that the bytes that it passed over spell the piece that it
//! returns, unless the line has an error.
#![tactic(auto)]

mod cursor;
mod expression;
mod refusal;
mod spelled;

pub use cursor::{Cursor, after_spaces};
pub use refusal::PieceStop;
