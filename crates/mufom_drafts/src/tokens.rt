//! Expressions of tokens, and notes of numbers.

use crate::fault::DraftFault;
use arrayvec::ArrayVec;
use mufom_expr::{Builder, Postfix, Token};
use mufom_names::Note;
use std::alloc::Global;

/// The expression of these tokens.
pub fn expression(alloc: Global, tokens: &[Token]) -> Result<Postfix, DraftFault> {
    let mut builder = Builder::new(alloc);
    for token in tokens {
        builder.push(*token)?;
    }
    Ok(builder.finish()?)
}

/// The note of this type and attribute with these numbers.
pub fn note(type_index: u64, attribute: u64, numbers: &[u64]) -> Result<Note, DraftFault> {
    let mut note = Note {
        type_index,
        attribute,
        numbers: ArrayVec::new(),
    };
    for number in numbers {
        if note.numbers.try_push(*number).is_err() {
            return Err(DraftFault::Numbers);
        }
    }
    Ok(note)
}
