//! What a transcript says of one run.

use crate::mismatch::{Mismatch, no_topic};
use mufom_help::{command_list, topic_text};
use std::alloc::{AllocError, Global};

/// The statuses of runs that are not done, as a transcript has them before an error line.
const STATUSES: [(u8, &str); 5] = [
    (1, "[1] "),
    (2, "[2] "),
    (3, "[3] "),
    (4, "[4] "),
    (5, "[5] "),
];

/// What one run is to print, and the status that it is to end with.
#[derive(Drop)]
pub(crate) struct Wanted {
    pub(crate) status: u8,
    pub(crate) text: Vec<u8>,
}

// The status of a text, and what follows it.
fn status_of(text: &str) -> (u8, &str) {
    for (status, mark) in STATUSES {
        if let Some(rest) = text.strip_prefix(mark) {
            return (status, rest);
        }
    }
    (0, text)
}

// The text of help on this word, which a closing bracket ends; without a word the list of commands.
fn help(alloc: Global, word: &str) -> Result<&'static str, Mismatch> {
    if word == ")" {
        return Ok(command_list());
    }
    let word = word.trim_matches(|c: char| c == ' ' || c == ')');
    match topic_text(word) {
        Some(text) => Ok(text),
        None => Err(no_topic(alloc, word)),
    }
}

// The bytes of two texts.
fn joined(alloc: Global, first: &str, second: &str) -> Result<Vec<u8>, AllocError> {
    let mut bytes = Vec::from_slice(alloc, first.as_bytes())?;
    bytes.extend_from_slice(second.as_bytes())?;
    Ok(bytes)
}

/// What the text after a line of arguments, without its last line break, says of the run.
pub(crate) fn read_wanted(alloc: Global, text: &str) -> Result<Wanted, Mismatch> {
    let (status, text) = status_of(text);
    let text = match text.split_once("(help") {
        Some((lines, word)) => joined(alloc, lines, help(alloc, word)?)?,
        None if text.is_empty() => Vec::new(alloc),
        None => joined(alloc, text, "\n")?,
    };
    Ok(Wanted { status, text })
}
