//! How a run differs from its transcript.

use mufom_numbers::NoMemory;
use std::alloc::{AllocError, Global};

/// How a run differs from its transcript.
#[derive(Debug, Drop)]
pub enum Mismatch {
    NoMemory,
    /// The text does not begin with a line of arguments.
    NoRun,
    /// There is no such text of `help`.
    NoTopic(String),
    /// The run with these arguments ends with another status than the wanted one, which is the last.
    Status(String, u8, u8),
    /// The run with these arguments prints this to the output and this to the error output.
    Text(String, String, String),
    /// The run with these arguments makes or begins a file.
    Made(String),
}

impl From<NoMemory> for Mismatch {
    fn from(_: NoMemory) -> Self {
        Mismatch::NoMemory
    }
}

impl From<AllocError> for Mismatch {
    fn from(_: AllocError) -> Self {
        Mismatch::NoMemory
    }
}

// The text of these bytes.
fn text_of(alloc: Global, bytes: &[u8]) -> Result<String, AllocError> {
    match std::str::from_utf8(bytes) {
        Ok(text) => text.to_string(alloc),
        Err(_) => "bytes that are no text".to_string(alloc),
    }
}

// Each of these has its own function, which takes nothing that it would drop on the way.
pub(crate) fn no_topic(alloc: Global, word: &str) -> Mismatch {
    match word.to_string(alloc) {
        Ok(word) => Mismatch::NoTopic(word),
        Err(_) => Mismatch::NoMemory,
    }
}

pub(crate) fn other_status(alloc: Global, line: &str, status: u8, wanted: u8) -> Mismatch {
    match line.to_string(alloc) {
        Ok(line) => Mismatch::Status(line, status, wanted),
        Err(_) => Mismatch::NoMemory,
    }
}

fn texts(alloc: Global, line: &str, out: &[u8], err: &[u8]) -> Result<Mismatch, AllocError> {
    let line = line.to_string(alloc)?;
    let out = text_of(alloc, out)?;
    let err = text_of(alloc, err)?;
    Ok(Mismatch::Text(line, out, err))
}

pub(crate) fn other_text(alloc: Global, line: &str, out: &[u8], err: &[u8]) -> Mismatch {
    texts(alloc, line, out, err).unwrap_or(Mismatch::NoMemory)
}

pub(crate) fn file_made(alloc: Global, line: &str) -> Mismatch {
    match line.to_string(alloc) {
        Ok(line) => Mismatch::Made(line),
        Err(_) => Mismatch::NoMemory,
    }
}
