//! The explanation of an error in a module with the longest name and many references.

use mufom_drafts::Records;
use mufom_numbers::limits::MOST_STRING_BYTES;
use mufom_runs::Session;
use std::alloc::{AllocError, Global};

// The first letters and the second letters of 200 names.
const FIRSTS: &[u8] = b"abcdefghij";

const SECONDS: &[u8] = b"abcdefghijklmnopqrst";

// A reference to each name with this first letter. Its index is spelled by the letters too.
fn add_references(external: &mut Vec<u8>, first: u8) -> Result<(), AllocError> {
    for second in SECONDS {
        external.extend_from_slice(&[0xE9, 0x82, first, *second, 2, first, *second])?;
    }
    Ok(())
}

// The file of a module with this name, a string of the format, and these records of its external part.
fn module_with<'a>(
    alloc: Global,
    name: &'a [u8],
    external: &'a [u8],
) -> Result<Vec<u8>, AllocError> {
    let records = Records {
        name,
        external,
        ..Records::NONE
    };
    records.file(alloc)
}

// The file of a module with the longest name, which refers to all of the names.
fn long_module(alloc: Global) -> Result<Vec<u8>, AllocError> {
    let mut name = Vec::from_slice(alloc, b"\xDF\xFF\xFF")?;
    name.resize(3 + MOST_STRING_BYTES, b'n')?;
    let mut external = Vec::new(alloc);
    for first in FIRSTS {
        add_references(&mut external, *first)?;
    }
    module_with(alloc, name.as_slice(), external.as_slice())
}

// The lines of the references to the names with this first letter.
fn add_lines(text: &mut String, first: u8) -> Result<(), AllocError> {
    for second in SECONDS {
        text.push('"')?;
        text.push(first as char)?;
        text.push(*second as char)?;
        text.push_str("\": reference in module 0\n")?;
    }
    Ok(())
}

// The transcript: a line for each name, and the name of the module once.
fn long_transcript(alloc: Global) -> Result<String, AllocError> {
    let mut text = String::new(alloc);
    text.push_str("\n$ explain dump a\nrefused: locate: Undefined \"aa\"\n")?;
    for first in FIRSTS {
        add_lines(&mut text, *first)?;
    }
    text.push_str("module 0 \"")?;
    for _ in 0..MOST_STRING_BYTES {
        text.push('n')?;
    }
    text.push_str("\" file 0: \"a\"\n\n(help Undefined)\n")?;
    Ok(text)
}

#[test]
fn a_long_name_of_a_module_is_told_once(rt: HostRuntime) {
    let alloc = rt.alloc();
    let file = long_module(alloc).expect(&rt, "memory");
    let text = long_transcript(alloc).expect(&rt, "memory");
    let mut session = Session::new(alloc, &[]);
    session.add("a", &file).expect(&rt, "memory");
    session.replay(text.as_str()).expect(&rt, "a transcript");
}
