//! The files of runs.

use crate::archive::archive;
use mufom_drafts::Records;
use mufom_drafts::files::{ABSOLUTE, EMPTY, FIRST, LIBRARY, LINKED, RELOCATABLE, SECOND};
use mufom_numbers::NoMemory;
use std::alloc::Global;

/// What a file holds.
#[derive(Clone, Copy)]
pub enum Held {
    Absolute,
    /// The absolute module with another byte at this offset.
    Changed(usize, u8),
    /// The first bytes of the absolute module, up to this count, and then these.
    Cut(usize, &'static [u8]),
    Relocatable,
    Library,
    Empty,
    First,
    Second,
    Linked,
    Bytes(&'static [u8]),
    /// This number of spaces.
    Spaces(usize),
    /// A module with nothing but these external records.
    Names(&'static [u8]),
    /// An archive with a table of symbols, and these members. Each has a label, and its module nothing but these
    /// external records.
    Archive(&'static [(&'static [u8], &'static [u8])]),
    /// A module with these sections, these external records and these loads.
    Section(&'static [u8], &'static [u8], &'static [u8]),
    /// The file of these records.
    Records(Records<'static>),
}

/// A file's name and what it holds.
pub type File = (&'static str, Held);

// What the whole files hold that were made by hand.
fn whole(held: &Held) -> &'static [u8] {
    match held {
        Held::Relocatable => &RELOCATABLE,
        Held::Library => &LIBRARY,
        Held::Empty => &EMPTY,
        Held::First => &FIRST,
        Held::Second => &SECOND,
        Held::Linked => &LINKED,
        Held::Bytes(bytes) => bytes,
        _ => &ABSOLUTE,
    }
}

fn cut(alloc: Global, count: usize, rest: &[u8]) -> Result<Vec<u8>, NoMemory> {
    let mut bytes = Vec::from_slice(alloc, &ABSOLUTE)?;
    bytes.truncate(count);
    bytes.extend_from_slice(rest)?;
    Ok(bytes)
}

fn changed(alloc: Global, offset: usize, byte: u8) -> Result<Vec<u8>, NoMemory> {
    let mut bytes = Vec::from_slice(alloc, &ABSOLUTE)?;
    if let Some(old) = bytes.get_mut(offset) {
        *old = byte;
    }
    Ok(bytes)
}

fn spaces(alloc: Global, count: usize) -> Result<Vec<u8>, NoMemory> {
    let mut bytes = Vec::new(alloc);
    bytes.resize(count, b' ')?;
    Ok(bytes)
}

fn file(alloc: Global, records: &Records) -> Result<Vec<u8>, NoMemory> {
    Ok(records.file(alloc)?)
}

// The module `m` of four units to an address with these records.
fn module<'a>(
    alloc: Global,
    sections: &'a [u8],
    external: &'a [u8],
    data: &'a [u8],
) -> Result<Vec<u8>, NoMemory> {
    let records = Records {
        sections,
        external,
        data,
        ..Records::NONE
    };
    file(alloc, &records)
}

/// The bytes of a file.
pub(crate) fn content(alloc: Global, held: &Held) -> Result<Vec<u8>, NoMemory> {
    match held {
        Held::Changed(offset, byte) => changed(alloc, *offset, *byte),
        Held::Cut(count, rest) => cut(alloc, *count, rest),
        Held::Spaces(count) => spaces(alloc, *count),
        Held::Archive(members) => archive(alloc, members),
        Held::Names(external) => module(alloc, b"", external, b""),
        Held::Section(sections, external, data) => module(alloc, sections, external, data),
        Held::Records(records) => file(alloc, records),
        _ => Ok(Vec::from_slice(alloc, whole(held))?),
    }
}
