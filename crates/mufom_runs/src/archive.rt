//! Archives of modules that have nothing but external records.

use mufom_drafts::Records;
use mufom_numbers::NoMemory;
use std::alloc::Global;

// The field of a header that states a size of at most three digits.
fn size_field(size: usize) -> [u8; 10] {
    let mut field = *b"000       ";
    field[0] = b'0' + (size / 100 % 10) as u8;
    field[1] = b'0' + (size / 10 % 10) as u8;
    field[2] = b'0' + (size % 10) as u8;
    field
}

// Adds an entry, with padding if its contents have an odd size.
fn add_entry(archive: &mut Vec<u8>, label: &[u8], contents: &[u8]) -> Result<(), NoMemory> {
    archive.extend_from_slice(label)?;
    archive.extend_from_slice(b"0           0     0     644     ")?;
    archive.extend_from_slice(&size_field(contents.len()))?;
    archive.extend_from_slice(b"`\n")?;
    archive.extend_from_slice(contents)?;
    if contents.len() % 2 == 1 {
        archive.push(b'\n')?;
    }
    Ok(())
}

/// The archive with a table of symbols, and with these members: the label of each, and the external records of its
/// module.
pub(crate) fn archive(alloc: Global, members: &[(&[u8], &[u8])]) -> Result<Vec<u8>, NoMemory> {
    let mut archive = Vec::from_slice(alloc, b"!<arch>\n")?;
    add_entry(&mut archive, b"/               ", b"\0\0\0\0")?;
    for (label, external) in members {
        let records = Records {
            external,
            ..Records::NONE
        };
        add_entry(&mut archive, label, &records.file(alloc)?)?;
    }
    Ok(archive)
}
