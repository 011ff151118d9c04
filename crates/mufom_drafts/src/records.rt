//! Files that are made of the records of their parts.

use std::alloc::{AllocError, Global};

/// The bytes of a file: what is before the offsets, and the records of each part. A part without records is absent.
#[derive(Clone, Copy)]
pub struct Records<'a> {
    /// The processor, as a string of the format.
    pub processor: &'a [u8],
    /// The name, as a string of the format.
    pub name: &'a [u8],
    /// The record of the size of addresses and of the order of bytes.
    pub descriptor: &'a [u8],
    pub extension: &'a [u8],
    pub environment: &'a [u8],
    pub sections: &'a [u8],
    pub external: &'a [u8],
    pub debug: &'a [u8],
    pub data: &'a [u8],
    pub trailer: &'a [u8],
}

impl Records<'static> {
    /// A module `m` for the processor `68000` without records. Its addresses have four units, with the most significant
    /// byte first.
    pub const NONE: Records<'static> = Records {
        processor: b"\x0568000",
        name: b"\x01m",
        descriptor: b"\xEC\x08\x04\xCD",
        extension: b"",
        environment: b"",
        sections: b"",
        external: b"",
        debug: b"",
        data: b"",
        trailer: b"",
    };
}

/// The first byte of a file.
const BEGIN: &[u8] = b"\xE0";

/// The record after the parts.
const END: &[u8] = b"\xE1";

/// The length of the eight records of offsets.
const OFFSETS_LENGTH: usize = 64;

// Adds the offset with this number. A file of a test is short, so an offset has four bytes.
fn add_offset(file: &mut Vec<u8>, number: u8, offset: usize) -> Result<(), AllocError> {
    let [_, _, _, _, a, b, c, d] = (offset as u64).to_be_bytes();
    file.extend_from_slice(&[0xE2, 0xD7, number, 0x84, a, b, c, d])
}

impl Records<'_> {
    // Adds the offsets of the parts, and that of the end.
    fn add_offsets(&self, file: &mut Vec<u8>) -> Result<(), AllocError> {
        let parts = [
            (0, self.extension),
            (1, self.environment),
            (2, self.sections),
            (3, self.external),
            (4, self.debug),
            (5, self.data),
            (6, self.trailer),
        ];
        let mut start = file.len().saturating_add(OFFSETS_LENGTH);
        for (number, part) in parts {
            let offset = if part.is_empty() { 0 } else { start };
            add_offset(file, number, offset)?;
            start = start.saturating_add(part.len());
        }
        add_offset(file, 7, start)
    }

    /// The bytes of the file.
    pub fn file(&self, alloc: Global) -> Result<Vec<u8>, AllocError> {
        let mut file = Vec::new(alloc);
        for piece in [BEGIN, self.processor, self.name, self.descriptor] {
            file.extend_from_slice(piece)?;
        }
        self.add_offsets(&mut file)?;
        for part in [
            self.extension,
            self.environment,
            self.sections,
            self.external,
            self.debug,
            self.data,
            self.trailer,
            END,
        ] {
            file.extend_from_slice(part)?;
        }
        Ok(file)
    }
}
