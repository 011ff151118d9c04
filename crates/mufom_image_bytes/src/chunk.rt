//! A chunk of loaded bytes.

/// Bytes that are loaded one after another at consecutive addresses.
#[derive(Clone, Copy, Debug)]
pub struct Chunk {
    /// The address of the first byte.
    pub address: u64,
    /// The number of bytes that are loaded before the first one.
    pub start: usize,
    /// How many bytes it has.
    pub count: usize,
}
