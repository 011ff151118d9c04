//! What is found at an address: a function and a source line.

use mufom_numbers::Bytes;

/// A function around an address.
#[derive(Debug, Drop)]
pub struct FunctionHit {
    /// The kind of its block: 4 for a global function, 6 for a local one.
    pub kind: u8,
    /// The name of its block, without the quotes of a listing.
    pub name: Bytes,
    /// Its first address.
    pub begin: u64,
    /// Its last address, which belongs to the function.
    pub end: u64,
}

/// A source line and the address at which its code begins.
#[derive(Debug, Drop)]
pub struct LineHit {
    /// The line number in its source file.
    pub line: u64,
    /// The address at which its code begins.
    pub address: u64,
    /// The name of the source file, if the line is in one.
    pub source: Option<Bytes>,
}

/// What the debug items say about an address.
#[derive(Debug, Drop)]
pub struct Hit {
    /// The innermost function around the address, if there is one.
    pub function: Option<FunctionHit>,
    /// The nearest line at or below the address, if there is one.
    pub line: Option<LineHit>,
}
