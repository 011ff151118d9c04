//! A string of bytes; short ones are held without an allocation.

ghost use Rattle.std.specs.Prelude.{◌≡◌, ◌↔◌, [], length, IfOk, IsTrue};

use crate::NoMemory;
use smallvec::SmallVec;
use std::alloc::Global;
use std::marker::Model;

// The greatest length, in bytes, that is held without an allocation.
const SHORT: usize = 16;

/// An owned string of bytes in no particular character set: a name, or literal bytes. Contracts see it as a list.
///
/// Up to 16 bytes are held in the value itself, without an allocation. This is enough for most names and loads.
#[derive(Debug, Drop)]
pub struct Bytes {
    held: SmallVec<u8, SHORT>,
}

impl Model for Bytes {
    ghost use Rattle.std.specs.Prelude.{List, ℕ};

    ghost Value = { List ℕ };

    ghost view = { λ b. b.held.items };
}

impl Bytes {
    /// An empty string of bytes, which keeps the allocator.
    pub fn new(alloc: Global) -> Bytes
        ensures { result ≡ [] }
    {
        Bytes {
            held: SmallVec::new(alloc),
        }
    }

    /// A copy of the bytes.
    pub fn from_slice(alloc: Global, bytes: &[u8]) -> Result<Bytes, NoMemory>
        ensures { IfOk result (λ copy. copy ≡ bytes.now) }
    {
        let held = SmallVec::from_slice(alloc, bytes)?;
        Ok(Bytes { held })
    }

    /// The bytes of a `Vec`. Does not allocate.
    pub fn from_vec(bytes: Vec<u8>) -> Bytes
        ensures { result ≡ bytes.items }
    {
        Bytes {
            held: SmallVec::from_vec(bytes),
        }
    }

    /// The number of bytes.
    pub fn len(&self) -> usize
        ensures { result ≡ length self.now }
    {
        self.held.len()
    }

    /// Whether there are no bytes.
    pub fn is_empty(&self) -> bool
        ensures { IsTrue result ↔ (self.now ≡ []) }
    {
        self.held.is_empty()
    }

    /// The bytes as a slice.
    pub fn as_slice(&self) -> &[u8]
        ensures { result.now ≡ self.now }
    {
        self.held.as_slice()
    }
}
