//! Bytes that are gathered before they are passed on.

use std::marker::Model;

// The size of a block, in bytes.
const SIZE: usize = 65_536;

/// A buffer that gathers at most 65,536 bytes, to pass them on at once. Contracts see the bytes. Does
/// not allocate.
#[derive(Drop)]
pub struct Block {
    bytes: [u8; SIZE],
    used: usize,
}

impl Model for Block {
    ghost use Rattle.std.specs.Prelude.{List, ℕ, ◌≤◌, take};
    ghost use Rattle.mufom_host.specs.declared.block.TheConstants.{SIZE};

    ghost Value = { List ℕ };

    ghost view = { λ block. take block.used block.bytes };

    ghost invariant = { λ block. block.used ≤ SIZE };
}

impl Block {
    ghost use Rattle.std.specs.Prelude.{◌≡◌, [], ◌++◌, true, false};

    /// An empty block.
    pub fn new() -> Block
        ensures { result ≡ [] }
    {
        Block {
            bytes: [0; SIZE],
            used: 0,
        }
    }

    /// The bytes of the block.
    pub fn as_slice(&self) -> &[u8]
        ensures { result.now ≡ self.now }
    {
        &self.bytes[..self.used]
    }

    /// Adds bytes if there is room for all of them, and returns whether there was.
    pub fn hold(&mut self, bytes: &[u8]) -> bool
        ensures held { result ≡ true → self.new ≡ self.old ++ bytes.now }
        ensures full { result ≡ false → self.new ≡ self.old }
    {
        if bytes.len() > SIZE - self.used {
            return false;
        }
        // Often there is only one byte, and copying a slice would take longer.
        if let [byte] = bytes {
            self.bytes[self.used] = *byte;
            self.used += 1;
            return true;
        }
        let end = self.used + bytes.len();
        self.bytes[self.used..end].copy_from_slice(bytes);
        self.used = end;
        true
    }

    /// Removes all bytes.
    pub fn clear(&mut self)
        ensures { self.new ≡ [] }
    {
        self.used = 0;
    }
}
