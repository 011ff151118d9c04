//! The bytes of an output in memory.

ghost use Rattle.std.specs.Prelude.{◌≡◌, ◌↔◌, ◌+◌, ◌≤◌, ◌++◌, [], length, IfOk, IsTrue};

use mufom_numbers::NoMemory;
use std::alloc::Global;
use std::marker::Model;

/// Bytes in a buffer that is allocated at the start and does not grow later.
#[derive(Drop)]
pub struct Buffer {
    bytes: Vec<u8>,
    room: usize,
}

impl Model for Buffer {
    ghost use Rattle.std.specs.Prelude.{◌≤◌};
    ghost use Rattle.std.specs.Vec.{vec_len, vec_capacity};
    ghost use Rattle.mufom_host.specs.Kept.{Store};

    ghost Value = { Store };

    ghost view = { λ b. record { bytes = b.bytes.items; room = b.room } };

    ghost invariant = { λ b. (vec_len b.bytes ≤ b.room) × (b.room ≤ vec_capacity b.bytes) };
}

impl Buffer {
    pub fn new(alloc: Global, room: usize) -> Result<Buffer, NoMemory>
        ensures { IfOk result (λ buffer. buffer ≡ record { bytes = []; room = room }) }
    {
        let bytes = Vec::with_capacity(alloc, room)?;
        Ok(Buffer { bytes, room })
    }

    pub fn as_slice(&self) -> &[u8]
        ensures { result.now ≡ self.now.bytes }
    {
        self.bytes.as_slice()
    }

    /// Whether there is room for `count` more bytes.
    pub fn has_room_for(&self, count: usize) -> bool
        ensures { IsTrue result ↔ (length self.now.bytes + count ≤ self.now.room) }
    {
        count <= self.room - self.bytes.len()
    }

    pub fn add(&mut self, text: &[u8])
        requires { length self.old.bytes + length text.now ≤ self.old.room }
        ensures { self.new ≡ record self.old { bytes = self.old.bytes ++ text.now } }
    {
        // This succeeds, since there is room.
        let _ = self.bytes.extend_from_slice(text);
    }

    pub fn clear(&mut self)
        ensures { self.new ≡ record self.old { bytes = [] } }
    {
        self.bytes.clear();
    }
}
