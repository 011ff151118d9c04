//! The names of files that were opened or created.

ghost use Rattle.std.specs.Prelude.{◌≡◌, [], Some, IfOk, is_some};
ghost use Rattle.mufom_host.specs.Kept.{names_with};

use mufom_numbers::NoMemory;
use std::alloc::Global;
use std::marker::Model;

/// Names in a buffer that is allocated at the start; each counts as its length in bytes plus 8. Once a
/// name exceeds the room, the list is no longer known.
#[derive(Drop)]
pub struct Names {
    bytes: Vec<u8>,
    lengths: Vec<usize>,
    room: usize,
    is_known: bool,
}

impl Model for Names {
    ghost use Rattle.std.specs.Prelude.{Some, None, if◌then◌else◌};
    ghost use Rattle.mufom_host.specs.Kept.{NameStore, cut};
    ghost use Rattle.mufom_host.specs.KeptNames.{HasRoom};

    ghost Value = { NameStore };

    ghost view = { λ n. record { names = if n.is_known then Some (cut n.lengths.items n.bytes.items) else None; room = n.room } };

    ghost invariant = { λ n. HasRoom n.bytes n.lengths n.room };
}

impl Names {
    pub fn new(alloc: Global, room: usize) -> Result<Names, NoMemory>
        ensures { IfOk result (λ names. names ≡ record { names = Some []; room = room }) }
    {
        let bytes = Vec::with_capacity(alloc, room)?;
        let lengths = Vec::with_capacity(alloc, room / 8)?;
        Ok(Names {
            bytes,
            lengths,
            room,
            is_known: true,
        })
    }

    /// Adds a name, and returns whether the list of names is still known.
    pub fn add(&mut self, name: &[u8]) -> bool
        ensures after { self.new ≡ record self.old { names = names_with self.old.room self.old.names name.now } }
        ensures known { result ≡ is_some self.new.names }
    {
        if !self.is_known {
            return false;
        }
        let free = self.room - (self.bytes.len() + 8 * self.lengths.len());
        if free < 8 || free - 8 < name.len() {
            self.is_known = false;
            return false;
        }
        // This succeeds, since there is room.
        let _ = self.bytes.extend_from_slice(name);
        self.lengths.push_reserved(name.len());
        true
    }
}
