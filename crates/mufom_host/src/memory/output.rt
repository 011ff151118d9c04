//! The file that a host in memory makes.

ghost use Rattle.std.specs.Prelude.{◌≡◌, ◌≤◌, [], Some, None, false, not, length, IfOk, option_map};
ghost use Rattle.mufom_host.specs.World.{optional, with_bytes};
ghost use Rattle.mufom_host.specs.Kept.{has_any, passes_file, finished};

use crate::memory::buffer::Buffer;
use mufom_numbers::NoMemory;
use std::alloc::Global;
use std::marker::Model;

#[derive(Clone, Copy, Debug)]
enum Stage {
    Unmade,
    Making,
    Made,
}

/// The one file that is made, in a buffer that is allocated at the start.
#[derive(Drop)]
pub struct Output {
    name: Buffer,
    bytes: Buffer,
    stage: Stage,
}

impl Model for Output {
    ghost use Rattle.std.specs.Prelude.{◌≡◌};
    ghost use Rattle.mufom_host.specs.Kept.{FileStore};
    ghost use Rattle.mufom_host.specs.KeptFile.{making_at, made_at};

    ghost Value = { FileStore };

    ghost view = { λ o. record {
      making = making_at o.stage (o.name.bytes, o.bytes.bytes);
      made = made_at o.stage
          (o.name.bytes, o.bytes.bytes);
      room = o.bytes.room;
    } };

    ghost invariant = { λ o. o.name.room ≡ o.bytes.room };
}

impl Output {
    pub fn new(alloc: Global, room: usize) -> Result<Output, NoMemory>
        ensures { IfOk result (λ output. output ≡ record { making = None; made = []; room = room }) }
    {
        let name = Buffer::new(alloc, room)?;
        let bytes = Buffer::new(alloc, room)?;
        Ok(Output {
            name,
            bytes,
            stage: Stage::Unmade,
        })
    }

    /// The name and the bytes of the file being made.
    pub fn making(&self) -> Option<(&[u8], &[u8])>
        ensures { option_map (λ file. (file.0.now, file.1.now)) result ≡ self.now.making }
    {
        match self.stage {
            Stage::Making => Some((self.name.as_slice(), self.bytes.as_slice())),
            Stage::Unmade | Stage::Made => None,
        }
    }

    /// The name and the bytes of the finished file.
    pub fn made(&self) -> Option<(&[u8], &[u8])>
        ensures { optional (option_map (λ file. (file.0.now, file.1.now)) result) ≡ self.now.made }
    {
        match self.stage {
            Stage::Made => Some((self.name.as_slice(), self.bytes.as_slice())),
            Stage::Unmade | Stage::Making => None,
        }
    }

    /// Whether the file is finished.
    pub fn is_made(&self) -> bool
        ensures { result ≡ has_any self.now.made }
    {
        match self.stage {
            Stage::Made => true,
            Stage::Unmade | Stage::Making => false,
        }
    }

    /// Starts the file with this name and no bytes.
    pub fn create(&mut self, name: &[u8])
        requires unmade { self.old.made ≡ [] }
        requires room { length name.now ≤ self.old.room }
        ensures { self.new ≡ record self.old { making = Some (name.now, []) } }
    {
        self.name.clear();
        self.name.add(name);
        self.bytes.clear();
        self.stage = Stage::Making;
    }

    /// Whether the file being made has room for `count` more bytes. While no file is being made, there
    /// is room for any number.
    pub fn has_room_for(&self, count: usize) -> bool
        ensures { not result ≡ passes_file self.now.making self.now.room count }
    {
        match self.stage {
            Stage::Making => self.bytes.has_room_for(count),
            Stage::Unmade | Stage::Made => true,
        }
    }

    /// Adds the bytes to the file being made. While no file is being made, nothing changes.
    pub fn add(&mut self, chunk: &[u8])
        requires { passes_file self.old.making self.old.room (length chunk.now) ≡ false }
        ensures { self.new ≡ record self.old { making = with_bytes self.old.making chunk.now } }
    {
        match self.stage {
            Stage::Making => self.bytes.add(chunk),
            Stage::Unmade | Stage::Made => {}
        }
    }

    /// Finishes the file being made. While no file is being made, nothing changes.
    pub fn finish(&mut self)
        ensures { self.new ≡ finished self.old }
    {
        match self.stage {
            Stage::Making => self.stage = Stage::Made,
            Stage::Unmade | Stage::Made => {}
        }
    }
}
