//! The bytes of an image in the order in which they are loaded.

ghost use Rattle.std.specs.Prelude.{◌≡◌, ◌+◌, [], ◌∷◌, ◌++◌, length, IfOk, OnErr, OnOk};
ghost use Rattle.mufom_meaning.specs.AddressMap.{cells_from};
ghost use Rattle.mufom_image_bytes.specs.Chunks.{end_of_chunk, cells_of_chunks, AreConsecutive};
ghost use Rattle.mufom_image_bytes.specs.Loaded.{loaded_cells, HasSameCells, IsTiled};

use crate::chunk::Chunk;
use mufom_numbers::NoMemory;
use std::alloc::Global;

/// Bytes in the order in which they were loaded, with their addresses.
#[derive(Drop)]
pub struct Loaded {
    /// All chunks except the last one.
    pub(crate) chunks: Vec<Chunk>,
    /// The chunk that grows. It may be empty.
    pub(crate) last: Chunk,
    pub(crate) bytes: Vec<u8>,
}

/// Returns an empty list of loaded bytes.
pub fn nothing_loaded(alloc: Global) -> Loaded
    ensures tiled { IsTiled result }
    ensures cells { loaded_cells result ≡ [] }
{
    Loaded {
        chunks: Vec::new(alloc),
        last: Chunk {
            address: 0,
            start: 0,
            count: 0,
        },
        bytes: Vec::new(alloc),
    }
}

impl Loaded {
    // Adds the last chunk to the others, unless it is empty.
    fn close(&mut self) -> Result<(), NoMemory>
        requires { IsTiled self.old }
        ensures consecutive { OnOk result (AreConsecutive 0 self.new.chunks.items (length self.new.bytes.items)) }
        ensures cells { OnOk result (cells_of_chunks self.new.bytes.items self.new.chunks.items ≡ loaded_cells self.old) }
        ensures kept { OnErr result (HasSameCells self.old self.new) }
    {
        if self.last.count > 0 {
            self.chunks.push(self.last)?;
        }
        Ok(())
    }

    // Begins a chunk at another address.
    fn begin(&mut self, address: u64) -> Result<(), NoMemory>
        requires { IsTiled self.old }
        ensures tiled { OnOk result (IsTiled self.new) }
        ensures cells { OnOk result (loaded_cells self.new ≡ loaded_cells self.old) }
        ensures address { OnOk result (self.new.last.address ≡ address) }
        ensures empty { OnOk result (self.new.last.count ≡ 0) }
        ensures kept { OnErr result (HasSameCells self.old self.new) }
    {
        self.close()?;
        self.last = Chunk {
            address,
            start: self.bytes.len(),
            count: 0,
        };
        Ok(())
    }

    // Adds bytes right after the last chunk.
    fn extend(&mut self, bytes: &[u8]) -> Result<(), NoMemory>
        requires { IsTiled self.old }
        ensures tiled { OnOk result (IsTiled self.new) }
        ensures cells { OnOk result (loaded_cells self.new ≡ loaded_cells self.old ++ cells_from (end_of_chunk self.old.last) bytes.now) }
        ensures kept { OnErr result (HasSameCells self.old self.new) }
    {
        self.bytes.extend_from_slice(bytes)?;
        self.last.count = self.bytes.len() - self.last.start;
        Ok(())
    }

    /// Adds bytes at an address. The only error is out of memory; after it, the loaded bytes are those that
    /// were loaded before.
    pub fn add(&mut self, address: u64, bytes: &[u8]) -> Result<(), NoMemory>
        requires { IsTiled self.old }
        ensures tiled { OnOk result (IsTiled self.new) }
        ensures cells { OnOk result (loaded_cells self.new ≡ loaded_cells self.old ++ cells_from address bytes.now) }
        ensures kept { OnErr result (HasSameCells self.old self.new) }
    {
        if self.last.address as u128 + self.last.count as u128 != address as u128 {
            self.begin(address)?;
        }
        self.extend(bytes)
    }

    /// All chunks, and the bytes.
    pub fn finish(mut self) -> Result<(Vec<Chunk>, Vec<u8>), NoMemory>
        requires { IsTiled self }
        ensures consecutive { IfOk result (λ r. AreConsecutive 0 r.0.items (length r.1.items)) }
        ensures cells { IfOk result (λ r. cells_of_chunks r.1.items r.0.items ≡ loaded_cells self) }
    {
        self.close()?;
        Ok((self.chunks, self.bytes))
    }
}
