//! The bytes that have been read of a text.

ghost use Rattle.std.specs.Prelude.{◌≡◌, ◌+◌, ◌≤◌, ◌^◌, ◌∷◌, ◌++◌, [], length, OnOk, IfOk, IfSome};
ghost use Rattle.mufom_image_bytes.specs.Loaded.{loaded_cells, IsTiled};
ghost use Rattle.mufom_titxt.specs.Lines.{words_of};
ghost use Rattle.mufom_titxt.specs.Reading.{word_bytes, open_cells, open_fault, fault_of, hits_after};

use crate::lines::next_word;
use crate::shape::byte_of;
use mufom_image_bytes::{Loaded, nothing_loaded};
use mufom_numbers::NoMemory;
use std::alloc::Global;

/// The bytes that have been read of a text, in the order of its lines.
#[derive(Drop)]
pub struct Store {
    pub loaded: Loaded,
    /// An address whose bytes are counted.
    pub watched: Option<u64>,
    /// How many bytes the text has put at `watched` so far. The count stops at the greatest `u32`.
    pub hits: u32,
}

impl Store {
    /// Returns an empty store.
    pub(crate) fn new(alloc: Global, watched: Option<u64>) -> Store
        ensures tiled { IsTiled result.loaded }
        ensures cells { loaded_cells result.loaded ≡ [] }
        ensures watched { result.watched ≡ watched }
        ensures hits { result.hits ≡ 0 }
    {
        Store {
            loaded: nothing_loaded(alloc),
            watched,
            hits: 0,
        }
    }

    // Adds a byte.
    fn place(&mut self, address: u64, byte: u8) -> Result<(), NoMemory>
        requires { IsTiled self.old.loaded }
        ensures tiled { OnOk result (IsTiled self.new.loaded) }
        ensures cells { OnOk result (loaded_cells self.new.loaded ≡ loaded_cells self.old.loaded ++ (address, byte) ∷ []) }
        ensures watched { self.new.watched ≡ self.old.watched }
        ensures hits { OnOk result (self.new.hits ≡ hits_after self.old.watched self.old.hits ((address, byte) ∷ [])) }
    {
        self.loaded.add(address, &[byte])?;
        if let Some(watched) = self.watched {
            if watched == address {
                self.hits = self.hits.saturating_add(1);
            }
        }
        Ok(())
    }

    // Adds bytes one by one from an address on, as `place_bytes` does.
    fn place_each(
        &mut self,
        modulus: u128,
        from: u128,
        bytes: &[u8],
    ) -> Result<Option<u128>, NoMemory>
        requires tiled { IsTiled self.old.loaded }
        requires modulus { modulus ≤ 2 ^ 64 }
        ensures tiled { OnOk result (IsTiled self.new.loaded) }
        ensures cells { OnOk result (loaded_cells self.new.loaded ≡ loaded_cells self.old.loaded ++ open_cells modulus from bytes.now) }
        ensures watched { self.new.watched ≡ self.old.watched }
        ensures hits { OnOk result (self.new.hits ≡ hits_after self.old.watched self.old.hits (open_cells modulus from bytes.now)) }
        ensures next { IfOk result (λ next. IfSome next (λ at. at ≡ from + length bytes.now)) }
        ensures fault { IfOk result (λ next. fault_of next ≡ open_fault modulus from bytes.now) }
    {
        let mut rest = bytes;
        let mut at = from;
        while let [byte, after @ ..] = rest {
            if at >= modulus {
                return Ok(None);
            }
            self.place(at as u64, *byte)?;
            at += 1;
            rest = after;
        }
        Ok(Some(at))
    }

    /// Adds bytes from an address on, as long as their addresses are below the modulus. Returns the address
    /// after them, or `None` if one of them is not below it.
    pub(crate) fn place_bytes(
        &mut self,
        modulus: u128,
        from: u128,
        bytes: &[u8],
    ) -> Result<Option<u128>, NoMemory>
        requires tiled { IsTiled self.old.loaded }
        requires modulus { modulus ≤ 2 ^ 64 }
        ensures tiled { OnOk result (IsTiled self.new.loaded) }
        ensures cells { OnOk result (loaded_cells self.new.loaded ≡ loaded_cells self.old.loaded ++ open_cells modulus from bytes.now) }
        ensures watched { self.new.watched ≡ self.old.watched }
        ensures hits { OnOk result (self.new.hits ≡ hits_after self.old.watched self.old.hits (open_cells modulus from bytes.now)) }
        ensures next { IfOk result (λ next. IfSome next (λ at. at ≡ from + length bytes.now)) }
        ensures fault { IfOk result (λ next. fault_of next ≡ open_fault modulus from bytes.now) }
    {
        if self.watched.is_some() || from >= modulus {
            return self.place_each(modulus, from, bytes);
        }
        let count = bytes.len() as u128;
        if modulus - from < count {
            return self.place_each(modulus, from, bytes);
        }
        self.loaded.add(from as u64, bytes)?;
        Ok(Some(from + count))
    }

    /// Adds the bytes of a line from an address on, as long as their addresses are below the modulus. Returns
    /// the address after them, or `None` if one of them is not below it.
    pub(crate) fn place_line(
        &mut self,
        modulus: u128,
        from: u128,
        line: &[u8],
    ) -> Result<Option<u128>, NoMemory>
        requires tiled { IsTiled self.old.loaded }
        requires modulus { modulus ≤ 2 ^ 64 }
        ensures tiled { OnOk result (IsTiled self.new.loaded) }
        ensures cells { OnOk result (loaded_cells self.new.loaded
            ≡ loaded_cells self.old.loaded ++ open_cells modulus from (word_bytes (words_of line.now))) }
        ensures watched { self.new.watched ≡ self.old.watched }
        ensures hits { OnOk result (self.new.hits
            ≡ hits_after self.old.watched self.old.hits (open_cells modulus from (word_bytes (words_of line.now)))) }
        ensures next { IfOk result (λ next. IfSome next (λ at. at ≡ from + length (word_bytes (words_of line.now)))) }
        ensures fault { IfOk result (λ next. fault_of next ≡ open_fault modulus from (word_bytes (words_of line.now))) }
    {
        let mut rest = line;
        let mut at = from;
        while let Some((word, after)) = next_word(rest) {
            if modulus <= at {
                return Ok(None);
            }
            self.place(at as u64, byte_of(word).unwrap_or(0))?;
            at += 1;
            rest = after;
        }
        Ok(Some(at))
    }
}
