//! Reading a text line by line.

ghost use Rattle.std.specs.Prelude.{◌≡◌, ◌+◌, ◌≤◌, ◌<◌, ◌^◌, ◌∷◌, ◌++◌, [], ◌-◌, false, length, Ok, OnOk, IfOk, IfSome, None, map, option_map};
ghost use Rattle.mufom_image_bytes.specs.Loaded.{loaded_cells, IsTiled};
ghost use Rattle.mufom_titxt.specs.Lines.{line_of, lines_of, words_of};
ghost use Rattle.mufom_titxt.specs.Texts.{so_far, nothing_stated, end_fault};
ghost use Rattle.mufom_titxt.specs.Reading.{stated, word_bytes, bytes_read, bytes_stop, inner_read, inner_stop, line_read, line_stop, cells_read};
ghost use Rattle.mufom_titxt.specs.Reading.{stop_read, hits_after};

use crate::lines::next_line;
use crate::shape::{Shape, shape_of, short_bytes};
use crate::store::Store;
use mufom_numbers::NoMemory;
use mufom_refusals::{TxtReason, TxtRefusal};
use std::alloc::Global;

/// What the lines of a text have stated so far, with their bytes.
#[derive(Drop)]
pub struct Reading {
    /// Whether the text has ended.
    pub ended: bool,
    /// The address of the next byte, if one is set.
    pub next: Option<u128>,
    pub store: Store,
}

impl Reading {
    /// Nothing has been read yet.
    pub(crate) fn new(alloc: Global, watched: Option<u64>) -> Reading
        ensures tiled { IsTiled result.store.loaded }
        ensures cells { loaded_cells result.store.loaded ≡ [] }
        ensures watched { result.store.watched ≡ watched }
        ensures hits { result.store.hits ≡ 0 }
        ensures stated { stated result ≡ nothing_stated }
    {
        Reading {
            ended: false,
            next: None,
            store: Store::new(alloc, watched),
        }
    }

    // Reads a line with bytes.
    fn read_bytes(&mut self, modulus: u128, line: &[u8]) -> Result<Option<TxtReason>, NoMemory>
        requires tiled { IsTiled self.old.store.loaded }
        requires modulus { modulus ≤ 2 ^ 64 }
        ensures tiled { OnOk result (IsTiled self.new.store.loaded) }
        ensures ended { self.new.ended ≡ self.old.ended }
        ensures watched { self.new.store.watched ≡ self.old.store.watched }
        ensures cells { OnOk result (loaded_cells self.new.store.loaded
            ≡ loaded_cells self.old.store.loaded ++ bytes_read modulus self.old.next (word_bytes (words_of line.now))) }
        ensures hits { OnOk result (self.new.store.hits
            ≡ hits_after self.old.store.watched self.old.store.hits (bytes_read modulus self.old.next (word_bytes (words_of line.now)))) }
        ensures fault { IfOk result (λ fault. fault ≡ bytes_stop modulus self.old.next (word_bytes (words_of line.now))) }
        ensures next { result ≡ Ok None → self.new.next ≡ option_map (λ at. at + length (word_bytes (words_of line.now))) self.old.next }
    {
        let from = match self.next {
            Some(from) => from,
            None => return Ok(Some(TxtReason::NoAddress)),
        };
        match self.store.place_line(modulus, from, line)? {
            Some(at) => {
                self.next = Some(at);
                Ok(None)
            }
            None => Ok(Some(TxtReason::Beyond)),
        }
    }

    // Reads the bytes of a short line.
    fn read_short(&mut self, modulus: u128, bytes: &[u8]) -> Result<Option<TxtReason>, NoMemory>
        requires tiled { IsTiled self.old.store.loaded }
        requires modulus { modulus ≤ 2 ^ 64 }
        ensures tiled { OnOk result (IsTiled self.new.store.loaded) }
        ensures ended { self.new.ended ≡ self.old.ended }
        ensures watched { self.new.store.watched ≡ self.old.store.watched }
        ensures cells { OnOk result (loaded_cells self.new.store.loaded
            ≡ loaded_cells self.old.store.loaded ++ bytes_read modulus self.old.next bytes.now) }
        ensures hits { OnOk result (self.new.store.hits
            ≡ hits_after self.old.store.watched self.old.store.hits (bytes_read modulus self.old.next bytes.now)) }
        ensures fault { IfOk result (λ fault. fault ≡ bytes_stop modulus self.old.next bytes.now) }
        ensures next { result ≡ Ok None → self.new.next ≡ option_map (λ at. at + length bytes.now) self.old.next }
    {
        let Some(from) = self.next else {
            return Ok(Some(TxtReason::NoAddress));
        };
        match self.store.place_bytes(modulus, from, bytes)? {
            Some(at) => {
                self.next = Some(at);
                Ok(None)
            }
            None => Ok(Some(TxtReason::Beyond)),
        }
    }

    // Reads a line before the one that ends the text.
    fn read_inner(&mut self, modulus: u128, line: &[u8]) -> Result<Option<TxtReason>, NoMemory>
        requires tiled { IsTiled self.old.store.loaded }
        requires modulus { modulus ≤ 2 ^ 64 }
        requires inner { self.old.ended ≡ false }
        ensures tiled { OnOk result (IsTiled self.new.store.loaded) }
        ensures watched { self.new.store.watched ≡ self.old.store.watched }
        ensures cells { OnOk result (loaded_cells self.new.store.loaded
            ≡ loaded_cells self.old.store.loaded ++ inner_read modulus self.old.next (line_of line.now)) }
        ensures hits { OnOk result (self.new.store.hits
            ≡ hits_after self.old.store.watched self.old.store.hits (inner_read modulus self.old.next (line_of line.now))) }
        ensures fault { IfOk result (λ fault. fault ≡ inner_stop modulus self.old.next (line_of line.now)) }
        ensures stated { result ≡ Ok None → stated self.new ≡ so_far (stated self.old) (line_of line.now) }
    {
        if let Some(bytes) = short_bytes(line) {
            return self.read_short(modulus, &bytes);
        }
        match shape_of(line) {
            Shape::Blank => Ok(None),
            Shape::Address(address) => {
                self.next = Some(address as u128);
                Ok(None)
            }
            Shape::Bytes => self.read_bytes(modulus, line),
            Shape::End => {
                self.ended = true;
                Ok(None)
            }
            Shape::Bad => Ok(Some(TxtReason::BadLine)),
        }
    }

    /// Reads a line. Returns its error, if it has one; a second byte at an address is not counted as one.
    pub(crate) fn read_line(
        &mut self,
        modulus: u128,
        line: &[u8],
    ) -> Result<Option<TxtReason>, NoMemory>
        requires tiled { IsTiled self.old.store.loaded }
        requires modulus { modulus ≤ 2 ^ 64 }
        ensures tiled { OnOk result (IsTiled self.new.store.loaded) }
        ensures watched { self.new.store.watched ≡ self.old.store.watched }
        ensures cells { OnOk result (loaded_cells self.new.store.loaded
            ≡ loaded_cells self.old.store.loaded ++ line_read modulus (stated self.old) (line_of line.now)) }
        ensures hits { OnOk result (self.new.store.hits
            ≡ hits_after self.old.store.watched self.old.store.hits (line_read modulus (stated self.old) (line_of line.now))) }
        ensures fault { IfOk result (λ fault. fault ≡ line_stop modulus (stated self.old) (line_of line.now)) }
        ensures stated { result ≡ Ok None → stated self.new ≡ so_far (stated self.old) (line_of line.now) }
    {
        if !self.ended {
            return self.read_inner(modulus, line);
        }
        match shape_of(line) {
            Shape::Blank => Ok(None),
            _ => Ok(Some(TxtReason::AfterEnd)),
        }
    }

    // The error at the end of a text of `count` lines.
    fn end(&self, count: u32) -> Option<TxtRefusal>
        ensures { result ≡ end_fault count (stated self.now) }
    {
        if self.ended {
            return None;
        }
        Some(TxtRefusal {
            line: count,
            reason: TxtReason::NoEnd,
        })
    }

    /// Reads a text up to the first line with an error. A second byte at an address is not counted as one.
    pub(crate) fn read_lines(
        &mut self,
        modulus: u128,
        text: &[u8],
    ) -> Result<Option<TxtRefusal>, NoMemory>
        requires tiled { IsTiled self.old.store.loaded }
        requires modulus { modulus ≤ 2 ^ 64 }
        requires short { length text.now < 2 ^ 32 - 1 }
        ensures tiled { OnOk result (IsTiled self.new.store.loaded) }
        ensures cells { OnOk result (loaded_cells self.new.store.loaded
            ≡ loaded_cells self.old.store.loaded ++ cells_read modulus (stated self.old) (map line_of (lines_of text.now))) }
        ensures stop { IfOk result (λ stop. stop ≡ stop_read modulus 0 (stated self.old) (map line_of (lines_of text.now))) }
    {
        let mut left = Some(text);
        let mut count = 0;
        while let Some(text) = left {
            let (line, rest) = next_line(text);
            count += 1;
            if let Some(reason) = self.read_line(modulus, line)? {
                return Ok(Some(TxtRefusal {
                    line: count,
                    reason,
                }));
            }
            left = rest;
        }
        Ok(self.end(count))
    }
}
