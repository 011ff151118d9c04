//! The files of a host in memory.

ghost use Rattle.std.specs.Prelude.{◌≡◌, ◌+◌, ◌^◌, ◌<◌, [], min, length, take, drop};
ghost use Rattle.std.specs.List.{position};
ghost use Rattle.std.specs.Str.{bytes_eq};
ghost use Rattle.mufom_host.specs.Kept.{has_file, left_of, opened_file};

use mufom_numbers::{Bytes, List, Text};
use std::marker::Model;

/// The files that may be opened, the position of the open one among them, and the offset in it, in
/// bytes, of the first byte that has not been read yet.
#[derive(Drop)]
pub struct Files {
    files: List<(Text, Bytes)>,
    place: Option<usize>,
    at: usize,
}

impl Model for Files {
    ghost use Rattle.mufom_host.specs.Kept.{Input, left_of};

    ghost Value = { Input };

    ghost view = { λ f. record { files = f.files; left = left_of f.files f.place f.at } };
}

// The position of the first file with this name.
fn position_of(files: &[(Text, Bytes)], name: &str) -> Option<usize>
    ensures { result ≡ position (λ file. bytes_eq file.0 name.now) files.now }
{
    files.iter().position(|file| file.0.as_str() == name)
}

// The bytes of the open file from the offset on.
fn rest(files: &[(Text, Bytes)], place: Option<usize>, at: usize) -> &[u8]
    ensures value { result.now ≡ left_of files.now place at }
    ensures fits { at + length result.now < 2 ^ 64 }
{
    let Some(place) = place else {
        return &[];
    };
    let Some(file) = files.get(place) else {
        return &[];
    };
    let bytes = file.1.as_slice();
    if at < bytes.len() { &bytes[at..] } else { &[] }
}

impl Files {
    pub fn new(files: List<(Text, Bytes)>) -> Files
        ensures { result ≡ record { files = files; left = [] } }
    {
        Files {
            files,
            place: None,
            at: 0,
        }
    }

    /// Whether there is a file with this name.
    pub fn has(&self, name: &str) -> bool
        ensures { result ≡ has_file name.now self.now.files }
    {
        let Some(_) = position_of(self.files.as_slice(), name) else {
            return false;
        };
        true
    }

    /// Opens the first file with this name, and returns whether there is one. If there is none, nothing
    /// changes.
    pub fn open(&mut self, name: &str) -> bool
        ensures answer { result ≡ has_file name.now self.old.files }
        ensures after { self.new ≡ opened_file self.old name.now }
    {
        let Some(place) = position_of(self.files.as_slice(), name) else {
            return false;
        };
        self.place = Some(place);
        self.at = 0;
        true
    }

    /// Moves the next bytes of the open file to the start of the buffer, as many as fit, and returns their count.
    pub fn read(&mut self, buffer: &mut [u8]) -> usize
        ensures count { result ≡ min (length buffer.new) (length self.old.left) }
        ensures bytes { take result buffer.new ≡ take result self.old.left }
        ensures after { self.new ≡ record self.old { left = drop result self.old.left } }
    {
        let left = rest(self.files.as_slice(), self.place, self.at);
        let count = left.len().min(buffer.len());
        buffer[..count].copy_from_slice(&left[..count]);
        self.at += count;
        count
    }
}
