//! A page: a buffer that prints text in large chunks.

ghost use Rattle.std.specs.Prelude.{◌≡◌, ◌+◌, ◌≤◌, ◌<◌, ℕ, List, [], ◌++◌, length, take, true, false, vec_len, is_err};
ghost use Rattle.mufom_text.specs.Printing.{Puts};
ghost use Rattle.std.proofs.Common.{refl, ◌∙◌};
ghost use Rattle.mufom_text.specs.Chains.{Puts-nothing, Puts-joins};

use crate::output::Output;
use mufom_host::{Failed, Host};
use mufom_numbers::NoMemory;
use std::alloc::Global;

// The size of a page, in bytes.
const SIZE: usize = 65_536;

/// A buffer of 65,536 bytes in front of a host's output. It is printed when the next text does not fit.
#[derive(Drop)]
pub(crate) struct Page<'a, H: Host> {
    host: &'a mut H,
    room: Vec<u8>,
    used: usize,
    has_failed: bool,
    ghost within: { used ≤ vec_len room },
}

/// Allocates the buffer of a page.
pub(crate) fn room(alloc: Global) -> Result<Vec<u8>, NoMemory> {
    Ok(vec![in alloc; 0u8; SIZE]?)
}

// Copies text into the buffer, at a position.
fn copy_to(room: &mut [u8], place: usize, text: &[u8])
    requires { place + length text.now ≤ length room.old }
    ensures prefix { take (place + length text.now) room.new ≡ take place room.old ++ text.now }
    ensures len { length room.new ≡ length room.old }
{
    room[place..place + text.len()].copy_from_slice(text);
}

impl<'a, H: Host> Page<'a, H> {
    /// Returns an empty page for the host.
    pub(crate) fn new(host: &'a mut H, room: Vec<u8>) -> Page<'a, H>
        ensures same { result.host.ghost_name ≡ host.entry.ghost_name }
        ensures host { result.host.now ≡ host.old }
        ensures empty { result.used ≡ 0 }
        ensures fine { result.has_failed ≡ false }
    {
        Page {
            host,
            room,
            used: 0,
            has_failed: false,
        }
    }

    // Prints what is held.
    fn turn(&mut self)
        ensures same { self.new.host.ghost_name ≡ self.old.host.ghost_name }
        ensures room { vec_len self.new.room ≡ vec_len self.old.room }
        ensures empty { self.new.has_failed ≡ false → self.new.used ≡ 0 }
        ensures puts { Puts (H.meaning self.old.host.now) (H.meaning self.new.host.now) (H.faults self.old.host.now)
            (H.faults self.new.host.now) (take self.old.used self.old.room.items)
            (take self.new.used self.new.room.items) self.old.has_failed self.new.has_failed [] }
    {
        if self.has_failed {
            return;
        }
        match self.host.print(&self.room[..self.used]) {
            Ok(()) => self.used = 0,
            Err(Failed) => self.has_failed = true,
        }
    }

    // Adds text that fits into the rest of the page.
    fn hold(&mut self, text: &[u8])
        requires fine { self.old.has_failed ≡ false }
        requires fits { self.old.used + length text.now ≤ vec_len self.old.room }
        ensures same { self.new.host.ghost_name ≡ self.old.host.ghost_name }
        ensures room { vec_len self.new.room ≡ vec_len self.old.room }
        ensures puts { Puts (H.meaning self.old.host.now) (H.meaning self.new.host.now) (H.faults self.old.host.now)
            (H.faults self.new.host.now) (take self.old.used self.old.room.items)
            (take self.new.used self.new.room.items) self.old.has_failed self.new.has_failed text.now }
    {
        copy_to(&mut self.room, self.used, text);
        self.used += text.len();
    }

    // Prints text directly; the page must be empty.
    fn print(&mut self, text: &[u8])
        requires fine { self.old.has_failed ≡ false }
        requires empty { self.old.used ≡ 0 }
        ensures same { self.new.host.ghost_name ≡ self.old.host.ghost_name }
        ensures puts { Puts (H.meaning self.old.host.now) (H.meaning self.new.host.now) (H.faults self.old.host.now)
            (H.faults self.new.host.now) (take self.old.used self.old.room.items)
            (take self.new.used self.new.room.items) self.old.has_failed self.new.has_failed text.now }
    {
        match self.host.print(text) {
            Ok(()) => {}
            Err(Failed) => self.has_failed = true,
        }
    }

    // Adds text to an empty page. If a print has failed, does nothing.
    fn begin(&mut self, text: &[u8])
        requires empty { self.old.has_failed ≡ false → self.old.used ≡ 0 }
        ensures same { self.new.host.ghost_name ≡ self.old.host.ghost_name }
        ensures puts { Puts (H.meaning self.old.host.now) (H.meaning self.new.host.now) (H.faults self.old.host.now)
            (H.faults self.new.host.now) (take self.old.used self.old.room.items)
            (take self.new.used self.new.room.items) self.old.has_failed self.new.has_failed text.now }
    {
        if self.has_failed {
            return;
        }
        if text.len() <= self.room.len() {
            self.hold(text);
        } else {
            self.print(text);
        }
    }

    // Adds text.
    fn add(&mut self, text: &[u8])
        ensures same { self.new.host.ghost_name ≡ self.old.host.ghost_name }
        ensures puts { Puts (H.meaning self.old.host.now) (H.meaning self.new.host.now) (H.faults self.old.host.now)
            (H.faults self.new.host.now) (take self.old.used self.old.room.items)
            (take self.new.used self.new.room.items) self.old.has_failed self.new.has_failed text.now }
    {
        if !self.has_failed && text.len() <= self.room.len() - self.used {
            self.hold(text);
        } else {
            self.turn();
            self.begin(text);
        }
    }

    /// Prints what the page still holds. Returns `Failed` if any print has failed.
    pub(crate) fn finish(&mut self) -> Result<(), Failed>
        ensures same { self.new.host.ghost_name ≡ self.old.host.ghost_name }
        ensures empty { self.new.has_failed ≡ false → self.new.used ≡ 0 }
        ensures puts { Puts (H.meaning self.old.host.now) (H.meaning self.new.host.now) (H.faults self.old.host.now)
            (H.faults self.new.host.now) (take self.old.used self.old.room.items)
            (take self.new.used self.new.room.items) self.old.has_failed self.new.has_failed [] }
        ensures answer { is_err result ≡ self.new.has_failed }
    {
        self.turn();
        if self.has_failed { Err(Failed) } else { Ok(()) }
    }

    /// Returns the host.
    pub(crate) fn into_host(self) -> &'a mut H
        ensures same { result.ghost_name ≡ self.entry.host.ghost_name }
        ensures now { result.now ≡ self.entry.host.now }
    {
        let Page { host, .. } = self;
        host
    }
}

impl<'a, H: Host> Output for Page<'a, H> {
    ghost takes = { λ a b xs. (b.host.ghost_name ≡ a.host.ghost_name)
        × Puts (H.meaning a.host.now) (H.meaning b.host.now) (H.faults a.host.now) (H.faults b.host.now) (take a.used a.room.items)
        (take b.used b.room.items) a.has_failed b.has_failed xs };

    ghost nothing = { λ a. (refl, Puts-nothing (H.meaning a.host.now) (H.faults a.host.now) (take a.used a.room.items) a.has_failed) };

    ghost joins = { λ a b c xs ys p q. (
      q.0 ∙ p.0,
      Puts-joins (H.meaning a.host.now) (H.meaning b.host.now) (H.meaning c.host.now) (H.faults a.host.now) (H.faults b.host.now)
          (H.faults c.host.now)
          (take a.used a.room.items) (take b.used b.room.items) (take c.used c.room.items) xs ys a.has_failed b.has_failed c.has_failed p.1 q.1,
    ) };

    fn put(&mut self, text: &[u8]) {
        self.add(text);
    }
}
