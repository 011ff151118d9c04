//! A buffer that gathers the bytes of a file and writes them together.

ghost use Rattle.std.specs.Prelude.{◌≡◌, [], Ok};
ghost use Rattle.mufom_write.specs.Holding.{Holds};
ghost use Rattle.std.proofs.Common.{refl, ◌∙◌};
ghost use Rattle.mufom_write.specs.HoldingChains.{Holds-nothing, Holds-then, Holds-stopped};

use crate::output::Output;
use mufom_host::{Block, Failed, Sink, write_all};
use mufom_numbers::number_spelling;

// The number of bytes from which the records that are held are written when the next record begins.
const GROUP: usize = 64;

/// A buffer in front of a sink: it holds some bytes, and writes them once there is no room for more, or
/// once a record begins and there are at least 64.
#[derive(Drop)]
pub(crate) struct Held<'a, K: Sink> {
    sink: &'a mut K,
    block: Block,
}

impl<'a, K: Sink> Held<'a, K> {
    /// An empty buffer in front of the sink.
    pub(crate) fn new(sink: &'a mut K) -> Held<'a, K>
        ensures same { result.sink.ghost_name ≡ sink.entry.ghost_name }
        ensures sink { result.sink.now ≡ sink.old }
        ensures empty { result.block ≡ [] }
    {
        Held {
            sink,
            block: Block::new(),
        }
    }

    /// Writes the bytes that are held.
    pub(crate) fn flush(&mut self) -> Result<(), Failed>
        ensures same { self.new.sink.ghost_name ≡ self.old.sink.ghost_name }
        ensures empty { result ≡ Ok tt → self.new.block ≡ [] }
        ensures holds { Holds (K.meaning self.old.sink.now) (K.meaning self.new.sink.now) (K.faults self.old.sink.now)
            (K.faults self.new.sink.now) self.old.block self.new.block [] result }
    {
        write_all(self.sink, self.block.as_slice())?;
        self.block.clear();
        Ok(())
    }

    // Adds bytes to the empty buffer, or writes them at once if they do not fit.
    fn begin(&mut self, bytes: &[u8]) -> Result<(), Failed>
        requires { self.old.block ≡ [] }
        ensures same { self.new.sink.ghost_name ≡ self.old.sink.ghost_name }
        ensures holds { Holds (K.meaning self.old.sink.now) (K.meaning self.new.sink.now) (K.faults self.old.sink.now)
            (K.faults self.new.sink.now) self.old.block self.new.block bytes.now result }
    {
        if self.block.hold(bytes) {
            return Ok(());
        }
        write_all(self.sink, bytes)
    }

    // Writes the bytes that are held, and then adds these.
    fn turn(&mut self, bytes: &[u8]) -> Result<(), Failed>
        ensures same { self.new.sink.ghost_name ≡ self.old.sink.ghost_name }
        ensures holds { Holds (K.meaning self.old.sink.now) (K.meaning self.new.sink.now) (K.faults self.old.sink.now)
            (K.faults self.new.sink.now) self.old.block self.new.block bytes.now result }
    {
        self.flush()?;
        self.begin(bytes)
    }

    // Adds bytes; if they do not fit, the bytes that are held are written first.
    fn add(&mut self, bytes: &[u8]) -> Result<(), Failed>
        ensures same { self.new.sink.ghost_name ≡ self.old.sink.ghost_name }
        ensures holds { Holds (K.meaning self.old.sink.now) (K.meaning self.new.sink.now) (K.faults self.old.sink.now)
            (K.faults self.new.sink.now) self.old.block self.new.block bytes.now result }
    {
        if self.block.hold(bytes) {
            return Ok(());
        }
        self.turn(bytes)
    }

    /// Returns the sink.
    pub(crate) fn into_sink(self) -> &'a mut K
        ensures same { result.ghost_name ≡ self.entry.sink.ghost_name }
        ensures now { result.now ≡ self.entry.sink.now }
    {
        let Held { sink, .. } = self;
        sink
    }
}

impl<'a, K: Sink> Output for Held<'a, K> {
    ghost takes = { λ a b xs r. (b.sink.ghost_name ≡ a.sink.ghost_name)
        × Holds (K.meaning a.sink.now) (K.meaning b.sink.now) (K.faults a.sink.now) (K.faults b.sink.now) a.block b.block xs r };

    ghost nothing = { λ a. (refl, Holds-nothing (K.meaning a.sink.now) (K.faults a.sink.now) a.block) };

    ghost joins = { λ a b c xs ys all r p q same. (
      q.0 ∙ p.0,
      Holds-then (K.meaning a.sink.now) (K.meaning b.sink.now) (K.meaning c.sink.now) (K.faults a.sink.now) (K.faults b.sink.now)
          (K.faults c.sink.now) a.block b.block c.block xs ys all r p.1 q.1 same,
    ) };

    ghost stops = { λ a b xs ys all e r p failed same. (
      p.0,
      Holds-stopped (K.meaning a.sink.now) (K.meaning b.sink.now) (K.faults a.sink.now) (K.faults b.sink.now) a.block b.block
          xs ys all e r p.1 failed same,
    ) };

    fn put(&mut self, bytes: &[u8]) -> Result<(), Failed> {
        self.add(bytes)
    }

    fn record(&mut self, command: &[u8]) -> Result<(), Failed> {
        if self.block.as_slice().len() < GROUP {
            return self.add(command);
        }
        self.turn(command)
    }

    fn number(&mut self, value: u64) -> Result<(), Failed> {
        if value < 128 {
            return self.add(&[value as u8]);
        }
        self.add(number_spelling(value).as_slice())
    }
}
