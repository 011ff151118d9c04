//! A host that reveals nothing, and that gives and takes as little as a host may.

use mufom_host::{Cause, Failed, Host, MemHost, Sink, Source, World};
use std::marker::Model;

/// Passes each call on to a host in memory, and reveals nothing of it. Where it goes by bytes, a read gives
/// one byte, and a write takes one.
#[derive(Drop)]
pub(crate) struct Veiled {
    pub(crate) inner: MemHost,
    pub(crate) by_bytes: bool,
}

impl Model for Veiled {
    ghost use Rattle.mufom_host.specs.World.{Faults};

    ghost Value = { Faults };

    ghost view = { λ host. host.inner.faults };
}

impl World for Veiled {
    ghost use Rattle.mufom_host.specs.Real.{reveals_nothing};

    ghost meaning = { λ host. reveals_nothing };

    ghost faults = { λ host. host };

    ghost together = { λ host. record { left = λ known. known; making = λ known. known; bytes = tt } };
}

impl Source for Veiled {
    fn read(&mut self, buffer: &mut [u8]) -> Result<usize, Failed> {
        if self.by_bytes && !buffer.is_empty() {
            return self.inner.read(&mut buffer[..1]);
        }
        self.inner.read(buffer)
    }
}

impl Sink for Veiled {
    fn write(&mut self, chunk: &[u8]) -> Result<usize, Failed> {
        if self.by_bytes && !chunk.is_empty() {
            return self.inner.write(&chunk[..1]);
        }
        self.inner.write(chunk)
    }
}

impl Host for Veiled {
    fn open(&mut self, name: &str) -> Result<(), Failed> {
        self.inner.open(name)
    }

    fn create(&mut self, name: &str) -> Result<(), Failed> {
        self.inner.create(name)
    }

    fn finish(&mut self) -> Result<(), Failed> {
        self.inner.finish()
    }

    fn print(&mut self, text: &[u8]) -> Result<(), Failed> {
        self.inner.print(text)
    }

    fn complain(&mut self, text: &[u8]) -> Result<(), Failed> {
        self.inner.complain(text)
    }

    fn cause(&self) -> Cause {
        self.inner.cause()
    }
}
