//! A file of limited room that the tests of writing use.

ghost use Rattle.std.specs.Prelude.{◌≤◌, None, false, length};
ghost use Rattle.mufom_host.specs.World.{HasCause, Rose};

use arrayvec::ArrayVec;
use mufom_host::{Failed, Sink, World};

/// A file of at most 512 bytes, which takes `most` of them at a call. The call with one number fails.
#[derive(Drop)]
pub(super) struct Disk {
    bytes: ArrayVec<u8, 512>,
    most: usize,
    calls: usize,
    fails: usize,
    /// How many calls failed.
    pub(super) faults: u64,
}

impl Disk {
    pub(super) fn new(most: usize, fails: usize) -> Disk {
        Disk {
            bytes: ArrayVec::new(),
            most,
            calls: 0,
            fails,
            faults: 0,
        }
    }

    /// The bytes that were taken.
    pub(super) fn bytes(&self) -> &[u8] {
        self.bytes.as_slice()
    }

    fn failed(&mut self) -> Failed
        ensures rose { Rose self.old.faults self.new.faults }
        ensures later { self.old.faults ≤ self.new.faults }
    {
        self.faults = self.faults.saturating_add(1);
        Failed
    }
}

// Takes the first bytes of the chunk, at most `most`, and returns how many these are.
fn take(bytes: &mut ArrayVec<u8, 512>, most: usize, chunk: &[u8]) -> usize
    ensures { result ≤ length chunk.now }
{
    let count = chunk.len().min(most);
    for index in 0..count {
        if bytes.try_push(chunk[index]).is_err() {
            return index;
        }
    }
    count
}

impl World for Disk {
    ghost meaning = { λ disk. record {
      left = None;
      files = None;
      making = None;
      made = None;
      out = None;
      err = None;
      opened = None;
      created = None;
    } };

    ghost faults = { λ disk. record { reads = 0; writes = disk.faults; complaints = 0; input_failed = false } };

    ghost together = { λ disk. record { left = λ known. known; making = λ known. known; bytes = tt } };
}

impl Sink for Disk {
    fn write(&mut self, chunk: &[u8]) -> Result<usize, Failed> {
        let call = self.calls;
        self.calls = call.saturating_add(1);
        if call == self.fails {
            return Err(self.failed());
        }
        match take(&mut self.bytes, self.most, chunk) {
            0 => Err(self.failed()),
            count => Ok(count),
        }
    }
}
