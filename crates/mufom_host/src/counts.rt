//! The counts of failed calls.

ghost use Rattle.std.specs.Prelude.{◌≡◌, ◌≤◌, true, false};
ghost use Rattle.mufom_host.specs.World.{one_more};

use crate::Failed;

/// How many calls failed: opens and reads; creates, writes, finishes and prints; prints of error lines.
/// Each count stops at the greatest `u64`. Besides, whether a call on the input that was opened last failed.
#[derive(Clone, Copy, Debug)]
pub struct Counts {
    pub reads: u64,
    pub writes: u64,
    pub complaints: u64,
    pub input_failed: bool,
}

impl Counts {
    pub fn none() -> Counts
        ensures { result ≡ record { reads = 0; writes = 0; complaints = 0; input_failed = false } }
    {
        Counts {
            reads: 0,
            writes: 0,
            complaints: 0,
            input_failed: false,
        }
    }

    pub fn input_opened(&mut self)
        ensures { self.new ≡ record self.old { input_failed = false } }
    {
        self.input_failed = false;
    }

    pub fn read_failed(&mut self) -> Failed
        ensures after { self.new ≡ record self.old { reads = one_more self.old.reads; input_failed = true } }
        ensures later { self.old.reads ≤ self.new.reads }
    {
        self.reads = self.reads.saturating_add(1);
        self.input_failed = true;
        Failed
    }

    pub fn write_failed(&mut self) -> Failed
        ensures after { self.new ≡ record self.old { writes = one_more self.old.writes } }
        ensures later { self.old.writes ≤ self.new.writes }
    {
        self.writes = self.writes.saturating_add(1);
        Failed
    }

    pub fn complaint_failed(&mut self) -> Failed
        ensures after { self.new ≡ record self.old { complaints = one_more self.old.complaints } }
        ensures later { self.old.complaints ≤ self.new.complaints }
    {
        self.complaints = self.complaints.saturating_add(1);
        Failed
    }
}
