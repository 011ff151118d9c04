//! A host whose files and outputs are in memory, for tests.

mod buffer;
mod calls;
mod files;
mod names;
mod output;

ghost use Rattle.std.specs.Prelude.{◌≡◌, ◌≤◌, ◌||◌, true, min, length, IfOk, is_err, option_map};
ghost use Rattle.mufom_host.specs.World.{one_more, optional, HasCause, AtMost, Reads, Opens, Writes, Creates, Finishes, Grows, KeepsAllButLeft};
ghost use Rattle.mufom_host.specs.World.{KeepsAllButOpened, KeepsAllButMaking, KeepsAllButCreated, KeepsAllButMade, KeepsAllButOut, KeepsAllButErr};
ghost use Rattle.mufom_host.specs.World.{KeepsAllButReads, KeepsAllButWrites, KeepsAllButComplaints, ReadMarks, OpenMarks};
ghost use Rattle.mufom_host.specs.Memory.{memory_meaning, memory_faults, fresh, is_failing_read, is_failing_write, after_read, open_fails};
ghost use Rattle.mufom_host.specs.Memory.{after_open, write_fails, after_write, create_fails, after_create, after_finish, passes, after_print};
ghost use Rattle.mufom_host.specs.Memory.{after_complain};

use crate::counts::Counts;
use crate::{Cause, Failed, Host, Sink, Source, World};
use buffer::Buffer;
use calls::Calls;
use files::Files;
use mufom_numbers::{Bytes, List, NoMemory, Text};
use names::Names;
use output::Output;
use std::alloc::Global;
use std::marker::Model;

/// A host in memory, for tests: the files that may be opened, one file that is made, and the texts of the
/// output and the error output. It reveals all of its state.
///
/// It numbers its calls from 0: `open` and `read` share one counter, and `create`, `write`, `finish`,
/// `print` and `complain` share another. A call fails if
///
/// - its number is in the list of failing calls of its counter,
/// - its bytes or its name exceed the room,
/// - it opens a name that no file has, or
/// - it is a `create` after a file was finished.
///
/// Besides the counter of calls, a failed call changes only its count of errors, for `open` and `read` also
/// whether the input failed, and for `open` and `create` the list of names. Once a name exceeds the room, that
/// list is no longer known, and each later call of that kind fails.
pub struct MemHost {
    files: Files,
    output: Output,
    out: Buffer,
    err: Buffer,
    opened: Names,
    created: Names,
    reads: Calls,
    writes: Calls,
    counts: Counts,
    cause: Cause,
}

impl Model for MemHost {
    ghost use Rattle.mufom_host.specs.Memory.{Memory};
    ghost use Rattle.mufom_host.specs.Room.{HasOneRoom};
    ghost use Rattle.mufom_host.specs.Counts.{faults_of};

    ghost Value = { Memory };

    ghost view = { λ h. record {
      files = h.files.files;
      left = h.files.left;
      making = h.output.making;
      made = h.output.made;
      out = h.out.bytes;
      err = h.err.bytes;
      opened = h.opened.names;
      created = h.created.names;
      room = h.out.room;
      faults = faults_of h.counts;
      fail_reads = h.reads.failing;
      fail_writes = h.writes.failing;
      read_number = h.reads.number;
      write_number = h.writes.number;
      cause = h.cause;
    } };

    ghost invariant = { λ h. HasOneRoom h.out.room h.err.room h.output.room h.opened.room h.created.room };
}

// Written out so that code that drops a host contains a single call: see "Drops" in docs/ARCHITECTURE.md.
impl Drop for MemHost {
    fn drop(self) {
        let MemHost {
            files: _,
            output: _,
            out: _,
            err: _,
            opened: _,
            created: _,
            reads: _,
            writes: _,
            counts: _,
            cause: _,
        } = self;
    }
}

impl MemHost {
    /// A host with these files. The calls whose numbers are in the two lists fail.
    ///
    /// It allocates room for `room` bytes each for the two texts, the file that is made, the names
    /// opened and the names created; a name counts as its length in bytes plus 8. No other call
    /// allocates.
    pub fn new(
        alloc: Global,
        files: List<(Text, Bytes)>,
        fail_reads: List<u64>,
        fail_writes: List<u64>,
        room: usize,
    ) -> Result<MemHost, NoMemory>
        ensures { IfOk result (λ host. host ≡ fresh files fail_reads fail_writes room) }
    {
        let output = Output::new(alloc, room)?;
        let out = Buffer::new(alloc, room)?;
        let err = Buffer::new(alloc, room)?;
        let opened = Names::new(alloc, room)?;
        let created = Names::new(alloc, room)?;
        Ok(MemHost {
            files: Files::new(files),
            output,
            out,
            err,
            opened,
            created,
            reads: Calls::new(fail_reads),
            writes: Calls::new(fail_writes),
            counts: Counts::none(),
            cause: Cause::Unknown,
        })
    }

    // Counts a failed open or read, and keeps its cause.
    fn read_failed(&mut self, cause: Cause) -> Failed
        ensures after { self.new ≡ record self.old {
          faults = record self.old.faults { reads = one_more self.old.faults.reads; input_failed = true };
          cause = cause;
        } }
        ensures later { self.old.faults.reads ≤ self.new.faults.reads }
    {
        self.cause = cause;
        self.counts.read_failed()
    }

    // Counts a failed call that makes a file or prints.
    fn write_failed(&mut self) -> Failed
        ensures after { self.new ≡ record self.old {
          faults = record self.old.faults { writes = one_more self.old.faults.writes };
          cause = Cause.Unknown;
        } }
        ensures later { self.old.faults.writes ≤ self.new.faults.writes }
    {
        self.cause = Cause::Unknown;
        self.counts.write_failed()
    }

    /// The name and the bytes of the finished file, or `None` if no file is finished.
    pub fn made(&self) -> Option<(&[u8], &[u8])>
        ensures { optional (option_map (λ file. (file.0.now, file.1.now)) result) ≡ self.now.made }
    {
        self.output.made()
    }

    /// The name and the bytes so far of the file being made, or `None` if no file is being made.
    pub fn making(&self) -> Option<(&[u8], &[u8])>
        ensures { option_map (λ file. (file.0.now, file.1.now)) result ≡ self.now.making }
    {
        self.output.making()
    }

    /// The text that was printed.
    pub fn out(&self) -> &[u8]
        ensures { result.now ≡ self.now.out }
    {
        self.out.as_slice()
    }

    /// The text that was printed on the error output.
    pub fn err(&self) -> &[u8]
        ensures { result.now ≡ self.now.err }
    {
        self.err.as_slice()
    }
}

impl World for MemHost {
    ghost use Rattle.std.specs.Prelude.{refl};
    ghost use Rattle.mufom_host.specs.Memory.{memory_meaning, memory_faults};
    ghost use Rattle.mufom_host.specs.Revealed.{revealed-bytes};

    ghost meaning = { memory_meaning };

    ghost faults = { memory_faults };

    ghost together = { λ m. record { left = λ _. refl; making = λ _. refl; bytes = revealed-bytes m.files } };
}

impl Source for MemHost {
    fn read(&mut self, buffer: &mut [u8]) -> Result<usize, Failed>
        ensures bound { AtMost result (length buffer.new) }
        ensures bytes { Reads (memory_meaning self.old).left (memory_meaning self.new).left result buffer.new }
        ensures stays { KeepsAllButLeft (memory_meaning self.old) (memory_meaning self.new) }
        ensures cause { HasCause (memory_faults self.old).reads (memory_faults self.new).reads result }
        ensures input { ReadMarks (memory_faults self.old) (memory_faults self.new) result }
        ensures counts { KeepsAllButReads (memory_faults self.old) (memory_faults self.new) }

        // Exactly which calls fail, and the state after each.
        ensures fails { is_err result ≡ is_failing_read self.old }
        ensures count { IfOk result (λ n. n ≡ min (length buffer.new) (length self.old.left)) }
        ensures after { self.new ≡ after_read self.old (length buffer.new) }
    {
        if self.reads.fails() {
            return Err(self.read_failed(Cause::Unknown));
        }
        Ok(self.files.read(buffer))
    }
}

impl Sink for MemHost {
    fn write(&mut self, chunk: &[u8]) -> Result<usize, Failed>
        ensures bound { AtMost result (length chunk.now) }
        ensures bytes { Writes (memory_meaning self.old).making (memory_meaning self.new).making result chunk.now }
        ensures stays { KeepsAllButMaking (memory_meaning self.old) (memory_meaning self.new) }
        ensures cause { HasCause (memory_faults self.old).writes (memory_faults self.new).writes result }
        ensures counts { KeepsAllButWrites (memory_faults self.old) (memory_faults self.new) }

        // Exactly which calls fail, and the state after each: a call that succeeds takes the whole chunk.
        ensures fails { is_err result ≡ write_fails self.old chunk.now }
        ensures count { IfOk result (λ n. n ≡ length chunk.now) }
        ensures after { self.new ≡ after_write self.old chunk.now }
    {
        if self.writes.fails() || !self.output.has_room_for(chunk.len()) {
            return Err(self.write_failed());
        }
        self.output.add(chunk);
        Ok(chunk.len())
    }
}

impl Host for MemHost {
    fn open(&mut self, name: &str) -> Result<(), Failed>
        ensures opens { Opens (memory_meaning self.old) (memory_meaning self.new) result name.now }
        ensures stays { KeepsAllButOpened (memory_meaning self.old) (memory_meaning self.new) }
        ensures cause { HasCause (memory_faults self.old).reads (memory_faults self.new).reads result }
        ensures input { OpenMarks (memory_faults self.new) result }
        ensures counts { KeepsAllButReads (memory_faults self.old) (memory_faults self.new) }

        // Exactly which calls fail, and the state after each.
        ensures fails { is_err result ≡ open_fails self.old name.now }
        ensures after { self.new ≡ after_open self.old name.now }
    {
        let fails = self.reads.fails();
        let is_known = self.opened.add(name.as_bytes());
        if !self.files.has(name) {
            return Err(self.read_failed(Cause::NoFile));
        }
        if fails || !is_known {
            return Err(self.read_failed(Cause::Unknown));
        }
        let _ = self.files.open(name);
        self.counts.input_opened();
        Ok(())
    }

    fn create(&mut self, name: &str) -> Result<(), Failed>
        ensures creates { Creates (memory_meaning self.old) (memory_meaning self.new) result name.now }
        ensures stays { KeepsAllButCreated (memory_meaning self.old) (memory_meaning self.new) }
        ensures cause { HasCause (memory_faults self.old).writes (memory_faults self.new).writes result }
        ensures counts { KeepsAllButWrites (memory_faults self.old) (memory_faults self.new) }

        // Exactly which calls fail, and the state after each.
        ensures fails { is_err result ≡ create_fails self.old name.now }
        ensures after { self.new ≡ after_create self.old name.now }
    {
        let fails = self.writes.fails();
        let is_known = self.created.add(name.as_bytes());
        if fails || !is_known || self.output.is_made() {
            return Err(self.write_failed());
        }
        self.output.create(name.as_bytes());
        Ok(())
    }

    fn finish(&mut self) -> Result<(), Failed>
        ensures finishes { Finishes (memory_meaning self.old) (memory_meaning self.new) result }
        ensures stays { KeepsAllButMade (memory_meaning self.old) (memory_meaning self.new) }
        ensures cause { HasCause (memory_faults self.old).writes (memory_faults self.new).writes result }
        ensures counts { KeepsAllButWrites (memory_faults self.old) (memory_faults self.new) }

        // Exactly which calls fail, and the state after each.
        ensures fails { is_err result ≡ is_failing_write self.old }
        ensures after { self.new ≡ after_finish self.old }
    {
        if self.writes.fails() {
            return Err(self.write_failed());
        }
        self.output.finish();
        Ok(())
    }

    fn print(&mut self, text: &[u8]) -> Result<(), Failed>
        ensures bytes { Grows (memory_meaning self.old).out (memory_meaning self.new).out result text.now }
        ensures stays { KeepsAllButOut (memory_meaning self.old) (memory_meaning self.new) }
        ensures cause { HasCause (memory_faults self.old).writes (memory_faults self.new).writes result }
        ensures counts { KeepsAllButWrites (memory_faults self.old) (memory_faults self.new) }

        // Exactly which calls fail, and the state after each.
        ensures fails { is_err result ≡ (is_failing_write self.old || passes self.old.room self.old.out text.now) }
        ensures after { self.new ≡ after_print self.old text.now }
    {
        if self.writes.fails() || !self.out.has_room_for(text.len()) {
            return Err(self.write_failed());
        }
        self.out.add(text);
        Ok(())
    }

    fn complain(&mut self, text: &[u8]) -> Result<(), Failed>
        ensures bytes { Grows (memory_meaning self.old).err (memory_meaning self.new).err result text.now }
        ensures stays { KeepsAllButErr (memory_meaning self.old) (memory_meaning self.new) }
        ensures cause { HasCause (memory_faults self.old).complaints (memory_faults self.new).complaints result }
        ensures counts { KeepsAllButComplaints (memory_faults self.old) (memory_faults self.new) }

        // Exactly which calls fail, and the state after each.
        ensures fails { is_err result ≡ (is_failing_write self.old || passes self.old.room self.old.err text.now) }
        ensures after { self.new ≡ after_complain self.old text.now }
    {
        if self.writes.fails() || !self.err.has_room_for(text.len()) {
            self.cause = Cause::Unknown;
            return Err(self.counts.complaint_failed());
        }
        self.err.add(text);
        Ok(())
    }

    fn cause(&self) -> Cause
        ensures { result ≡ self.now.cause }
    {
        self.cause
    }
}
