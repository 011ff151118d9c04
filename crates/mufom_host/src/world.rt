//! The traits of a host: reading files, writing one file, and printing.

ghost use Rattle.std.specs.Prelude.{length};
ghost use Rattle.mufom_host.specs.World.{Meaning, Faults, RevealsTogether, HasCause, AtMost, Reads, Opens, Writes, Creates, Finishes, Grows};
ghost use Rattle.mufom_host.specs.World.{WritesAll, KeepsAllButLeft, KeepsAllButOpened, KeepsAllButMaking, KeepsAllButCreated, KeepsAllButMade};
ghost use Rattle.mufom_host.specs.World.{KeepsAllButOut, KeepsAllButErr, KeepsAllButReads, KeepsAllButWrites, KeepsAllButComplaints, ReadMarks, OpenMarks};

use crate::Cause;
use thiserror::Error;

/// The error of a host's call: the call failed, and its count of errors rose.
#[derive(Clone, Copy, Debug, PartialEq, Eq, Error)]
#[error("the operation failed")]
pub struct Failed;

/// The state of a host, each part of which may be known or not, and the numbers of its failed calls.
///
/// The trait has no calls, so that a reader over [`Source`] alone and a writer over [`Sink`] alone can
/// state what stays. A call leaves unchanged each part and each count that its own clauses do not name,
/// after `Ok` and after `Failed`. A part that is known stays known, with one exception: the names of
/// files may become unknown after a failed [`open`](Host::open) or [`create`](Host::create). Files that
/// are known hold bytes. The counts never fall; a count at the greatest `u64` can't rise, and counts as
/// risen all the same. Besides the counts, the faults tell whether a call on the input that was opened last
/// failed: its open, or a read since. Only opens and reads change that.
pub trait World {
    ghost meaning: { Self → Meaning };

    ghost faults: { Self → Faults };

    ghost together: { (world : Self) → RevealsTogether (meaning world) };
}

/// Where the bytes of the open input come from.
pub trait Source: World {
    /// Copies the next unread bytes of the open input to the start of the buffer, and returns their number.
    /// If that is 0 and the buffer is not empty, no bytes are left.
    ///
    /// After `Failed` the same bytes are left to read; the buffer may have changed.
    fn read(&mut self, buffer: &mut [u8]) -> Result<usize, Failed>
        ensures bound { AtMost result (length buffer.new) }
        ensures bytes { Reads (Self.meaning self.old).left (Self.meaning self.new).left result buffer.new }
        ensures stays { KeepsAllButLeft (Self.meaning self.old) (Self.meaning self.new) }
        ensures cause { HasCause (Self.faults self.old).reads (Self.faults self.new).reads result }
        ensures input { ReadMarks (Self.faults self.old) (Self.faults self.new) result }
        ensures counts { KeepsAllButReads (Self.faults self.old) (Self.faults self.new) };
}

/// Where the bytes of the file being made go.
pub trait Sink: World {
    /// Adds the first bytes of the chunk to the file being made, and returns their number, which is at
    /// least 1 unless the chunk is empty. While no file is being made, nothing changes, whatever number is
    /// returned.
    ///
    /// After `Failed` a prefix of the chunk may have been added.
    fn write(&mut self, chunk: &[u8]) -> Result<usize, Failed>
        ensures bound { AtMost result (length chunk.now) }
        ensures bytes { Writes (Self.meaning self.old).making (Self.meaning self.new).making result chunk.now }
        ensures stays { KeepsAllButMaking (Self.meaning self.old) (Self.meaning self.new) }
        ensures cause { HasCause (Self.faults self.old).writes (Self.faults self.new).writes result }
        ensures counts { KeepsAllButWrites (Self.faults self.old) (Self.faults self.new) };
}

/// All input and output of a program that reads named files, makes named files, and prints text and errors.
pub trait Host: Source + Sink {
    /// Opens the file with this name as the input, in place of the one before.
    ///
    /// After `Failed` any input may be open, or none.
    fn open(&mut self, name: &str) -> Result<(), Failed>
        ensures opens { Opens (Self.meaning self.old) (Self.meaning self.new) result name.now }
        ensures stays { KeepsAllButOpened (Self.meaning self.old) (Self.meaning self.new) }
        ensures cause { HasCause (Self.faults self.old).reads (Self.faults self.new).reads result }
        ensures input { OpenMarks (Self.faults self.new) result }
        ensures counts { KeepsAllButReads (Self.faults self.old) (Self.faults self.new) };

    /// Starts to make a file with this name and no bytes, in place of one that was not finished.
    ///
    /// After `Failed` the file being made is the one before the call, or the new one.
    fn create(&mut self, name: &str) -> Result<(), Failed>
        ensures creates { Creates (Self.meaning self.old) (Self.meaning self.new) result name.now }
        ensures stays { KeepsAllButCreated (Self.meaning self.old) (Self.meaning self.new) }
        ensures cause { HasCause (Self.faults self.old).writes (Self.faults self.new).writes result }
        ensures counts { KeepsAllButWrites (Self.faults self.old) (Self.faults self.new) };

    /// Finishes the file being made, which then has all of its bytes. While no file is being made,
    /// nothing changes.
    ///
    /// After `Failed` nothing has changed.
    fn finish(&mut self) -> Result<(), Failed>
        ensures finishes { Finishes (Self.meaning self.old) (Self.meaning self.new) result }
        ensures stays { KeepsAllButMade (Self.meaning self.old) (Self.meaning self.new) }
        ensures cause { HasCause (Self.faults self.old).writes (Self.faults self.new).writes result }
        ensures counts { KeepsAllButWrites (Self.faults self.old) (Self.faults self.new) };

    /// Writes the whole text to the output of the program. After `Failed` a prefix of it may have been written.
    fn print(&mut self, text: &[u8]) -> Result<(), Failed>
        ensures bytes { Grows (Self.meaning self.old).out (Self.meaning self.new).out result text.now }
        ensures stays { KeepsAllButOut (Self.meaning self.old) (Self.meaning self.new) }
        ensures cause { HasCause (Self.faults self.old).writes (Self.faults self.new).writes result }
        ensures counts { KeepsAllButWrites (Self.faults self.old) (Self.faults self.new) };

    /// Writes the whole text to the error output. After `Failed` a prefix of it may have been written.
    fn complain(&mut self, text: &[u8]) -> Result<(), Failed>
        ensures bytes { Grows (Self.meaning self.old).err (Self.meaning self.new).err result text.now }
        ensures stays { KeepsAllButErr (Self.meaning self.old) (Self.meaning self.new) }
        ensures cause { HasCause (Self.faults self.old).complaints (Self.faults self.new).complaints result }
        ensures counts { KeepsAllButComplaints (Self.faults self.old) (Self.faults self.new) };

    /// The cause of the last failed call, for messages. No clause binds it: a host tells what it knows.
    fn cause(&self) -> Cause;
}

/// Writes all of the bytes, in as many calls as the sink needs.
///
/// After `Failed` a prefix of the bytes may have been added.
pub fn write_all<S: Sink>(sink: &mut S, bytes: &[u8]) -> Result<(), Failed>
    ensures bytes { WritesAll (S.meaning sink.old).making (S.meaning sink.new).making result bytes.now }
    ensures stays { KeepsAllButMaking (S.meaning sink.old) (S.meaning sink.new) }
    ensures cause { HasCause (S.faults sink.old).writes (S.faults sink.new).writes result }
    ensures counts { KeepsAllButWrites (S.faults sink.old) (S.faults sink.new) }
{
    let mut written = 0;
    while written < bytes.len() {
        match sink.write(&bytes[written..]) {
            Ok(count) => written += count,
            Err(Failed) => return Err(Failed),
        }
    }
    Ok(())
}
