//! Writing to the files and streams of the system, and reading from them, over the traits of `std`.
//!
//! The functions are generic over the writer and the reader. If a writer's contents are known, the contracts
//! state what it holds after each call; if a reader's are, what is left to read.

ghost use Rattle.std.specs.Prelude.{◌≡◌, ◌≤◌, [], length, true, false, take, IfOk, IsErr, OnErr, OnOk};
ghost use Rattle.mufom_host.specs.World.{GrowsBy, StaysKnown};
ghost use Rattle.mufom_host.specs.Streams.{Gathers, PassesOn, TakesFrom};

use crate::Cause;
use crate::block::Block;
use std::io::{Error, ErrorKind, Read, Write};

/// The error that bytes could not be passed on to a writer.
#[derive(Drop)]
pub(crate) struct NotWritten;

// Writes some of the bytes, which are not empty, and returns their number; 0 if the call was interrupted.
fn write_some<W: Write>(writer: &mut W, bytes: &[u8]) -> Result<usize, NotWritten>
    ensures bound { IfOk result (λ count. count ≤ length bytes.now) }
    ensures written { IfOk result (λ count. GrowsBy (W.contents writer.old) (W.contents writer.new) (take count bytes.now)) }
    ensures stays { OnErr result (StaysKnown (W.contents writer.old) (W.contents writer.new)) }
{
    match writer.write(bytes) {
        Ok(0) => Err(NotWritten),
        Ok(count) => Ok(count),
        Err(error) if error.kind() == ErrorKind::Interrupted => Ok(0),
        Err(_) => Err(NotWritten),
    }
}

/// Passes all of the bytes on, in as many calls as the writer needs.
///
/// After an error the writer may hold a prefix of the bytes.
pub(crate) fn pass_on<W: Write>(writer: &mut W, bytes: &[u8]) -> Result<(), NotWritten>
    ensures { PassesOn (W.contents writer.old) (W.contents writer.new) result bytes.now }
{
    let mut written = 0;
    for _turn in 0..u64::MAX {
        if written == bytes.len() {
            return Ok(());
        }
        match write_some(writer, &bytes[written..]) {
            Ok(count) => written += count,
            Err(NotWritten) => return Err(NotWritten),
        }
    }
    Err(NotWritten)
}

/// The cause that an error of the system tells.
pub(crate) fn cause_of(error: &Error) -> Cause {
    match error.kind() {
        ErrorKind::NotFound => Cause::NoFile,
        ErrorKind::IsADirectory => Cause::Folder,
        ErrorKind::PermissionDenied => Cause::NoPermission,
        _ => Cause::Unknown,
    }
}

/// Copies the next bytes of a reader to the start of the buffer, and returns their number. If that is 0 and
/// the buffer is not empty, no bytes are left.
///
/// After an error the same bytes are left to read; the buffer may have changed.
pub(crate) fn take_from<R: Read>(reader: &mut R, buffer: &mut [u8]) -> Result<usize, Cause>
    ensures bound { IfOk result (λ count. count ≤ length buffer.new) }
    ensures bytes { TakesFrom (R.remaining reader.old) (R.remaining reader.new) result buffer.new }
{
    for _turn in 0..u64::MAX {
        match reader.read(buffer) {
            Ok(count) => return Ok(count),
            Err(error) if error.kind() == ErrorKind::Interrupted => {}
            Err(error) => return Err(cause_of(&error)),
        }
    }
    Err(Cause::Unknown)
}

// A writer. Once passing bytes on to it has failed, it may hold some of them, and nothing more is passed on.
#[derive(Drop)]
struct Target<W> {
    writer: W,
    has_failed: bool,
}

impl<W: Write> Target<W> {
    fn pass_on(&mut self, bytes: &[u8]) -> Result<(), NotWritten>
        ensures bytes { PassesOn (W.contents self.old.writer) (W.contents self.new.writer) result bytes.now }
        ensures failed { OnErr result (self.new.has_failed ≡ true) }
        ensures refused { self.old.has_failed ≡ true → IsErr result × (self.new ≡ self.old) }
    {
        if self.has_failed {
            return Err(NotWritten);
        }
        match pass_on(&mut self.writer, bytes) {
            Ok(()) => Ok(()),
            Err(NotWritten) => {
                self.has_failed = true;
                Err(NotWritten)
            }
        }
    }
}

/// A file that is being made, as a writer. Bytes that are written to it are gathered in a block. The block is
/// passed on to the writer when it has no room for the next bytes, and by [`flush`](Making::flush).
///
/// After an error the writer keeps a prefix of what was written, nothing more is passed on to it, and each
/// later flush fails too.
#[derive(Drop)]
pub(crate) struct Making<W> {
    target: Target<W>,
    block: Block,
}

impl<W: Write> Making<W> {
    /// Starts with an empty block.
    pub(crate) fn new(writer: W) -> Making<W>
        ensures writer { result.target.writer ≡ writer }
        ensures fresh { result.target.has_failed ≡ false }
        ensures none { result.block ≡ [] }
    {
        Making {
            target: Target {
                writer,
                has_failed: false,
            },
            block: Block::new(),
        }
    }

    /// Adds all of the bytes: the writer and the block hold them behind what they held.
    ///
    /// After an error the writer holds a prefix of the block and these bytes behind what it held.
    pub(crate) fn write(&mut self, bytes: &[u8]) -> Result<(), NotWritten>
        ensures bytes { Gathers (W.contents self.old.target.writer) self.old.block
            (W.contents self.new.target.writer) self.new.block result bytes.now }
        ensures failed { OnErr result (self.new.target.has_failed ≡ true) }
        ensures refused { self.old.target.has_failed ≡ true → self.new.target ≡ self.old.target }
    {
        if self.block.hold(bytes) {
            return Ok(());
        }
        match self.flush() {
            Ok(()) => {}
            Err(NotWritten) => return Err(NotWritten),
        }
        if self.block.hold(bytes) {
            return Ok(());
        }
        match self.target.pass_on(bytes) {
            Ok(()) => Ok(()),
            Err(NotWritten) => Err(NotWritten),
        }
    }

    /// Passes on the bytes gathered so far. After `Ok` the writer holds all that was written.
    ///
    /// After an error the writer holds a prefix of them behind what it held.
    pub(crate) fn flush(&mut self) -> Result<(), NotWritten>
        ensures bytes { PassesOn (W.contents self.old.target.writer) (W.contents self.new.target.writer) result self.old.block }
        ensures done { OnOk result (self.new.block ≡ []) }
        ensures failed { OnErr result (self.new.target.has_failed ≡ true) }
        ensures refused { self.old.target.has_failed ≡ true → IsErr result × (self.new ≡ self.old) }
    {
        self.target.pass_on(self.block.as_slice())?;
        self.block.clear();
        Ok(())
    }
}
