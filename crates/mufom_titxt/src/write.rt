//! Writing a TI-TXT text.

ghost use Rattle.std.specs.Prelude.{◌+◌, ◌≤◌, ◌<◌, ◌^◌, length};
ghost use Rattle.mufom_host.specs.World.{HasCause, KeepsAllButMaking, KeepsAllButWrites, WritesAll};
ghost use Rattle.mufom_titxt.specs.Written.{end_text, run_text};

use crate::page::{MOST_BYTES, Page};
use mufom_host::{Failed, Sink, write_all};

/// Writes the address and the bytes of a run to the file that is being written. Does not allocate.
///
/// The run has at least one byte and ends at 2^64 at most. `Failed` is returned only if a write failed and
/// the count of failed writes rose; a prefix of the text may then be in the file.
pub fn write_run<K: Sink>(address: u64, bytes: &[u8], sink: &mut K) -> Result<(), Failed>
    requires some { 0 < length bytes.now }
    requires within { address + length bytes.now ≤ 2 ^ 64 }
    ensures bytes { WritesAll (K.meaning sink.old).making (K.meaning sink.new).making result (run_text address bytes.now) }
    ensures stays { KeepsAllButMaking (K.meaning sink.old) (K.meaning sink.new) }
    ensures cause { HasCause (K.faults sink.old).writes (K.faults sink.new).writes result }
    ensures counts { KeepsAllButWrites (K.faults sink.old) (K.faults sink.new) }
{
    let mut page = Page::new();
    page.push_address(address);
    let mut rest = bytes;
    while !rest.is_empty() {
        let (part, after) = rest.split_at(rest.len().min(MOST_BYTES));
        page.push_lines(part);
        if let Err(Failed) = write_all(sink, page.as_slice()) {
            return Err(Failed);
        }
        page.clear();
        rest = after;
    }
    Ok(())
}

/// Writes the line that ends a text to the file that is being written. Does not allocate.
pub fn write_end<K: Sink>(sink: &mut K) -> Result<(), Failed>
    ensures bytes { WritesAll (K.meaning sink.old).making (K.meaning sink.new).making result end_text }
    ensures stays { KeepsAllButMaking (K.meaning sink.old) (K.meaning sink.new) }
    ensures cause { HasCause (K.faults sink.old).writes (K.faults sink.new).writes result }
    ensures counts { KeepsAllButWrites (K.faults sink.old) (K.faults sink.new) }
{
    write_all(sink, b"q\n")
}
