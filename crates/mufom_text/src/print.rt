//! Printing a text through a page.

ghost use Rattle.std.specs.Prelude.{◌≡◌, ◌≤◌, ℕ, List, Err, OnOk, take};
ghost use Rattle.mufom_host.specs.World.{Grows, GrowsBy, GrowsByPrefix, HasCause, KeepsAllButOut, KeepsAllButWrites, OnlyPrints, Rose};
ghost use Rattle.mufom_text.specs.Printing.{Puts};

use crate::output::Output;
use crate::page::{Page, room};
use mufom_host::{Failed, Host};
use std::alloc::Global;
use thiserror::Error;

/// Why a text was not printed whole.
#[derive(Clone, Copy, Debug, PartialEq, Eq, Error)]
pub enum PrintStop {
    /// A print failed; the host's count of failed writes rose.
    #[error("a print failed")]
    Fault,
    /// Out of memory for the page.
    #[error("out of memory")]
    NoMemory,
}

/// A value whose text is a list of lines.
pub trait Lines {
    /// All its lines, as one text.
    ghost text: { Self → List ℕ };

    /// Adds all lines to the output.
    fn put_lines<K: Output>(&self, out: &mut K)
        ensures { K.takes out.old out.new (text self.now) };
}

// Adds all lines to the page, which stays with the same host.
fn fill<H: Host, T: Lines>(page: &mut Page<H>, lines: &T)
    ensures same { page.new.host.ghost_name ≡ page.old.host.ghost_name }
    ensures puts { Puts (H.meaning page.old.host.now) (H.meaning page.new.host.now) (H.faults page.old.host.now)
        (H.faults page.new.host.now) (take page.old.used page.old.room.items)
        (take page.new.used page.new.room.items) page.old.has_failed page.new.has_failed (T.text lines.now) }
{
    lines.put_lines(page);
}

// Prints all lines through a page with this buffer.
fn print_all<H: Host, T: Lines>(room: Vec<u8>, host: &mut H, lines: &T) -> Result<(), Failed>
    ensures grows { Grows (H.meaning host.old).out (H.meaning host.new).out result (T.text lines.now) }
    ensures stays { KeepsAllButOut (H.meaning host.old) (H.meaning host.new) }
    ensures cause { HasCause (H.faults host.old).writes (H.faults host.new).writes result }
    ensures counts { KeepsAllButWrites (H.faults host.old) (H.faults host.new) }
{
    let mut page = Page::new(host, room);
    fill(&mut page, lines);
    let printed = page.finish();
    let _host = page.into_host();
    printed
}

/// Prints the lines, in chunks of about 65,536 bytes, the last of which may be shorter.
///
/// `NoMemory` is returned before anything is printed. `Fault` is returned only if a print failed
/// and the host's count of failed writes rose; a prefix of the text may then be printed.
pub fn print_lines<H: Host, T: Lines>(
    alloc: Global,
    host: &mut H,
    lines: &T,
) -> Result<(), PrintStop>
    ensures done { OnOk result (GrowsBy (H.meaning host.old).out (H.meaning host.new).out (T.text lines.now)) }
    ensures fault { result ≡ Err PrintStop.Fault
        → GrowsByPrefix (H.meaning host.old).out (H.meaning host.new).out (T.text lines.now)
        × Rose (H.faults host.old).writes (H.faults host.new).writes }
    ensures unmade { result ≡ Err PrintStop.NoMemory → (H.meaning host.new).out ≡ (H.meaning host.old).out }
    ensures only { OnlyPrints (H.meaning host.old) (H.meaning host.new) (H.faults host.old) (H.faults host.new) }
{
    let Ok(room) = room(alloc) else {
        return Err(PrintStop::NoMemory);
    };
    match print_all(room, host, lines) {
        Ok(()) => Ok(()),
        Err(Failed) => Err(PrintStop::Fault),
    }
}
