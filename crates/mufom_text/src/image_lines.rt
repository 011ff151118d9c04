//! Printing the text of a located image.

ghost use Rattle.std.specs.Prelude.{◌≡◌, Err, OnOk, All};
ghost use Rattle.mufom_debug.specs.Marks.{marks_of};
ghost use Rattle.mufom_host.specs.World.{GrowsBy, GrowsByPrefix, OnlyPrints, Rose};
ghost use Rattle.mufom_text.specs.Addresses.{all_seen};
ghost use Rattle.mufom_text.specs.Fitting.{FitsIn, IsUnitCount};
ghost use Rattle.mufom_text.specs.Image.{addresses_of, image_text, names_of};

use crate::addresses::{DebugAddress, debug_addresses};
use crate::image::{debug_lines, located_publics, located_start, runs};
use crate::output::Output;
use crate::print::{Lines, PrintStop, print_lines};
use mufom_host::Host;
use mufom_located::Located;
use mufom_meaning::LocatedParts;
use std::alloc::Global;

// A location with its debug addresses.
#[derive(Drop)]
struct Image<'a> {
    parts: &'a LocatedParts,
    addresses: &'a [DebugAddress<'a>],
    ghost units: { IsUnitCount parts.now.maus },
    ghost within: { All FitsIn parts.now.runs },
    ghost all: { all_seen addresses.now ≡ addresses_of (names_of (marks_of parts.now.debug)) parts.now.debug },
}

impl<'a> Lines for Image<'a> {
    ghost use Rattle.mufom_text.specs.Image.{image_text};

    ghost text = { λ image. image_text image.parts.now };

    fn put_lines<K: Output>(&self, out: &mut K) {
        let parts = self.parts;
        runs(out, parts.maus, parts.runs.as_slice());
        located_start(out, parts.maus, parts.start);
        located_publics(out, parts.maus, parts.publics.as_slice());
        debug_lines(out, parts.maus, self.addresses);
    }
}

/// Prints the text of a located image, in chunks of about 65,536 bytes, the last of which may be shorter: a line for each
/// 16 addresses with loaded bytes, the start, each public, and each debug address.
///
/// `NoMemory` is returned before anything is printed. `Fault` is returned only if a print failed
/// and the host's count of failed writes rose; a prefix of the text may then be printed.
pub fn print_image<H: Host>(alloc: Global, host: &mut H, located: &Located) -> Result<(), PrintStop>
    ensures done { OnOk result (GrowsBy (H.meaning host.old).out (H.meaning host.new).out (image_text located.now)) }
    ensures fault { result ≡ Err PrintStop.Fault
        → GrowsByPrefix (H.meaning host.old).out (H.meaning host.new).out (image_text located.now)
        × Rose (H.faults host.old).writes (H.faults host.new).writes }
    ensures unmade { result ≡ Err PrintStop.NoMemory → (H.meaning host.new).out ≡ (H.meaning host.old).out }
    ensures only { OnlyPrints (H.meaning host.old) (H.meaning host.new) (H.faults host.old) (H.faults host.new) }
{
    let parts = located.parts();
    let Ok(addresses) = debug_addresses(alloc, parts.debug.as_slice()) else {
        return Err(PrintStop::NoMemory);
    };
    let image = Image {
        parts,
        addresses: addresses.as_slice(),
    };
    print_lines(alloc, host, &image)
}
