//! The listing of a module, in memory or printed.

ghost use Rattle.std.specs.Prelude.{◌≡◌, Err, IfOk, OnOk};
ghost use Rattle.mufom_host.specs.World.{GrowsBy, GrowsByPrefix, OnlyPrints, Rose};
ghost use Rattle.mufom_text.specs.Show.{listing_text};

use mufom_host::Host;
use mufom_module::Module;
use mufom_numbers::{Bytes, NoMemory};
use mufom_text::{PrintStop, TextForm, print_text, text_bytes};
use std::alloc::Global;

/// Returns the listing of the module as bytes in memory. Time and memory are in proportion to the length of
/// the listing.
pub fn listing(alloc: Global, module: &Module) -> Result<Bytes, NoMemory>
    ensures { IfOk result (λ text. text ≡ listing_text «module».now) }
{
    text_bytes(alloc, TextForm::Listing, module)
}

/// Prints the listing of the module, in chunks of about 65,536 bytes, the last of which may be shorter. It
/// allocates one chunk, and nothing for the text.
///
/// `NoMemory` is returned before anything is printed. `Fault` is returned only if a print failed and the
/// host's count of failed writes rose; a prefix of the listing may then be printed.
pub fn print_listing<H: Host>(alloc: Global, host: &mut H, module: &Module) -> Result<(), PrintStop>
    ensures done { OnOk result (GrowsBy (H.meaning host.old).out (H.meaning host.new).out (listing_text «module».now)) }
    ensures fault { result ≡ Err PrintStop.Fault
        → GrowsByPrefix (H.meaning host.old).out (H.meaning host.new).out (listing_text «module».now)
        × Rose (H.faults host.old).writes (H.faults host.new).writes }
    ensures unmade { result ≡ Err PrintStop.NoMemory → (H.meaning host.new).out ≡ (H.meaning host.old).out }
    ensures only { OnlyPrints (H.meaning host.old) (H.meaning host.new) (H.faults host.old) (H.faults host.new) }
{
    print_text(alloc, host, TextForm::Listing, module)
}
