//! The line of a region.

ghost use Rattle.std.specs.Prelude.{◌≡◌};
ghost use Rattle.mufom_text.specs.Fitting.{IsUnitCount};
ghost use Rattle.mufom_explain.specs.Region.{region_line};

use mufom_plan::Region;
use mufom_text::{Output, counted, hex, quoted};

/// Puts the line of a region whose sections take this much space, as in `region 0: "ram" base 00000100 size
/// 13, its sections take 14`.
pub(crate) fn region_line<K: Output>(
    out: &mut K,
    maus: u8,
    number: u32,
    region: &Region,
    taken: u128,
)
    requires { IsUnitCount maus }
    ensures { K.takes out.old out.new (region_line maus number region.now taken) }
{
    counted(out, b"region ", number as u128);
    out.put(b": ");
    quoted(out, region.name.as_slice());
    out.put(b" base ");
    hex(out, maus, region.base);
    counted(out, b" size ", region.size as u128);
    counted(out, b", its sections take ", taken);
    out.put(b"\n");
}
