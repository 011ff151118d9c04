//! The lines of regions.

ghost use Rattle.std.specs.Prelude.{◌≡◌, ◌≤◌, ◌<◌, ◌+◌};
ghost use Rattle.mufom_text.specs.Fitting.{IsUnitCount};
ghost use Rattle.mufom_text.specs.Words.{each};
ghost use Rattle.mufom_map.specs.MapText.{region_line};
ghost use Rattle.mufom_map.specs.Room.{bar, cell_count, cell_sign, cell_start, sign, signs_from};
ghost use Rattle.mufom_map.specs.Points.{most_point};
ghost use Rattle.mufom_map.specs.Shown.{section_extents};

use crate::room::Room;
use mufom_plan::Region;
use mufom_text::{Output, counted, hex, quoted};

// The number of cells of a bar.
const CELLS: u32 = 32;

// The first address of a cell; for the cell after the last, the end of the region.
fn cell_start(region: &Region, cell: u32) -> u128
    requires { cell ≤ cell_count }
    ensures value { result ≡ cell_start region.now cell }
    ensures within { result ≤ region.now.base + region.now.size }
    ensures bound { result ≤ most_point }
{
    region.base as u128 + cell as u128 * region.size as u128 / CELLS as u128
}

// The sign of a cell with this many addresses, `used` of which lie in a section.
fn sign(addresses: u128, used: u128) -> u8
    ensures { result ≡ sign addresses used }
{
    if used == 0 {
        b'.'
    } else if used == addresses {
        b'#'
    } else {
        b'+'
    }
}

fn cell_sign(room: &Room<'_>, region: &Region, cell: u32) -> u8
    requires { cell < cell_count }
    ensures { result ≡ cell_sign region.now (section_extents room.now.sections.now) cell }
{
    let start = cell_start(region, cell);
    let end = cell_start(region, cell + 1);
    sign(end - start, room.used(start, end))
}

// The signs of the first cells.
fn signs<K: Output>(out: &mut K, room: &Room<'_>, region: &Region, count: u32)
    requires { count ≤ cell_count }
    ensures { K.takes out.old out.new (signs_from region.now (section_extents room.now.sections.now) count 0) }
{
    for cell in 0..count {
        out.put(&[cell_sign(room, region, cell)]);
    }
}

// The cells of a region in brackets.
fn bar<K: Output>(out: &mut K, room: &Room<'_>, region: &Region)
    ensures { K.takes out.old out.new (bar region.now (section_extents room.now.sections.now)) }
{
    out.put(b"[");
    signs(out, room, region, CELLS);
    out.put(b"]");
}

fn region_line<K: Output>(out: &mut K, maus: u8, room: &Room<'_>, position: usize, region: &Region)
    requires { IsUnitCount maus }
    ensures { K.takes out.old out.new (region_line maus (section_extents room.now.sections.now) position region.now) }
{
    let base = region.base as u128;
    let size = region.size as u128;
    let used = room.used(base, base + size);
    counted(out, b"region ", position as u128);
    out.put(b" ");
    quoted(out, region.name.as_slice());
    out.put(b" at ");
    hex(out, maus, region.base);
    counted(out, b" size ", size);
    counted(out, b" used ", used);
    counted(out, b" free ", size.saturating_sub(used));
    out.put(b" ");
    bar(out, room, region);
    out.put(b"\n");
}

/// The lines of regions.
pub(crate) fn region_lines<K: Output>(out: &mut K, maus: u8, room: &Room<'_>, regions: &[Region])
    requires { IsUnitCount maus }
    ensures { K.takes out.old out.new (each (region_line maus (section_extents room.now.sections.now)) regions.now) }
{
    for position in 0..regions.len() {
        region_line(out, maus, room, position, &regions[position]);
    }
}
