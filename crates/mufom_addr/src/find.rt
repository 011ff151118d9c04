//! Looking up one address among the debug items of a located program.

ghost use Rattle.std.specs.Prelude.{◌≡◌, ◌≤◌, IfOk};
ghost use Rattle.mufom_debug.specs.Marks.{depth_of, marks_of};
ghost use Rattle.mufom_addr.specs.AddressHit.{hit_at};

use crate::hit::Hit;
use crate::search::Search;
use mufom_debug::DebugItem;
use mufom_numbers::NoMemory;
use std::alloc::Global;

/// Finds the innermost function around an address and the nearest line at or below it.
///
/// The items are those of a located module: each of their expressions is one number. They must be at most
/// 32 deep. Fails only if memory runs out.
pub fn find_address(alloc: Global, items: &[DebugItem], address: u64) -> Result<Hit, NoMemory>
    requires { depth_of (marks_of items.now) ≤ 32 }
    ensures { IfOk result (λ hit. hit ≡ hit_at items.now address) }
{
    let mut search = Search::new(alloc, address);
    search.see_items(items, 0, None)?;
    search.hit(alloc)
}
