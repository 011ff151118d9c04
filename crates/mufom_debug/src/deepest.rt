//! How deeply the blocks of debug items are nested.

ghost use Rattle.std.specs.Prelude.{◌≡◌, ◌≤◌, ◌↔◌, IsTrue};
ghost use Rattle.mufom_debug.specs.Marks.{marks_of, marks_of_item, depth_of};

use crate::item::DebugItem;

// The depth of an item: 0 for an item that is not a block.
#[cycle(depth)]
fn item_depth(item: &DebugItem) -> u32
    requires { depth_of (marks_of_item item.now) ≤ 32 }
    ensures { result ≡ depth_of (marks_of_item item.now) }
{
    match item {
        DebugItem::Block(block) => 1 + depth(block.get().items.as_slice()),
        DebugItem::Name(_) => 0,
        DebugItem::Note { .. } => 0,
        DebugItem::Value { .. } => 0,
    }
}

/// The depth of the items: the greatest number of blocks that are open at once.
///
/// The items must be at most 32 deep, which [`is_within_depth`] can check. Does not allocate.
#[cycle(depth)]
pub fn depth(items: &[DebugItem]) -> u32
    requires { depth_of (marks_of items.now) ≤ 32 }
    ensures { result ≡ depth_of (marks_of items.now) }
{
    let mut deepest = 0;
    for item in items {
        deepest = deepest.max(item_depth(item));
    }
    deepest
}

// Whether the depth of an item is at most `limit`.
#[cycle(within)]
fn item_is_within(item: &DebugItem, limit: u32) -> bool
    ensures { IsTrue result ↔ (depth_of (marks_of_item item.now) ≤ limit) }
{
    match item {
        DebugItem::Block(_) if limit == 0 => false,
        DebugItem::Block(block) => is_within_depth(block.get().items.as_slice(), limit - 1),
        DebugItem::Name(_) => true,
        DebugItem::Note { .. } => true,
        DebugItem::Value { .. } => true,
    }
}

/// Whether at most `limit` blocks are open at once. The items may have any depth. Does not allocate.
#[cycle(within)]
pub fn is_within_depth(items: &[DebugItem], limit: u32) -> bool
    ensures { IsTrue result ↔ (depth_of (marks_of items.now) ≤ limit) }
{
    for item in items {
        if !item_is_within(item, limit) {
            return false;
        }
    }
    true
}
