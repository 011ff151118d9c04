//! Tests of the positions of indexes, in the order in which they were added.

ghost use Rattle.std.specs.Prelude.{◌≡◌, ◌+◌, ◌-◌, ◌<◌, ◌^◌, length};

use mufom_sections::{AddFault, IndexTable};
use std::alloc::Global;
use std::process::Abort;

// Adds a new index, which must get the position `want`.
fn add_new(rt: &impl Abort, table: &mut IndexTable, index: u32, want: u32)
    requires { length table.old < 2 ^ 32 - 1 }
    ensures { length table.new ≡ length table.old + 1 }
{
    let position = table.add(index).expect(rt, "the index is new");
    assert_eq!(rt; position, want);
}

fn finds(rt: &impl Abort, table: &IndexTable, positions: &[(u32, Option<u32>)]) {
    for (index, want) in positions {
        assert_eq!(rt; &table.position(*index), want, "{index}");
    }
}

#[test]
fn indexes_get_positions_in_order(rt: HostRuntime) {
    let mut table = IndexTable::new(rt.alloc());
    add_new(&rt, &mut table, 7, 0);
    add_new(&rt, &mut table, 3, 1);
    assert_eq!(rt; table.add(7), Err(AddFault::Duplicate));
    finds(&rt, &table, &[(7, Some(0)), (3, Some(1)), (4, None)]);
}

// The row of 7, 8 and 9, and then two more indexes.
fn row_and_gap(rt: &impl Abort, alloc: Global) -> IndexTable
    ensures { length result ≡ 5 }
{
    let mut table = IndexTable::new(alloc);
    add_new(rt, &mut table, 7, 0);
    add_new(rt, &mut table, 8, 1);
    add_new(rt, &mut table, 9, 2);
    add_new(rt, &mut table, 3, 3);
    add_new(rt, &mut table, 10, 4);
    table
}

#[test]
fn a_gap_ends_the_row(rt: HostRuntime) {
    let mut table = row_and_gap(&rt, rt.alloc());
    assert_eq!(rt; table.add(8), Err(AddFault::Duplicate));
    assert_eq!(rt; table.add(10), Err(AddFault::Duplicate));
    finds(&rt, &table, &[(9, Some(2)), (3, Some(3)), (10, Some(4))]);
}

#[test]
fn the_largest_index_ends_the_row(rt: HostRuntime) {
    let mut table = IndexTable::new(rt.alloc());
    add_new(&rt, &mut table, u32::MAX, 0);
    add_new(&rt, &mut table, 0, 1);
    finds(&rt, &table, &[(u32::MAX, Some(0)), (0, Some(1))]);
}
