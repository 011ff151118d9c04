//! The smallest set of entries that contains given entries and, with each of its entries, those that this one
//! needs.

ghost use Rattle.std.specs.Prelude.{◌≡◌, ◌<◌, length, IfOk, OnOk};
ghost use Rattle.mufom_select.specs.Choice.{choice, with_member, with_members};
ghost use Rattle.mufom_prune.specs.Reached.{IsReached};
ghost use Rattle.mufom_select.specs.Underway.{IsStart};
ghost use Rattle.mufom_prune.specs.Underway.{AreBelow, AllBelow, IsUnderway};

use mufom_numbers::{List, NoMemory};
use std::alloc::Global;

// Marks an entry and appends it to the order, unless it is marked already.
fn mark(entry: u32, marks: &mut [bool], order: &mut List<u32>) -> Result<(), NoMemory>
    requires { entry < length marks.old }
    ensures { OnOk result (choice marks.new order.new ≡ with_member (choice marks.old order.old) entry) }
{
    if !marks[entry as usize] {
        order.push(entry)?;
        marks[entry as usize] = true;
    }
    Ok(())
}

// Marks entries, and appends each new one to the order.
fn mark_all(entries: &[u32], marks: &mut [bool], order: &mut List<u32>) -> Result<(), NoMemory>
    requires { AreBelow (length marks.old) entries.now }
    ensures { OnOk result (choice marks.new order.new ≡ with_members (choice marks.old order.old) entries.now) }
{
    for entry in entries {
        mark(*entry, marks, order)?;
    }
    Ok(())
}

// Marks the roots, and then what each entry in the order needs. The order grows while the loop runs over it.
fn follow(
    needs: &[List<u32>],
    roots: &[u32],
    marks: &mut [bool],
    order: &mut List<u32>,
) -> Result<(), NoMemory>
    requires inside { AllBelow (length needs.now) needs.now }
    requires rooted { AreBelow (length needs.now) roots.now }
    requires start { IsStart (length needs.now) (choice marks.old order.old) }
    ensures { OnOk result (IsUnderway needs.now roots.now (length order.new) (choice marks.new order.new)) }
{
    mark_all(roots, marks, order)?;
    for turn in 0..needs.len() {
        let Some(entry) = order.get(turn) else {
            break;
        };
        mark_all(needs[*entry as usize].as_slice(), marks, order)?;
    }
    Ok(())
}

/// Returns a mark for each entry, which is set if the entry is reached from the roots through what entries
/// need.
///
/// `needs` lists what each entry needs, in the order of the entries' numbers. All numbers must be those of
/// entries.
pub(crate) fn reach(
    alloc: Global,
    needs: &[List<u32>],
    roots: &[u32],
) -> Result<Vec<bool>, NoMemory>
    requires inside { AllBelow (length needs.now) needs.now }
    requires rooted { AreBelow (length needs.now) roots.now }
    ensures { IfOk result (λ marks. IsReached needs.now roots.now marks.items) }
{
    let mut marks = vec![in alloc; false; needs.len()]?;
    let mut order = List::new(alloc);
    follow(needs, roots, &mut marks, &mut order)?;
    Ok(marks)
}
