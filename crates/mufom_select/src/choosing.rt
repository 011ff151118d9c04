//! Chooses the members that a link needs, with one worklist.

ghost use Rattle.std.specs.Prelude.{◌≡◌, ◌<◌, ◌^◌, [], ◌∷◌, length, option_to_list, IfOk, OnOk};
ghost use Rattle.mufom_meaning.specs.Selection.{IsSelected};
ghost use Rattle.mufom_select.specs.Choice.{needed_in, all_needed_in, choice, with_members, positions_from, with_publics};
ghost use Rattle.mufom_select.specs.Choice.{with_providers, IsWithin};
ghost use Rattle.mufom_select.specs.Underway.{IsStart, IsUnderway};

use crate::providers::{defined, providers};
use mufom_module::Module;
use mufom_names::{NameIndex, Reference};
use mufom_numbers::{List, NoMemory};
use std::alloc::Global;

// Marks the member that the reference needs, if any, and appends it to the order. If the first member that defines
// the name is marked already, the roots' names are not looked at: nothing would change either way.
fn mark_needed(
    defined: &NameIndex<'_>,
    providers: &NameIndex<'_>,
    reference: &Reference,
    marks: &mut [bool],
    order: &mut List<u32>,
) -> Result<(), NoMemory>
    requires { IsWithin providers.now (length marks.old) }
    ensures { let needed = option_to_list (needed_in defined.now providers.now reference.now) in
        OnOk result (choice marks.new order.new ≡ with_members (choice marks.old order.old) needed) }
{
    if reference.weak.is_some() {
        return Ok(());
    }
    let name = reference.name.as_slice();
    let Some(member) = providers.find(name) else {
        return Ok(());
    };
    if marks[member as usize] || defined.find(name).is_some() {
        return Ok(());
    }
    order.push(member)?;
    marks[member as usize] = true;
    Ok(())
}

// Marks the members that the references need, and appends each new one to the order.
fn choose(
    defined: &NameIndex<'_>,
    providers: &NameIndex<'_>,
    references: &[Reference],
    marks: &mut [bool],
    order: &mut List<u32>,
) -> Result<(), NoMemory>
    requires { IsWithin providers.now (length marks.old) }
    ensures { let all = all_needed_in defined.now providers.now references.now in
        OnOk result (choice marks.new order.new ≡ with_members (choice marks.old order.old) all) }
{
    for reference in references {
        mark_needed(defined, providers, reference, marks, order)?;
    }
    Ok(())
}

// The positions of the set marks, in order.
fn positions(alloc: Global, marks: &[bool]) -> Result<List<u32>, NoMemory>
    requires { length marks.now < 2 ^ 32 }
    ensures { IfOk result (λ positions. positions ≡ positions_from 0 marks.now) }
{
    let mut positions = List::new(alloc);
    for position in 0..marks.len() {
        if marks[position] {
            positions.push(position as u32)?;
        }
    }
    Ok(positions)
}

// Marks what the roots need, and then what each member in the order needs. The order grows while the loop
// runs over it.
fn choose_all(
    defined: &NameIndex<'_>,
    providers: &NameIndex<'_>,
    roots: &Module,
    members: &[Module],
    marks: &mut [bool],
    order: &mut List<u32>,
) -> Result<(), NoMemory>
    requires defined { defined.now ≡ with_publics [] 0 roots.now.names.publics }
    requires providers { providers.now ≡ with_providers [] 0 members.now }
    requires start { IsStart (length members.now) (choice marks.old order.old) }
    ensures { OnOk result (IsUnderway (roots.now ∷ []) members.now (length order.new) (choice marks.new order.new)) }
{
    let references = roots.parts().names.references.as_slice();
    choose(defined, providers, references, marks, order)?;
    for turn in 0..members.len() {
        let Some(member) = order.get(turn) else {
            break;
        };
        let references = members[*member as usize]
            .parts()
            .names
            .references
            .as_slice();
        choose(defined, providers, references, marks, order)?;
    }
    Ok(())
}

/// Selects members for the roots. Returns the positions of the selected members, in increasing order.
///
/// A member is selected if it is the first that defines a name which a strong reference of the roots or of a
/// selected member has, and which the roots do not define. The expected time is proportional to the number of
/// all names; if there are no members, no name is looked at. There must be fewer than 2^32 members.
pub fn select(alloc: Global, roots: &Module, members: &[Module]) -> Result<List<u32>, NoMemory>
    requires { length members.now < 2 ^ 32 }
    ensures { IfOk result (λ chosen. IsSelected (roots.now ∷ []) members.now chosen) }
{
    if members.is_empty() {
        return Ok(List::new(alloc));
    }
    let defined = defined(alloc, roots)?;
    let providers = providers(alloc, members)?;
    let mut marks = vec![in alloc; false; members.len()]?;
    let mut order = List::new(alloc);
    choose_all(&defined, &providers, roots, members, &mut marks, &mut order)?;
    positions(alloc, &marks)
}
