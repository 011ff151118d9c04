//! Looks for the field that a module loads into a section at an address.

ghost use Rattle.std.specs.Prelude.{◌≡◌, ◌↔◌, ◌*◌, ◌^◌, ◌%◌, ◌≤◌, ◌++◌, ◌∷◌, [], List as list, None, Some, IfOk, length, option_map, slice_get, IsTrue};
ghost use Rattle.mufom_expr.specs.Tree.{Tree};
ghost use Rattle.mufom_loads.specs.Lengths.{repeated};
ghost use Rattle.mufom_names.specs.Names.{names_of, AreDistinct};
ghost use Rattle.mufom_place.specs.Facts.{◌or_else◌};
ghost use Rattle.mufom_meaning.specs.Placed.{base_list};
ghost use Rattle.mufom_meaning.specs.Steps.{Step, counter, item_steps, steps_of};
ghost use Rattle.mufom_image_values.specs.Evaluated.{alone, setting_of, AreValues, IsPlaced};
ghost use Rattle.mufom_image_values.specs.Resolutions.{resolutions_of};
ghost use Rattle.mufom_image.specs.Placements.{placing_refusal, StandsAt};
ghost use Rattle.mufom_plan.specs.SoundPlans.{IsSoundPlan};
ghost use Rattle.mufom_image.specs.Stages.{circular};
ghost use Rattle.mufom_field_values.specs.Fields.{field_of, field_tree, first_field, shown_load as shown, shown_loads};
ghost use Rattle.mufom_field_values.specs.Walk.{after_item, field_here, found_from, load_steps};

use mufom_copies::copy_section;
use mufom_expr::Postfix;
use mufom_image::planned_commons;
use mufom_image_values::{Evaluation, Graph, PlacedModule, Resolution, components_of};
use mufom_loads::{Item, Load, item_length};
use mufom_meaning::modules_may_be_placed;
use mufom_module::{Module, current_after};
use mufom_numbers::{List, NoMemory};
use mufom_place::place;
use mufom_plan::Plan;
use mufom_sections::Section;
use std::alloc::Global;

/// What is looked for: the field of a section at an address, in a module whose sections have bases and whose
/// publics have values.
#[derive(Clone, Copy)]
struct Search<'a> {
    placed: &'a PlacedModule<'a>,
    values: &'a [Evaluation],
    section: u32,
    address: u64,
}

// ---- items

// The expression of an item, if it is a field.
fn field_in(item: &Item) -> Option<&Postfix>
    ensures { option_map (λ value. value.now) result ≡ field_tree item.now }
{
    match item {
        Item::Literal(_) => None,
        Item::Field { value, .. } => Some(value),
    }
}

// An address modulo the address space.
fn residue(width: u32, address: u128) -> u64
    requires { width ≤ 64 }
    ensures { result ≡ address % 2 ^ width }
{
    let modulus = 1u128 << width;
    if address < modulus {
        address as u64
    } else {
        (address % modulus) as u64
    }
}

// The base of the section with a number.
fn base_at(bases: &[u64], section: u32) -> Option<u64>
    ensures { result ≡ slice_get bases.now section }
{
    bases.get(section as usize).copied()
}

// The counter after an item.
fn after_item(width: u32, item: &Item, counter: Option<u64>) -> Option<u64>
    requires { width ≤ 64 }
    ensures { result ≡ after_item (2 ^ width) item.now counter }
{
    match counter {
        Some(at) => Some(residue(width, at as u128 + item_length(item) as u128)),
        None => None,
    }
}

fn is_same(first: Option<u64>, second: Option<u64>) -> bool
    ensures { IsTrue result ↔ (first ≡ second) }
{
    first == second
}

// The load to take: that of the module that is shown, but for a program counter.
fn shown_load<'a>(load: &'a Load, own: &'a Load) -> &'a Load
    ensures { result.now ≡ shown load.now own.now }
{
    match load {
        Load::SetPc { .. } => load,
        _ => own,
    }
}

// The expression of a field at the counter, if the counter is at the address.
fn field_here(address: u64, item: &Item, counter: Option<u64>) -> Option<&Postfix>
    ensures { option_map (λ value. value.now) result ≡ field_here address item.now counter }
{
    match counter {
        Some(at) => {
            if at == address {
                return field_in(item);
            }
            None
        }
        None => None,
    }
}

impl<'a> Search<'a> {
    // The width of an address in bits.
    fn width(&self) -> u32
        requires { IsPlaced self.now.placed.now }
        ensures width { result ≡ 8 * self.now.placed.now.graph.parts.now.maus }
        ensures high { result ≤ 64 }
    {
        let placed = self.placed;
        8 * u32::from(placed.graph.parts.maus)
    }

    // Whether this section is the one that is looked at.
    fn is_own(&self, current: Option<u32>) -> bool
        ensures { IsTrue result ↔ (current ≡ Some self.now.section) }
    {
        match current {
            Some(section) => section == self.section,
            None => false,
        }
    }

    // Takes an item of the section: returns its expression if it is the field, and moves the counter past it.
    fn take<'b>(&self, item: &'b Item, counter: &mut Option<u64>) -> Option<&'b Postfix>
        requires { IsPlaced self.now.placed.now }
        ensures { (more : list Step)
            → found_from (setting_of self.now.placed.now) self.now.section self.now.address counter.old
            (item_steps (alone self.now.placed.now.graph.parts.now) (Some self.now.section) (item.now ∷ []) ++ more)
            ≡ (option_map (λ value. value.now) result
            or_else found_from (setting_of self.now.placed.now) self.now.section self.now.address counter.new more) }
    {
        let found = field_here(self.address, item, *counter);
        *counter = after_item(self.width(), item, *counter);
        found
    }

    // Takes items, one after another, up to the field.
    fn take_all<'b>(&self, items: &'b [Item], counter: &mut Option<u64>) -> Option<&'b Postfix>
        requires { IsPlaced self.now.placed.now }
        ensures { (more : list Step)
            → found_from (setting_of self.now.placed.now) self.now.section self.now.address counter.old
            (item_steps (alone self.now.placed.now.graph.parts.now) (Some self.now.section) items.now ++ more)
            ≡ (option_map (λ value. value.now) result
            or_else found_from (setting_of self.now.placed.now) self.now.section self.now.address counter.new more) }
    {
        for item in items {
            let found = self.take(item, counter);
            if found.is_some() {
                return found;
            }
        }
        None
    }

    // Takes copies of items, up to the field. If a copy leaves the counter where it was, the others do too.
    fn take_copies<'b>(
        &self,
        count: u64,
        items: &'b [Item],
        counter: &mut Option<u64>,
    ) -> Option<&'b Postfix>
        requires { IsPlaced self.now.placed.now }
        ensures { (more : list Step)
            → found_from (setting_of self.now.placed.now) self.now.section self.now.address counter.old
            (repeated count (item_steps (alone self.now.placed.now.graph.parts.now) (Some self.now.section) items.now) ++ more)
            ≡ (option_map (λ value. value.now) result
            or_else found_from (setting_of self.now.placed.now) self.now.section self.now.address counter.new more) }
    {
        for taken in 0..count {
            let before = *counter;
            let found = self.take_all(items, counter);
            if found.is_some() {
                return found;
            }
            if is_same(*counter, before) {
                return None;
            }
        }
        None
    }

    // Takes one load, if this section is the current one.
    fn take_load<'b>(
        &self,
        current: Option<u32>,
        load: &'b Load,
        counter: &mut Option<u64>,
    ) -> Option<&'b Postfix>
        requires placed { IsPlaced self.now.placed.now }
        requires values { AreValues self.now.placed.now self.now.values.now }
        ensures { (more : list Step)
            → found_from (setting_of self.now.placed.now) self.now.section self.now.address counter.old
            (load_steps (alone self.now.placed.now.graph.parts.now) current load.now ++ more)
            ≡ (option_map (λ value. value.now) result
            or_else found_from (setting_of self.now.placed.now) self.now.section self.now.address counter.new more) }
    {
        match load {
            Load::SetSection(_) => None,
            Load::SetPc { section, value } => {
                if *section == self.section {
                    let placed = self.placed;
                    *counter = placed.value(self.values, *counter, value);
                }
                None
            }
            Load::One(item) => {
                if !self.is_own(current) {
                    return None;
                }
                self.take(item, counter)
            }
            Load::Repeat { count, items } => {
                if !self.is_own(current) {
                    return None;
                }
                self.take_copies(*count, items.as_slice(), counter)
            }
        }
    }

    // The counter of the section before all loads.
    fn first_counter(&self) -> Option<u64>
        requires { IsPlaced self.now.placed.now }
        ensures { result ≡ counter (setting_of self.now.placed.now) [] self.now.section }
    {
        let placed = self.placed;
        match base_at(placed.bases, self.section) {
            Some(base) => Some(residue(self.width(), base as u128)),
            None => None,
        }
    }

    // The field among loads, if the counter is this before them, as it is in `own`.
    fn find<'b>(
        &self,
        loads: &'b [Load],
        own: &'b [Load],
        first: Option<u64>,
    ) -> Option<&'b Postfix>
        requires placed { IsPlaced self.now.placed.now }
        requires values { AreValues self.now.placed.now self.now.values.now }
        ensures { option_map (λ value. value.now) result
            ≡ found_from (setting_of self.now.placed.now) self.now.section self.now.address first
            (steps_of (alone self.now.placed.now.graph.parts.now) None (shown_loads loads.now own.now)) }
    {
        let mut counter = first;
        let mut current = None;
        for place in 0..loads.len() {
            if place >= own.len() {
                return None;
            }
            let load = shown_load(&loads[place], &own[place]);
            let found = self.take_load(current, load, &mut counter);
            if found.is_some() {
                return found;
            }
            current = current_after(current, load);
        }
        None
    }
}

// ---- bases

// Copies of the sections, and after them the commons.
fn extended(
    alloc: Global,
    sections: &[Section],
    commons: List<Section>,
) -> Result<List<Section>, NoMemory>
    ensures { IfOk result (λ all. all ≡ sections.now ++ commons) }
{
    let mut all = List::new(alloc);
    for section in sections {
        all.push(copy_section(alloc, section)?)?;
    }
    for common in commons.into_vec() {
        all.push(common)?;
    }
    Ok(all)
}

// The bases of the sections of a module, and after them those of its commons.
fn planned_bases(
    alloc: Global,
    module: &Module,
    resolutions: &[Resolution],
    plan: &Plan,
) -> Result<List<u64>, NoMemory>
    requires met { resolutions.now ≡ resolutions_of «module».now }
    requires plan { IsSoundPlan plan.now }
    ensures { IfOk result (λ bases. bases ≡ base_list («module».now ∷ []) plan.now) }
{
    modules_may_be_placed();
    let parts = module.parts();
    let commons = planned_commons(alloc, module, resolutions, plan)?;
    let count = commons.len() as u32;
    let sections = extended(alloc, parts.sections.as_slice(), commons)?;
    let width = 8 * u32::from(parts.maus);
    match place(alloc, sections.as_slice(), count, plan, width) {
        Ok(bases) => Ok(bases),
        Err(_) => Err(NoMemory),
    }
}

// The module with the bases of its sections, followed by the bases of its commons.
fn placed_module<'a>(
    module: &'a Module,
    resolutions: &'a [Resolution],
    bases: &'a [u64],
) -> PlacedModule<'a>
    requires { length «module».now.sections ≤ length bases.now }
    ensures { StandsAt «module».now resolutions.now bases.now result }
{
    let parts = module.parts();
    let (bases, commons) = bases.split_at(parts.sections.len());
    PlacedModule {
        graph: Graph { parts, resolutions },
        bases,
        commons,
    }
}

// The field among the loads of a placed module, as it is in `own`.
fn search_loads<'a>(search: &Search<'_>, loads: &'a [Load], own: &'a [Load]) -> Option<&'a Postfix>
    requires placed { IsPlaced search.now.placed.now }
    requires values { AreValues search.now.placed.now search.now.values.now }
    ensures { option_map (λ value. value.now) result
        ≡ first_field (setting_of search.now.placed.now) search.now.section search.now.address []
        (steps_of (alone search.now.placed.now.graph.parts.now) None (shown_loads loads.now own.now)) }
{
    search.find(loads, own, search.first_counter())
}

/// Returns the expression of the first field that a module loads into a section at an address, if there is one.
///
/// `module` is the module that is located, and the expression is that of the same load of `own`: `module` itself,
/// or the module before the symbols of a plan are linked with it, whose loads differ in their expressions alone.
///
/// The plan places the sections of the module and its commons, no two of its publics have the same name, and
/// none leads back to itself; `resolutions` are what its references resolve to. The time is that of the values
/// of the publics and of one walk over the loads. The only error is out of memory.
pub fn find_field<'a>(
    alloc: Global,
    module: &'a Module,
    own: &'a Module,
    resolutions: &[Resolution],
    plan: &Plan,
    section: u32,
    address: u64,
) -> Result<Option<&'a Postfix>, NoMemory>
    requires names { AreDistinct (names_of «module».now.names.publics) }
    requires plan { IsSoundPlan plan.now }
    requires met { resolutions.now ≡ resolutions_of «module».now }
    requires placed { placing_refusal «module».now plan.now ≡ None }
    requires acyclic { circular «module».now ≡ None }
    ensures { IfOk result (λ value. option_map (λ v. v.now) value ≡ field_of «module».now own.now plan.now section address) }
{
    let bases = planned_bases(alloc, module, resolutions, plan)?;
    let placed = placed_module(module, resolutions, bases.as_slice());
    let components = components_of(alloc, &placed.graph)?;
    let values = placed.public_values(alloc, &components)?;
    let search = Search {
        placed: &placed,
        values: values.as_slice(),
        section,
        address,
    };
    let loads = module.parts().loads.as_slice();
    Ok(search_loads(&search, loads, own.parts().loads.as_slice()))
}
