//! The regions of a plan, from their tables.

ghost use Rattle.std.specs.Prelude.{◌≡◌, ◌≢◌, ◌∷◌, ◌++◌, [], Some, Ok, Err, IfOk, IfErr, option_map, option_and_then};
ghost use Rattle.toml.specs.View.{table_view, view};
ghost use Rattle.mufom_plan.specs.Document.{truth_at};
ghost use Rattle.mufom_plan.specs.PlanText.{new_common as fresh_common, region_of};

use crate::document::{has_region_keys, number_of, truth_of};
use crate::values::{new_name, new_names, optional_text, value_at};
use crate::{NameList, PlanField, PlanRefusal, PlanTable, Region};
use std::alloc::Global;
use toml::{Table, Value};

/// The greatest end of a region.
const HIGHEST_END: u64 = 9_223_372_036_854_775_807;

/// Whether a region takes the commons. Returns `None` if an earlier region takes them too, or if the value
/// is not a truth value.
fn new_common(value: Option<&Value>, earlier: bool) -> Option<bool>
    ensures { result ≡ option_and_then (fresh_common earlier) (truth_at (option_map (λ v. view v.now) value.entry)) }
{
    let common = truth_of(value)?;
    if earlier && common {
        return None;
    }
    Some(common)
}

fn shape(place: u32, field: PlanField) -> PlanRefusal
    ensures { result ≡ PlanRefusal.Shape (Some (PlanTable.Region place)) field }
{
    PlanRefusal::Shape {
        table: Some(PlanTable::Region(place)),
        field,
    }
}

/// Reads the region of a table, and adds its names to those of the earlier regions. `common` tells whether
/// one of those takes the commons.
pub fn region(
    alloc: Global,
    place: u32,
    table: &Table,
    names: &mut NameList,
    listed: &mut NameList,
    common: bool,
) -> Result<Region, PlanRefusal>
    ensures ok { IfOk result (λ region. region_of place names.old listed.old common (table_view table.now) ≡ Ok region) }
    ensures refused { IfErr result (λ refusal. refusal ≢ PlanRefusal.NoMemory
        → region_of place names.old listed.old common (table_view table.now) ≡ Err refusal) }
    ensures named { IfOk result (λ region. names.new ≡ names.old ++ region.name ∷ []) }
    ensures listed { IfOk result (λ region. listed.new ≡ listed.old ++ region.sections) }
{
    if !has_region_keys(table) {
        return Err(shape(place, PlanField::Extra));
    }
    let Some(name) = new_name(alloc, value_at(table, "name"), names)? else {
        return Err(shape(place, PlanField::Name));
    };
    let Some(base) = number_of(value_at(table, "base")) else {
        return Err(shape(place, PlanField::Base));
    };
    let Some(size) = number_of(value_at(table, "size")) else {
        return Err(shape(place, PlanField::Size));
    };
    let Some(sections) = new_names(alloc, value_at(table, "sections"), listed)? else {
        return Err(shape(place, PlanField::Sections));
    };
    let Some(common) = new_common(value_at(table, "common"), common) else {
        return Err(shape(place, PlanField::Common));
    };
    let Some(load) = optional_text(alloc, value_at(table, "load"))? else {
        return Err(shape(place, PlanField::Load));
    };
    if base + size > HIGHEST_END {
        return Err(PlanRefusal::Beyond(place));
    }
    Ok(Region {
        name,
        base,
        size,
        sections,
        common,
        load,
    })
}
