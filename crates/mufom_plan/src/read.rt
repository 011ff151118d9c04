//! Reads a plan from the bytes of its file.

ghost use Rattle.std.specs.Prelude.{◌≡◌, ◌≢◌, ◌^◌, ◌<◌, [], Some, None, Ok, Err, IfOk, IfErr, length, map, option_map};
ghost use Rattle.toml.specs.View.{table_view, view};
ghost use Rattle.mufom_plan.specs.Names.{AreDistinctNames, listed_names, region_names, symbol_names};
ghost use Rattle.mufom_plan.specs.Commons.{HasAtMostOneCommon};
ghost use Rattle.mufom_plan.specs.Loads.{AreLoads};
ghost use Rattle.mufom_plan.specs.Symbols.{HaveShortNames};
ghost use Rattle.mufom_plan.specs.PlanText.{kept_names as names_to_keep, plan_of_document, plan_of_text, regions_of, tables_at};

use crate::document::{all_tables, document, has_plan_keys, items_of};
use crate::loads::first_wrong_load;
use crate::region::region;
use crate::symbol::symbols;
use crate::values::{new_names, value_at};
use crate::{NameList, Plan, PlanField, PlanRefusal, PlanTable, Region};
use mufom_names::HashSeed;
use mufom_numbers::limits::MOST_PLAN_BYTES;
use mufom_numbers::{Bytes, List, NoMemory};
use std::alloc::Global;
use toml::{Table, Value};

/// The error if a key of the document does not have the required value.
fn shape(field: PlanField) -> PlanRefusal
    ensures { result ≡ PlanRefusal.Shape None field }
{
    PlanRefusal::Shape { table: None, field }
}

/// The tables at a key of the document, which may be absent.
fn tables<'a>(value: Option<&'a Value>, key: PlanField) -> Result<&'a [Value], PlanRefusal>
    ensures ok { IfOk result (λ values. tables_at key (option_map (λ v. view v.now) value.entry) ≡ Ok (map view values.now)) }
    ensures refused { IfErr result (λ refusal. tables_at key (option_map (λ v. view v.now) value.entry) ≡ Err refusal) }
{
    if value.is_none() {
        return Ok(&[]);
    }
    let Some(values) = items_of(value) else {
        return Err(shape(key));
    };
    if !all_tables(values) {
        return Err(shape(key));
    }
    Ok(values)
}

/// The names of the sections that always stay. Returns `None` if the value is not an array of texts that are
/// all different. The names are hashed from this seed.
fn kept_names(
    alloc: Global,
    seed: HashSeed,
    value: Option<&Value>,
) -> Result<Option<List<Bytes>>, NoMemory>
    ensures { IfOk result (λ names. names ≡ names_to_keep (option_map (λ v. view v.now) value.entry)) }
{
    if value.is_none() {
        return Ok(Some(List::new(alloc)));
    }
    let mut names = NameList::new(alloc, seed);
    new_names(alloc, value, &mut names)
}

/// The regions of an array of tables. Adds their names and the entries of their lists to the empty lists
/// `names` and `listed`.
fn regions(
    alloc: Global,
    values: &[Value],
    names: &mut NameList,
    listed: &mut NameList,
) -> Result<List<Region>, PlanRefusal>
    requires names { names.old ≡ [] }
    requires listed { listed.old ≡ [] }
    ensures ok { IfOk result (λ regions. regions_of [] (map view values.now) ≡ Ok regions) }
    ensures refused { IfErr result (λ refusal. refusal ≢ PlanRefusal.NoMemory → regions_of [] (map view values.now) ≡ Err refusal) }
    ensures count { IfOk result (λ regions. length regions < 2 ^ 32) }
    ensures named { IfOk result (λ regions. names.new ≡ region_names regions) }
    ensures listed { IfOk result (λ regions. listed.new ≡ listed_names regions) }
{
    // A plan of 65,536 bytes cannot state 2^32 regions.
    if values.len() > u32::MAX as usize {
        return Err(PlanRefusal::NoMemory);
    }
    let mut common = false;
    let mut regions = List::new(alloc);
    for (place, value) in values.iter().enumerate() {
        let Some(table) = value.as_table() else {
            return Err(shape(PlanField::Region));
        };
        let region = region(alloc, place as u32, table, names, listed, common)?;
        common |= region.common;
        regions.push(region)?;
    }
    Ok(regions)
}

/// The plan of a document. Its names are hashed from this seed.
fn plan(alloc: Global, seed: HashSeed, document: &Table) -> Result<Plan, PlanRefusal>
    ensures ok { IfOk result (λ plan. plan_of_document (table_view document.now) ≡ Ok plan) }
    ensures refused { IfErr result (λ refusal. refusal ≢ PlanRefusal.NoMemory → plan_of_document (table_view document.now) ≡ Err refusal) }
    ensures count { IfOk result (λ plan. length plan.regions < 2 ^ 32) }
    ensures short { IfOk result (λ plan. HaveShortNames plan.symbols) }
{
    if !has_plan_keys(document) {
        return Err(shape(PlanField::Extra));
    }
    let region_items = tables(value_at(document, "region"), PlanField::Region)?;
    let symbol_items = tables(value_at(document, "symbol"), PlanField::Symbol)?;
    let Some(keep) = kept_names(alloc, seed, value_at(document, "keep"))? else {
        return Err(shape(PlanField::Keep));
    };
    let mut names = NameList::new(alloc, seed);
    let mut listed = NameList::new(alloc, seed);
    let regions = regions(alloc, region_items, &mut names, &mut listed)?;
    if let Some(place) = first_wrong_load(regions.as_slice(), &names) {
        return Err(PlanRefusal::Shape {
            table: Some(PlanTable::Region(place as u32)),
            field: PlanField::Load,
        });
    }
    let symbols = symbols(alloc, seed, symbol_items, &names, &listed)?;
    Ok(Plan {
        regions,
        symbols,
        keep,
    })
}

/// The plan that the bytes of a file state.
///
/// The plan is a TOML document with three keys, each of which may be absent. `region` is an array of tables,
/// each with the keys `name`, `base`, `size` and `sections`, and optionally `common` and `load`. `symbol` is an
/// array of tables, each with the key `name` and one of `value`, `start`, `end`, `load` and `region_end`. `keep`
/// is an array of texts. An empty file is the plan without regions.
///
/// Errors are returned in this order: too many bytes, no document, another key, `region` is no array of
/// tables, `symbol` is none, and `keep` is no array of texts or has one twice. Then follows region by region
/// another key, the name, the base, the size, the section names, the truth value `common`, a `load` that is no
/// text, and an end above 2^63 - 1. Then follows the first region whose `load` is not the name of another
/// region that has no `load`. Then follows symbol by symbol another key, the name, none or several of the keys that say what
/// its value is, and the value of this key.
pub fn read_plan(alloc: Global, text: &[u8]) -> Result<Plan, PlanRefusal>
    // The plan is the one that the document states.
    ensures ok { IfOk result (λ plan. plan_of_text text.now ≡ Ok plan) }
    // The error is the first one in the bytes, or out of memory.
    ensures refused { IfErr result (λ refusal. refusal ≢ PlanRefusal.NoMemory → plan_of_text text.now ≡ Err refusal) }
    // No section name occurs twice in the plan.
    ensures distinct { IfOk result (λ plan. AreDistinctNames (listed_names plan.regions)) }
    // At most one region takes the commons.
    ensures common { IfOk result (λ plan. HasAtMostOneCommon plan.regions) }
    ensures count { IfOk result (λ plan. length plan.regions < 2 ^ 32) }
    // Each region is loaded where it is, or into another region that is loaded where it is.
    ensures loads { IfOk result (λ plan. AreLoads plan.regions) }
    // No symbol's name occurs twice, and together they are no longer than the text of a plan.
    ensures symbols { IfOk result (λ plan. AreDistinctNames (symbol_names plan.symbols)) }
    ensures short { IfOk result (λ plan. HaveShortNames plan.symbols) }
{
    if text.len() > MOST_PLAN_BYTES {
        return Err(PlanRefusal::TooLong);
    }
    let document = document(alloc, text)?;
    let mut seed = HashSeed::new();
    seed.add_name(text);
    plan(alloc, seed, &document)
}
