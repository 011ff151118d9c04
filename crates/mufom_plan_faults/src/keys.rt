//! A key that a table of a plan may not have.

ghost use Rattle.std.specs.Prelude.{◌≡◌, IfOk, option_map, option_and_then, map, find, not, slice_get, string_bytes};
ghost use Rattle.std.specs.BTreeMap.{keys};
ghost use Rattle.toml.specs.Data.{as_table, get_member};
ghost use Rattle.toml.specs.View.{table_view, view};
ghost use Rattle.mufom_plan.specs.Document.{items_at};
ghost use Rattle.mufom_plan.specs.Names.{has_name};
ghost use Rattle.mufom_plan.specs.PlanText.{plan_keys, region_keys, symbol_keys};
ghost use Rattle.mufom_plan_faults.specs.Keys.{extra_key, first_other, keys_for, other_in, table_among, table_at};

use crate::document::document;
use mufom_numbers::{Bytes, NoMemory};
use mufom_plan::PlanTable;
use std::alloc::Global;
use toml::{Table, Value};

// Whether a table of a plan may have the key.
fn is_allowed(place: Option<PlanTable>, key: &str) -> bool
    ensures { result ≡ has_name (keys_for place) key.now }
{
    match place {
        None => key == "region" || key == "symbol" || key == "keep",
        Some(PlanTable::Region(_)) => is_region_key(key),
        Some(PlanTable::Symbol(_)) => is_symbol_key(key),
    }
}

fn is_region_key(key: &str) -> bool
    ensures { result ≡ has_name region_keys key.now }
{
    let places = key == "name" || key == "base" || key == "size";
    places || key == "sections" || key == "common" || key == "load"
}

fn is_symbol_key(key: &str) -> bool
    ensures { result ≡ has_name symbol_keys key.now }
{
    let names = key == "name" || key == "value" || key == "start" || key == "end";
    names || key == "load" || key == "region_end"
}

// The first of the keys that the table may not have.
fn find_other(place: Option<PlanTable>, table: &Table) -> Option<&String>
    ensures { option_map (λ key. key.now) result ≡ find (λ key. not (has_name (keys_for place) (string_bytes key))) (keys table.now) }
{
    table.keys().find(|key| !is_allowed(place, key.as_str()))
}

// The first key of the table that it may not have.
fn first_other(place: Option<PlanTable>, table: &Table) -> Option<&String>
    ensures { option_map (λ key. string_bytes key.now) result ≡ first_other (keys_for place) (table_view table.now) }
{
    find_other(place, table)
}

// The items, if the value is an array.
fn items_of(value: Option<&Value>) -> Option<&[Value]>
    ensures { option_map (λ values. map view values.now) result ≡ items_at (option_map (λ v. view v.now) value.entry) }
{
    Some(value?.as_array()?.as_slice())
}

// The value at a position, if it is a table.
fn table_in(items: &[Value], number: u32) -> Option<&Table>
    ensures { option_map (λ table. table_view table.now) result ≡ option_and_then as_table (slice_get (map view items.now) number) }
{
    match items.get(number as usize) {
        Some(value) => value.as_table(),
        None => None,
    }
}

// The table at a position of an array of tables.
fn table_among(value: Option<&Value>, number: u32) -> Option<&Table>
    ensures { option_map (λ table. table_view table.now) result ≡ table_among number (option_map (λ v. view v.now) value.entry) }
{
    match items_of(value) {
        Some(items) => table_in(items, number),
        None => None,
    }
}

// The value at a key of a table.
fn value_at<'a>(table: &'a Table, key: &str) -> Option<&'a Value>
    ensures { option_map (λ value. view value.now) result ≡ get_member key.now (table_view table.now) }
{
    table.get(key)
}

// The table of a document.
fn table_at(document: &Table, place: Option<PlanTable>) -> Option<&Table>
    ensures { option_map (λ table. table_view table.now) result ≡ table_at (table_view document.now) place }
{
    match place {
        None => Some(document),
        Some(PlanTable::Region(number)) => table_among(value_at(document, "region"), number),
        Some(PlanTable::Symbol(number)) => table_among(value_at(document, "symbol"), number),
    }
}

fn other_in(document: &Table, place: Option<PlanTable>) -> Option<&String>
    ensures { option_map (λ key. string_bytes key.now) result ≡ other_in place (table_view document.now) }
{
    first_other(place, table_at(document, place)?)
}

/// Returns the least key, by its bytes, that a table of a plan may not have: the document, if no place is given,
/// or a region or a symbol. Returns `None` if there is no such key or no such table, or if the bytes are not a
/// document. The only error is out of memory.
pub fn extra_key(
    alloc: Global,
    text: &[u8],
    place: Option<PlanTable>,
) -> Result<Option<Bytes>, NoMemory>
    ensures { IfOk result (λ key. key ≡ extra_key text.now place) }
{
    let Some(document) = document(alloc, text)? else {
        return Ok(None);
    };
    match other_in(&document, place) {
        Some(key) => Ok(Some(Bytes::from_slice(alloc, key.as_bytes())?)),
        None => Ok(None),
    }
}
