//! The TOML document of a plan, and the values at its keys.

ghost use Rattle.std.specs.Prelude.{◌≡◌, ◌≢◌, ◌<◌, ◌^◌, Some, None, IfOk, IfErr, IfSome, option_map, is_some, map, string_bytes};
ghost use Rattle.std.specs.BTreeMap.{keys};
ghost use Rattle.std.specs.List.{list_all};
ghost use Rattle.toml.specs.Data.{as_table};
ghost use Rattle.toml.specs.View.{table_view, view};
ghost use Rattle.mufom_plan.specs.Document.{document_of, number_at, text_at, items_at, truth_at, has_only_keys};
ghost use Rattle.mufom_plan.specs.Names.{has_name};
ghost use Rattle.mufom_plan.specs.PlanText.{are_tables as every_table, plan_keys, region_keys, symbol_keys};

use crate::PlanRefusal;
use std::alloc::Global;
use toml::{Table, Value};

/// Parses the bytes as a TOML document. Returns `Syntax` if they are not one.
pub fn document(alloc: Global, text: &[u8]) -> Result<Table, PlanRefusal>
    ensures ok { IfOk result (λ table. document_of text.now ≡ Some (table_view table)) }
    ensures only { IfErr result (λ refusal. refusal ≢ PlanRefusal.NoMemory → refusal ≡ PlanRefusal.Syntax) }
    ensures syntax { result ≡ Err PlanRefusal.Syntax → document_of text.now ≡ None }
{
    let Ok(text) = std::str::from_utf8(text) else {
        return Err(PlanRefusal::Syntax);
    };
    match toml::table_from_str(alloc, text) {
        Ok(table) => Ok(table),
        Err(error) if error.is_memory() => Err(PlanRefusal::NoMemory),
        Err(_) => Err(PlanRefusal::Syntax),
    }
}

/// The number, if the value is an integer that is not negative.
pub fn number_of(value: Option<&Value>) -> Option<u64>
    ensures number { result ≡ number_at (option_map (λ v. view v.now) value.entry) }
    ensures bound { IfSome result (λ number. number < 2 ^ 63) }
{
    match value?.as_integer() {
        Some(number) if number >= 0 => Some(number as u64),
        _ => None,
    }
}

/// The truth value at a key: false if the key is absent, `None` if its value is not a truth value.
pub fn truth_of(value: Option<&Value>) -> Option<bool>
    ensures { result ≡ truth_at (option_map (λ v. view v.now) value.entry) }
{
    match value {
        Some(value) => value.as_bool(),
        None => Some(false),
    }
}

/// The text, if the value is a string.
pub fn text_of(value: Option<&Value>) -> Option<&str>
    ensures { option_map (λ text. text.now) result ≡ text_at (option_map (λ v. view v.now) value.entry) }
{
    value?.as_str()
}

/// The items, if the value is an array.
pub fn items_of(value: Option<&Value>) -> Option<&[Value]>
    ensures { option_map (λ values. map view values.now) result ≡ items_at (option_map (λ v. view v.now) value.entry) }
{
    Some(value?.as_array()?.as_slice())
}

fn are_tables(values: &[Value]) -> bool
    ensures { result ≡ list_all (λ value. is_some (as_table (view value))) values.now }
{
    values.iter().all(|value| value.is_table())
}

/// Whether each value is a table.
pub fn all_tables(values: &[Value]) -> bool
    ensures { result ≡ every_table (map view values.now) }
{
    are_tables(values)
}

fn is_plan_key(key: &str) -> bool
    ensures { result ≡ has_name plan_keys key.now }
{
    key == "region" || key == "symbol" || key == "keep"
}

fn is_region_key(key: &str) -> bool
    ensures { result ≡ has_name region_keys key.now }
{
    let places = key == "name" || key == "base" || key == "size";
    places || key == "sections" || key == "common" || key == "load"
}

fn is_symbol_key(key: &str) -> bool
    ensures { result ≡ has_name symbol_keys key.now }
{
    let names = key == "name" || key == "value" || key == "start" || key == "end";
    names || key == "load" || key == "region_end"
}

fn are_plan_keys(document: &Table) -> bool
    ensures { result ≡ list_all (λ key. has_name plan_keys (string_bytes key)) (keys document.now) }
{
    document.keys().all(|key| is_plan_key(key.as_str()))
}

fn are_region_keys(table: &Table) -> bool
    ensures { result ≡ list_all (λ key. has_name region_keys (string_bytes key)) (keys table.now) }
{
    table.keys().all(|key| is_region_key(key.as_str()))
}

fn are_symbol_keys(table: &Table) -> bool
    ensures { result ≡ list_all (λ key. has_name symbol_keys (string_bytes key)) (keys table.now) }
{
    table.keys().all(|key| is_symbol_key(key.as_str()))
}

/// Whether the document has only the keys that a plan may have.
pub fn has_plan_keys(document: &Table) -> bool
    ensures { result ≡ has_only_keys plan_keys (table_view document.now) }
{
    are_plan_keys(document)
}

/// Whether the table has only keys that a region may have.
pub fn has_region_keys(table: &Table) -> bool
    ensures { result ≡ has_only_keys region_keys (table_view table.now) }
{
    are_region_keys(table)
}

/// Whether the table has only keys that a symbol may have.
pub fn has_symbol_keys(table: &Table) -> bool
    ensures { result ≡ has_only_keys symbol_keys (table_view table.now) }
{
    are_symbol_keys(table)
}
