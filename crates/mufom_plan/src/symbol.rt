//! The symbols of a plan, from their tables.

ghost use Rattle.std.specs.Prelude.{◌≡◌, ◌≢◌, ◌∷◌, ◌++◌, [], Some, None, Ok, Err, IfOk, IfErr, map};
ghost use Rattle.toml.specs.View.{table_view, view};
ghost use Rattle.mufom_plan.specs.Symbols.{HaveShortNames};
ghost use Rattle.mufom_plan.specs.PlanText.{kinds_in, symbol_of, symbols_of, value_of as value_by};

use crate::document::{has_symbol_keys, number_of};
use crate::values::{known_text, new_name, value_at};
use crate::{NameList, PlanField, PlanRefusal, PlanSymbol, PlanTable, SymbolValue};
use mufom_names::HashSeed;
use mufom_numbers::List;
use mufom_numbers::limits::MOST_PLAN_BYTES;
use std::alloc::Global;
use toml::{Table, Value};

/// The error if `symbol` is not an array of tables.
const NO_SYMBOLS: PlanRefusal = PlanRefusal::Shape {
    table: None,
    field: PlanField::Symbol,
};

fn shape(place: u32, field: PlanField) -> PlanRefusal
    ensures { result ≡ PlanRefusal.Shape (Some (PlanTable.Symbol place)) field }
{
    PlanRefusal::Shape {
        table: Some(PlanTable::Symbol(place)),
        field,
    }
}

/// How many of the keys that say what a symbol's value is are in its table.
fn kinds(table: &Table) -> usize
    ensures { result ≡ kinds_in (table_view table.now) }
{
    let number = value_at(table, "value").is_some() as usize;
    let start = value_at(table, "start").is_some() as usize;
    let end = value_at(table, "end").is_some() as usize;
    let load = value_at(table, "load").is_some() as usize;
    let region = value_at(table, "region_end").is_some() as usize;
    number + start + end + load + region
}

/// What the value of a symbol is, from its table, which has one of the keys that say so.
fn value_of(
    alloc: Global,
    place: u32,
    table: &Table,
    regions: &NameList,
    listed: &NameList,
) -> Result<SymbolValue, PlanRefusal>
    ensures ok { IfOk result (λ value. value_by place listed.now regions.now (table_view table.now) ≡ Ok value) }
    ensures refused { IfErr result (λ refusal. refusal ≢ PlanRefusal.NoMemory
        → value_by place listed.now regions.now (table_view table.now) ≡ Err refusal) }
{
    let number = value_at(table, "value");
    if number.is_some() {
        let number = number_of(number).ok_or(shape(place, PlanField::Value))?;
        return Ok(SymbolValue::Value(number));
    }
    let start = value_at(table, "start");
    if start.is_some() {
        let entry = known_text(alloc, start, listed)?.ok_or(shape(place, PlanField::Start))?;
        return Ok(SymbolValue::Start(entry));
    }
    let end = value_at(table, "end");
    if end.is_some() {
        let entry = known_text(alloc, end, listed)?.ok_or(shape(place, PlanField::End))?;
        return Ok(SymbolValue::End(entry));
    }
    let load = value_at(table, "load");
    if load.is_some() {
        let entry = known_text(alloc, load, listed)?.ok_or(shape(place, PlanField::Load))?;
        return Ok(SymbolValue::Load(entry));
    }
    let region = known_text(alloc, value_at(table, "region_end"), regions)?;
    let region = region.ok_or(shape(place, PlanField::RegionEnd))?;
    Ok(SymbolValue::RegionEnd(region))
}

/// Reads the symbol of a table, and adds its name to those of the earlier symbols. `regions` has the names of
/// the regions, and `listed` the entries of their lists.
pub fn symbol(
    alloc: Global,
    place: u32,
    table: &Table,
    names: &mut NameList,
    regions: &NameList,
    listed: &NameList,
) -> Result<PlanSymbol, PlanRefusal>
    ensures ok { IfOk result (λ symbol. symbol_of place names.old listed.now regions.now (table_view table.now) ≡ Ok symbol) }
    ensures refused { IfErr result (λ refusal. refusal ≢ PlanRefusal.NoMemory
        → symbol_of place names.old listed.now regions.now (table_view table.now) ≡ Err refusal) }
    ensures named { IfOk result (λ symbol. names.new ≡ names.old ++ symbol.name ∷ []) }
{
    if !has_symbol_keys(table) {
        return Err(shape(place, PlanField::Extra));
    }
    let Some(name) = new_name(alloc, value_at(table, "name"), names)? else {
        return Err(shape(place, PlanField::Name));
    };
    if kinds(table) != 1 {
        return Err(shape(place, PlanField::Kind));
    }
    let value = value_of(alloc, place, table, regions, listed)?;
    Ok(PlanSymbol { name, value })
}

/// The symbols of an array of tables. Their names are hashed from this seed; `regions` has the names of the
/// regions, and `listed` the entries of their lists.
pub fn symbols(
    alloc: Global,
    seed: HashSeed,
    values: &[Value],
    regions: &NameList,
    listed: &NameList,
) -> Result<List<PlanSymbol>, PlanRefusal>
    ensures ok { IfOk result (λ symbols. symbols_of listed.now regions.now [] (map view values.now) ≡ Ok symbols) }
    ensures refused { IfErr result (λ refusal. refusal ≢ PlanRefusal.NoMemory
        → symbols_of listed.now regions.now [] (map view values.now) ≡ Err refusal) }
    ensures short { IfOk result HaveShortNames }
{
    // A plan of 65,536 bytes cannot state 2^32 symbols.
    if values.len() > u32::MAX as usize {
        return Err(PlanRefusal::NoMemory);
    }
    let mut names = NameList::new(alloc, seed);
    let mut symbols = List::new(alloc);
    let mut room = MOST_PLAN_BYTES;
    for (place, value) in values.iter().enumerate() {
        let Some(table) = value.as_table() else {
            return Err(NO_SYMBOLS);
        };
        let symbol = symbol(alloc, place as u32, table, &mut names, regions, listed)?;
        // A plan of 65,536 bytes cannot state longer names.
        if symbol.name.len() >= room {
            return Err(PlanRefusal::NoMemory);
        }
        room -= symbol.name.len() + 1;
        symbols.push(symbol)?;
    }
    Ok(symbols)
}
