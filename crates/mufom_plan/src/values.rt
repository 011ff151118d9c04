//! Values at the keys of a plan's tables: names that are new, and texts that are known.

ghost use Rattle.std.specs.Prelude.{◌≡◌, ◌∷◌, ◌++◌, [], IfOk, IfSome, option_map, option_and_then, map};
ghost use Rattle.toml.specs.Data.{get_member};
ghost use Rattle.toml.specs.View.{table_view, view};
ghost use Rattle.mufom_plan.specs.Document.{text_at, items_at};
ghost use Rattle.mufom_plan.specs.PlanText.{known_text as known_name_of, new_name as fresh_name, new_names as fresh_names};
ghost use Rattle.mufom_plan.specs.PlanText.{optional_text as text_or_none};

use crate::NameList;
use crate::document::{items_of, text_of};
use mufom_numbers::{Bytes, List, NoMemory};
use std::alloc::Global;
use toml::{Table, Value};

/// The value at a key of a table.
pub fn value_at<'a>(table: &'a Table, key: &str) -> Option<&'a Value>
    ensures { option_map (λ value. view value.now) result ≡ get_member key.now (table_view table.now) }
{
    table.get(key)
}

/// Reads a name, and adds it to the names before it. Returns `None` if it is not a text, is empty, or is one
/// of those names.
pub fn new_name(
    alloc: Global,
    value: Option<&Value>,
    earlier: &mut NameList,
) -> Result<Option<Bytes>, NoMemory>
    ensures name { IfOk result (λ name. name ≡ option_and_then (fresh_name earlier.old) (text_at (option_map (λ v. view v.now) value.entry))) }
    ensures added { IfOk result (λ name. IfSome name (λ bytes. earlier.new ≡ earlier.old ++ bytes ∷ [])) }
{
    let Some(text) = text_of(value) else {
        return Ok(None);
    };
    let bytes = text.as_bytes();
    if bytes.is_empty() || !earlier.add(bytes)? {
        return Ok(None);
    }
    Ok(Some(Bytes::from_slice(alloc, bytes)?))
}

/// Reads the texts of an array, and adds them to the names of earlier lists. Returns `None` if an item is
/// not a text or occurs already.
fn texts(
    alloc: Global,
    values: &[Value],
    earlier: &mut NameList,
) -> Result<Option<List<Bytes>>, NoMemory>
    ensures names { IfOk result (λ names. names ≡ fresh_names earlier.old (map view values.now)) }
    ensures added { IfOk result (λ names. IfSome names (λ list. earlier.new ≡ earlier.old ++ list)) }
{
    let mut names = List::new(alloc);
    for value in values {
        let Some(text) = value.as_str() else {
            return Ok(None);
        };
        if !earlier.add(text.as_bytes())? {
            return Ok(None);
        }
        names.push(Bytes::from_slice(alloc, text.as_bytes())?)?;
    }
    Ok(Some(names))
}

/// Reads the names in an array, and adds them to those of earlier lists. Returns `None` if it is no array, or
/// if an item is not a text or occurs already.
pub fn new_names(
    alloc: Global,
    value: Option<&Value>,
    earlier: &mut NameList,
) -> Result<Option<List<Bytes>>, NoMemory>
    ensures names { IfOk result (λ names. names ≡ option_and_then (fresh_names earlier.old) (items_at (option_map (λ v. view v.now) value.entry))) }
    ensures added { IfOk result (λ names. IfSome names (λ list. earlier.new ≡ earlier.old ++ list)) }
{
    let Some(values) = items_of(value) else {
        return Ok(None);
    };
    texts(alloc, values, earlier)
}

/// Reads a text at a key that may be absent. Returns `None` if the value is not a text.
pub fn optional_text(
    alloc: Global,
    value: Option<&Value>,
) -> Result<Option<Option<Bytes>>, NoMemory>
    ensures { IfOk result (λ text. text ≡ text_or_none (option_map (λ v. view v.now) value.entry)) }
{
    let Some(value) = value else {
        return Ok(Some(None));
    };
    let Some(text) = value.as_str() else {
        return Ok(None);
    };
    Ok(Some(Some(Bytes::from_slice(alloc, text.as_bytes())?)))
}

/// Reads a text that is one of these names. Returns `None` if it is not.
pub fn known_text(
    alloc: Global,
    value: Option<&Value>,
    names: &NameList,
) -> Result<Option<Bytes>, NoMemory>
    ensures { IfOk result (λ text. text ≡ known_name_of names.now (option_map (λ v. view v.now) value.entry)) }
{
    let Some(text) = text_of(value) else {
        return Ok(None);
    };
    let bytes = text.as_bytes();
    if !names.contains(bytes) {
        return Ok(None);
    }
    Ok(Some(Bytes::from_slice(alloc, bytes)?))
}
