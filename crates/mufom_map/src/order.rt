//! The order in which a map shows sections and publics.

ghost use Rattle.std.specs.Prelude.{◌≡◌, ◌<◌, ◌^◌, ℕ, IfOk, length, map};
ghost use Rattle.std.specs.List.{enumerate_from};
ghost use Rattle.mufom_map.specs.MapText.{by_key};
ghost use Rattle.mufom_map.specs.Keys.{ArePositions, key_of, public_key, section_key};

use crate::room::base_of;
use mufom_meaning::PublicValue;
use mufom_numbers::NoMemory;
use mufom_sections::Section;
use std::alloc::Global;

// Sorts keys whose positions are increasing. Keys with the same number stay in their order.
fn in_order(mut keys: Vec<(u64, u32)>) -> Result<Vec<(u64, u32)>, NoMemory>
    requires { ArePositions 0 keys.items }
    ensures { IfOk result (λ sorted. sorted.items ≡ by_key key_of keys.items) }
{
    keys.sort()?;
    Ok(keys)
}

// The bases of sections with their numbers.
fn section_keys(alloc: Global, sections: &[Section]) -> Result<Vec<(u64, u32)>, NoMemory>
    requires { length sections.now < 2 ^ 32 }
    ensures { IfOk result (λ keys. keys.items ≡ map section_key (enumerate_from 0 sections.now)) }
{
    let mut keys = Vec::with_capacity(alloc, sections.len())?;
    for (number, section) in sections.iter().enumerate() {
        keys.push((base_of(section), number as u32))?;
    }
    Ok(keys)
}

// The values of publics with their positions.
fn public_keys(alloc: Global, publics: &[PublicValue]) -> Result<Vec<(u64, u32)>, NoMemory>
    requires { length publics.now < 2 ^ 32 }
    ensures { IfOk result (λ keys. keys.items ≡ map public_key (enumerate_from 0 publics.now)) }
{
    let mut keys = Vec::with_capacity(alloc, publics.len())?;
    for (position, public) in publics.iter().enumerate() {
        keys.push((public.value, position as u32))?;
    }
    Ok(keys)
}

/// Returns the bases and numbers of sections, sorted by base and then by number.
pub(crate) fn sections_in_order(
    alloc: Global,
    sections: &[Section],
) -> Result<Vec<(u64, u32)>, NoMemory>
    requires { length sections.now < 2 ^ 32 }
    ensures { IfOk result (λ keys. keys.items ≡ by_key key_of (map section_key (enumerate_from 0 sections.now))) }
{
    in_order(section_keys(alloc, sections)?)
}

/// Returns the values and positions of publics, sorted by value and then by position.
pub(crate) fn publics_in_order(
    alloc: Global,
    publics: &[PublicValue],
) -> Result<Vec<(u64, u32)>, NoMemory>
    requires { length publics.now < 2 ^ 32 }
    ensures { IfOk result (λ keys. keys.items ≡ by_key key_of (map public_key (enumerate_from 0 publics.now))) }
{
    in_order(public_keys(alloc, publics)?)
}
