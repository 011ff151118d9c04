//! The debug items of a location.

ghost use Rattle.std.specs.Prelude.{◌≡◌, ◌<◌, ◌^◌, [], ◌∷◌, map, length, option_map, IfOk};
ghost use Rattle.std.specs.List.{enumerate_from};
ghost use Rattle.mufom_debug.specs.Marks.{marks_of};
ghost use Rattle.mufom_place.specs.Facts.{first_some};
ghost use Rattle.mufom_meaning.specs.declared.located.Site.TheVariants as sites;
ghost use Rattle.mufom_meaning.specs.Facts.{zero_divisor};
ghost use Rattle.mufom_meaning.specs.Walk.{debug_fact, debug_trees};
ghost use Rattle.mufom_image_values.specs.Evaluated.{setting_of};
ghost use Rattle.mufom_image_entries.specs.Valued.{IsValued, parts_of, value_of, divides, valued_mark, IsFirstDivision};

use crate::valued::{Numbers, ValuedModule};
use mufom_copies::map_debug_items;
use mufom_debug::{Addresses, DebugItem, addresses};
use mufom_numbers::{List, NoMemory};
use std::alloc::Global;

// The number of the first of the expressions that divides by 0.
fn first_division(valued: &ValuedModule<'_>, mut rest: Addresses<'_>) -> Option<u32>
    requires valued { IsValued valued.now }
    requires few { length rest < 2 ^ 32 }
    ensures { IsFirstDivision (divides valued.now) rest.entry result }
{
    let mut count: u32 = 0;
    while let Some(expression) = rest.next() {
        if valued
            .placed
            .divides_by_zero(valued.values, None, expression)
        {
            return Some(count);
        }
        count += 1;
    }
    None
}

/// Returns the number of the first debug expression that divides by 0, counted from 0 in the order of the
/// file.
pub fn first_debug_division(
    alloc: Global,
    valued: &ValuedModule<'_>,
) -> Result<Option<u32>, NoMemory>
    requires { IsValued valued.now }
    ensures { IfOk result (λ first.
        first_some (debug_fact (setting_of valued.now.placed.now)) (enumerate_from 0 (debug_trees (parts_of valued.now ∷ [])))
        ≡ option_map (λ n. zero_divisor (sites.Debug n)) first) }
{
    let all = addresses(alloc, valued.parts().debug.as_slice())?;
    Ok(first_division(valued, all))
}

/// Returns the debug items with each expression replaced by its value, or by 0 if it has none.
pub fn located_debug(alloc: Global, valued: &ValuedModule<'_>) -> Result<List<DebugItem>, NoMemory>
    requires { IsValued valued.now }
    ensures { IfOk result (λ items. marks_of items ≡ map (valued_mark (value_of valued.now)) (marks_of (parts_of valued.now).debug)) }
{
    let numbers = Numbers { valued: *valued };
    map_debug_items(alloc, &numbers, valued.parts().debug.as_slice())
}
