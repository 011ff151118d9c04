//! The start of a location.

ghost use Rattle.std.specs.Prelude.{◌≡◌, [], ◌∷◌, Some, None, option_map, if◌then◌else◌};
ghost use Rattle.mufom_place.specs.Facts.{first_some};
ghost use Rattle.mufom_meaning.specs.declared.located.Site.TheVariants as sites;
ghost use Rattle.mufom_meaning.specs.Facts.{zero_divisor};
ghost use Rattle.mufom_meaning.specs.Walk.{start_fact, start_trees};
ghost use Rattle.mufom_image_values.specs.Evaluated.{setting_of};
ghost use Rattle.mufom_image_entries.specs.Valued.{IsValued, parts_of, value_of};

use crate::valued::ValuedModule;

/// Whether the start divides by 0. A module without a start does not.
pub fn divides_at_start(valued: &ValuedModule<'_>) -> bool
    requires { IsValued valued.now }
    ensures { first_some (start_fact (setting_of valued.now.placed.now)) (start_trees (parts_of valued.now ∷ []))
        ≡ (if result then Some (zero_divisor sites.Start) else None) }
{
    match &valued.parts().start {
        Some(start) => valued.placed.divides_by_zero(valued.values, None, start),
        None => false,
    }
}

/// Returns the value of the start, if the module has one. It is 0 if the expression has no value.
pub fn located_start(valued: &ValuedModule<'_>) -> Option<u64>
    requires { IsValued valued.now }
    ensures { result ≡ option_map (value_of valued.now) (parts_of valued.now).start }
{
    match &valued.parts().start {
        Some(start) => Some(valued.value(start)),
        None => None,
    }
}
