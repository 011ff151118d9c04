//! Laws about places and the files of modules, each the contract of a function that does nothing.

ghost use Rattle.std.specs.Prelude.{◌≡◌, ◌++◌, ℕ, Bool, List, Some, drop, length, map, option_map, position, slice_get, take};
ghost use Rattle.std.specs.Option.{option_and_then};
ghost use Rattle.mufom_module.specs.declared.module.Parts.{Parts};
ghost use Rattle.mufom_meaning.specs.Flat.{flat_publics, flat_references, flat_sections, flat_starts};
ghost use Rattle.mufom_meaning.specs.Selection.{members_at};
ghost use Rattle.mufom_origins.specs.declared.origins.Origin.{Origin};
ghost use Rattle.mufom_origins.specs.Origins.{FileModule, entry_of, modules_of, numbered, origins_left, origins_of, start_of};
ghost use Rattle.mufom_origins.specs.Places.{place_in, set_from, with_chosen};

/// A section of the flat list is the entry at its place: the module of the place has it at the position of
/// the place. A number without a section has no place.
pub fn sections_come_from_modules()
    ensures { (files : List FileModule) (number : ℕ) → slice_get (flat_sections (modules_of files)) number
        ≡ option_and_then (entry_of (λ m. m.sections) files) (place_in (map (λ o. o.sections) (origins_of files)) number) }
{}

/// The same for publics.
pub fn publics_come_from_modules()
    ensures { (files : List FileModule) (number : ℕ) → option_map (λ q. q.entry) (slice_get (flat_publics (modules_of files)) number)
        ≡ option_and_then (entry_of (λ m. m.names.publics) files) (place_in (map (λ o. o.publics) (origins_of files)) number) }
{}

/// The same for references.
pub fn references_come_from_modules()
    ensures { (files : List FileModule) (number : ℕ) → slice_get (flat_references (modules_of files)) number
        ≡ option_and_then (entry_of (λ m. m.names.references) files) (place_in (map (λ o. o.references) (origins_of files)) number) }
{}

/// The first start of the flat list is that of the first module with a start.
pub fn the_start_comes_from_a_module()
    ensures { (files : List FileModule) → slice_get (flat_starts (modules_of files)) 0
        ≡ option_and_then (start_of files) (position (λ o. o.has_start) (origins_of files)) }
{}

/// Origins are selected as modules are: if the first modules and the selected members are taken, their
/// origins are those of the flat list, and each keeps the place of its file.
pub fn selected_origins_are_those_of_the_flat_list()
    ensures origins { (ms : List Parts) (roots : ℕ) (chosen : List ℕ) →
        origins_of (with_chosen roots chosen (numbered ms)) ≡ with_chosen roots chosen (origins_of (numbered ms)) }
    ensures modules { (ms : List Parts) (roots : ℕ) (chosen : List ℕ) →
        modules_of (with_chosen roots chosen (numbered ms)) ≡ take roots ms ++ members_at (drop roots ms) chosen }
    ensures file { (ms : List Parts) (number : ℕ) → slice_get (numbered ms) number ≡ option_map (λ m. (number, m)) (slice_get ms number) }
{}

/// A section or a public that is left of a link comes from the same module as before. Entry `number` among
/// those that are left is entry `old` among all.
pub fn entries_left_keep_their_modules()
    ensures sections { (origins : List Origin) (sections publics : List Bool) (number old : ℕ) → slice_get (set_from 0 sections) number ≡ Some old
        → option_map (λ p. p.«module») (place_in (map (λ o. o.sections) (origins_left sections publics origins)) number)
        ≡ option_map (λ p. p.«module») (place_in (map (λ o. o.sections) origins) old) }
    ensures publics { (origins : List Origin) (sections publics : List Bool) (number old : ℕ) → slice_get (set_from 0 publics) number ≡ Some old
        → option_map (λ p. p.«module») (place_in (map (λ o. o.publics) (origins_left sections publics origins)) number)
        ≡ option_map (λ p. p.«module») (place_in (map (λ o. o.publics) origins) old) }
{}
