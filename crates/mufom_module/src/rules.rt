//! One function for each defect of the parts, except their weight.

ghost use Rattle.std.specs.Prelude.{◌≡◌, length, nat_le, Some, None, [], ◌∷◌};
ghost use Rattle.std.specs.List.{list_any};
ghost use Rattle.mufom_expr.specs.Mentions.{variables_in};
ghost use Rattle.mufom_module.specs.declared.module.Defect.{Defect};
ghost use Rattle.mufom_module.specs.Contents.{any_item, load_any, item_any, any_of, placed_from, current_after};
ghost use Rattle.mufom_module.specs.Defects.{is_long, is_long_literal, is_outside, names_outside, names_no_section, has_bad_place, has_bad_size};
ghost use Rattle.mufom_module.specs.Defects.{counts_of, count_for, is_other_counter, has_other_counter, counter_of, misplaces_counter, is_loading};
ghost use Rattle.mufom_module.specs.Defects.{loads_nowhere, has_defect};

use crate::current::current_after;
use crate::debug_rules::{any_breaks, any_ends_badly, uses_name_early};
use crate::module::{Defect, Parts};
use mufom_debug::is_within_depth;
use mufom_expr::{Letter, Postfix, Token};
use mufom_loads::{Item, Load};
use mufom_names::{Public, Reference};
use mufom_numbers::limits::{MOST_ALIGNMENT, MOST_STRING_BYTES};
use mufom_sections::Section;

/// The number of entries in each list of a module.
#[derive(Clone, Copy)]
pub(crate) struct Counts {
    pub(crate) sections: usize,
    pub(crate) publics: usize,
    pub(crate) references: usize,
}

/// A rule that a mark of the debug part may break.
#[derive(Clone, Copy)]
pub(crate) enum Rule {
    /// Its name must not be too long.
    Length,
    /// The positions that it names, except those of debug names, must be inside their lists.
    Position(Counts),
    /// Its expressions must not contain a program counter.
    Counter,
    /// The attribute of a note must be one that the profile includes.
    Attribute,
}

// The counts of the lists of these parts.
fn counts_of(parts: &Parts) -> Counts
    ensures { result ≡ counts_of parts.now }
{
    Counts {
        sections: parts.sections.len(),
        publics: parts.names.publics.len(),
        references: parts.names.references.len(),
    }
}

/// Whether there are too many bytes for a string or a literal.
pub(crate) fn is_long(bytes: &[u8]) -> bool
    ensures { result ≡ is_long bytes.now }
{
    bytes.len() > MOST_STRING_BYTES
}

// ---- positions

// Whether the position of the variable is outside its list.
fn is_outside(counts: Counts, letter: Letter, place: u32) -> bool
    ensures { result ≡ is_outside counts (letter, place) }
{
    let count = match letter {
        Letter::I => counts.publics,
        Letter::X => counts.references,
        Letter::L => counts.sections,
        Letter::P => counts.sections,
        Letter::R => counts.sections,
        Letter::S => counts.sections,
    };
    count <= place as usize
}

// Whether the token is a variable whose position is outside its list.
fn token_is_outside(counts: Counts, token: Token) -> bool
    ensures { result ≡ list_any (is_outside counts) (variables_in (token ∷ [])) }
{
    match token {
        Token::Var(letter, place) => is_outside(counts, letter, place),
        Token::Number(_) => false,
        Token::Fun(_) => false,
    }
}

// Whether a token is such a variable.
fn tokens_are_outside(counts: Counts, tokens: &[Token]) -> bool
    ensures { result ≡ list_any (λ t. list_any (is_outside counts) (variables_in (t ∷ []))) tokens.now }
{
    tokens.iter().any(|token| token_is_outside(counts, *token))
}

/// Whether a variable of the expression has a position outside its list.
pub(crate) fn names_outside(counts: Counts, value: &Postfix) -> bool
    ensures { result ≡ names_outside counts value.now }
{
    tokens_are_outside(counts, value.tokens())
}

// ---- program counters

// Whether the variable is the program counter of a section other than this one.
fn is_other_counter(allowed: Option<u32>, letter: Letter, place: u32) -> bool
    ensures { result ≡ is_other_counter allowed (letter, place) }
{
    match letter {
        Letter::P => allowed != Some(place),
        Letter::I => false,
        Letter::L => false,
        Letter::R => false,
        Letter::S => false,
        Letter::X => false,
    }
}

// Whether the token is the program counter of a section other than this one.
fn token_is_other_counter(allowed: Option<u32>, token: Token) -> bool
    ensures { result ≡ list_any (is_other_counter allowed) (variables_in (token ∷ [])) }
{
    match token {
        Token::Var(letter, place) => is_other_counter(allowed, letter, place),
        Token::Number(_) => false,
        Token::Fun(_) => false,
    }
}

// Whether a token is such a program counter.
fn tokens_are_other_counters(allowed: Option<u32>, tokens: &[Token]) -> bool
    ensures { result ≡ list_any (λ t. list_any (is_other_counter allowed) (variables_in (t ∷ []))) tokens.now }
{
    tokens
        .iter()
        .any(|token| token_is_other_counter(allowed, *token))
}

/// Whether the expression contains the program counter of a section other than this one.
pub(crate) fn has_other_counter(allowed: Option<u32>, value: &Postfix) -> bool
    ensures { result ≡ has_other_counter allowed value.now }
{
    tokens_are_other_counters(allowed, value.tokens())
}

// ---- one defect each

/// Whether more than 32 blocks are open at once.
pub(crate) fn is_too_deep(parts: &Parts) -> bool
    ensures { result ≡ has_defect parts.now Defect.Depth }
{
    !is_within_depth(parts.debug.as_slice(), 32)
}

// Whether the name of a section is too long.
fn section_names_are_long(sections: &[Section]) -> bool
    ensures { result ≡ list_any (λ s. is_long s.name) sections.now }
{
    sections.iter().any(|s| is_long(s.name.as_slice()))
}

// Whether the name of a public is too long.
fn public_names_are_long(publics: &[Public]) -> bool
    ensures { result ≡ list_any (λ p. is_long p.name) publics.now }
{
    publics.iter().any(|p| is_long(p.name.as_slice()))
}

// Whether the name of a reference is too long.
fn reference_names_are_long(references: &[Reference]) -> bool
    ensures { result ≡ list_any (λ r. is_long r.name) references.now }
{
    references.iter().any(|r| is_long(r.name.as_slice()))
}

/// Whether a string is too long.
pub(crate) fn has_long_string(parts: &Parts) -> bool
    ensures { result ≡ has_defect parts.now Defect.LongId }
{
    is_long(parts.processor.as_slice())
        || is_long(parts.name.as_slice())
        || section_names_are_long(parts.sections.as_slice())
        || public_names_are_long(parts.names.publics.as_slice())
        || reference_names_are_long(parts.names.references.as_slice())
        || any_breaks(Rule::Length, parts.debug.as_slice())
}

/// Whether the size of an address is not 1 to 8 addressable units.
pub(crate) fn has_bad_units(parts: &Parts) -> bool
    ensures { result ≡ has_defect parts.now Defect.BadMaus }
{
    parts.maus < 1 || parts.maus > 8
}

/// Whether an alignment is 0 or too large.
pub(crate) fn has_bad_alignment(parts: &Parts) -> bool
    ensures { result ≡ has_defect parts.now Defect.BadAlign }
{
    parts
        .sections
        .as_slice()
        .iter()
        .any(|s| s.align == 0 || s.align > MOST_ALIGNMENT)
}

/// Whether an absolute section (letters `A S`) has no base.
pub(crate) fn lacks_base(parts: &Parts) -> bool
    ensures { result ≡ has_defect parts.now Defect.MissingBase }
{
    parts
        .sections
        .as_slice()
        .iter()
        .any(|s| s.absolute && s.base.is_none())
}

// Whether a variable of the item has a position outside its list.
fn item_names_outside(counts: Counts, item: &Item) -> bool
    ensures { result ≡ item_any (names_outside counts) item.now }
{
    match item {
        Item::Literal(_) => false,
        Item::Field { value, .. } => names_outside(counts, value),
    }
}

// Whether a variable of one of the items has a position outside its list.
fn items_name_outside(counts: Counts, items: &[Item]) -> bool
    ensures { result ≡ list_any (item_any (names_outside counts)) items.now }
{
    items.iter().any(|item| item_names_outside(counts, item))
}

// Whether the section of the load, or a variable of its expressions, has a position outside its list.
fn has_bad_place(counts: Counts, load: &Load) -> bool
    ensures { result ≡ has_bad_place counts load.now }
{
    match load {
        Load::SetSection(section) => counts.sections <= *section as usize,
        Load::SetPc { section, value } => {
            counts.sections <= *section as usize || names_outside(counts, value)
        }
        Load::One(item) => item_names_outside(counts, item),
        Load::Repeat { items, .. } => items_name_outside(counts, items.as_slice()),
    }
}

// Whether one of the loads has a section or a variable with a position outside its list.
fn loads_have_bad_place(counts: Counts, loads: &[Load]) -> bool
    ensures { result ≡ list_any (has_bad_place counts) loads.now }
{
    loads.iter().any(|load| has_bad_place(counts, load))
}

// Whether a variable of the value of a public has a position outside its list.
fn publics_name_outside(counts: Counts, publics: &[Public]) -> bool
    ensures { result ≡ list_any (λ p. names_outside counts p.value) publics.now }
{
    publics.iter().any(|p| names_outside(counts, &p.value))
}

// Whether a variable of the start address has a position outside its list.
fn start_names_outside(counts: Counts, start: &Option<Postfix>) -> bool
    ensures { result ≡ any_of (names_outside counts) start.now }
{
    match start {
        Some(value) => names_outside(counts, value),
        None => false,
    }
}

/// Whether a variable, a load or a block has a position outside its list, or a debug name is used before
/// it is declared.
pub(crate) fn has_bad_position(parts: &Parts) -> bool
    ensures { result ≡ has_defect parts.now Defect.Position }
{
    let counts = counts_of(parts);
    let debug = parts.debug.as_slice();
    publics_name_outside(counts, parts.names.publics.as_slice())
        || loads_have_bad_place(counts, parts.loads.as_slice())
        || any_breaks(Rule::Position(counts), debug)
        || start_names_outside(counts, &parts.start)
        || uses_name_early(debug)
}

// Whether the item contains the program counter of a section other than this one.
fn item_has_other_counter(allowed: Option<u32>, item: &Item) -> bool
    ensures { result ≡ item_any (has_other_counter allowed) item.now }
{
    match item {
        Item::Literal(_) => false,
        Item::Field { value, .. } => has_other_counter(allowed, value),
    }
}

// Whether one of the items contains the program counter of a section other than this one.
fn items_have_other_counter(allowed: Option<u32>, items: &[Item]) -> bool
    ensures { result ≡ list_any (item_any (has_other_counter allowed)) items.now }
{
    items
        .iter()
        .any(|item| item_has_other_counter(allowed, item))
}

// Whether the load contains the program counter of a section other than the one that it loads into or
// whose counter it sets.
fn misplaces_counter(current: Option<u32>, load: &Load) -> bool
    ensures { result ≡ misplaces_counter (current, load.now) }
{
    match load {
        Load::SetSection(_) => false,
        Load::SetPc { section, value } => has_other_counter(Some(*section), value),
        Load::One(item) => item_has_other_counter(current, item),
        Load::Repeat { items, .. } => items_have_other_counter(current, items.as_slice()),
    }
}

// Whether one of the loads contains such a program counter.
fn loads_misplace_counter(loads: &[Load]) -> bool
    ensures { result ≡ list_any misplaces_counter (placed_from None loads.now) }
{
    let mut current = None;
    for load in loads {
        if misplaces_counter(current, load) {
            return true;
        }
        current = current_after(current, load);
    }
    false
}

// Whether the value of a public contains a program counter.
fn publics_have_counter(publics: &[Public]) -> bool
    ensures { result ≡ list_any (λ p. has_other_counter None p.value) publics.now }
{
    publics.iter().any(|p| has_other_counter(None, &p.value))
}

// Whether the start address contains a program counter.
fn start_has_counter(start: &Option<Postfix>) -> bool
    ensures { result ≡ any_of (has_other_counter None) start.now }
{
    match start {
        Some(value) => has_other_counter(None, value),
        None => false,
    }
}

/// Whether a public, the start address or a debug expression contains a program counter, or a load
/// contains one that it may not use.
pub(crate) fn has_misplaced_counter(parts: &Parts) -> bool
    ensures { result ≡ has_defect parts.now Defect.MisplacedP }
{
    publics_have_counter(parts.names.publics.as_slice())
        || start_has_counter(&parts.start)
        || any_breaks(Rule::Counter, parts.debug.as_slice())
        || loads_misplace_counter(parts.loads.as_slice())
}

// Whether the load is an item or a repeat, before any section is set.
fn load_is_nowhere(current: Option<u32>, load: &Load) -> bool
    ensures { result ≡ loads_nowhere (current, load.now) }
{
    match load {
        Load::SetSection(_) => false,
        Load::SetPc { .. } => false,
        Load::One(_) => current.is_none(),
        Load::Repeat { .. } => current.is_none(),
    }
}

/// Whether an item or a repeat is loaded before any section is set.
pub(crate) fn loads_nowhere(parts: &Parts) -> bool
    ensures { result ≡ has_defect parts.now Defect.NoSection }
{
    let mut current = None;
    for load in parts.loads.as_slice() {
        if load_is_nowhere(current, load) {
            return true;
        }
        current = current_after(current, load);
    }
    false
}

// Whether the item is a literal that is too long.
fn is_long_literal(item: &Item) -> bool
    ensures { result ≡ is_long_literal item.now }
{
    match item {
        Item::Literal(bytes) => is_long(bytes.as_slice()),
        Item::Field { .. } => false,
    }
}

// Whether one of the items is a literal that is too long.
fn items_have_long_literal(items: &[Item]) -> bool
    ensures { result ≡ list_any is_long_literal items.now }
{
    items.iter().any(|item| is_long_literal(item))
}

// Whether an item of the load is a literal that is too long.
fn load_has_long_literal(load: &Load) -> bool
    ensures { result ≡ any_item is_long_literal load.now }
{
    match load {
        Load::SetSection(_) => false,
        Load::SetPc { .. } => false,
        Load::One(item) => is_long_literal(item),
        Load::Repeat { items, .. } => items_have_long_literal(items.as_slice()),
    }
}

/// Whether a literal is too long.
pub(crate) fn has_long_literal(parts: &Parts) -> bool
    ensures { result ≡ has_defect parts.now Defect.LongRun }
{
    parts
        .loads
        .as_slice()
        .iter()
        .any(|load| load_has_long_literal(load))
}

// Whether the item is a field whose size is not 1 to 8 bytes.
fn item_has_bad_size(item: &Item) -> bool
    ensures { result ≡ has_bad_size item.now }
{
    match item {
        Item::Literal(_) => false,
        Item::Field { size, .. } => *size == 0 || *size > 8,
    }
}

// Whether one of the items is a field whose size is not 1 to 8 bytes.
fn items_have_bad_size(items: &[Item]) -> bool
    ensures { result ≡ list_any has_bad_size items.now }
{
    items.iter().any(|item| item_has_bad_size(item))
}

// Whether an item of the load is a field whose size is not 1 to 8 bytes.
fn load_has_bad_size(load: &Load) -> bool
    ensures { result ≡ any_item has_bad_size load.now }
{
    match load {
        Load::SetSection(_) => false,
        Load::SetPc { .. } => false,
        Load::One(item) => item_has_bad_size(item),
        Load::Repeat { items, .. } => items_have_bad_size(items.as_slice()),
    }
}

/// Whether the size of a field is not 1 to 8 bytes.
pub(crate) fn has_bad_size(parts: &Parts) -> bool
    ensures { result ≡ has_defect parts.now Defect.FieldSize }
{
    parts
        .loads
        .as_slice()
        .iter()
        .any(|load| load_has_bad_size(load))
}

/// Whether the attribute of a debug note is unknown.
pub(crate) fn has_unknown_attribute(parts: &Parts) -> bool
    ensures { result ≡ has_defect parts.now Defect.Attribute }
{
    any_breaks(Rule::Attribute, parts.debug.as_slice())
}

/// Whether a module block or a source block has an expression at its end.
pub(crate) fn has_bad_end(parts: &Parts) -> bool
    ensures { result ≡ has_defect parts.now Defect.Nesting }
{
    any_ends_badly(parts.debug.as_slice())
}
