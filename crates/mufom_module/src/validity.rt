//! Making a module from parts, or reporting their first defect.

ghost use Rattle.std.specs.Prelude.{◌≡◌, IfOk, IfErr, Some};
ghost use Rattle.std.specs.List.{find};
ghost use Rattle.mufom_module.specs.Defects.{has_defect, first_defect, IsValid};
ghost use Rattle.mufom_module.specs.Made.{IsMade};

use crate::module::{Defect, Module, Parts};
use crate::rules::{
    has_bad_alignment, has_bad_end, has_bad_position, has_bad_size, has_bad_units,
    has_long_literal, has_long_string, has_misplaced_counter, has_unknown_attribute, is_too_deep,
    lacks_base, loads_nowhere,
};
use crate::weight::is_too_heavy;

// The defects in the order in which they are checked.
const DEFECTS: [Defect; 13] = [
    Defect::Depth,
    Defect::LongId,
    Defect::BadMaus,
    Defect::BadAlign,
    Defect::MissingBase,
    Defect::Position,
    Defect::MisplacedP,
    Defect::NoSection,
    Defect::LongRun,
    Defect::FieldSize,
    Defect::Attribute,
    Defect::Nesting,
    Defect::Weight,
];

// Whether the parts have this defect.
fn has_defect(parts: &Parts, defect: Defect) -> bool
    ensures { result ≡ has_defect parts.now defect }
{
    match defect {
        Defect::Depth => is_too_deep(parts),
        Defect::LongId => has_long_string(parts),
        Defect::BadMaus => has_bad_units(parts),
        Defect::BadAlign => has_bad_alignment(parts),
        Defect::MissingBase => lacks_base(parts),
        Defect::Position => has_bad_position(parts),
        Defect::MisplacedP => has_misplaced_counter(parts),
        Defect::NoSection => loads_nowhere(parts),
        Defect::LongRun => has_long_literal(parts),
        Defect::FieldSize => has_bad_size(parts),
        Defect::Attribute => has_unknown_attribute(parts),
        Defect::Nesting => has_bad_end(parts),
        Defect::Weight => is_too_heavy(parts),
    }
}

// The first of these defects that the parts have.
fn first_of(parts: &Parts, defects: &[Defect]) -> Option<Defect>
    ensures { result ≡ find (has_defect parts.now) defects.now }
{
    defects
        .iter()
        .copied()
        .find(|defect| has_defect(parts, *defect))
}

// The first defect of the parts.
fn first_defect(parts: &Parts) -> Option<Defect>
    ensures { result ≡ first_defect parts.now }
{
    first_of(parts, &DEFECTS)
}

/// Makes a module of these parts, or returns them with their first defect, in the order of [`Defect`].
///
/// Does not allocate. The time grows with the size of the parts.
pub fn assemble(parts: Parts) -> Result<Module, (Parts, Defect)>
    ensures same { IfOk result (λ m. m ≡ parts) }
    ensures valid { IfOk result (λ m. IsValid m) }
    ensures made { IfOk result (λ m. IsMade m) }
    ensures back { IfErr result (λ e. e.0 ≡ parts) }
    ensures first { IfErr result (λ e. first_defect parts ≡ Some e.1) }
{
    match first_defect(&parts) {
        None => Ok(Module::sound(parts)),
        Some(defect) => Err((parts, defect)),
    }
}
