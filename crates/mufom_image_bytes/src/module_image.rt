//! The image of one module.

ghost use Rattle.std.specs.Prelude.{◌≡◌, ◌*◌, IfOk, IfErr};
ghost use Rattle.mufom_module.specs.Defects.{IsValid};
ghost use Rattle.mufom_image_bytes.specs.Counted.{value_with};
ghost use Rattle.mufom_image_bytes.specs.Modules.{IsImageOfModule, IsRefusalOfModule};

use crate::image::image_of;
use crate::layout::Layout;
use crate::stop::ImageStop;
use mufom_expr::Env;
use mufom_meaning::Run;
use mufom_module::Parts;
use mufom_numbers::List;
use std::alloc::Global;

/// Returns the image of a module whose sections are at these bases: the bytes that it loads, in maximal runs
/// of consecutive addresses, or the first error in the order of the loads.
///
/// `values` gives all variables but P their values. P is the program counter at which an expression is evaluated.
pub fn image_of_module<E: Env>(
    alloc: Global,
    parts: &Parts,
    bases: &[u64],
    values: &E,
) -> Result<List<Run>, ImageStop>
    requires { IsValid parts.now }
    ensures image { IfOk result (λ runs. IsImageOfModule parts.now bases.now (value_with (E.meaning values.now) (8 * parts.now.maus)) runs) }
    ensures refusal { IfErr result (λ refusal. IsRefusalOfModule parts.now bases.now (value_with (E.meaning values.now) (8 * parts.now.maus))
        refusal) }
{
    let layout = Layout {
        sections: parts.sections.as_slice(),
        bases,
        width: 8 * u32::from(parts.maus),
        order: parts.order,
    };
    image_of(alloc, &layout, values, parts.loads.as_slice())
}
