//! The undefined names of a module.

ghost use Rattle.std.specs.Prelude.{◌≡◌, ◌&&◌, ◌∷◌, [], IfOk};
ghost use Rattle.mufom_meaning.specs.Flat.{is_strong};
ghost use Rattle.mufom_image_values.specs.Resolutions.{is_nothing};
ghost use Rattle.mufom_image_values.specs.Resolutions.{resolutions_of};
ghost use Rattle.mufom_explain.specs.Details.{undefined_names};
ghost use Rattle.mufom_explain.specs.Flat.{wanted_names};

use crate::naming::add_name;
use crate::wanted::Wanted;
use mufom_image_values::{Resolution, resolve_references};
use mufom_module::Module;
use mufom_names::{HashSeed, NameIndex, Reference};
use mufom_numbers::NoMemory;
use std::alloc::Global;

// Whether a reference is strong, and neither a public nor a common has its name.
fn is_undefined(resolution: Resolution, reference: &Reference) -> bool
    ensures { result ≡ (is_nothing resolution && is_strong reference.now) }
{
    match resolution {
        Resolution::Nothing => reference.weak.is_none(),
        _ => false,
    }
}

// The names of the undefined references, each once.
fn names_of_undefined<'a>(
    alloc: Global,
    module: &'a Module,
    resolutions: &[Resolution],
) -> Result<Wanted<'a>, NoMemory>
    requires { resolutions.now ≡ resolutions_of «module».now }
    ensures { IfOk result (λ wanted. wanted_names wanted ≡ undefined_names («module».now ∷ [])) }
{
    let references = module.parts().names.references.as_slice();
    let mut seed = HashSeed::new();
    seed.add_references(references);
    let mut names = Vec::new(alloc);
    let mut index = NameIndex::new(alloc, seed);
    for place in 0..references.len() {
        let reference = &references[place];
        if is_undefined(resolutions[place], reference) {
            add_name(&mut names, &mut index, reference.name.as_slice())?;
        }
    }
    Ok(Wanted { names, index })
}

/// Returns the names of strong references that neither a public nor a common has, each once, in the order of
/// the references.
pub(crate) fn undefined_names<'a>(alloc: Global, module: &'a Module) -> Result<Wanted<'a>, NoMemory>
    ensures { IfOk result (λ wanted. wanted_names wanted ≡ undefined_names («module».now ∷ [])) }
{
    let resolutions = resolve_references(alloc, module)?;
    names_of_undefined(alloc, module, resolutions.as_slice())
}
