//! What each reference of a module resolves to.

ghost use Rattle.std.specs.Prelude.{◌≡◌, ◌&&◌, [], ◌∷◌, map, option_map, slice_get, IfOk};
ghost use Rattle.mufom_names.specs.Index.{position_of};
ghost use Rattle.mufom_meaning.specs.Flat.{common_names, is_strong};
ghost use Rattle.mufom_meaning.specs.LocateAnswer.{first_undefined};
ghost use Rattle.mufom_image_values.specs.Resolutions.{resolution_without, resolution_by, resolutions_of, is_nothing, is_first_common};

use crate::names::{index_of_commons, index_of_publics};
use mufom_module::Module;
use mufom_names::{NameIndex, Reference, Weak};
use mufom_numbers::{List, NoMemory};
use std::alloc::Global;

/// What a reference resolves to.
#[derive(Clone, Copy, Debug, PartialEq, Eq)]
pub enum Resolution {
    /// The public at this position, the first of its name.
    Public(u32),
    /// The common at this position. Commons are numbered by name, each once, in the order in which references
    /// first request them.
    Common(u32),
    /// The default of a weak reference of size 0.
    Default(u64),
    /// Nothing: the reference is strong, and neither a public nor a common has its name.
    Nothing,
}

// What a reference resolves to if neither a public nor a common has its name.
fn unresolved(weak: Option<Weak>) -> Resolution
    ensures { result ≡ resolution_without weak }
{
    match weak {
        Some(weak) if weak.size == 0 => Resolution::Default(weak.default),
        _ => Resolution::Nothing,
    }
}

fn resolution_of(
    publics: &NameIndex<'_>,
    commons: &NameIndex<'_>,
    reference: &Reference,
) -> Resolution
    ensures { result ≡ resolution_by (position_of publics.now reference.now.name) (position_of commons.now reference.now.name) reference.now.weak }
{
    let name = reference.name.as_slice();
    if let Some(position) = publics.find(name) {
        return Resolution::Public(position);
    }
    match commons.find(name) {
        Some(position) => Resolution::Common(position),
        None => unresolved(reference.weak),
    }
}

// What references resolve to, given the indexes of the names of publics and of commons.
fn resolved(
    alloc: Global,
    publics: &NameIndex<'_>,
    commons: &NameIndex<'_>,
    references: &[Reference],
) -> Result<List<Resolution>, NoMemory>
    ensures { IfOk result (λ all. all
        ≡ map (λ r. resolution_by (position_of publics.now r.name) (position_of commons.now r.name) r.weak) references.now) }
{
    let mut all = List::new(alloc);
    for reference in references {
        all.push(resolution_of(publics, commons, reference))?;
    }
    Ok(all)
}

/// Returns what each reference of a module resolves to, in order. If there are no references, no names are
/// read.
pub fn resolve_references(alloc: Global, module: &Module) -> Result<List<Resolution>, NoMemory>
    ensures { IfOk result (λ resolutions. resolutions ≡ resolutions_of «module».now) }
{
    let names = &module.parts().names;
    let references = names.references.as_slice();
    if references.is_empty() {
        return Ok(List::new(alloc));
    }
    let publics = index_of_publics(alloc, names.publics.as_slice())?;
    let commons = index_of_commons(alloc, &publics, references)?;
    let resolutions = resolved(alloc, &publics, &commons, references)?;
    Ok(resolutions)
}

fn is_undefined(resolution: Resolution, reference: &Reference) -> bool
    ensures { result ≡ (is_nothing resolution && is_strong reference.now) }
{
    match resolution {
        Resolution::Nothing => reference.weak.is_none(),
        _ => false,
    }
}

fn is_first_common(resolution: Resolution) -> bool
    ensures { result ≡ is_first_common resolution }
{
    match resolution {
        Resolution::Common(position) => position == 0,
        _ => false,
    }
}

/// The first strong reference whose name neither a public nor a common has; the contract fixes only its name.
pub fn first_undefined<'a>(module: &'a Module, resolutions: &[Resolution]) -> Option<&'a Reference>
    requires { resolutions.now ≡ resolutions_of «module».now }
    ensures { option_map (λ reference. reference.now.name) result ≡ first_undefined («module».now ∷ []) }
{
    let references = module.parts().names.references.as_slice();
    for place in 0..references.len() {
        let reference = &references[place];
        if is_undefined(resolutions[place], reference) {
            return Some(reference);
        }
    }
    None
}

/// Returns the first reference that requests a common. Its name is that of the first common.
pub fn first_common<'a>(module: &'a Module, resolutions: &[Resolution]) -> Option<&'a Reference>
    requires { resolutions.now ≡ resolutions_of «module».now }
    ensures { option_map (λ reference. reference.now.name) result ≡ slice_get (common_names («module».now ∷ [])) 0 }
{
    let references = module.parts().names.references.as_slice();
    for place in 0..references.len() {
        let reference = &references[place];
        if is_first_common(resolutions[place]) {
            return Some(reference);
        }
    }
    None
}
