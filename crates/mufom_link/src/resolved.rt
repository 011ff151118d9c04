//! What the references of a list of modules resolve to in its link.

ghost use Rattle.std.specs.Prelude.{◌≡◌, ◌<◌, ◌≤◌, ◌^◌, None, length, IfOk, IfErr};
ghost use Rattle.mufom_names.specs.Index.{numbered_from};
ghost use Rattle.mufom_meaning.specs.Flat.{flat_starts, public_names};
ghost use Rattle.mufom_meaning.specs.LinkAnswer.{link_answer};
ghost use Rattle.mufom_meaning.specs.StagingLaws.{total_weight};
ghost use Rattle.mufom_link.specs.Refusals.{IsRefusalOf};
ghost use Rattle.mufom_link.specs.References.{AreResolved};

use crate::facts::{first_mismatch, index_publics, start_count};
use crate::references::{References, reference_count};
use mufom_expr::Letter;
use mufom_module::Module;
use mufom_names::{NameIndex, Reference};
use mufom_numbers::{List, NoMemory};
use mufom_refusals::LinkRefusal;
use std::alloc::Global;

/// The references of a list of modules in its link.
#[derive(Drop)]
pub(crate) struct Resolved {
    /// The variables that replace them, module by module.
    pub targets: List<(Letter, u32)>,
    /// The references that the link keeps.
    pub kept: List<Reference>,
}

// Resolves the references of the modules, given an index of all their publics.
fn resolved_by(
    alloc: Global,
    list: &[Module],
    publics: &NameIndex<'_>,
) -> Result<Resolved, NoMemory>
    requires publics { publics.now ≡ numbered_from 0 (public_names list.now) }
    requires light { total_weight list.now < 2 ^ 32 }
    ensures { IfOk result (λ all. AreResolved list.now all.targets all.kept) }
{
    let mut references = References::new(alloc);
    let mut targets = List::with_capacity(alloc, reference_count(list))?;
    for module in list {
        let own = module.parts().names.references.as_slice();
        references.resolve(alloc, list, publics, own, &mut targets)?;
    }
    Ok(Resolved {
        targets,
        kept: references.into_kept(),
    })
}

/// Resolves the references of the modules, or returns the first reason why the modules cannot be linked.
pub(crate) fn resolve(alloc: Global, list: &[Module]) -> Result<Resolved, LinkRefusal>
    requires { total_weight list.now < 2 ^ 32 }
    ensures resolved { IfOk result (λ all. AreResolved list.now all.targets all.kept) }
    ensures linkable { IfOk result (λ _. link_answer list.now ≡ None) }
    ensures starts { IfOk result (λ _. length (flat_starts list.now) ≤ 1) }
    ensures refused { IfErr result (λ e. IsRefusalOf list.now e) }
{
    if let Some((first, other)) = first_mismatch(list) {
        return Err(LinkRefusal::Mismatch(first, other));
    }
    let publics = index_publics(alloc, list)?;
    if start_count(list) > 1 {
        return Err(LinkRefusal::DuplicateStart);
    }
    Ok(resolved_by(alloc, list, &publics)?)
}
