//! Links the generated modules in pairs, and the pairs into one module.

ghost use Rattle.std.specs.Prelude.{◌≡◌, ◌-◌, ◌*◌, ◌<◌, ◌≤◌, ◌^◌, [], length, None, IfOk};
ghost use Rattle.mufom_module.specs.Defects.{IsValid};
ghost use Rattle.mufom_module.specs.Written.{weight};
ghost use Rattle.mufom_meaning.specs.Joined.{IsJoined};
ghost use Rattle.mufom_meaning.specs.LinkAnswer.{link_answer};
ghost use Rattle.mufom_meaning.specs.Staging.{IsStaged, NameStays};
ghost use Rattle.mufom_meaning.specs.StagingLaws.{total_weight};
ghost use Rattle.mufom_numbers.specs.declared.limits.TheConstants.{MOST_MODULES};
ghost use Rattle.mufom_make.specs.Generated.{made_modules, modules_from};
ghost use Rattle.mufom_make.specs.Links.{IsLinkOf, most_weight};

use crate::generated::module_at;
use mufom_link::{LinkRefusal, link_owned};
use mufom_module::Module;
use mufom_numbers::{Bytes, NoMemory};
use std::alloc::Global;

// The name of a module.
fn name_of(module: &Module) -> &[u8]
    ensures name { result.now ≡ «module».now.name }
    ensures valid { IsValid «module».now }
{
    module.parts().name.as_slice()
}

// The modules with the numbers from `first` up to, but not including, `end`, out of `count`.
fn modules_between(alloc: Global, count: u32, first: u32, end: u32) -> Result<Vec<Module>, NoMemory>
    requires order { first ≤ end }
    requires few { end ≤ MOST_MODULES }
    ensures { IfOk result (λ modules. modules.items ≡ modules_from count (end - first) first) }
{
    let mut modules = Vec::with_capacity(alloc, (end - first) as usize)?;
    for number in first..end {
        modules.push(module_at(alloc, count, number)?)?;
    }
    Ok(modules)
}

// The link of modules that can be linked, under the name of the first.
fn linked(alloc: Global, list: Vec<Module>) -> Result<Module, NoMemory>
    requires some { 0 < length list.items }
    requires light { total_weight list.items ≤ 2 ^ 31 }
    requires linkable { link_answer list.items ≡ None }
    ensures joined { IfOk result (λ M. IsJoined M list.items M.name) }
    ensures named { IfOk result (λ M. NameStays [] M list.items) }
    ensures light { IfOk result (λ M. weight M ≤ total_weight list.items) }
{
    let name = Bytes::from_slice(alloc, name_of(&list[0]))?;
    match link_owned(alloc, list, name.as_slice()) {
        Ok(link) => Ok(link),
        Err(LinkRefusal::NoMemory) => Err(NoMemory),
        Err(_) => unreachable!(),
    }
}

// The link of the modules from `first` up to, but not including, `end`. The modules are dropped.
fn linked_between(alloc: Global, count: u32, first: u32, end: u32) -> Result<Module, NoMemory>
    requires some { first < end }
    requires few { end ≤ MOST_MODULES }
    ensures { IfOk result (λ M. IsLinkOf M (modules_from count (end - first) first)) }
{
    let modules = modules_between(alloc, count, first, end)?;
    linked(alloc, modules)
}

// The link of each pair of modules, and of a last module alone if their number is odd.
fn linked_pairs(alloc: Global, count: u32) -> Result<Vec<Module>, NoMemory>
    requires some { 1 ≤ count }
    requires few { count ≤ MOST_MODULES }
    ensures some { IfOk result (λ linked. 0 < length linked.items) }
    ensures staged { IfOk result (λ linked. IsStaged linked.items (made_modules count)) }
    ensures light { IfOk result (λ linked. total_weight linked.items ≤ most_weight * count) }
{
    let mut pairs = Vec::with_capacity(alloc, count.div_ceil(2) as usize)?;
    let mut first = 0;
    while first < count {
        let end = count.min(first + 2);
        pairs.push(linked_between(alloc, count, first, end)?)?;
        first = end;
    }
    Ok(pairs)
}

/// Links `count` generated modules into one: first in pairs, then the links of the pairs.
pub(crate) fn linked_modules(alloc: Global, count: u32) -> Result<Module, NoMemory>
    requires some { 1 ≤ count }
    requires few { count ≤ MOST_MODULES }
    ensures { IfOk result (λ M. IsLinkOf M (made_modules count)) }
{
    let pairs = linked_pairs(alloc, count)?;
    linked(alloc, pairs)
}
