//! The symbols of a plan, as a module that is linked with another one.

ghost use Rattle.std.specs.Prelude.{◌≡◌, ◌∷◌, [], ◌<◌, IfOk, IfErr, Option, List, ℕ, find, length, option_map};
ghost use Rattle.mufom_names.specs.Names.{names_of, AreDistinct};
ghost use Rattle.mufom_module.specs.Defects.{IsValid};
ghost use Rattle.mufom_module.specs.Written.{weight};
ghost use Rattle.mufom_plan.specs.declared.plan.PlanSymbol.{PlanSymbol};
ghost use Rattle.mufom_plan.specs.Names.{AreDistinctNames, has_name, symbol_names};
ghost use Rattle.mufom_plan.specs.Symbols.{HaveShortNames};
ghost use Rattle.mufom_meaning.specs.Flat.{public_names};
ghost use Rattle.mufom_planned.specs.Planned.{shared_name};
ghost use Rattle.mufom_planned.specs.PlanSymbols.{symbols_module};
ghost use Rattle.mufom_locating.specs.Light.{weight_limit};
ghost use Rattle.mufom_locating.specs.Linked.{HaveNumbers, IsSharedName, IsLinkWith, named_public, named_publics, symbols_behind};
ghost use Rattle.mufom_locating.specs.Numbered.{AreValues};
ghost use Rattle.mufom_locating.specs.Refusals.{IsMetBy};

use mufom_copies::{copy_bytes, copy_module};
use mufom_expr::Postfix;
use mufom_image::LocateRefusal;
use mufom_link::{LinkRefusal, link_owned};
use mufom_meaning::joined_is_valid;
use mufom_module::{Module, Parts};
use mufom_names::Public;
use mufom_numbers::{List, NoMemory};
use mufom_plan::PlanSymbol;
use mufom_refusals::PlannedRefusal;
use std::alloc::Global;

// A symbol as a public without notes.
fn symbol_public(alloc: Global, symbol: &PlanSymbol, value: u64) -> Result<Public, NoMemory>
    ensures { IfOk result (λ public. public ≡ named_public symbol.now value) }
{
    Ok(Public {
        name: copy_bytes(alloc, &symbol.name)?,
        value: Postfix::constant(alloc, value)?,
        notes: List::new(alloc),
    })
}

// The symbols with these values, as publics.
fn symbol_publics(
    alloc: Global,
    symbols: &[PlanSymbol],
    values: &[u64],
) -> Result<List<Public>, NoMemory>
    requires { length values.now ≡ length symbols.now }
    ensures { IfOk result (λ publics. publics ≡ named_publics symbols.now values.now) }
{
    let mut publics = List::new(alloc);
    for place in 0..symbols.len() {
        publics.push(symbol_public(alloc, &symbols[place], values[place])?)?;
    }
    Ok(publics)
}

// The module whose only entries are these symbols, with the descriptor of another module.
fn symbols_module(
    alloc: Global,
    first: &Parts,
    symbols: &[PlanSymbol],
    values: &[u64],
) -> Result<Module, NoMemory>
    requires valid { IsValid first.now }
    requires short { HaveShortNames symbols.now }
    requires values { HaveNumbers first.now.maus symbols.now values.now }
    ensures { IfOk result (λ m. (numbers : PlanSymbol → ℕ) → AreValues first.now.maus numbers symbols.now values.now
        → m ≡ symbols_module first.now numbers symbols.now) }
{
    let mut parts = Parts::new(alloc, first.maus, first.order);
    parts.names.publics = symbol_publics(alloc, symbols, values)?;
    Ok(Module::sound(parts))
}

// Converts an error of linking a module with symbols.
fn refused(refusal: LinkRefusal) -> PlannedRefusal
    ensures { (shared : Option (List ℕ)) → IsSharedName shared refusal → IsMetBy (option_map shared_name shared) result }
{
    match refusal {
        LinkRefusal::Duplicate(name) => PlannedRefusal::SharedName(name),
        _ => PlannedRefusal::Locate(LocateRefusal::NoMemory),
    }
}

// A copy of a module, and the module of these symbols with these values.
fn with_symbols(
    alloc: Global,
    module: &Module,
    symbols: &[PlanSymbol],
    values: &[u64],
) -> Result<Vec<Module>, NoMemory>
    requires short { HaveShortNames symbols.now }
    requires values { HaveNumbers «module».now.maus symbols.now values.now }
    ensures { IfOk result (λ list. (numbers : PlanSymbol → ℕ) → AreValues «module».now.maus numbers symbols.now values.now
        → list.items ≡ symbols_behind «module».now numbers symbols.now) }
{
    let named = symbols_module(alloc, module.parts(), symbols, values)?;
    let mut list = Vec::with_capacity(alloc, 2)?;
    list.push(copy_module(alloc, module)?)?;
    list.push(named)?;
    Ok(list)
}

/// The link of a module and of these symbols with these values.
pub(crate) fn linked_with(
    alloc: Global,
    module: &Module,
    symbols: &[PlanSymbol],
    values: &[u64],
) -> Result<Module, PlannedRefusal>
    requires names { AreDistinct (names_of «module».now.names.publics) }
    requires light { weight «module».now < weight_limit }
    requires distinct { AreDistinctNames (symbol_names symbols.now) }
    requires short { HaveShortNames symbols.now }
    requires values { HaveNumbers «module».now.maus symbols.now values.now }
    ensures joined { IfOk result (λ M. (numbers : PlanSymbol → ℕ) → AreValues «module».now.maus numbers symbols.now values.now
        → IsLinkWith «module».now numbers symbols.now M) }
    ensures refused { IfErr result
        (IsMetBy (option_map shared_name (find (has_name (public_names («module».now ∷ []))) (symbol_names symbols.now)))) }
{
    joined_is_valid();
    let list = with_symbols(alloc, module, symbols, values)?;
    match link_owned(alloc, list, module.parts().name.as_slice()) {
        Ok(link) => Ok(link),
        Err(refusal) => Err(refused(refusal)),
    }
}
