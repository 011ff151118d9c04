//! The absolute module of a location.

ghost use Rattle.std.specs.Prelude.{◌≡◌, ◌<◌, ◌^◌, [], ◌∷◌, map, option_map, IfOk, OnOk};
ghost use Rattle.mufom_expr.specs.Tree.{number};
ghost use Rattle.mufom_module.specs.Bare.{bare_parts};
ghost use Rattle.mufom_module.specs.Written.{weight};
ghost use Rattle.mufom_meaning.specs.Absolute.{absolute_of, absolute_public, no_regions};
ghost use Rattle.mufom_meaning.specs.Location.{IsLocation};
ghost use Rattle.mufom_located.specs.Located.{IsLocated};

use crate::loads::absolute_loads;
use crate::located::Located;
use mufom_copies::{copy_bytes, copy_debug_items, copy_notes, copy_sections};
use mufom_expr::Postfix;
use mufom_meaning::{
    LocatedParts, PublicValue, absolute_is_located_as_itself, absolute_is_valid,
    modules_may_be_placed,
};
use mufom_module::{Module, Parts};
use mufom_names::Public;
use mufom_numbers::{List, NoMemory};
use mufom_sections::Section;
use std::alloc::Global;

fn absolute_public(alloc: Global, public: &PublicValue) -> Result<Public, NoMemory>
    ensures { IfOk result (λ p. p ≡ absolute_public public.now) }
{
    Ok(Public {
        name: copy_bytes(alloc, &public.name)?,
        value: Postfix::constant(alloc, public.value)?,
        notes: copy_notes(alloc, public.notes.as_slice())?,
    })
}

fn absolute_publics(alloc: Global, publics: &[PublicValue]) -> Result<List<Public>, NoMemory>
    ensures { IfOk result (λ list. list ≡ map absolute_public publics.now) }
{
    let mut list = List::new(alloc);
    for public in publics {
        list.push(absolute_public(alloc, public)?)?;
    }
    Ok(list)
}

fn absolute_start(alloc: Global, start: Option<u64>) -> Result<Option<Postfix>, NoMemory>
    ensures { IfOk result (λ value. value ≡ option_map number start) }
{
    match start {
        Some(start) => Ok(Some(Postfix::constant(alloc, start)?)),
        None => Ok(None),
    }
}

// Fills bare parts with the contents of the absolute module of a location.
fn state_location(alloc: Global, made: &mut Parts, location: &LocatedParts) -> Result<(), NoMemory>
    requires located { IsLocated location.now }
    requires bare { made.old ≡ bare_parts location.now.maus location.now.order }
    ensures { OnOk result (made.new ≡ absolute_of location.now) }
{
    modules_may_be_placed();
    let sections = location.sections.as_slice();
    made.processor = copy_bytes(alloc, &location.processor)?;
    made.name = copy_bytes(alloc, &location.name)?;
    made.sections = copy_sections(alloc, sections)?;
    made.names.publics = absolute_publics(alloc, location.publics.as_slice())?;
    made.debug = copy_debug_items(alloc, location.debug.as_slice())?;
    made.loads = absolute_loads(alloc, sections, location.runs.as_slice())?;
    made.start = absolute_start(alloc, location.start)?;
    Ok(())
}

fn absolute_parts(alloc: Global, location: &LocatedParts) -> Result<Parts, NoMemory>
    requires { IsLocated location.now }
    ensures { IfOk result (λ made. made ≡ absolute_of location.now) }
{
    let mut made = Parts::new(alloc, location.maus, location.order);
    state_location(alloc, &mut made, location)?;
    Ok(made)
}

/// The module as which a location is written. It has no extension, no environment and no references, a
/// number in place of each expression, and for each run of bytes in a section a load that sets the
/// program counter, followed by literals.
///
/// [`Located::written_weight`] must be below 2^32. Locating the module alone, by a plan without regions,
/// results in the same location. The only error is out of memory.
pub fn absolute(alloc: Global, located: &Located) -> Result<Module, NoMemory>
    requires { weight (absolute_of located.now) < 2 ^ 32 }
    ensures absolute { IfOk result (λ m. m ≡ absolute_of located.now) }
    ensures itself { IfOk result (λ m. IsLocation (m ∷ []) no_regions located.now) }
{
    absolute_is_valid();
    absolute_is_located_as_itself();
    Ok(Module::sound(absolute_parts(alloc, located.parts())?))
}
