//! The publics of a location.

ghost use Rattle.std.specs.Prelude.{◌≡◌, map, IfOk};
ghost use Rattle.mufom_image_entries.specs.Valued.{IsValued, parts_of, valued_public};

use crate::valued::ValuedModule;
use mufom_copies::{copy_bytes, copy_notes};
use mufom_meaning::PublicValue;
use mufom_names::Public;
use mufom_numbers::{List, NoMemory};
use std::alloc::Global;

fn located_public(
    alloc: Global,
    valued: &ValuedModule<'_>,
    public: &Public,
) -> Result<PublicValue, NoMemory>
    requires { IsValued valued.now }
    ensures { IfOk result (λ located. located ≡ valued_public valued.now public.now) }
{
    Ok(PublicValue {
        name: copy_bytes(alloc, &public.name)?,
        value: valued.value(&public.value),
        notes: copy_notes(alloc, public.notes.as_slice())?,
    })
}

/// Returns the publics with their values, in order. The value is 0 if an expression has none.
pub fn located_publics(
    alloc: Global,
    valued: &ValuedModule<'_>,
) -> Result<List<PublicValue>, NoMemory>
    requires { IsValued valued.now }
    ensures { IfOk result (λ all. all ≡ map (valued_public valued.now) (parts_of valued.now).names.publics) }
{
    let mut all = List::new(alloc);
    let publics = valued.parts().names.publics.as_slice();
    for public in publics {
        all.push(located_public(alloc, valued, public)?)?;
    }
    Ok(all)
}
