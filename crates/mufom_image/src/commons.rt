//! The commons of a module, as sections.

ghost use Rattle.std.specs.Prelude.{◌≡◌, ◌∷◌, [], IfOk, OnOk};
ghost use Rattle.mufom_plan.specs.Commons.{has_common as takes_commons};
ghost use Rattle.mufom_meaning.specs.Placed.{common_sections, placed_commons};
ghost use Rattle.mufom_image_values.specs.Resolutions.{resolutions_of};
ghost use Rattle.mufom_image.specs.Rooms.{room_of, common_of, raised, with_asked};

use mufom_copies::copy_bytes;
use mufom_image_values::Resolution;
use mufom_module::Module;
use mufom_names::{Reference, Weak};
use mufom_numbers::{Bytes, List, NoMemory};
use mufom_plan::{Plan, Region};
use mufom_sections::Section;
use std::alloc::Global;

// The alignment of a common, in addressable units.
const COMMON_ALIGN: u64 = 8;

// The space that a reference requests: `size` addressable units in the common at a position.
#[derive(Clone, Copy)]
struct Room {
    common: u32,
    size: u64,
}

/// Whether one of these regions takes the commons.
pub(crate) fn has_common(regions: &[Region]) -> bool
    ensures { result ≡ takes_commons regions.now }
{
    regions.iter().any(|region| region.common)
}

fn room_asked(resolution: Resolution, weak: Option<Weak>) -> Option<Room>
    ensures { result ≡ room_of resolution weak }
{
    match (resolution, weak) {
        (Resolution::Common(common), Some(weak)) if weak.size != 0 => Some(Room {
            common,
            size: weak.size,
        }),
        _ => None,
    }
}

fn new_common(alloc: Global, name: &Bytes, size: u64) -> Result<Section, NoMemory>
    ensures { IfOk result (λ common. common ≡ common_of name.now size) }
{
    Ok(Section {
        name: copy_bytes(alloc, name)?,
        absolute: false,
        purpose: None,
        size,
        align: COMMON_ALIGN,
        base: None,
    })
}

fn raise(common: &mut Section, size: u64)
    ensures { common.new ≡ raised size common.old }
{
    common.size = size.max(common.size);
}

// Provides the space that a reference requests, if it does: in its common, or in a new one at the end.
fn make_room(
    alloc: Global,
    commons: &mut Vec<Section>,
    resolution: Resolution,
    reference: &Reference,
) -> Result<(), NoMemory>
    ensures { OnOk result (commons.new.items ≡ with_asked commons.old.items (room_of resolution reference.now.weak) reference.now.name) }
{
    let Some(room) = room_asked(resolution, reference.weak) else {
        return Ok(());
    };
    let place = room.common as usize;
    if place < commons.len() {
        raise(&mut commons[place], room.size);
        return Ok(());
    }
    commons.push(new_common(alloc, &reference.name, room.size)?)?;
    Ok(())
}

// The commons of a module, as sections.
fn all_commons(
    alloc: Global,
    module: &Module,
    resolutions: &[Resolution],
) -> Result<List<Section>, NoMemory>
    requires { resolutions.now ≡ resolutions_of «module».now }
    ensures { IfOk result (λ commons. commons ≡ common_sections («module».now ∷ [])) }
{
    let references = module.parts().names.references.as_slice();
    let mut commons = Vec::new(alloc);
    for place in 0..references.len() {
        make_room(alloc, &mut commons, resolutions[place], &references[place])?;
    }
    Ok(List::from_vec(commons))
}

/// Returns the commons that a plan places, as sections: one for each name for which weak references request
/// space and that no public has, as large as the largest request. They are in the order of the first
/// requests. The only error is out of memory.
pub fn planned_commons(
    alloc: Global,
    module: &Module,
    resolutions: &[Resolution],
    plan: &Plan,
) -> Result<List<Section>, NoMemory>
    requires { resolutions.now ≡ resolutions_of «module».now }
    ensures { IfOk result (λ commons. commons ≡ placed_commons («module».now ∷ []) plan.now) }
{
    if has_common(plan.regions.as_slice()) {
        Ok(all_commons(alloc, module, resolutions)?)
    } else {
        Ok(List::new(alloc))
    }
}
