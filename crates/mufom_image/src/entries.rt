//! The parts of a location.

ghost use Rattle.std.specs.Prelude.{IfOk};
ghost use Rattle.mufom_image_entries.specs.Valued.{IsValued};
ghost use Rattle.mufom_image.specs.Entries.{HasEntries};

use mufom_copies::copy_bytes;
use mufom_image_entries::{ValuedModule, located_debug, located_publics, located_start};
use mufom_meaning::{LocatedParts, Run};
use mufom_numbers::{List, NoMemory};
use mufom_sections::Section;
use std::alloc::Global;

/// Returns the parts of a location: the header of the module, these sections and runs, and its publics, start
/// and debug items with their values.
pub(crate) fn located_parts(
    alloc: Global,
    valued: &ValuedModule<'_>,
    sections: List<Section>,
    runs: List<Run>,
) -> Result<LocatedParts, NoMemory>
    requires { IsValued valued.now }
    ensures { IfOk result (HasEntries valued.now sections runs) }
{
    let placed = valued.placed;
    let parts = placed.graph.parts;
    Ok(LocatedParts {
        processor: copy_bytes(alloc, &parts.processor)?,
        name: copy_bytes(alloc, &parts.name)?,
        maus: parts.maus,
        order: parts.order,
        sections,
        publics: located_publics(alloc, valued)?,
        runs,
        start: located_start(valued),
        debug: located_debug(alloc, valued)?,
    })
}
