//! Printing the text of a map.

ghost use Rattle.std.specs.Prelude.{◌≡◌, ◌<◌, ◌^◌, ◌∷◌, [], Err, OnOk, flat_map, length, sum_by};
ghost use Rattle.mufom_host.specs.World.{GrowsBy, GrowsByPrefix, OnlyPrints, Rose};
ghost use Rattle.mufom_plan.specs.Names.{AreDistinctNames, listed_names};
ghost use Rattle.mufom_planned.specs.Planned.{IsPlanned};
ghost use Rattle.mufom_map.specs.Mapped.{mapped_by, planned_layout};
ghost use Rattle.mufom_map.specs.MapText.{by_key, map_text, public_line, section_line, total_line};
ghost use Rattle.mufom_map.specs.ShownMap.{shown};
ghost use Rattle.mufom_origins.specs.Words.{all_files};

use crate::entries::module_of;
use crate::lines::{module_lines, public_line, start_line};
use crate::making::map_of;
use crate::map::Map;
use crate::regions::region_lines;
use crate::unused::unused_lines;
use mufom_host::Host;
use mufom_located::Located;
use mufom_meaning::Run;
use mufom_module::Module;
use mufom_origins::{ModuleFiles, Origins};
use mufom_place::RegionCopy;
use mufom_plan::Plan;
use mufom_sections::Section;
use mufom_text::{Lines, Output, PrintStop, counted, print_lines};
use std::alloc::Global;

// The total size of all sections.
fn total_size(sections: &[Section]) -> u128
    ensures { result ≡ sum_by (λ s. s.size) sections.now }
{
    let mut total = 0u128;
    for section in sections {
        total += section.size as u128;
    }
    total
}

// The number of loaded bytes.
fn loaded_bytes(runs: &[Run]) -> u128
    ensures { result ≡ sum_by (λ run. length run.bytes) runs.now }
{
    let mut total = 0u128;
    for run in runs {
        total += run.bytes.len() as u128;
    }
    total
}

impl<'a> Map<'a> {
    // The lines of sections, commons and copies, in their order.
    fn section_lines<K: Output>(&self, out: &mut K)
        ensures { K.takes out.old out.new (flat_map (section_line (shown self.now).maus) (by_key (λ s. s.base) (shown self.now).sections)) }
    {
        let sections = self.entries.sections;
        for (_, number) in self.section_order.as_slice() {
            let section = &sections[*number as usize];
            self.entries.section_line(out, *number, section);
        }
    }

    // The lines of publics, in their order.
    fn public_lines<K: Output>(&self, out: &mut K)
        ensures { K.takes out.old out.new (flat_map (public_line (shown self.now).maus) (by_key (λ p. p.value) (shown self.now).publics)) }
    {
        let publics = self.entries.publics;
        for (_, position) in self.public_order.as_slice() {
            let origin = module_of(self.entries.origins.public(*position));
            let public = &publics[*position as usize];
            public_line(out, self.entries.maus, public, origin);
        }
    }

    // The line of totals.
    fn total_line<K: Output>(&self, out: &mut K)
        ensures { K.takes out.old out.new (total_line (shown self.now)) }
    {
        let sections = self.entries.sections;
        counted(out, b"sections ", sections.len() as u128);
        counted(out, b" bytes ", total_size(sections));
        counted(out, b" loaded ", loaded_bytes(self.runs));
        out.put(b"\n");
    }
}

/// A map of which the whole text is printed, with the files of all modules that were read.
#[derive(Drop)]
struct WholeMap<'a> {
    names: &'a ModuleFiles,
    map: Map<'a>,
}

impl<'a> Lines for WholeMap<'a> {
    ghost use Rattle.mufom_map.specs.MapText.{map_text};
    ghost use Rattle.mufom_map.specs.ShownMap.{shown};

    ghost text = { λ whole. map_text (all_files whole.names.now) (shown whole.map) };

    fn put_lines<K: Output>(&self, out: &mut K) {
        let map = &self.map;
        let entries = &map.entries;
        module_lines(out, self.names, entries.origins.as_slice());
        region_lines(out, entries.maus, &map.room, map.regions);
        unused_lines(out, &map.placed, map.regions);
        map.section_lines(out);
        map.public_lines(out);
        start_line(out, entries.maus, map.start, entries.origins.start());
        map.total_line(out);
    }
}

/// Prints the map of the location of a module by a plan, in chunks of about 65,536 bytes, the last of which
/// may be shorter. The module is the link of those that the origins list, or what is kept of it. `names` are
/// the files of all modules that were read, and `copies` the copies of regions that the plan places.
///
/// No section name occurs twice in the plan, and it has fewer than 2^32 regions, as
/// [`read_plan`](mufom_plan::read_plan) returns it. `NoMemory` is returned before anything is printed.
/// `Fault` is returned only if a print failed and the host's count of failed writes rose; a prefix of the
/// text may then be printed. The time grows as `n log n` with the number of sections, publics and regions.
pub fn print_map<H: Host>(
    alloc: Global,
    host: &mut H,
    names: &ModuleFiles,
    origins: &Origins,
    module: &Module,
    plan: &Plan,
    copies: &[RegionCopy],
    located: &Located,
) -> Result<(), PrintStop>
    requires distinct { AreDistinctNames (listed_names plan.now.regions) }
    requires regions { length plan.now.regions < 2 ^ 32 }
    requires planned { IsPlanned («module».now ∷ []) plan.now located.now }
    requires copies { copies.now ≡ (planned_layout («module».now ∷ []) plan.now).copied }
    ensures done { OnOk result (GrowsBy (H.meaning host.old).out (H.meaning host.new).out (map_text (all_files names.now)
        (mapped_by origins.now (planned_layout («module».now ∷ []) plan.now) located.now))) }
    ensures fault { result ≡ Err PrintStop.Fault → GrowsByPrefix (H.meaning host.old).out (H.meaning host.new).out (map_text (all_files names.now)
        (mapped_by origins.now (planned_layout («module».now ∷ []) plan.now) located.now))
        × Rose (H.faults host.old).writes (H.faults host.new).writes }
    ensures unmade { result ≡ Err PrintStop.NoMemory → (H.meaning host.new).out ≡ (H.meaning host.old).out }
    ensures only { OnlyPrints (H.meaning host.old) (H.meaning host.new) (H.faults host.old) (H.faults host.new) }
{
    let Ok(map) = map_of(alloc, origins, module, plan, copies, located) else {
        return Err(PrintStop::NoMemory);
    };
    print_lines(alloc, host, &WholeMap { names, map })
}
