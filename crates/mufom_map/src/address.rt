//! The lines of one address of a map.

ghost use Rattle.std.specs.Prelude.{◌≡◌, ◌<◌, ◌^◌, ◌∷◌, [], Err, OnOk, length, slice_get};
ghost use Rattle.mufom_host.specs.World.{GrowsBy, GrowsByPrefix, OnlyPrints, Rose};
ghost use Rattle.mufom_plan.specs.Names.{AreDistinctNames, listed_names};
ghost use Rattle.mufom_planned.specs.Planned.{IsPlanned};
ghost use Rattle.mufom_map.specs.Mapped.{mapped_by, planned_layout};
ghost use Rattle.mufom_map.specs.MapText.{address_text, found_public, found_section};
ghost use Rattle.mufom_map.specs.ShownMap.{publics_of, sections_of};
ghost use Rattle.mufom_map.specs.Spot.{public_below};
ghost use Rattle.mufom_map.specs.Found.{element_at};

use crate::entries::{Entries, module_of};
use crate::lines::offset_line;
use crate::making::entries_of;
use crate::room::base_of;
use crate::spot::{public_at, public_numbered, section_at, section_numbered};
use mufom_host::Host;
use mufom_located::Located;
use mufom_module::Module;
use mufom_origins::Origins;
use mufom_place::RegionCopy;
use mufom_plan::Plan;
use mufom_text::{Lines, Output, PrintStop, print_lines};
use std::alloc::Global;

impl<'a> Entries<'a> {
    // The line of the section, common or copy with a number.
    fn numbered_section<K: Output>(&self, out: &mut K, number: usize)
        ensures { K.takes out.old out.new (found_section self.now.maus (slice_get (sections_of self.now) number)) }
    {
        match section_numbered(self.sections, number) {
            Some(section) => self.section_line(out, number as u32, section),
            None => out.put(b"section none\n"),
        }
    }

    // The line of the section that was found, or of none.
    fn found_section<K: Output>(&self, out: &mut K, found: Option<usize>)
        ensures { K.takes out.old out.new (found_section self.now.maus (element_at (sections_of self.now) found)) }
    {
        match found {
            Some(number) => self.numbered_section(out, number),
            None => out.put(b"section none\n"),
        }
    }

    // The line of the public at a position.
    fn numbered_public<K: Output>(&self, out: &mut K, address: u64, position: usize)
        ensures { K.takes out.old out.new (found_public self.now.maus address (slice_get (publics_of self.now) position)) }
    {
        match public_numbered(self.publics, position) {
            Some(public) => {
                let origin = module_of(self.origins.public(position as u32));
                offset_line(out, self.maus, address, public, origin);
            }
            None => out.put(b"public none\n"),
        }
    }

    // The line of the public that was found, or of none.
    fn found_public<K: Output>(&self, out: &mut K, address: u64, found: Option<usize>)
        ensures { K.takes out.old out.new (found_public self.now.maus address (element_at (publics_of self.now) found)) }
    {
        match found {
            Some(position) => self.numbered_public(out, address, position),
            None => out.put(b"public none\n"),
        }
    }

    // The position of the nearest public, in the section with a number, that is not above the address.
    fn public_in(&self, number: usize, address: u64) -> Option<usize>
        ensures { element_at (publics_of self.now) result
            ≡ public_below address (slice_get (sections_of self.now) number) (publics_of self.now) }
    {
        match section_numbered(self.sections, number) {
            Some(section) => public_at(base_of(section), section.size, address, self.publics),
            None => None,
        }
    }

    // The same for the section that was found.
    fn public_below(&self, section: Option<usize>, address: u64) -> Option<usize>
        ensures { element_at (publics_of self.now) result
            ≡ public_below address (element_at (sections_of self.now) section) (publics_of self.now) }
    {
        match section {
            Some(number) => self.public_in(number, address),
            None => None,
        }
    }
}

/// The entries of a map of which the lines of one address are printed.
#[derive(Drop)]
struct AddressLines<'a> {
    entries: Entries<'a>,
    address: u64,
}

impl<'a> Lines for AddressLines<'a> {
    ghost use Rattle.mufom_map.specs.MapText.{spot_text};
    ghost use Rattle.mufom_map.specs.ShownMap.{publics_of, sections_of};

    ghost text = { λ lines. spot_text lines.entries.maus lines.address (sections_of lines.entries) (publics_of lines.entries) };

    fn put_lines<K: Output>(&self, out: &mut K) {
        let section = section_at(self.entries.sections, self.address);
        let public = self.entries.public_below(section, self.address);
        self.entries.found_section(out, section);
        self.entries.found_public(out, self.address, public);
    }
}

/// Prints two lines of the map of a location by a plan: that of the section, common or copy that holds an
/// address, and that of the nearest public in it that is not above the address. `none` stands for either if
/// there is none. The module is the link of those that the origins list, or what is kept of it, and `copies`
/// are the copies of regions that the plan places.
///
/// No section name occurs twice in the plan, and it has fewer than 2^32 regions, as
/// [`read_plan`](mufom_plan::read_plan) returns it. `NoMemory` is returned before anything is printed.
/// `Fault` is returned only if a print failed and the host's count of failed writes rose; a prefix of the
/// text may then be printed. The section and the public are found in linear time, without sorting.
pub fn print_address<H: Host>(
    alloc: Global,
    host: &mut H,
    origins: &Origins,
    module: &Module,
    plan: &Plan,
    copies: &[RegionCopy],
    located: &Located,
    address: u64,
) -> Result<(), PrintStop>
    requires distinct { AreDistinctNames (listed_names plan.now.regions) }
    requires regions { length plan.now.regions < 2 ^ 32 }
    requires planned { IsPlanned («module».now ∷ []) plan.now located.now }
    requires copies { copies.now ≡ (planned_layout («module».now ∷ []) plan.now).copied }
    ensures done { OnOk result (GrowsBy (H.meaning host.old).out (H.meaning host.new).out (address_text address
        (mapped_by origins.now (planned_layout («module».now ∷ []) plan.now) located.now))) }
    ensures fault { result ≡ Err PrintStop.Fault → GrowsByPrefix (H.meaning host.old).out (H.meaning host.new).out (address_text address
        (mapped_by origins.now (planned_layout («module».now ∷ []) plan.now) located.now))
        × Rose (H.faults host.old).writes (H.faults host.new).writes }
    ensures unmade { result ≡ Err PrintStop.NoMemory → (H.meaning host.new).out ≡ (H.meaning host.old).out }
    ensures only { OnlyPrints (H.meaning host.old) (H.meaning host.new) (H.faults host.old) (H.faults host.new) }
{
    let Ok(entries) = entries_of(alloc, origins, module, plan, copies, located) else {
        return Err(PrintStop::NoMemory);
    };
    print_lines(alloc, host, &AddressLines { entries, address })
}
