//! A map, with everything from which its lines are made.

ghost use Rattle.std.specs.Prelude.{◌≡◌, map};
ghost use Rattle.std.specs.List.{enumerate_from};
ghost use Rattle.mufom_map.specs.Keys.{key_of, public_key, section_key};
ghost use Rattle.mufom_map.specs.MapText.{by_key};

use crate::entries::Entries;
use crate::room::Room;
use mufom_meaning::Run;
use mufom_plan::{NameList, Region};

/// A map of a location: its entries, the space that sections use, the names of those that regions place, the
/// loaded runs, and the order of sections and publics.
#[derive(Drop)]
pub(crate) struct Map<'a> {
    pub(crate) entries: Entries<'a>,
    pub(crate) regions: &'a [Region],
    pub(crate) room: Room<'a>,
    // The names of the sections without a base of their own.
    pub(crate) placed: NameList,
    // The bases and the numbers of sections.
    pub(crate) section_order: Vec<(u64, u32)>,
    // The values and the positions of publics.
    pub(crate) public_order: Vec<(u64, u32)>,
    pub(crate) start: Option<u64>,
    pub(crate) runs: &'a [Run],
    ghost same_sections: { room.sections.now ≡ entries.sections.now },
    ghost sections_ordered: { section_order.items ≡ by_key key_of (map section_key (enumerate_from 0 entries.sections.now)) },
    ghost publics_ordered: { public_order.items ≡ by_key key_of (map public_key (enumerate_from 0 entries.publics.now)) },
}
