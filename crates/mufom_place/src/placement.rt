//! Placing sections and commons by a plan.

ghost use Rattle.std.specs.Prelude.{◌≡◌, ◌≤◌, ◌<◌, ◌+◌, ◌^◌, Some, None, IfOk, IfErr, OnOk, All, length, false};
ghost use Rattle.mufom_plan.specs.Commons.{HasAtMostOneCommon, has_common};
ghost use Rattle.mufom_plan.specs.Names.{AreDistinctNames, listed_names};
ghost use Rattle.mufom_place.specs.Bases.{bases as bases_of, numbered, placings as placings_of};
ghost use Rattle.mufom_place.specs.Facts.{HasNoBase, IsAddressWidth, IsAligned, IsAnswer, first_some, last_sections, place_refusal, sections_before};
ghost use Rattle.mufom_place.specs.Facts.{unplaced_at};
ghost use Rattle.mufom_place.specs.Packing.{IsLow};

use crate::PlaceRefusal;
use crate::bases::placings;
use crate::entries::{index_of_entries, waiting_commons, waiting_sections};
use crate::fit::bases;
use crate::overlap::overlap;
use crate::placing::Placing;
use mufom_numbers::List;
use mufom_plan::Plan;
use mufom_sections::Section;
use std::alloc::Global;

/// The bases that the regions of a plan give to sections and commons.
pub(crate) fn regional(
    alloc: Global,
    sections: &[Section],
    commons: &[Section],
    plan: &Plan,
) -> Result<List<Placing>, PlaceRefusal>
    requires alignments { All IsAligned sections.now }
    requires aligned_commons { All IsAligned commons.now }
    requires count { length sections.now + length commons.now < 2 ^ 32 }
    requires regions { length plan.now.regions < 2 ^ 32 }
    requires names { AreDistinctNames (listed_names plan.now.regions) }
    ensures given { IfOk result (λ list. list ≡ placings_of plan.now sections.now commons.now) }
    ensures low { IfOk result (All IsLow) }
    ensures placed { OnOk result (first_some (unplaced_at (listed_names plan.now.regions)) (numbered sections.now) ≡ None) }
    ensures unplaced { IfErr result (IsAnswer (first_some (unplaced_at (listed_names plan.now.regions)) (numbered sections.now))) }
{
    let index = index_of_entries(alloc, plan)?;
    let entries = waiting_sections(alloc, sections, &index)?;
    let waiting = waiting_commons(alloc, sections.len(), commons)?;
    Ok(placings(alloc, plan, &entries, &waiting)?)
}

/// The bases of sections and commons by a plan, in the order of the list.
///
/// The last `commons` sections of the list are the commons; they have no base of their own. Any
/// other section that has a base stays there. The rest are placed in the regions whose lists match
/// their names: in the order of the list, and for one entry in the order of the sections. Each is at the
/// least multiple of its alignment that is not below the end of the section before it; for the first
/// one, not below the region's base. The entry `*` matches the name `*` and all names that are in no list.
/// In the region that takes the commons, they follow in their order by the same rule, whatever their names.
/// Bases and sizes are in addressable units.
///
/// `width` is the number of bits of an address, a multiple of 8 from 8 to 64. Alignments are 1 to
/// 2^31, there are fewer than 2^32 sections and regions, no section name occurs twice in the plan,
/// and at most one region takes the commons, as [`read_plan`](mufom_plan::read_plan) ensures. If there are
/// commons, some region must take them. `Unplaced` is reported first, then `Misfit`, each with the first such
/// section, and then `Overlap`, with the first two neighbours by base and then by position. Commons are
/// never `Unplaced`.
pub fn place(
    alloc: Global,
    sections: &[Section],
    commons: u32,
    plan: &Plan,
    width: u32,
) -> Result<List<u64>, PlaceRefusal>
    requires width { IsAddressWidth width }
    requires alignments { All IsAligned sections.now }
    requires sections { length sections.now < 2 ^ 32 }
    requires regions { length plan.now.regions < 2 ^ 32 }
    requires names { AreDistinctNames (listed_names plan.now.regions) }
    requires common { HasAtMostOneCommon plan.now.regions }
    requires few { commons ≤ length sections.now }
    requires somewhere { has_common plan.now.regions ≡ false → commons ≡ 0 }
    requires without { All HasNoBase (last_sections commons sections.now) }

    // The bases are those that the plan gives, and there is no error to report.
    ensures bases { IfOk result (λ bases. bases ≡ bases_of plan.now (sections_before commons sections.now) (last_sections commons sections.now)) }
    ensures placed { OnOk result (place_refusal width plan.now (sections_before commons sections.now) (last_sections commons sections.now) ≡ None) }

    // The error is the first one that applies, or out of memory.
    ensures refused { IfErr result
        (IsAnswer (place_refusal width plan.now (sections_before commons sections.now) (last_sections commons sections.now))) }
{
    let (plain, last) = sections.split_at(sections.len() - commons as usize);
    let placings = regional(alloc, plain, last, plan)?;
    let bases = bases(
        alloc,
        sections,
        plan.regions.as_slice(),
        placings.as_slice(),
        width,
    )?;
    match overlap(alloc, sections, bases.as_slice())? {
        Some(refusal) => Err(refusal),
        None => Ok(bases),
    }
}
