//! The bases that the regions of a plan give to the sections that wait.

ghost use Rattle.std.specs.Prelude.{◌≡◌, ◌≤◌, ◌<◌, ◌+◌, ◌*◌, ◌^◌, ◌++◌, ℕ, None, IfOk, OnOk, length, sum_by, vec_len, All, flat_map, slice_index_or};
ghost use Rattle.mufom_plan.specs.Names.{listed_names};
ghost use Rattle.mufom_place.specs.Bases.{aligned_up as least_multiple, commons_in, packed, placing_of};
ghost use Rattle.mufom_place.specs.Packing.{IsAlignedWaiting, IsLow, end_of, placings_from};

use crate::placing::{Placing, Waiting};
use mufom_numbers::{List, NoMemory};
use mufom_plan::{Plan, Region};
use std::alloc::Global;

/// The least multiple of an alignment that is not below an address.
pub(crate) fn aligned_up(align: u64, address: u128) -> u128
    requires align { 1 ≤ align }
    requires room { address < 2 ^ 127 }
    ensures value { result ≡ least_multiple align address }
    ensures bound { result < address + align }
{
    let align = align as u128;
    (address + (align - 1)) / align * align
}

/// Puts sections one after another, and returns the end of the last.
fn pack(
    placings: &mut List<Placing>,
    waiting: &[Waiting],
    region: u32,
    address: u128,
) -> Result<u128, NoMemory>
    requires aligned { All IsAlignedWaiting waiting.now }
    requires room { address + length waiting.now * 2 ^ 65 < 2 ^ 100 }
    requires low { All IsLow placings.old }
    ensures low { OnOk result (All IsLow placings.new) }
    ensures placed { OnOk result (placings.new ≡ placings.old ++ packed region address waiting.now) }
    ensures end { IfOk result (λ end. end ≡ end_of address waiting.now) }
    ensures bound { IfOk result (λ end. end ≤ address + length waiting.now * 2 ^ 65) }
{
    let mut end = address;
    for section in waiting {
        let base = aligned_up(section.align, end);
        placings.push(Placing {
            section: section.section,
            region,
            base,
        })?;
        end = base + section.size as u128;
    }
    Ok(end)
}

/// Puts the sections at the entries of a region one after another, and returns the end of the last.
fn pack_entries(
    placings: &mut List<Placing>,
    entries: &[List<Waiting>],
    region: u32,
    address: u128,
) -> Result<u128, NoMemory>
    requires aligned { All (All IsAlignedWaiting) entries.now }
    requires room { address + sum_by length entries.now * 2 ^ 65 < 2 ^ 100 }
    requires low { All IsLow placings.old }
    ensures low { OnOk result (All IsLow placings.new) }
    ensures placed { OnOk result (placings.new ≡ placings.old ++ packed region address (flat_map (λ waiting. waiting) entries.now)) }
    ensures end { IfOk result (λ end. end ≡ end_of address (flat_map (λ waiting. waiting) entries.now)) }
    ensures bound { IfOk result (λ end. end ≤ address + sum_by length entries.now * 2 ^ 65) }
{
    let mut end = address;
    for waiting in entries {
        end = pack(placings, waiting.as_slice(), region, end)?;
    }
    Ok(end)
}

/// Puts the sections at the entries of a region one after another, and after them these commons.
fn pack_region(
    placings: &mut List<Placing>,
    entries: &[List<Waiting>],
    commons: &[Waiting],
    region: u32,
    base: u64,
) -> Result<(), NoMemory>
    requires aligned { All (All IsAlignedWaiting) entries.now }
    requires aligned_commons { All IsAlignedWaiting commons.now }
    requires room { sum_by length entries.now + length commons.now < 2 ^ 32 }
    requires low { All IsLow placings.old }
    ensures low { OnOk result (All IsLow placings.new) }
    ensures placed { OnOk result (placings.new ≡ placings.old ++ packed region base (flat_map (λ waiting. waiting) entries.now ++ commons.now)) }
{
    let end = pack_entries(placings, entries, region, base as u128)?;
    pack(placings, commons, region, end)?;
    Ok(())
}

/// The commons, if the region takes them; otherwise none.
fn commons_of<'a>(region: &Region, commons: &'a [Waiting]) -> &'a [Waiting]
    ensures commons { result.now ≡ commons_in region.now commons.now }
    ensures bound { length result.now ≤ length commons.now }
{
    if region.common { commons } else { &[] }
}

/// The bases that the regions give to the sections at their entries, and to the commons.
pub fn placings(
    alloc: Global,
    plan: &Plan,
    entries: &[List<Waiting>],
    commons: &[Waiting],
) -> Result<List<Placing>, NoMemory>
    requires regions { length plan.now.regions < 2 ^ 32 }
    requires count { length entries.now ≡ length (listed_names plan.now.regions) }
    requires aligned { All (All IsAlignedWaiting) entries.now }
    requires aligned_commons { All IsAlignedWaiting commons.now }
    requires room { sum_by length entries.now + length commons.now < 2 ^ 32 }
    ensures given { IfOk result (λ placings. placings ≡ placings_from 0 plan.now.regions entries.now commons.now) }
    ensures low { IfOk result (All IsLow) }
{
    let mut placings = List::new(alloc);
    let mut start = 0;
    for (place, region) in plan.regions.as_slice().iter().enumerate() {
        let next = start + region.sections.len();
        pack_region(
            &mut placings,
            &entries[start..next],
            commons_of(region, commons),
            place as u32,
            region.base,
        )?;
        start = next;
    }
    Ok(placings)
}

/// The base that regions give to each of `count` sections.
pub fn planned(
    alloc: Global,
    placings: &[Placing],
    count: usize,
) -> Result<Vec<Option<Placing>>, NoMemory>
    ensures count { IfOk result (λ planned. vec_len planned ≡ count) }
    ensures value { IfOk result (λ planned. (n : ℕ) → n < count → slice_index_or planned.items n None ≡ placing_of placings.now n) }
{
    let mut planned = vec![in alloc; None; count]?;
    for placing in placings {
        let section = placing.section as usize;
        if section < planned.len() {
            planned[section] = Some(*placing);
        }
    }
    Ok(planned)
}
