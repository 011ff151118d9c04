//! How far the bytes of regions are moved.

ghost use Rattle.std.specs.Prelude.{◌≡◌, ◌==◌, ◌++◌, ◌<◌, ◌^◌, IfOk, OnOk, None, map, flat_map, option_map, option_to_list, position, slice_index_or};
ghost use Rattle.std.specs.List.{enumerate_from};
ghost use Rattle.mufom_place.specs.Bases.{numbered};
ghost use Rattle.mufom_planned.specs.Layout.{base_in};
ghost use Rattle.mufom_locating.specs.Moves.{address_in, move_for, region_move, section_shifts, shift_by};

use mufom_moves::Shift;
use mufom_numbers::NoMemory;
use mufom_place::{Placing, RegionCopy};
use mufom_plan::Region;
use mufom_sections::Section;
use std::alloc::Global;

/// The bytes from an address on are loaded from another address on.
#[derive(Clone, Copy)]
pub(crate) struct Move {
    pub from: u64,
    pub to: u64,
}

/// The base at a position, or 0 if there is none.
pub(crate) fn base_at(bases: &[u64], place: usize) -> u64
    ensures { result ≡ base_in bases.now place }
{
    match bases.get(place) {
        Some(base) => *base,
        None => 0,
    }
}

fn copy_position(copies: &[RegionCopy], region: usize) -> Option<usize>
    ensures { result ≡ position (λ c. c.source == region) copies.now }
{
    copies
        .iter()
        .position(|copy| copy.source as usize == region)
}

// The move of the region at a position, if it has a copy. The second bases are those of the copies.
fn move_of(region: &Region, place: usize, copies: &[RegionCopy], bases: &[u64]) -> Option<Move>
    ensures { result ≡ region_move copies.now bases.now (place, region.now) }
{
    let copy = copy_position(copies, place)?;
    Some(Move {
        from: region.base,
        to: base_at(bases, copy),
    })
}

/// The moves of regions, one for each. The bases are those of the copies.
pub(crate) fn region_moves(
    alloc: Global,
    regions: &[Region],
    copies: &[RegionCopy],
    bases: &[u64],
) -> Result<Vec<Option<Move>>, NoMemory>
    ensures { IfOk result (λ moves. moves.items ≡ map (region_move copies.now bases.now) (enumerate_from 0 regions.now)) }
{
    let mut moves = Vec::new(alloc);
    for (place, region) in regions.iter().enumerate() {
        moves.push(move_of(region, place, copies, bases))?;
    }
    Ok(moves)
}

/// The move of the region at a position, if there is such a region and it has a copy.
pub(crate) fn move_at(moves: &[Option<Move>], region: usize) -> Option<Move>
    ensures { result ≡ slice_index_or moves.now region None }
{
    match moves.get(region) {
        Some(own) => *own,
        None => None,
    }
}

/// The address to which a byte is moved, exactly.
pub(crate) fn moved_to(own: Option<Move>, address: u128) -> u128
    requires { address < 2 ^ 100 }
    ensures address { result ≡ address_in own address }
    ensures bound { result < 2 ^ 101 }
{
    match own {
        Some(own) => (own.to as u128 + address).saturating_sub(own.from as u128),
        None => address,
    }
}

// The move of the region that places a section, if it has a copy.
fn section_move(moves: &[Option<Move>], placed: &[Option<Placing>], section: usize) -> Option<Move>
    ensures { result ≡ move_for moves.now (slice_index_or placed.now section None) }
{
    match placed.get(section) {
        Some(Some(placing)) => move_at(moves, placing.region as usize),
        _ => None,
    }
}

// Appends the extent of a section at a base, if its bytes are moved.
fn add_shift(
    shifts: &mut Vec<Shift>,
    own: Option<Move>,
    base: u64,
    size: u64,
) -> Result<(), NoMemory>
    ensures { OnOk result (shifts.new.items ≡ shifts.old.items ++ option_to_list (option_map (shift_by base size) own)) }
{
    if own.is_none() {
        return Ok(());
    }
    let to = (moved_to(own, base as u128) % (1 << 64)) as u64;
    shifts.push(Shift {
        from: base,
        size,
        to,
    })?;
    Ok(())
}

/// The extents of the sections whose bytes are moved, given what regions place.
pub(crate) fn section_shifts(
    alloc: Global,
    sections: &[Section],
    bases: &[u64],
    placed: &[Option<Placing>],
    moves: &[Option<Move>],
) -> Result<Vec<Shift>, NoMemory>
    ensures { IfOk result (λ shifts. shifts.items ≡ flat_map (section_shifts bases.now placed.now moves.now) (numbered sections.now)) }
{
    let mut shifts = Vec::new(alloc);
    for (place, section) in sections.iter().enumerate() {
        let own = section_move(moves, placed, place);
        add_shift(&mut shifts, own, base_at(bases, place), section.size)?;
    }
    Ok(shifts)
}
