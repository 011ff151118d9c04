//! The space of the address space that sections use.

ghost use Rattle.std.specs.Prelude.{◌≡◌, ◌≤◌, ◌<◌, ◌^◌, ℕ, IfOk, All, length, map, sum_by};
ghost use Rattle.mufom_map.specs.Room.{used_between};
ghost use Rattle.mufom_map.specs.Points.{above, most_point};
ghost use Rattle.mufom_map.specs.Shown.{base_of, end_of, section_extents};

use crate::points::{Points, points_of};
use mufom_numbers::NoMemory;
use mufom_sections::Section;
use std::alloc::Global;

/// Located sections, with the points at which they start and end, from which the used space is computed.
#[derive(Drop)]
pub(crate) struct Room<'a> {
    pub(crate) sections: &'a [Section],
    starts: Points,
    ends: Points,
    ghost starts_are: { (a : ℕ) → sum_by (above a) starts.points.items ≡ sum_by (above a) (map base_of sections.now) },
    ghost ends_are: { (a : ℕ) → sum_by (above a) ends.points.items ≡ sum_by (above a) (map end_of sections.now) },
}

/// The base of a located section.
pub(crate) fn base_of(section: &Section) -> u64
    ensures { result ≡ base_of section.now }
{
    section.base.unwrap_or(0)
}

// The points at which sections start.
fn starts_of(alloc: Global, sections: &[Section]) -> Result<Vec<u128>, NoMemory>
    ensures are { IfOk result (λ points. points.items ≡ map base_of sections.now) }
    ensures low { IfOk result (λ points. All (λ p. p ≤ most_point) points.items) }
{
    let mut points = Vec::with_capacity(alloc, sections.len())?;
    for section in sections {
        points.push(base_of(section) as u128)?;
    }
    Ok(points)
}

// The points at which sections end.
fn ends_of(alloc: Global, sections: &[Section]) -> Result<Vec<u128>, NoMemory>
    ensures are { IfOk result (λ points. points.items ≡ map end_of sections.now) }
    ensures low { IfOk result (λ points. All (λ p. p ≤ most_point) points.items) }
{
    let mut points = Vec::with_capacity(alloc, sections.len())?;
    for section in sections {
        points.push(base_of(section) as u128 + section.size as u128)?;
    }
    Ok(points)
}

impl<'a> Room<'a> {
    /// Prepares the sections, each at its base, for `used`. The time grows as `n log n` with the number of
    /// sections, and memory in proportion to it.
    pub(crate) fn of(alloc: Global, sections: &'a [Section]) -> Result<Room<'a>, NoMemory>
        requires { length sections.now < 2 ^ 32 }
        ensures { IfOk result (λ room. room.sections.now ≡ sections.now) }
    {
        let starts = points_of(alloc, starts_of(alloc, sections)?)?;
        let ends = points_of(alloc, ends_of(alloc, sections)?)?;
        Ok(Room {
            sections,
            starts,
            ends,
        })
    }

    /// Returns the number of addresses, from `from` up to but not including `to`, that lie in a section. The
    /// time grows with the logarithm of the number of sections.
    pub(crate) fn used(&self, from: u128, to: u128) -> u128
        requires order { from ≤ to }
        requires bound { to ≤ most_point }
        ensures { result ≡ used_between from to (section_extents self.now.sections.now) }
    {
        let inside = self.starts.sum_above(to) + self.ends.sum_above(from);
        let outside = self.ends.sum_above(to) + self.starts.sum_above(from);
        inside - outside
    }
}
