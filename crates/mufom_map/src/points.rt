//! Sorted points of the address space, and the distances of addresses above them.

ghost use Rattle.std.specs.Prelude.{◌≡◌, ◌≤◌, ◌<◌, ◌^◌, ℕ, IfOk, All, length, sum_by, slice_index, nat_lt};
ghost use Rattle.std.specs.List.Sorted.{IsNonDecreasing};
ghost use Rattle.mufom_map.specs.Points.{AreSums, above, most_point};

use mufom_numbers::NoMemory;
use std::alloc::Global;

/// Sorted points, with the sums of the first i of them.
#[derive(Drop)]
pub(crate) struct Points {
    points: Vec<u128>,
    sums: Vec<u128>,
    ghost rising: { IsNonDecreasing points.items },
    ghost low: { All (λ p. p ≤ most_point) points.items },
    ghost few: { length points.items < 2 ^ 32 },
    ghost sums_are: { AreSums points.items sums.items },
}

// The sums of the first i points, for each i from 0 to the number of points.
fn sums_of(alloc: Global, points: &[u128]) -> Result<Vec<u128>, NoMemory>
    requires low { All (λ p. p ≤ most_point) points.now }
    requires few { length points.now < 2 ^ 32 }
    ensures { IfOk result (λ sums. AreSums points.now sums.items) }
{
    let mut sums = Vec::with_capacity(alloc, points.len() + 1)?;
    let mut sum = 0u128;
    sums.push(sum)?;
    for point in points {
        sum += *point;
        sums.push(sum)?;
    }
    Ok(sums)
}

/// Sorts the points, and adds them up.
pub(crate) fn points_of(alloc: Global, mut points: Vec<u128>) -> Result<Points, NoMemory>
    requires low { All (λ p. p ≤ most_point) points.items }
    requires few { length points.items < 2 ^ 32 }
    ensures { IfOk result (λ all. (a : ℕ) → sum_by (above a) all.points.items ≡ sum_by (above a) points.items) }
{
    points.sort()?;
    let sums = sums_of(alloc, &points)?;
    Ok(Points { points, sums })
}

// The number of points below an address.
fn count_below(points: &[u128], address: u128) -> usize
    requires { IsNonDecreasing points.now }
    ensures within { result ≤ length points.now }
    ensures below { (i : ℕ) → i < result → slice_index points.now i < address }
    ensures others { (i : ℕ) → result ≤ i → i < length points.now → address ≤ slice_index points.now i }
{
    points.partition_point(
        |point: &u128| -> bool
            ensures { result ≡ nat_lt point.now address }
        { *point < address },
    )
}

impl Points {
    /// Returns the sum of the address's distances above the points; a point that is not below it counts 0.
    /// The time grows with the logarithm of the number of points.
    pub(crate) fn sum_above(&self, address: u128) -> u128
        requires { address ≤ most_point }
        ensures value { result ≡ sum_by (above address) self.now.points.items }
        ensures bound { result ≤ 2 ^ 100 }
    {
        let count = count_below(&self.points, address);
        count as u128 * address - self.sums[count]
    }
}
