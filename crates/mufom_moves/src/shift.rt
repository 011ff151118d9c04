//! Extents of addresses whose bytes are moved.

ghost use Rattle.std.specs.Prelude.{◌≡◌, ◌+◌, ◌<◌, ◌≤◌};
ghost use Rattle.std.specs.List.Sorted.{IsPermutation};
ghost use Rattle.mufom_moves.specs.Shifts.{AreRisingFrom, MoveAlikeFrom, EndsAfter};

/// An extent of addresses whose bytes are moved, all by the same distance.
#[derive(Clone, Copy, Debug)]
pub struct Shift {
    /// The first address.
    pub from: u64,
    /// The number of addresses.
    pub size: u64,
    /// The address to which the byte at `from` is moved.
    pub to: u64,
}

impl Shift {
    /// The address after the last one. Does not allocate.
    pub fn end(&self) -> u128
        ensures { result ≡ self.now.from + self.now.size }
    {
        self.from as u128 + self.size as u128
    }
}

/// Sorts extents by their first addresses.
pub fn sort_by_start(shifts: &mut Vec<Shift>)
    ensures permutation { IsPermutation shifts.old.items shifts.new.items }
    ensures rising { AreRisingFrom 0 shifts.new.items }
{
    shifts.sort_unstable_by_key(|shift| shift.from);
}

/// Returns the extents without the first ones that end at an address or before it. They must be in order of
/// their first addresses.
pub fn ending_after(shifts: &[Shift], address: u64) -> &[Shift]
    requires { AreRisingFrom 0 shifts.now }
    ensures alike { MoveAlikeFrom address result.now shifts.now }
    ensures rising { AreRisingFrom 0 result.now }
    ensures after { EndsAfter address result.now }
{
    let mut rest = shifts;
    while let [shift, more @ ..] = rest {
        if shift.end() > address as u128 {
            break;
        }
        rest = more;
    }
    rest
}
