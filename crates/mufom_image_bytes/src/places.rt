//! The addresses of copies of items.

ghost use Rattle.std.specs.Prelude.{◌≡◌, ◌≤◌, ◌%◌, ◌^◌, option_map};
ghost use Rattle.mufom_meaning.specs.Facts.{load_outside};
ghost use Rattle.mufom_image_bytes.specs.Outcomes.{base_in, size_in, outside_in, IsFirstOutside};

use crate::layout::Layout;

/// The first of `count` addresses that lies outside the `size` addresses from `base` on.
pub fn first_outside(at: u64, count: u64, base: u64, size: u64) -> Option<u128>
    ensures { IsFirstOutside base size at count result }
{
    if count == 0 {
        return None;
    }
    let start = at as u128;
    let from = base as u128;
    let to = from + size as u128;
    if start < from || to <= start {
        return Some(start);
    }
    if to < start + count as u128 {
        return Some(to);
    }
    None
}

impl<'a> Layout<'a> {
    // The base of a section, or 0 if there is none.
    fn base(&self, section: u32) -> u64
        ensures { result ≡ base_in self.now section }
    {
        self.bases.get(section as usize).copied().unwrap_or(0)
    }

    // The size of a section, or 0 if there is none.
    fn size(&self, section: u32) -> u64
        ensures { result ≡ size_in self.now section }
    {
        match self.sections.get(section as usize) {
            Some(found) => found.size,
            None => 0,
        }
    }

    /// An address modulo the address space.
    pub fn residue(&self, address: u128) -> u64
        requires { self.now.width ≤ 64 }
        ensures { result ≡ address % 2 ^ self.now.width }
    {
        let modulus = 1u128 << self.width;
        if address < modulus {
            address as u64
        } else {
            (address % modulus) as u64
        }
    }

    /// Returns the address of the first of `count` bytes at a counter that lies outside the section, modulo
    /// the address space.
    pub fn outside(&self, section: u32, at: u64, count: u64) -> Option<u64>
        requires { self.now.width ≤ 64 }
        ensures { option_map (λ a. load_outside section a) result ≡ outside_in self.now section at count }
    {
        match first_outside(at, count, self.base(section), self.size(section)) {
            Some(address) => Some(self.residue(address)),
            None => None,
        }
    }
}
