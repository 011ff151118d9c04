//! The section or common that holds an address, and the nearest public in it that is not above the address.

ghost use Rattle.std.specs.Prelude.{◌≡◌, ◌==◌, ◌&&◌, filter, map, max, option_map, position, slice_get, if◌then◌else◌};
ghost use Rattle.mufom_map.specs.Shown.{base_of};
ghost use Rattle.mufom_map.specs.Spot.{greatest, is_below, is_nearest, lies_in};

use crate::room::base_of;
use mufom_meaning::PublicValue;
use mufom_sections::Section;

/// The section with a number, if there is one.
pub(crate) fn section_numbered(sections: &[Section], number: usize) -> Option<&Section>
    ensures { option_map (λ section. section.now) result ≡ slice_get sections.now number }
{
    sections.get(number)
}

/// The public at a position, if there is one.
pub(crate) fn public_numbered(publics: &[PublicValue], position: usize) -> Option<&PublicValue>
    ensures { option_map (λ public. public.now) result ≡ slice_get publics.now position }
{
    publics.get(position)
}

// Whether an address lies in a section with this base and size.
fn lies_in(base: u64, size: u64, address: u64) -> bool
    ensures { result ≡ lies_in base size address }
{
    base <= address && (address as u128) < base as u128 + size as u128
}

// Whether an address lies in the section.
fn holds(section: &Section, address: u64) -> bool
    ensures { result ≡ lies_in (base_of section.now) section.now.size address }
{
    lies_in(base_of(section), section.size, address)
}

/// The number of the section that holds an address. The time is linear in the number of sections.
pub(crate) fn section_at(sections: &[Section], address: u64) -> Option<usize>
    ensures { result ≡ position (λ s. lies_in (base_of s) s.size address) sections.now }
{
    sections.iter().position(|section| holds(section, address))
}

// Whether a value is in a section with this base and size, and not above the address.
fn is_below(base: u64, size: u64, address: u64, value: u64) -> bool
    ensures { result ≡ is_below base size address value }
{
    lies_in(base, size, value) && value <= address
}

// The greater of two values, if the second is in the section and not above the address; otherwise the first.
fn greater(base: u64, size: u64, address: u64, greatest: u64, value: u64) -> u64
    ensures { result ≡ (if is_below base size address value then max greatest value else greatest) }
{
    if is_below(base, size, address, value) {
        greatest.max(value)
    } else {
        greatest
    }
}

// The greatest value of a public that is in the section and not above the address.
fn greatest_value(base: u64, size: u64, address: u64, publics: &[PublicValue]) -> u64
    ensures { result ≡ greatest (filter (is_below base size address) (map (λ p. p.value) publics.now)) }
{
    let mut greatest = 0;
    for public in publics {
        greatest = greater(base, size, address, greatest, public.value);
    }
    greatest
}

// Whether the value of a public is this one, in the section and not above the address.
fn has_value(base: u64, size: u64, address: u64, value: u64, public: &PublicValue) -> bool
    ensures { result ≡ (is_below base size address public.now.value && (public.now.value == value)) }
{
    is_below(base, size, address, public.value) && public.value == value
}

/// The position of the public with the greatest value that is in a section with this base and size and not
/// above the address; of equal values the first. The time is linear in the number of publics.
pub(crate) fn public_at(
    base: u64,
    size: u64,
    address: u64,
    publics: &[PublicValue],
) -> Option<usize>
    ensures { result ≡ position (λ p. is_nearest base size address (map (λ q. q.value) publics.now) p.value) publics.now }
{
    let value = greatest_value(base, size, address, publics);
    publics
        .iter()
        .position(|public| has_value(base, size, address, value, public))
}
