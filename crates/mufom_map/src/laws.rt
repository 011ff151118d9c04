//! Laws about the space that sections use and the order of sections, each the contract of a function that
//! does nothing.

ghost use Rattle.std.specs.Prelude.{map, ◌≡◌, ◌≤◌, ◌+◌, ◌-◌, ◌&&◌, ℕ, List, nat_le, nat_lt, if◌then◌else◌};
ghost use Rattle.mufom_plan.specs.declared.plan.Plan.{Plan};
ghost use Rattle.mufom_plan.specs.declared.plan.Region.{Region};
ghost use Rattle.mufom_place.specs.declared.placing.Extent.{Extent};
ghost use Rattle.mufom_place.specs.Facts.{in_order};
ghost use Rattle.mufom_meaning.specs.declared.located.LocatedParts.{LocatedParts};
ghost use Rattle.mufom_origins.specs.Origins.{FileModule};
ghost use Rattle.mufom_map.specs.MapText.{by_key, extent_of};
ghost use Rattle.mufom_map.specs.Mapped.{mapped};
ghost use Rattle.mufom_map.specs.Room.{cell_count, cell_start, covered_from, shared, used_between, used_in, ShareNoAddress};

/// The space that sections use is the number of their addresses: a section shares one address if and only if
/// it contains it, and what is used between two addresses adds up.
pub fn used_room_counts_addresses()
    ensures one { (a : ℕ) (s : Extent) → shared a (a + 1) s ≡ (if nat_le s.base a && nat_lt a (s.base + s.size) then 1 else 0) }
    ensures sum { (from between to : ℕ) (sections : List Extent) → from ≤ between → between ≤ to →
        used_between from to sections ≡ used_between from between sections + used_between between to sections }
{}

/// If no two sections share an address, as in a location, what they use of a region is the number of its addresses
/// that lie in a section, and so is what they use of each cell of its bar, or between any two addresses.
pub fn used_room_is_the_number_of_covered_addresses()
    ensures between { (sections : List Extent) → ShareNoAddress sections → (from to : ℕ) → from ≤ to →
        used_between from to sections ≡ covered_from sections from (to - from) }
    ensures region { (sections : List Extent) → ShareNoAddress sections → (region : Region) →
        used_in region sections ≡ covered_from sections region.base region.size }
{}

/// The cells of a bar cover a region: the first begins where the region begins, each other one where the one
/// before ends, and the last ends where the region ends.
pub fn cells_cover_a_region()
    ensures first { (region : Region) → cell_start region 0 ≡ region.base }
    ensures last { (region : Region) → cell_start region cell_count ≡ region.base + region.size }
    ensures rise { (region : Region) (cell : ℕ) → cell_start region cell ≤ cell_start region (cell + 1) }
{}

/// The sections of a map are in the order in which placing compares them: by base, then by number.
pub fn sections_are_in_order()
    ensures { (files : List FileModule) (plan : Plan) (r : LocatedParts) →
        map extent_of (by_key (λ s. s.base) (mapped files plan r).sections) ≡ in_order (map extent_of (mapped files plan r).sections) }
{}
