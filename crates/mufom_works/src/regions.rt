//! The region with a name.

ghost use Rattle.std.specs.Prelude.{◌≡◌, option_map};
ghost use Rattle.std.specs.Str.{bytes_eq};
ghost use Rattle.mufom_works.specs.Works.{region_named as named};

use mufom_plan::Region;

fn has_name(region: &Region, name: &[u8]) -> bool
    ensures { result ≡ bytes_eq region.now.name name.now }
{
    region.name.as_slice() == name
}

/// The region with this name, if there is one.
pub fn region_named<'a>(regions: &'a [Region], name: &[u8]) -> Option<&'a Region>
    ensures { option_map (λ region. region.now) result ≡ named regions.now name.now }
{
    for region in regions {
        if has_name(region, name) {
            return Some(region);
        }
    }
    None
}
