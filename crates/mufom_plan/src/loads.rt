//! The regions into which regions are loaded.

ghost use Rattle.std.specs.Prelude.{◌≡◌, ◌<◌, IfSome, length};
ghost use Rattle.mufom_plan.specs.Names.{region_names};
ghost use Rattle.mufom_plan.specs.Loads.{first_wrong_load as wrong_load_of, is_load_of};

use crate::{NameList, Region};
use mufom_numbers::Bytes;

/// Whether a region may be loaded so: where it is, or into a region of this name that is loaded where it is.
fn is_load(regions: &[Region], names: &NameList, load: &Option<Bytes>) -> bool
    requires names { names.now ≡ region_names regions.now }
    ensures { result ≡ is_load_of regions.now load.now }
{
    let Some(name) = load else {
        return true;
    };
    match names.position(name.as_slice()) {
        Some(place) => regions[place].load.is_none(),
        None => false,
    }
}

/// The position of the first region that may not be loaded as it says. `names` has the names of the regions.
pub fn first_wrong_load(regions: &[Region], names: &NameList) -> Option<usize>
    requires names { names.now ≡ region_names regions.now }
    ensures first { result ≡ wrong_load_of regions.now }
    ensures within { IfSome result (λ place. place < length regions.now) }
{
    let is_wrong = |region: &Region| !is_load(regions, names, &region.load);
    regions.iter().position(is_wrong)
}
