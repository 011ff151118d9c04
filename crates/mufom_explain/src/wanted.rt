//! Names to look for, each once, found by hashing.

ghost use Rattle.std.specs.Prelude.{◌≡◌, map};
ghost use Rattle.mufom_names.specs.Index.{numbered_from};

use mufom_names::NameIndex;

/// Names in an order, and an index of their positions in it.
#[derive(Drop)]
pub(crate) struct Wanted<'a> {
    pub(crate) names: Vec<&'a [u8]>,
    pub(crate) index: NameIndex<'a>,
    ghost indexed: { index ≡ numbered_from 0 (map (λ name. name.now) names.items) },
}
