//! The mentions of some names, as they were found.

ghost use Rattle.std.specs.Prelude.{◌≡◌, map};
ghost use Rattle.mufom_explain.specs.Flat.{parts_of, wanted_names};
ghost use Rattle.mufom_explain.specs.Mentions.{mentions_of};

use crate::mention::Mention;
use crate::modules::FlatModule;
use crate::wanted::Wanted;
use mufom_numbers::List;

/// The mentions of some names by the modules of a flat list.
#[derive(Drop)]
pub(crate) struct Mentions<'a> {
    pub(crate) wanted: Wanted<'a>,
    pub(crate) flat: &'a [FlatModule<'a>],
    // For each name, in the order of the modules.
    pub(crate) mentions: Vec<List<Mention>>,
    ghost told: { mentions.items ≡ map (mentions_of (parts_of flat.now)) (wanted_names wanted) },
}
