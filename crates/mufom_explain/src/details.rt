//! The lines that follow an error line, as values from which they are printed.

ghost use Rattle.std.specs.Prelude.{◌≡◌, ◌∷◌, []};
ghost use Rattle.mufom_meaning.specs.Placed.{placed_commons};
ghost use Rattle.mufom_text.specs.Fitting.{IsUnitCount};

use crate::mentions::Mentions;
use crate::modules::FlatModule;
use mufom_field_values::FieldValue;
use mufom_module::Module;
use mufom_numbers::List;
use mufom_origins::{ModuleFiles, Origins};
use mufom_place::RegionCopy;
use mufom_plan::Plan;
use mufom_sections::Section;

// The lines to put.
#[derive(Drop)]
pub(crate) enum LinkKind<'a> {
    // The first module, and the first with another descriptor.
    Mismatch,
    Mentions(Mentions<'a>),
    // The first two modules with a start.
    Starts,
    Nothing,
}

/// The lines that follow the error line of a list of modules that cannot be linked.
#[derive(Drop)]
pub struct LinkDetails<'a> {
    pub(crate) names: &'a ModuleFiles,
    pub(crate) flat: &'a [FlatModule<'a>],
    pub(crate) kind: LinkKind<'a>,
}

/// The lines about a name: the modules that mention it.
#[derive(Drop)]
pub struct NameDetails<'a> {
    pub(crate) names: &'a ModuleFiles,
    pub(crate) mentions: Mentions<'a>,
}

/// The lines that follow the error line of a name that a symbol of the plan shares with a public.
#[derive(Drop)]
pub struct SharedDetails<'a> {
    pub(crate) name: &'a [u8],
    // The position of the symbol in the plan.
    pub(crate) symbol: Option<usize>,
    pub(crate) mentions: NameDetails<'a>,
}

/// The context in which the error of a module that cannot be located is explained.
#[derive(Clone, Copy)]
pub struct LocateContext<'a> {
    /// The files of all modules, in the order in which they were read.
    pub names: &'a ModuleFiles,
    /// The modules of the flat list.
    pub flat: &'a [FlatModule<'a>],
    /// The origins of the entries of the module that is located.
    pub origins: &'a Origins,
    /// The module that is located: the link of the flat list, or what is left of it, with the plan's symbols.
    pub module: &'a Module,
    /// That module without the plan's symbols. Its expressions are shown.
    pub own: &'a Module,
    pub plan: &'a Plan,
}

// The lines to put. Sections, commons and copies of regions are given by their numbers.
#[derive(Drop)]
pub(crate) enum LocateKind<'a> {
    // A section.
    Entry(u32),
    // A section, common or copy, with all copies.
    Placed(List<RegionCopy>, u32),
    // Two of them.
    Entries(List<RegionCopy>, u32, u32),
    // One of them that does not fit, with all copies, and its region, with the space that the region's sections
    // take from its base on.
    Misfit {
        copies: List<RegionCopy>,
        section: u32,
        region: u32,
        taken: u128,
    },
    // A section, and the value of a field that is loaded into it.
    Field {
        section: u32,
        value: FieldValue<'a>,
    },
    Mentions(Mentions<'a>),
    Nothing,
}

/// The lines that follow the error line of a module that cannot be located.
#[derive(Drop)]
pub struct LocateDetails<'a> {
    pub(crate) context: LocateContext<'a>,
    pub(crate) commons: List<Section>,
    pub(crate) kind: LocateKind<'a>,
    ghost units: { IsUnitCount context.module.now.maus },
    ghost commons_are: { commons ≡ placed_commons (context.module.now ∷ []) context.plan.now },
}
