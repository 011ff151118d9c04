//! Laws about modules without debug items.

ghost use Rattle.mufom_debug_laws.specs.DebugLaws.{DebugPartsMayBeSkipped, ModulesStayValid};
ghost use Rattle.mufom_debug_laws.specs.FileLaws.{FilesLoseDebugAlone};
ghost use Rattle.mufom_debug_laws.specs.LinkLaws.{DebugChangesNoLinkFact, LinksLoseDebugAlone};
ghost use Rattle.mufom_debug_laws.specs.LocationLaws.{LocationsLoseDebugAlone, ReadingsLoseDebugAlone};
ghost use Rattle.mufom_debug_laws.specs.PlannedLaws.{PlansLoseDebugAlone};

/// A module without a defect has none without its debug items.
pub fn modules_stay_valid()
    ensures { ModulesStayValid }
{}

/// A file of a module that is read with its debug part is, if the debug part is skipped, a file of the module
/// without its debug items, and of no other.
pub fn debug_parts_may_be_skipped()
    ensures { DebugPartsMayBeSkipped }
{}

/// Without their debug items, modules have the same link facts: they can be linked if and only if they can be
/// linked with them.
pub fn debug_changes_no_link_fact()
    ensures { DebugChangesNoLinkFact }
{}

/// The link of modules without their debug items is their link without its debug items.
pub fn links_lose_debug_alone()
    ensures { LinksLoseDebugAlone }
{}

/// Wherever their sections and commons are placed, modules mean the same without their debug items, except for
/// what those mean.
pub fn readings_lose_debug_alone()
    ensures { ReadingsLoseDebugAlone }
{}

/// Without their debug items, modules that can be located by a plan have the same location, without its debug
/// items. So their image is the same.
pub fn locations_lose_debug_alone()
    ensures { LocationsLoseDebugAlone }
{}

/// The same is true of plans with symbols and with regions that are loaded into others: without their debug
/// items, modules have the same location by such a plan.
pub fn plans_lose_debug_alone()
    ensures { PlansLoseDebugAlone }
{}

/// So files that are read as modules have the same link and the same location if their debug parts are skipped,
/// without debug items.
pub fn files_lose_debug_alone()
    ensures { FilesLoseDebugAlone }
{}
