//! Laws of links in groups, each the contract of a function that does nothing.

ghost use Rattle.mufom_groups.specs.Laws.{GroupsMakeNoDifference, LinkFactsStand, LinkedIsFlat, LinksAreSingle, LinksStandForFlat};

/// Trees with the same files, whatever their groups, link any modules into the same module, or both fail with
/// a link error.
pub fn groups_make_no_difference()
    ensures { GroupsMakeNoDifference }
{}

/// The list that is linked last is the flat list, if and only if the flat list can be linked.
pub fn linked_is_flat()
    ensures { LinkedIsFlat }
{}

/// A link error of a list that is linked before the flat list also applies to the flat list.
pub fn link_facts_stand()
    ensures { LinkFactsStand }
{}

/// The modules of a tree have at most one result: one module, or one link error.
pub fn links_are_single()
    ensures { LinksAreSingle }
{}

/// The module into which modules without a defect are linked can replace their flat list: it means what the
/// list means, whatever other modules are linked with it and wherever its sections are placed.
pub fn links_stand_for_flat_lists()
    ensures { LinksStandForFlat }
{}
