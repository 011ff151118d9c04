//! Laws about lists that earlier links made in stages.

ghost use Rattle.mufom_stages.specs.StageLaws.{FirstNamesChangeNoLink, ListsLinkAsTheirLeaves, ModulesMayBeRenamed};
ghost use Rattle.mufom_stages.specs.StageLaws.{StagesAreLinks, StagesKeepLinkFacts, StagesKeepLinks};

/// Links in stages keep the link facts of a list, whether or not it can be linked: the same facts hold, and the
/// same one is returned in place of a link.
pub fn stages_keep_link_facts()
    ensures { StagesKeepLinkFacts }
{}

/// If a list can be linked, links in stages keep its links, and no module gets a defect.
pub fn stages_keep_links()
    ensures { StagesKeepLinks }
{}

/// The name of the first module of a list changes neither its link facts nor its links.
pub fn first_names_change_no_link()
    ensures { FirstNamesChangeNoLink }
{}

/// A list that came by links has the link facts of the list that they began with, and its links if it can be
/// linked, with the first module of that list under the name of its own first module.
pub fn lists_link_as_their_leaves()
    ensures { ListsLinkAsTheirLeaves }
{}

/// A list that results from stages in which each link at the beginning keeps the name of its first module
/// came by links, if the modules of the list that the stages began with have no defect, one descriptor and no
/// public name twice.
pub fn stages_are_links()
    ensures { StagesAreLinks }
{}

/// A module without a defect has none under another name of at most 65,535 bytes, if it is not too heavy
/// under that name.
pub fn modules_may_be_renamed()
    ensures { ModulesMayBeRenamed }
{}
