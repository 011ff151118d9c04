//! Laws about linking in stages. Each law is the contract of a function with an empty body.

ghost use Rattle.mufom_meaning.specs.StagingLaws.{JoinedStandsFor, JoinedComposes, JoinedIsSingle, JoinedIsValid, LinkAnswersAgree, LinkFactsAgree};
ghost use Rattle.mufom_meaning.specs.StagingLaws.{AllGroupsAnswer, FactsAgree, SelectionAgrees, StagedMeansTheSame};

/// A partial link of modules without a defect can replace its list: in every context in which no
/// public name occurs twice, and wherever sections and commons are placed, it means what the list means.
pub fn joined_stands_for()
    ensures { JoinedStandsFor }
{}

/// Linking a list in which a group was linked before results in the link of the flat list, and conversely,
/// for modules without a defect that have the same descriptor and no public name twice.
pub fn joined_composes()
    ensures { JoinedComposes }
{}

/// A list has at most one partial link under a name.
pub fn joined_is_single()
    ensures { JoinedIsSingle }
{}

/// A partial link of modules without a defect weighs no more than they do together, with its name
/// in place of the first module's. It has no defect if that name has at most 65,535 bytes and
/// that sum is below 2^32.
pub fn joined_is_valid()
    ensures { JoinedIsValid }
{}

/// The fact that is returned in place of an outer link does not change if a group was linked before, even
/// if link facts hold. Only the modules of the group must have the same descriptor.
pub fn link_answers_agree()
    ensures { LinkAnswersAgree }
{}

/// The same link facts hold about a list in which a group was linked before and about the flat list, even
/// if descriptors differ or a name occurs twice. Only the modules of the group must have the same
/// descriptor.
pub fn link_facts_agree()
    ensures { LinkFactsAgree }
{}

/// A link fact that holds about a group of a list holds about the list. If each group was linked, or is
/// one module, linking the links returns the same fact, or none, as linking the whole list.
pub fn groups_answer()
    ensures { AllGroupsAnswer }
{}

/// The same facts hold about a list with a linked group and about the flat list, and the same one is
/// returned, for modules without a defect that have the same descriptor and no public name twice.
pub fn facts_agree()
    ensures { FactsAgree }
{}

/// The members selected for a list with a linked group are those selected for the flat list.
pub fn selection_agrees()
    ensures { SelectionAgrees }
{}

/// A list that was linked in stages means what the list of its leaves means, if these are without
/// a defect and have one descriptor and no public name twice. A group at the beginning of a list
/// keeps the name of its first module.
pub fn staged_means_the_same()
    ensures { StagedMeansTheSame }
{}
