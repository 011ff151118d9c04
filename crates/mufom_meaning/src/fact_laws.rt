//! Laws about facts and results. Each law is the contract of a function with an empty body.

ghost use Rattle.mufom_meaning.specs.FactLaws.{AllAnswersAreFacts, LinkFactsGrow, NoLinkAnswerIsLinkable, CountsAgree, CyclesAreShort};

/// A fact that is returned in place of a link holds, and if none is returned no link fact holds. The
/// same is true of a fact that is returned in place of a location, if no link fact holds.
pub fn answers_are_facts()
    ensures { AllAnswersAreFacts }
{}

/// A link fact that holds about a part of a list holds about the list.
pub fn link_facts_grow()
    ensures { LinkFactsGrow }
{}

/// No fact is returned in place of a link if and only if all modules of the list have the same
/// descriptor, no public name occurs twice, and there is at most one start.
pub fn no_link_answer_is_linkable()
    ensures { NoLinkAnswerIsLinkable }
{}

/// In modules without a defect, the number of bytes that is counted load by load, a repeat by its
/// product, is the number of bytes that the steps load.
pub fn counts_agree()
    ensures { CountsAgree }
{}

/// If a chain of mentions leads back to a name, then so does one that is no longer than the list of
/// publics.
pub fn cycles_are_short()
    ensures { CyclesAreShort }
{}
