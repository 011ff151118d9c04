//! Laws that callers need. Each law is the contract of a function with an empty body.

ghost use Rattle.mufom_meaning.specs.CallLaws.{ModulesMayBePlaced, BasesByPosition, AreValidIsAll};

/// A module without a defect satisfies the preconditions of placing, for each plan: its addresses are 8 to
/// 64 bits wide, its sections and commons have valid alignments and are fewer than 2^32, and no common has
/// a base.
pub fn modules_may_be_placed()
    ensures { ModulesMayBePlaced }
{}

/// The bases by a plan are those that placing returns: of a section by its flat number, and of a
/// common by its position after the sections. If no region takes commons, none has a base.
pub fn bases_by_position()
    ensures { BasesByPosition }
{}

/// Each element of a list is without a defect if and only if all modules of the list are: what is known
/// about the elements of a slice of modules is what the laws require of a list.
pub fn are_valid_is_all()
    ensures { AreValidIsAll }
{}
