//! Laws about the bounds of what is read, linked and located.

ghost use Rattle.mufom_bounds.specs.BoundLaws.{AbsolutesAreBounded, AbsolutesAreLight, FilesAreBounded, LinksAreBounded};
ghost use Rattle.mufom_bounds.specs.BoundLaws.{PlannedAbsolutesAreBounded, PlannedAbsolutesAreLight, PlansAreBounded, PlansNameBytes};

/// The module of a file that consists of bytes is within the bounds of its parts.
pub fn files_are_bounded()
    ensures { FilesAreBounded }
{}

/// A link of modules within the bounds is within them too, if its name consists of bytes.
pub fn links_are_bounded()
    ensures { LinksAreBounded }
{}

/// The absolute module of a location of modules within the bounds is within them too.
pub fn absolutes_are_bounded()
    ensures { AbsolutesAreBounded }
{}

/// The absolute module of a location weighs less than 2^32 if its modules weigh no more than those of a run can.
pub fn absolutes_are_light()
    ensures { AbsolutesAreLight }
{}

/// The absolute module of a location by a plan with symbols and load regions is within the bounds too, if the
/// modules are, and the names of the plan consist of bytes and its regions end below 2^64.
pub fn planned_absolutes_are_bounded()
    ensures { PlannedAbsolutesAreBounded }
{}

/// That module weighs less than 2^32 if its modules weigh no more than those of a run can, and the names of the
/// plan are no longer than the text of a plan.
pub fn planned_absolutes_are_light()
    ensures { PlannedAbsolutesAreLight }
{}

/// The plan of a text has at most 65,536 regions, and no longer names of regions and of symbols.
pub fn plans_are_bounded()
    ensures { PlansAreBounded }
{}

/// The names of the symbols and regions of a plan consist of bytes if its text does, and the regions end below
/// 2^64.
pub fn plans_name_bytes()
    ensures { PlansNameBytes }
{}
