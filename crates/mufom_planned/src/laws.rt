//! Laws about locating by plans with symbols and load regions. Each law is the contract of a function with an
//! empty body.

ghost use Rattle.mufom_planned.specs.PlanLaws.{PlainPlansMeanTheSame, PlannedIsLocatable, StagedPlansMeanTheSame};
ghost use Rattle.mufom_planned.specs.PlanLaws.{PlannedAbsoluteIsLocatedAsItself, PlannedAbsoluteIsValid, PlannedAbsoluteWeighs};
ghost use Rattle.mufom_planned.specs.PlanLaws.{NamesDoNotDependOnValues, PlacementDoesNotDependOnValues, SymbolsHaveTheirOwnLayout};
ghost use Rattle.mufom_planned.specs.PlanLaws.{PlannedLocationIsSingle, PlannedLocationsExist};

/// A plan without symbols, all of whose regions are loaded where they are, means what it means without
/// symbols and copies: the same fact is returned in place of a location, and the location is the same.
pub fn plain_plans_mean_the_same()
    ensures { PlainPlansMeanTheSame }
{}

/// The public names of a list with the symbols of a plan do not depend on the values of the symbols, and neither
/// does the place of any section, common or copy. So the places that the values are computed from are those of
/// the list that has the values.
pub fn places_do_not_depend_on_values()
    ensures names { NamesDoNotDependOnValues }
    ensures places { PlacementDoesNotDependOnValues }
    ensures own { SymbolsHaveTheirOwnLayout }
{}

/// A list that was linked in stages is located by a plan as the list of its leaves, with the plan's symbols and
/// copies, if the leaves are without a defect and have one descriptor and no public name twice: the same fact
/// is returned in place of a location, and the location is the same. If no symbol has the name of a public, the
/// lists mean the same with the symbols.
pub fn staged_plans_mean_the_same()
    ensures { StagedPlansMeanTheSame }
{}

/// If a list without a defect can be linked and nothing is returned in place of its location by a plan, the list
/// with the plan's symbols has no defect, and can be linked, and located without copies.
pub fn planned_is_locatable()
    ensures { PlannedIsLocatable }
{}

/// If nothing is returned in place of a location by a plan of a list without a defect that can be linked, and
/// the list is not empty, it has a location.
pub fn planned_locations_exist()
    ensures { PlannedLocationsExist }
{}

/// A list has at most one location by a plan.
pub fn planned_location_is_single()
    ensures { PlannedLocationIsSingle }
{}

/// Locating the absolute module of a location by a plan alone, by a plan without regions, results in the same
/// location, if the located modules have no defect. In the absolute module symbols are publics, and commons and
/// copies are sections.
pub fn planned_absolute_is_located_as_itself()
    ensures { PlannedAbsoluteIsLocatedAsItself }
{}

/// The absolute module of a location by a plan of modules without a defect has no defect, if its weight is
/// below 2^32 and the names of the plan's regions are no longer together than the text of a plan.
pub fn planned_absolute_is_valid()
    ensures { PlannedAbsoluteIsValid }
{}

/// The absolute module of a location by a plan of modules without a defect weighs at most as much as they do
/// together, plus 31 for each section, 31 for each loaded byte, 42 for each weak reference of a size above 0,
/// and what the symbols and the copies of the plan add: 156, 33 for each byte of a symbol's name and one more,
/// and 84 for each byte of a region's name and one more.
pub fn planned_absolute_weighs()
    ensures { PlannedAbsoluteWeighs }
{}
