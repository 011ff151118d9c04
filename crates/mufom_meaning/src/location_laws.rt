//! Laws about values, locations and selections. Each law is the contract of a function with an empty body.

ghost use Rattle.mufom_meaning.specs.Valued.{NoneByDivision, ValuesExist};
ghost use Rattle.mufom_meaning.specs.LocationLaws.{AllValued, LocationsExist, LocationIsSingle, AbsoluteIsLocatedAsItself, AbsoluteIsValid};
ghost use Rattle.mufom_meaning.specs.LocationLaws.{AbsoluteWeighs, SelectionIsSingle};

/// If no link fact and no fact that needs no walk holds, an expression of modules without a defect has no
/// value if and only if it, or a public or a counter that its value depends on, divides by 0.
pub fn none_by_division()
    ensures { NoneByDivision }
{}

/// If no fact holds about modules without a defect, each expression and each counter has a value.
pub fn values_exist()
    ensures { ValuesExist }
{}

/// If no fact holds about modules without a defect, each reading has its values.
pub fn all_valued()
    ensures { AllValued }
{}

/// If no fact holds about a list of modules without a defect, and the list is not empty, it has a
/// location.
pub fn locations_exist()
    ensures { LocationsExist }
{}

/// A list has at most one location by a plan.
pub fn location_is_single()
    ensures { LocationIsSingle }
{}

/// Locating the absolute module of a location alone, by a plan without regions, results in the same
/// location, if the located modules have no defect. In the absolute module the commons are sections.
pub fn absolute_is_located_as_itself()
    ensures { AbsoluteIsLocatedAsItself }
{}

/// The absolute module of a location of modules without a defect has no defect, if its weight is below
/// 2^32.
pub fn absolute_is_valid()
    ensures { AbsoluteIsValid }
{}

/// The absolute module of a location of modules without a defect weighs at most as much as they do
/// together, plus 31 for each section, 31 for each loaded byte and 42 for each weak reference of a size
/// above 0.
pub fn absolute_weighs()
    ensures { AbsoluteWeighs }
{}

/// A list has at most one selection of members.
pub fn selection_is_single()
    ensures { SelectionIsSingle }
{}
