//! Laws about the definitions. Each law is the contract of a function with an empty body.

ghost use Rattle.std.specs.Prelude.{◌≡◌, ℕ, List, None, Some};
ghost use Rattle.mufom_sections.specs.declared.section.Section.{Section};
ghost use Rattle.mufom_plan.specs.declared.plan.Plan.{Plan};
ghost use Rattle.mufom_place.specs.declared.refusal.PlaceRefusal.{PlaceRefusal};
ghost use Rattle.mufom_place.specs.CopyLaws.{CopiesMoveNothing, FitsWithoutCopies};
ghost use Rattle.mufom_place.specs.Facts.{Stands, place_refusal};

/// An error that is returned in place of bases is a fact that holds, and if no error is returned, no
/// fact holds. So an error is returned if and only if some fact holds.
pub fn place_refusals_are_facts()
    ensures sound { (width : ℕ) (plan : Plan) (sections commons : List Section) (fact : PlaceRefusal)
        → place_refusal width plan sections commons ≡ Some fact → Stands width plan sections commons fact }
    ensures complete { (width : ℕ) (plan : Plan) (sections commons : List Section) (fact : PlaceRefusal)
        → place_refusal width plan sections commons ≡ None → ¬ Stands width plan sections commons fact }
{}

/// Copies move no section and no common: with copies, the first bases are those without them.
pub fn copies_move_nothing()
    ensures { CopiesMoveNothing }
{}

/// If nothing keeps sections, commons and copies from being placed, nothing keeps sections and commons from
/// being placed without copies.
pub fn fits_without_copies()
    ensures { FitsWithoutCopies }
{}
