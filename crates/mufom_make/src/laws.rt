//! Laws of the generated modules, each the contract of a function that does nothing.

ghost use Rattle.std.specs.Prelude.{◌≡◌, ◌≤◌, ℕ, None};
ghost use Rattle.mufom_numbers.specs.declared.limits.TheConstants.{MOST_MODULES};
ghost use Rattle.mufom_meaning.specs.declared.located.LocatedParts.{LocatedParts};
ghost use Rattle.mufom_meaning.specs.LinkAnswer.{link_answer};
ghost use Rattle.mufom_meaning.specs.LocateAnswer.{locate_answer};
ghost use Rattle.mufom_meaning.specs.Location.{IsLocation};
ghost use Rattle.mufom_make.specs.Generated.{made_modules, made_plan};

/// The generated modules, of which there are 1 to 65,536, can always be linked, and located by their plan:
/// they have a location. So [`locate_generated`](crate::locate_generated) fails only if memory runs out.
pub fn generated_modules_are_located()
    ensures linked { (count : ℕ) → count ≤ MOST_MODULES → link_answer (made_modules count) ≡ None }
    ensures located { (count : ℕ) → 1 ≤ count → count ≤ MOST_MODULES → locate_answer (made_modules count) (made_plan count) ≡ None }
    ensures location { (count : ℕ) → 1 ≤ count → count ≤ MOST_MODULES
        → (r : LocatedParts) × IsLocation (made_modules count) (made_plan count) r }
{}
