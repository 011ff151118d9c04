//! A law about explanations, the contract of a function that does nothing.

ghost use Rattle.mufom_explain.specs.Laws.{ExplanationsAreAlike};

/// An error of locating is explained in the same way for lists of modules that mean the same, as a list and
/// its link do.
pub fn explanations_are_alike()
    ensures { ExplanationsAreAlike }
{}
