//! Laws about what remains of a pruned module, each the contract of a function that does nothing.

ghost use Rattle.mufom_prune.specs.Meaning.{PrunedIsSingle, PrunedMeansTheRest};

/// What remains of a module without a defect means the same as it does in the whole module, wherever
/// sections and commons are placed: the sections, the publics, the steps of these sections and the start have the
/// same values. Fewer publics allow fewer steps of names, and these are enough.
pub fn pruned_means_the_rest()
    ensures { PrunedMeansTheRest }
{}

/// For names to keep and names of sections that always stay, at most one module is what remains of a module.
pub fn pruned_is_single()
    ensures { PrunedIsSingle }
{}
