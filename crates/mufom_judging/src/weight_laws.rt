//! Laws about the weight of a module. Each law is the contract of a function with an empty body.

ghost use Rattle.mufom_judging.specs.Laws.{FilesWeighTenfold, ModulesWeighTenfold};

/// What the records of a file state weighs at most ten times the file's length, even if the file is invalid.
pub fn files_weigh_tenfold()
    ensures { FilesWeighTenfold }
{}

/// A module weighs at most ten times the length of its file.
pub fn modules_weigh_tenfold()
    ensures { ModulesWeighTenfold }
{}
