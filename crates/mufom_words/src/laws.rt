//! Laws about the arguments. Each law is the contract of a function with an empty body.

ghost use Rattle.std.specs.Prelude.{◌≡◌};
ghost use Rattle.mufom_words.specs.Sound.{CommandsAreSound};
ghost use Rattle.mufom_words.specs.Tree.{Forest, spelling, tree_of};

/// Marks have one tree: the tree of the spelling of a tree is that tree.
pub fn trees_are_spelled()
    ensures { (tree : Forest) → tree_of (spelling tree) ≡ tree }
{}

/// Each command that arguments give has the marks of a tree over the first of its files, the options
/// of its verb, and is within the limits of a run.
pub fn commands_are_sound()
    ensures { CommandsAreSound }
{}
