//! Laws about marks. Each law is the contract of a function with an empty body.

ghost use Rattle.std.specs.Prelude.{◌≡◌, true, List};
ghost use Rattle.mufom_debug.specs.declared.item.DebugItem.{DebugItem};
ghost use Rattle.mufom_debug.specs.Marks.{DebugMark, closes, marks_of, IsBalanced};

/// After the marks of items, as many blocks are open as before them: each block is closed after its items.
pub fn items_are_balanced()
    ensures { (items : List DebugItem) → IsBalanced (marks_of items) }
{}

/// Marks determine the items: each end closes the innermost open block, so different items have different
/// marks.
pub fn marks_determine_items()
    ensures { (a b : List DebugItem) → marks_of a ≡ marks_of b → a ≡ b }
{}

/// If marks end each block that they begin, and no other block, they are the marks of items.
pub fn closed_marks_are_those_of_items()
    ensures { (marks : List DebugMark) → closes 0 marks ≡ true → (items : List DebugItem) × (marks_of items ≡ marks) }
{}
