//! Laws of listings, each the contract of a function that does nothing.

ghost use Rattle.std.specs.Prelude.{◌≡◌, ℕ};
ghost use Rattle.mufom_module.specs.declared.module.Defect.{Defect};
ghost use Rattle.mufom_module.specs.declared.module.Parts.{Parts};
ghost use Rattle.mufom_module.specs.Defects.{IsValid};
ghost use Rattle.mufom_module.specs.Made.{IsMade};
ghost use Rattle.mufom_text.specs.Show.{listing_text};
ghost use Rattle.mufom_text.specs.Words.{Text};
ghost use Rattle.mufom_refusals.specs.declared.build.BuildReason.{BuildReason};
ghost use Rattle.mufom_build_text.specs.Pieces.{loose};
ghost use Rattle.mufom_build_text.specs.Places.{SpellsLines};
ghost use Rattle.mufom_build.specs.Lines.{listing_lines, Build, Shape};
ghost use Rattle.mufom_build.specs.Refusals.{HasDefect, IsRefusedAt};

/// The listing of a module, as it is printed, is a text from which the module is built.
pub fn listings_build()
    ensures { (m : Parts) → IsMade m → IsValid m → Build (listing_text m) m }
{}

/// A text from which a module is built has the shape of a listing.
pub fn built_texts_have_the_shape()
    ensures { (text : Text) (m : Parts) → Build text m → Shape text }
{}

/// A text lists the parts of at most one module, whatever positions and counts it states. So at most one
/// module can be built from it.
pub fn texts_list_one_module()
    ensures loosely { (text : Text) (m n : Parts) → SpellsLines loose (listing_lines m) text → SpellsLines loose (listing_lines n) text → m ≡ n }
    ensures exactly { (text : Text) (m n : Parts) → Build text m → Build text n → m ≡ n }
{}

/// A text that lists parts with a defect lists none with another defect, and no module can be built from it.
pub fn defects_build_nothing()
    ensures nothing { (text : Text) (m : Parts) (d : Defect) → Build text m → HasDefect text d → ⊥ }
    ensures one { (text : Text) (d other : Defect) → HasDefect text d → HasDefect text other → d ≡ other }
{}

/// A text is refused at no more than one line and column, and for only one reason.
pub fn texts_have_one_refusal()
    ensures { (text : Text) (line column other_line other : ℕ) (reason kind : BuildReason) → IsRefusedAt text line column reason
        → IsRefusedAt text other_line other kind → (line ≡ other_line) × (column ≡ other) × (reason ≡ kind) }
{}

/// A text from which a module can be built, or that lists parts with a defect, is not refused at any place.
pub fn listings_are_not_refused()
    ensures built { (text : Text) (m : Parts) (line column : ℕ) (reason : BuildReason) → Build text m → IsRefusedAt text line column reason → ⊥ }
    ensures defect { (text : Text) (d : Defect) (line column : ℕ) (reason : BuildReason) → HasDefect text d
        → IsRefusedAt text line column reason → ⊥ }
{}
