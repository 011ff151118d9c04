//! Destinations for lines of text.

ghost use Rattle.std.specs.Prelude.{◌≡◌, ℕ, List, [], ◌++◌};

/// A destination for text. Once a part of the text is lost, no more is added; the owner of the output finds
/// out at the end.
pub trait Output {
    /// How putting text changes the output.
    ghost takes: { Self → Self → List ℕ → Type 0 };

    /// Adds the text.
    fn put(&mut self, text: &[u8])
        ensures { takes self.old self.new text.now };

    ghost nothing: { (a : Self) → takes a a [] };

    ghost joins: { (a b c : Self) (xs ys : List ℕ) → takes a b xs → takes b c ys → takes a c (xs ++ ys) };
}
