//! What comes next on a line after any spaces.

ghost use Rattle.std.specs.Prelude.{◌≡◌, ◌↔◌, IsTrue};
ghost use Rattle.mufom_build.specs.ReadKinds.{IsAhead, HasFigureAhead, HasEndAhead};

use mufom_build_text::Cursor;

/// Whether this byte, which is not a space, comes next after any spaces.
pub(crate) fn is_ahead(cursor: &Cursor, byte: u8) -> bool
    requires { byte ≡ 32 → ⊥ }
    ensures { IsTrue result ↔ IsAhead byte cursor.now.rest }
{
    match cursor.after_gap() {
        None => false,
        Some(next) => next == byte,
    }
}

/// Whether a decimal digit comes next after any spaces.
pub(crate) fn is_figure_ahead(cursor: &Cursor) -> bool
    ensures { IsTrue result ↔ HasFigureAhead cursor.now.rest }
{
    match cursor.after_gap() {
        None => false,
        Some(byte) => byte.is_ascii_digit(),
    }
}

/// Whether the line ends after any spaces.
pub(crate) fn is_end_ahead(cursor: &Cursor) -> bool
    ensures { IsTrue result ↔ HasEndAhead cursor.now.rest }
{
    match cursor.after_gap() {
        None => true,
        Some(byte) => byte == b'\n',
    }
}
