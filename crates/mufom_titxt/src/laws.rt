//! Laws of texts, each the contract of a function that does nothing.

ghost use Rattle.std.specs.Prelude.{◌≡◌, ◌≤◌, ◌*◌, ◌∷◌, [], ℕ, List, length, None, Some};
ghost use Rattle.mufom_numbers.specs.declared.limits.TheConstants.{MOST_FILE_BYTES};
ghost use Rattle.mufom_meaning.specs.declared.located.Run.{Run};
ghost use Rattle.mufom_meaning.specs.declared.located.LocatedParts.{LocatedParts};
ghost use Rattle.mufom_meaning.specs.Absolute.{no_regions};
ghost use Rattle.mufom_meaning.specs.AddressMap.{Cell};
ghost use Rattle.mufom_meaning.specs.Location.{IsLocation};
ghost use Rattle.mufom_refusals.specs.declared.text.TxtRefusal.{TxtRefusal};
ghost use Rattle.mufom_titxt.specs.FirstErrors.{IsTxtError};
ghost use Rattle.mufom_titxt.specs.Texts.{TxtMap, IsTxtOf, txt_cells, txt_refusal};
ghost use Rattle.mufom_titxt.specs.TextModules.{text_parts, HaveModule, HaveText};
ghost use Rattle.mufom_titxt.specs.Written.{txt_text};

/// A text without an error gives its bytes to its addresses: it has lines, one line that ends it and only
/// blank lines after that, each line with bytes follows one with an address, and no address has two bytes or
/// is beyond the end of the address space.
pub fn accepted_texts_are_texts()
    ensures { (text : List ℕ) (width : ℕ) → txt_refusal text width ≡ None → TxtMap text width (txt_cells text) }
{}

/// A text that gives bytes to addresses has no error, and these bytes are read from it.
pub fn texts_are_accepted()
    ensures accepted { (text : List ℕ) (width : ℕ) (cells : List Cell) → TxtMap text width cells → txt_refusal text width ≡ None }
    ensures cells { (text : List ℕ) (width : ℕ) (cells : List Cell) → TxtMap text width cells → txt_cells text ≡ cells }
{}

/// The error of a text is at the first wrong line: the lines before it give their bytes to addresses, each
/// below the end of the address space and each once, and this line is none, or has bytes without an address,
/// a byte beyond the end or a second byte for an address, or follows the end and is not blank. If no line is
/// wrong, the error is that no line ends the text.
pub fn errors_are_at_the_first_wrong_line()
    ensures wrong { (text : List ℕ) (width : ℕ) (r : TxtRefusal) → txt_refusal text width ≡ Some r → IsTxtError text width r }
    ensures refused { (text : List ℕ) (width : ℕ) (r : TxtRefusal) → IsTxtError text width r → txt_refusal text width ≡ Some r }
{}

/// The text that is written of runs (maximal, in increasing order, below the end of the address space) is a
/// text of these runs. So [`read_txt`](crate::read_txt) returns the runs that were written.
pub fn written_texts_are_read_back()
    ensures accepted { (width : ℕ) (runs : List Run) → HaveText width runs → IsTxtOf (txt_text runs) width runs }
    ensures single { (width : ℕ) (runs other : List Run) → HaveText width runs → IsTxtOf (txt_text runs) width other → other ≡ runs }
{}

/// If the module that [`text_module`](crate::text_module) makes of runs is located alone, by a plan without
/// regions, its location has the same runs.
pub fn located_texts_have_their_runs()
    ensures { (maus : ℕ) (runs : List Run) (r : LocatedParts) → HaveModule (8 * maus) runs
        → IsLocation (text_parts maus runs ∷ []) no_regions r → r.runs ≡ runs }
{}

/// The module of runs can be located alone, by a plan without regions, and its location has the same runs.
pub fn text_modules_are_located()
    ensures { (maus : ℕ) (runs : List Run) → 1 ≤ maus → maus ≤ 8 → HaveModule (8 * maus) runs
        → (r : LocatedParts) × IsLocation (text_parts maus runs ∷ []) no_regions r × (r.runs ≡ runs) }
{}

/// The runs that are read from a text can be made into a module, if the text is no longer than a file may be,
/// and can be written as a text again.
pub fn runs_of_texts_have_modules()
    ensures modules { (text : List ℕ) (width : ℕ) (runs : List Run) → length text ≤ MOST_FILE_BYTES → IsTxtOf text width runs
        → HaveModule width runs }
    ensures texts { (text : List ℕ) (width : ℕ) (runs : List Run) → width ≤ 64 → IsTxtOf text width runs → HaveText width runs }
{}
