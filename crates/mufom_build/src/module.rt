//! The call that builds a module from its listing.

ghost use Rattle.std.specs.Prelude.{◌≡◌, ◌≤◌, ◌<◌, [], true, ℕ, length, IfOk, OnOk};
ghost use Rattle.mufom_numbers.specs.declared.limits.TheConstants.{MOST_FILE_BYTES};
ghost use Rattle.mufom_module.specs.declared.module.Defect.{Defect};
ghost use Rattle.mufom_text.specs.Words.{Text};
ghost use Rattle.mufom_build_text.specs.Reads.{IsRight, LeavesLine};
ghost use Rattle.mufom_build.specs.Begun.{Begun, IsRowNamed};
ghost use Rattle.mufom_build.specs.Drafts.{IsDraft, draft_rows};
ghost use Rattle.mufom_build.specs.Lines.{Build};
ghost use Rattle.mufom_build.specs.Refusals.{IsRefusedAt, HasDefect};

use crate::draft::Draft;
use crate::read_row::read_row;
use crate::refusal::refusal_of;
use mufom_build_text::{Cursor, PieceStop};
use mufom_module::{Module, assemble};
use mufom_refusals::{BuildReason, BuildRefusal};
use std::alloc::Global;

// Ends the line of a row. `may_come` says whether the row may come here.
fn end_row(cursor: &mut Cursor, may_come: bool) -> Result<(), PieceStop>
    ensures may { OnOk result (may_come ≡ true) }
    ensures right { OnOk result (IsRight cursor.old) }
    ensures leaves { OnOk result (LeavesLine cursor.old cursor.new) }
    ensures within { OnOk result (length cursor.new.rest ≤ length cursor.old.rest) }
    ensures wrong { (line column : ℕ) (reason : BuildReason) → result ≡ Err (PieceStop.At line column reason)
        → IsRowNamed may_come cursor.old line column reason }
{
    if !may_come {
        cursor.bad();
    }
    cursor.end_line()
}

// Reads all lines, and adds each to the draft.
fn read_rows(alloc: Global, cursor: &mut Cursor) -> Result<Draft, PieceStop>
    ensures begun { (text : Text) → Begun text [] cursor.old → IfOk result (λ draft. Begun text (draft_rows draft) cursor.new) }
    ensures kept { IfOk result IsDraft }
    ensures end { OnOk result (cursor.new.rest ≡ []) }
    ensures refused { (text : Text) (line column : ℕ) (reason : BuildReason) → Begun text [] cursor.old
        → result ≡ Err (PieceStop.At line column reason) → IsRefusedAt text line column reason }
{
    let mut draft = Draft::new(alloc);
    while !cursor.is_at_end() {
        let row = read_row(alloc, cursor, draft.counts())?;
        let may_come = draft.may_take(row.kind());
        end_row(cursor, may_come)?;
        draft.take(alloc, row)?;
    }
    Ok(draft)
}

/// Builds a module from its listing: from the text that `text_bytes` of `mufom_text` makes in the form
/// `Listing`, or from one that is written by hand.
///
/// `At` gives the first line that is wrong: `BadText` at column 1 if it is not a line of a listing or may not
/// come after the lines before it, and otherwise its first error. If lines are missing at the end, it is
/// `BadText` at the last line. `Module` gives the defect of a listing in which no line is wrong.
///
/// Allocates the module, and in addition memory in proportion to the longest line. The time grows with the
/// length of the text. Nested blocks and expressions need no nested calls.
pub fn build(alloc: Global, text: &[u8]) -> Result<Module, BuildRefusal>
    requires { length text.now ≤ MOST_FILE_BYTES }

    // The text is a listing of the module that is returned.
    ensures built { IfOk result (λ m. Build text.now m) }
    // No line is wrong, and the parts that the listing states have this defect and none before it.
    ensures defect { (d : Defect) → result ≡ Err (BuildRefusal.Module d) → HasDefect text.now d }
    // This is the first line that is wrong and its first error, or the last line, if lines are missing after it.
    ensures refused { (line column : ℕ) (reason : BuildReason) → result ≡ Err (BuildRefusal.At line column reason)
        → IsRefusedAt text.now line column reason }
{
    let mut cursor = Cursor::new(text);
    cursor.pass_blanks();
    let draft = match read_rows(alloc, &mut cursor) {
        Ok(draft) => draft,
        Err(stop) => return Err(refusal_of(stop)),
    };
    let Some(parts) = draft.finish() else {
        return Err(refusal_of(cursor.bad_line()));
    };
    match assemble(parts) {
        Ok(module) => Ok(module),
        Err((_, defect)) => Err(BuildRefusal::Module(defect)),
    }
}
