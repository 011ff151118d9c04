//! A place in a text that is read line by line.

ghost use Rattle.std.specs.Prelude.{◌≡◌, ◌≤◌, ◌<◌, ◌+◌, ◌^◌, ◌==◌, ◌↔◌, ◌∷◌, [], List, ℕ, length, IsTrue, OnOk, Err, true, if◌then◌else◌};
ghost use Rattle.mufom_numbers.specs.declared.limits.TheConstants.{MOST_FILE_BYTES};
ghost use Rattle.mufom_build_text.specs.Reads.{beginning, IsRight, IsSpaceFront, IsBlankFront, IsLineEnd, EndsLine};
ghost use Rattle.mufom_build_text.specs.Reads.{IsPastBlanks, PassesBlanks, LeavesLine};
ghost use Rattle.mufom_build_text.specs.Errors.{error_at, first_error, is_bad, wrong_line, Fails, IsWrongEnd, IsNamed};

use crate::refusal::PieceStop;
use mufom_refusals::BuildReason;
use std::marker::Model;

/// An error within a line, and its column, which counts bytes from 1.
#[derive(Clone, Copy, Debug)]
pub(crate) struct LineError {
    column: u32,
    reason: BuildReason,
}

/// A place in a text, and the first error of its line so far. Contracts see it as a `Place`.
#[derive(Debug, Drop)]
pub struct Cursor<'a> {
    rest: &'a [u8],
    line: u32,
    column: u32,
    error: Option<LineError>,
}

impl<'a> Model for Cursor<'a> {
    ghost use Rattle.std.specs.Prelude.{◌+◌, ◌<◌, ◌^◌, length};
    ghost use Rattle.mufom_build_text.specs.Reads.{Place};

    ghost Value = { Place };

    ghost view = { λ c. record { rest = c.rest.now; line = c.line; column = c.column; error = c.error } };

    ghost invariant = { λ c. (c.line + length c.rest.now < 2 ^ 32) × (c.column + length c.rest.now < 2 ^ 32) × (0 < c.column) };
}

/// Returns the text after any spaces at its beginning.
pub fn after_spaces(text: &[u8]) -> &[u8]
    ensures front { IsSpaceFront text.now result.now }
    ensures last { (more : List ℕ) → result.now ≡ 32 ∷ more → ⊥ }
    ensures within { length result.now ≤ length text.now }
{
    let mut rest = text;
    while let Some((first, after)) = rest.split_first() {
        if *first != b' ' {
            return rest;
        }
        rest = after;
    }
    rest
}

// The line and the column after a byte at this line and column.
fn place_after(byte: u8, line: u32, column: u32) -> (u32, u32)
    requires line { line + 1 < 2 ^ 32 }
    requires column { column + 1 < 2 ^ 32 }
    ensures line { result.0 ≡ (if byte == 10 then line + 1 else line) }
    ensures column { result.1 ≡ (if byte == 10 then 1 else column + 1) }
    ensures next_line { result.0 ≤ line + 1 }
    ensures next_column { result.1 ≤ column + 1 }
    ensures positive { 0 < result.1 }
{
    if byte == b'\n' {
        return (line + 1, 1);
    }
    (line, column + 1)
}

// What follows the blank lines and the spaces at the front of a text, with its line and column.
fn after_blanks(text: &[u8], from_line: u32, from_column: u32) -> (&[u8], u32, u32)
    requires line { from_line + length text.now < 2 ^ 32 }
    requires column { from_column + length text.now < 2 ^ 32 }
    requires positive { 0 < from_column }
    ensures blanks { PassesBlanks text.now from_line from_column result.0.now result.1 result.2 }
    ensures past { IsPastBlanks result.0.now }
    ensures line { result.1 + length result.0.now < 2 ^ 32 }
    ensures column { result.2 + length result.0.now < 2 ^ 32 }
    ensures positive { 0 < result.2 }
    ensures within { length result.0.now ≤ length text.now }
{
    let mut rest = text;
    let mut line = from_line;
    let mut column = from_column;
    while let Some((first, after)) = rest.split_first() {
        if *first != b' ' && *first != b'\n' {
            return (rest, line, column);
        }
        (line, column) = place_after(*first, line, column);
        rest = after;
    }
    (rest, line, column)
}

// Whether a line may end before this text: at a line feed, or at the end of all text.
fn is_line_end(text: &[u8]) -> bool
    ensures { IsTrue result ↔ IsLineEnd text.now }
{
    match text.split_first() {
        None => true,
        Some((first, _)) => *first == b'\n',
    }
}

impl<'a> Cursor<'a> {
    /// Returns the beginning of a text.
    pub fn new(text: &'a [u8]) -> Cursor<'a>
        requires { length text.now ≤ MOST_FILE_BYTES }
        ensures { result ≡ beginning text.now }
    {
        Cursor {
            rest: text,
            line: 1,
            column: 1,
            error: None,
        }
    }

    /// Returns the bytes that are still to be read.
    pub fn rest(&self) -> &'a [u8]
        ensures { result.now ≡ self.now.rest }
    {
        self.rest
    }

    /// Returns the column of the next byte; columns count bytes from 1.
    pub fn column(&self) -> u32
        ensures value { result ≡ self.now.column }
        ensures positive { 0 < result }
    {
        self.column
    }

    /// Whether the text has ended.
    pub fn is_at_end(&self) -> bool
        ensures { IsTrue result ↔ (self.now.rest ≡ []) }
    {
        self.rest.is_empty()
    }

    /// Whether a piece of the line was missing.
    pub fn is_bad(&self) -> bool
        ensures { result ≡ is_bad self.now.error }
    {
        match self.error {
            None => false,
            Some(error) => error.column == 0,
        }
    }

    /// Returns the error of the line as a whole: `BadText` at column 1. After the last line feed of a text it
    /// names the last line, because no further line begins there.
    pub fn bad_line(&self) -> PieceStop
        ensures { result ≡ PieceStop.At (wrong_line self.now) 1 BuildReason.BadText }
    {
        let is_behind_all = self.rest.is_empty() && self.column == 1 && self.line > 1;
        PieceStop::At {
            line: if is_behind_all {
                self.line - 1
            } else {
                self.line
            },
            column: 1,
            reason: BuildReason::BadText,
        }
    }

    /// Moves forward within the line. `rest` is what is left to read.
    pub fn advance_to(&mut self, rest: &'a [u8])
        requires { length rest.now ≤ length self.old.rest }
        ensures rest { self.new.rest ≡ rest.now }
        ensures error { self.new.error ≡ self.old.error }
        ensures column { self.new.column + length rest.now ≡ self.old.column + length self.old.rest }
        ensures line { self.new.line ≡ self.old.line }
    {
        self.column += (self.rest.len() - rest.len()) as u32;
        self.rest = rest;
    }

    /// Notes an error within the line. The error with the smallest column is kept, and of two at one column
    /// the earlier.
    pub fn note(&mut self, column: u32, reason: BuildReason)
        ensures rest { self.new.rest ≡ self.old.rest }
        ensures line { self.new.line ≡ self.old.line }
        ensures column { self.new.column ≡ self.old.column }
        ensures wrong { IsRight self.new → ⊥ }
        ensures first { self.new.error ≡ first_error self.old.error (error_at column reason) }
    {
        if let Some(first) = self.error {
            if first.column <= column {
                return;
            }
        }
        self.error = Some(LineError { column, reason });
    }

    /// Notes that a piece of the line is missing here: `BadText`, before all other errors of the line.
    pub fn bad(&mut self)
        ensures { Fails self.old self.new }
    {
        self.note(0, BuildReason::BadText);
    }

    /// Passes over the spaces that come next, if any.
    pub fn pass_spaces(&mut self)
        ensures front { IsSpaceFront self.old.rest self.new.rest }
        ensures last { (more : List ℕ) → self.new.rest ≡ 32 ∷ more → ⊥ }
        ensures error { self.new.error ≡ self.old.error }
        ensures within { length self.new.rest ≤ length self.old.rest }
        ensures column { self.new.column + length self.new.rest ≡ self.old.column + length self.old.rest }
        ensures line { self.new.line ≡ self.old.line }
    {
        self.advance_to(after_spaces(self.rest));
    }

    /// Passes over blank lines and the spaces before the next line.
    pub fn pass_blanks(&mut self)
        ensures front { IsBlankFront self.old.rest self.new.rest }
        ensures last { (more : List ℕ) → self.new.rest ≡ 10 ∷ more → ⊥ }
        ensures blanks { PassesBlanks self.old.rest self.old.line self.old.column self.new.rest self.new.line self.new.column }
        ensures past { IsPastBlanks self.new.rest }
        ensures error { self.new.error ≡ self.old.error }
        ensures within { length self.new.rest ≤ length self.old.rest }
    {
        let (rest, line, column) = after_blanks(self.rest, self.line, self.column);
        self.rest = rest;
        self.line = line;
        self.column = column;
    }

    // Checks that the line can end here and has no error. Returns `BadText` if something else follows or a
    // piece was missing, and otherwise the first error of the line.
    fn check_end(&self) -> Result<(), PieceStop>
        ensures end { OnOk result (IsLineEnd self.now.rest) }
        ensures right { OnOk result (IsRight self.now) }
        ensures wrong { (line column : ℕ) (reason : BuildReason) → result ≡ Err (PieceStop.At line column reason)
            → IsWrongEnd self.now line column reason }
    {
        if self.is_bad() || !is_line_end(self.rest) {
            return Err(self.bad_line());
        }
        match self.error {
            None => Ok(()),
            Some(error) => Err(PieceStop::At {
                line: self.line,
                column: error.column,
                reason: error.reason,
            }),
        }
    }

    /// Ends a line: passes over the spaces after it, its line feed, if any, and blank lines.
    ///
    /// Returns `BadText` if anything else follows on the line or a piece of it was missing, and otherwise the
    /// line's first error.
    pub fn end_line(&mut self) -> Result<(), PieceStop>
        ensures right { OnOk result (IsRight self.old) }
        ensures ends { OnOk result (EndsLine self.old.rest self.new.rest) }
        ensures leaves { OnOk result (LeavesLine self.old self.new) }
        ensures within { OnOk result (length self.new.rest ≤ length self.old.rest) }
        ensures wrong { (line column : ℕ) (reason : BuildReason) → result ≡ Err (PieceStop.At line column reason)
            → IsNamed self.old line column reason }
    {
        self.pass_spaces();
        self.check_end()?;
        self.pass_blanks();
        Ok(())
    }
}
