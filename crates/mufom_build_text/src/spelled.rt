//! Reads the pieces of a line: words, numbers, names and bytes. If something else comes next, a call notes
//! that the piece is missing and passes over nothing.

ghost use Rattle.std.specs.Prelude.{◌≡◌, ◌≤◌, ◌<◌, ◌+◌, ◌∷◌, ◌++◌, ◌↔◌, [], List, ℕ, length, take, drop, IsTrue, IfOk};
ghost use Rattle.std.specs.Prelude.{OnOk, IfSome, Some, MatchOption, ◌^◌};
ghost use Rattle.std.specs.Str.Parse.{AllDigits, digits_value};
ghost use Rattle.mufom_text.specs.Words.{stands_for_itself};
ghost use Rattle.mufom_build_text.specs.Pieces.{AreDigitsOf, SpellsNameByte, SpellsNameBytes, SpellsName, MOST_BYTE, MOST_POSITION, MOST_NUMBER};
ghost use Rattle.mufom_build_text.specs.Reads.{IsRight, ReadsNumeral, IsDigitsFront, IsNameFront};
ghost use Rattle.mufom_build_text.specs.Errors.{judged, IsSound, NotesFigure, NotesPosition};
ghost use Rattle.mufom_build_text.specs.Loosely.{Avoids, IsFigure, TakesDigits, IsQuotedFront, IsFront, IsAfterGap};
ghost use Rattle.mufom_build_text.specs.Loosely.{ReadsByte, ReadsGap, ReadsDigits, ReadsWords, ReadsFigure, ReadsPosition, ReadsName, ReadsHex};

use crate::cursor::{Cursor, after_spaces};
use crate::refusal::PieceStop;
use mufom_numbers::{Bytes, NoMemory, hex_digit};
use mufom_refusals::BuildReason;
use std::alloc::Global;

// The number of decimal digits at the beginning of the text.
fn count_digits(text: &[u8]) -> usize
    ensures within { result ≤ length text.now }
    ensures digits { AllDigits 10 (take result text.now) }
    ensures last { Avoids IsFigure (drop result text.now) }
{
    for (count, byte) in text.iter().enumerate() {
        if !byte.is_ascii_digit() {
            return count;
        }
    }
    text.len()
}

// The value of these digits, if it fits in 64 bits.
fn number_of(digits: &[u8]) -> Option<u64>
    requires { AllDigits 10 digits.now }
    ensures { MatchOption result (2 ^ 64 ≤ digits_value 10 digits.now) (λ n. digits_value 10 digits.now ≡ n) }
{
    let mut number: u64 = 0;
    for byte in digits {
        let digit = (*byte - b'0') as u64;
        if number > (u64::MAX - digit) / 10 {
            return None;
        }
        number = number * 10 + digit;
    }
    Some(number)
}

// The byte of two hexadecimal digits, if they are digits.
fn byte_of(high: u8, low: u8) -> Option<u8>
    ensures digits { IfSome result (λ b. AreDigitsOf b high low) }
    ensures takes { (b : ℕ) → AreDigitsOf b high low → result ≡ Some b }
{
    let high = hex_digit(high)?;
    let low = hex_digit(low)?;
    Some(high * 16 + low)
}

// The byte whose two hexadecimal digits begin the text, and the text after them.
fn split_byte(text: &[u8]) -> Option<(u8, &[u8])>
    ensures front { IfSome result (λ r. (high : ℕ) × (low : ℕ) × (text.now ≡ high ∷ low ∷ r.1.now) × AreDigitsOf r.0 high low) }
    ensures takes { (b high low : ℕ) (rest : List ℕ) → text.now ≡ high ∷ low ∷ rest → AreDigitsOf b high low
        → MatchOption result ⊥ (λ r. (r.0 ≡ b) × (r.1.now ≡ rest)) }
    ensures within { IfSome result (λ r. length r.1.now < length text.now) }
{
    let (high, after) = text.split_first()?;
    let (low, rest) = after.split_first()?;
    let byte = byte_of(*high, *low)?;
    Some((byte, rest))
}

// The bytes whose hexadecimal digits begin the text, and the text after them.
fn split_hex(alloc: Global, text: &[u8]) -> Result<(Vec<u8>, &[u8]), NoMemory>
    ensures front { IfOk result (λ r. IsDigitsFront r.0.items text.now r.1.now) }
    ensures takes { IfOk result (λ r. TakesDigits r.0.items text.now r.1.now) }
    ensures within { IfOk result (λ r. length r.1.now ≤ length text.now) }
{
    let mut bytes = Vec::new(alloc);
    let mut rest = text;
    while let Some((byte, after)) = split_byte(rest) {
        bytes.push(byte)?;
        rest = after;
    }
    Ok((bytes, rest))
}

// Whether the byte may be written as itself in a name.
fn stands_for_itself(byte: u8) -> bool
    ensures { result ≡ stands_for_itself byte }
{
    (0x20..=0x7E).contains(&byte) && byte != b'"' && byte != b'\\'
}

// The byte of a name at the beginning of a text, written as itself or by its digits, and the text after it.
fn split_name_byte(text: &[u8]) -> Option<(u8, &[u8])>
    ensures front { IfSome result (λ r. (front : List ℕ) × (text.now ≡ front ++ r.1.now) × SpellsNameByte r.0 front) }
    ensures takes { (b : ℕ) (front rest : List ℕ) → text.now ≡ front ++ rest → SpellsNameByte b front
        → MatchOption result ⊥ (λ r. (r.0 ≡ b) × (r.1.now ≡ rest)) }
    ensures within { IfSome result (λ r. length r.1.now < length text.now) }
{
    let (first, after) = text.split_first()?;
    if stands_for_itself(*first) {
        return Some((*first, after));
    }
    if *first != b'\\' {
        return None;
    }
    let (second, digits) = after.split_first()?;
    if *second != b'x' {
        return None;
    }
    let (byte, rest) = split_byte(digits)?;
    Some((byte, rest))
}

// The bytes of a name up to its closing quote, and the text after that; `None` if the text begins otherwise.
fn split_name(alloc: Global, text: &[u8]) -> Result<Option<(Vec<u8>, &[u8])>, NoMemory>
    ensures front { IfOk result (λ r. IfSome r (λ p. IsNameFront p.0.items text.now (0x22 ∷ p.1.now))) }
    ensures takes { (bytes inside rest : List ℕ) → text.now ≡ inside ++ 0x22 ∷ rest → SpellsNameBytes bytes inside
        → IfOk result (λ r. MatchOption r ⊥ (λ p. (p.0.items ≡ bytes) × (p.1.now ≡ rest))) }
    ensures within { IfOk result (λ r. IfSome r (λ p. length p.1.now < length text.now)) }
{
    let mut name = Vec::new(alloc);
    let mut rest = text;
    while let Some((first, after)) = rest.split_first() {
        if *first == b'"' {
            return Ok(Some((name, after)));
        }
        let Some((byte, next)) = split_name_byte(rest) else {
            return Ok(None);
        };
        name.push(byte)?;
        rest = next;
    }
    Ok(None)
}

// A name in quotes at the beginning of a text, and the text after it; `None` if the text begins otherwise.
fn split_quoted(alloc: Global, text: &[u8]) -> Result<Option<(Vec<u8>, &[u8])>, NoMemory>
    ensures front { IfOk result (λ r. IfSome r (λ p. IsQuotedFront p.0.items text.now p.1.now)) }
    ensures takes { (bytes front rest : List ℕ) → text.now ≡ front ++ rest → SpellsName bytes front
        → IfOk result (λ r. MatchOption r ⊥ (λ p. (p.0.items ≡ bytes) × (p.1.now ≡ rest))) }
    ensures within { IfOk result (λ r. IfSome r (λ p. length p.1.now < length text.now)) }
{
    let Some((first, inside)) = text.split_first() else {
        return Ok(None);
    };
    if *first != b'"' {
        return Ok(None);
    }
    split_name(alloc, inside)
}

impl<'a> Cursor<'a> {
    // Passes over this byte.
    fn byte(&mut self, wanted: u8)
        ensures reads { ReadsByte wanted self.old self.new }
    {
        let Some((first, after)) = self.rest().split_first() else {
            self.bad();
            return;
        };
        if *first != wanted {
            self.bad();
            return;
        }
        self.advance_to(after);
    }

    // Passes over one space or more.
    fn gap(&mut self)
        ensures reads { ReadsGap self.old self.new }
    {
        self.byte(b' ');
        self.pass_spaces();
    }

    // Passes over a byte of words.
    fn word_byte(&mut self, wanted: u8)
        ensures reads { ReadsWords (wanted ∷ []) self.old self.new }
    {
        if wanted == b' ' {
            self.gap();
        } else {
            self.byte(wanted);
        }
    }

    /// Reads these words. Each space in them matches one or more spaces.
    pub fn words(&mut self, text: &[u8])
        ensures reads { ReadsWords text.now self.old self.new }
        ensures within { length self.new.rest ≤ length self.old.rest }
        ensures shorter { IsSound self.new → length self.new.rest + length text.now ≤ length self.old.rest }
    {
        for byte in text {
            self.word_byte(*byte);
        }
    }

    /// Whether these bytes come next.
    pub fn is_next(&self, bytes: &[u8]) -> bool
        ensures { IsTrue result ↔ IsFront bytes.now self.now.rest }
    {
        self.rest().starts_with(bytes)
    }

    /// Returns the first byte after any spaces, or `None` if the text ends there.
    pub fn after_gap(&self) -> Option<u8>
        ensures { IsAfterGap result self.now.rest }
    {
        after_spaces(self.rest()).first().copied()
    }

    /// Reads a number. Returns `None` if it does not fit in 64 bits, or if there are no digits, which is
    /// noted.
    pub fn numeral(&mut self) -> Option<u64>
        ensures reads { ReadsDigits result self.old self.new }
        ensures number { IsSound self.new → ReadsNumeral result self.old self.new }
        ensures within { length self.new.rest ≤ length self.old.rest }
        ensures shorter { IsSound self.new → length self.new.rest < length self.old.rest }
    {
        let text = self.rest();
        let (digits, after) = text.split_at(count_digits(text));
        if digits.is_empty() {
            self.bad();
            return None;
        }
        self.advance_to(after);
        number_of(digits)
    }

    // Reads a number of at most `most`. If it is greater, notes `TooGreat` and returns 0.
    fn figure(&mut self, most: u64) -> u64
        ensures reads { ReadsFigure most result self.old self.new }
        ensures most { result ≤ most }
        ensures noted { IsSound self.new → NotesFigure most self.old self.new }
        ensures within { length self.new.rest ≤ length self.old.rest }
        ensures shorter { IsSound self.new → length self.new.rest < length self.old.rest }
    {
        let column = self.column();
        match self.numeral() {
            Some(number) if number <= most => number,
            _ => {
                self.note(column, BuildReason::TooGreat);
                0
            }
        }
    }

    /// Reads a number of 64 bits.
    pub fn number(&mut self) -> u64
        ensures reads { ReadsFigure MOST_NUMBER result self.old self.new }
        ensures noted { IsSound self.new → NotesFigure MOST_NUMBER self.old self.new }
        ensures within { length self.new.rest ≤ length self.old.rest }
        ensures shorter { IsSound self.new → length self.new.rest < length self.old.rest }
    {
        self.figure(u64::MAX)
    }

    /// Reads the position of another line's entry, of 32 bits.
    pub fn place(&mut self) -> u32
        ensures reads { ReadsFigure MOST_POSITION result self.old self.new }
        ensures noted { IsSound self.new → NotesFigure MOST_POSITION self.old self.new }
        ensures within { length self.new.rest ≤ length self.old.rest }
        ensures shorter { IsSound self.new → length self.new.rest < length self.old.rest }
    {
        self.figure(u32::MAX as u64) as u32
    }

    /// Reads a number of 8 bits.
    pub fn small(&mut self) -> u8
        ensures reads { ReadsFigure MOST_BYTE result self.old self.new }
        ensures noted { IsSound self.new → NotesFigure MOST_BYTE self.old self.new }
        ensures within { length self.new.rest ≤ length self.old.rest }
        ensures shorter { IsSound self.new → length self.new.rest < length self.old.rest }
    {
        self.figure(u8::MAX as u64) as u8
    }

    /// Compares a position or a count that the line states at this column with the right one. Notes
    /// `TooGreat` if it is above `most` or does not fit in 64 bits, and `reason` if it is another number than
    /// `right`.
    pub fn judge(
        &mut self,
        column: u32,
        stated: Option<u64>,
        most: u64,
        right: u64,
        reason: BuildReason,
    )
        ensures rest { self.new.rest ≡ self.old.rest }
        ensures line { self.new.line ≡ self.old.line }
        ensures column { self.new.column ≡ self.old.column }
        ensures right { IsRight self.new → IsRight self.old × (stated ≡ Some right) }
        ensures noted { self.new.error ≡ judged self.old.error column stated most right reason }
    {
        match stated {
            Some(number) if number <= most => {
                if number != right {
                    self.note(column, reason);
                }
            }
            _ => self.note(column, BuildReason::TooGreat),
        }
    }

    /// Reads the position of the line's own entry, which must be the number of such entries before it.
    pub fn position(&mut self, count: usize)
        ensures reads { ReadsPosition count self.old self.new }
        ensures noted { IsSound self.new → NotesPosition count self.old self.new }
        ensures within { length self.new.rest ≤ length self.old.rest }
        ensures shorter { IsSound self.new → length self.new.rest < length self.old.rest }
    {
        let column = self.column();
        let stated = self.numeral();
        self.judge(
            column,
            stated,
            u32::MAX as u64,
            count as u64,
            BuildReason::Position,
        );
    }

    /// Reads a name in quotes.
    pub fn name(&mut self, alloc: Global) -> Result<Bytes, NoMemory>
        ensures reads { IfOk result (λ bytes. ReadsName bytes self.old self.new) }
        ensures within { length self.new.rest ≤ length self.old.rest }
        ensures shorter { OnOk result (IsSound self.new → length self.new.rest < length self.old.rest) }
    {
        let Some((name, after)) = split_quoted(alloc, self.rest())? else {
            self.bad();
            return Ok(Bytes::new(alloc));
        };
        self.advance_to(after);
        Bytes::from_slice(alloc, &name)
    }

    /// Reads one or more bytes, each as two hexadecimal digits.
    pub fn hex(&mut self, alloc: Global) -> Result<Bytes, NoMemory>
        ensures reads { IfOk result (λ bytes. ReadsHex bytes self.old self.new) }
        ensures within { length self.new.rest ≤ length self.old.rest }
    {
        let (bytes, after) = split_hex(alloc, self.rest())?;
        if bytes.is_empty() {
            self.bad();
            return Ok(Bytes::new(alloc));
        }
        self.advance_to(after);
        Bytes::from_slice(alloc, &bytes)
    }
}
