//! Laws about spellings. Each law is the contract of a function with an empty body.

ghost use Rattle.std.specs.Prelude.{◌≡◌, ◌+◌, ◌<◌, ◌^◌, ℕ, List, [], ◌++◌, length};
ghost use Rattle.mufom_numbers.specs.Spelling.{SpellsNumber, SpellsString, number_at, string_at, shortest_number, shortest_lead};

use crate::Taken;

/// No spelling of a number is a proper prefix of another one: if one spelling begins with another, the
/// two are equal and spell the same number.
pub fn number_spellings_exclude()
    ensures { (m n : ℕ) (text rest : List ℕ) → SpellsNumber m text → SpellsNumber n (text ++ rest) → (m ≡ n) × (rest ≡ []) }
{}

/// No spelling of a string is a proper prefix of another one.
pub fn string_spellings_exclude()
    ensures { (s t text rest : List ℕ) → SpellsString s text → SpellsString t (text ++ rest) → (s ≡ t) × (rest ≡ []) }
{}

/// The shortest spellings, which a writer uses, are read back, whatever follows them.
pub fn shortest_spellings_are_read()
    ensures number { (n : ℕ) (rest : List ℕ) → n < 2 ^ 64 → number_at (shortest_number n ++ rest) ≡ Taken.Got n (length (shortest_number n)) }
    ensures string { (text rest : List ℕ) → length text < 2 ^ 16
        → string_at (shortest_lead (length text) ++ (text ++ rest)) ≡ Taken.Got
        (record { start = length (shortest_lead (length text)); len = length text }) (length (shortest_lead (length text)) + length text) }
{}
