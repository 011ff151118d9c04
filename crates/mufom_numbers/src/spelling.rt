//! Numbers and strings as the bytes of a file spell them.

ghost use Rattle.std.specs.Prelude.{◌≡◌, ◌↔◌, ◌⊎◌, ◌+◌, ◌<◌, ◌≤◌, ◌^◌, ℕ, List, [], ◌∷◌, ◌++◌, length, take};
ghost use Rattle.std.specs.Int.{w64, to_be_bytes};
ghost use Rattle.mufom_numbers.specs.Spelling.{IsStringLead, SpellsNumber, SpellsString, number_at, string_at, string_after, shortest_number};
ghost use Rattle.mufom_numbers.specs.Spelling.{shortest_lead, without_leading_zeros, big_endian, IfGot, IsCutOff, BeginsIn, NoneIsShorter};

use crate::{Reason, Span, Taken};
use arrayvec::ArrayVec;

/// Reads the number at the start of the input, and returns it with the length of its spelling in bytes.
///
/// Returns `Bad` at offset 0 with [`Reason::BadNumber`] if the first byte does not begin a number. Does
/// not allocate.
pub fn read_number(input: &[u8]) -> Taken<u64>
    // The bytes taken are a prefix of the input, and spell the number.
    ensures got { IfGot result (λ n used. (used ≤ length input.now) × SpellsNumber n (take used input.now)) }
    // If the input begins with a spelling of a number, the result is that number.
    ensures only { (n : ℕ) (text rest : List ℕ) → SpellsNumber n text → input.now ≡ text ++ rest → result ≡ Taken.Got n (length text) }
    ensures more { (result ≡ Taken.More) ↔ ((n : ℕ) × IsCutOff (SpellsNumber n) input.now) }
    ensures bad { (result ≡ Taken.Bad 0 Reason.BadNumber) ↔ BeginsIn 0x89 0xFF input.now }
    ensures exact { result ≡ number_at input.now }
{
    number(input)
}

fn number(input: &[u8]) -> Taken<u64>
    ensures exact { result ≡ number_at input.now }
{
    let Some(lead) = input.first() else {
        return Taken::More;
    };
    let lead = *lead;
    if lead < 128 {
        return Taken::Got(lead as u64, 1);
    }
    if lead > 136 {
        return Taken::Bad {
            offset: 0,
            reason: Reason::BadNumber,
        };
    }
    let count = (lead - 128) as usize;
    if input.len() - 1 < count {
        return Taken::More;
    }
    Taken::Got(value_of(&input[1..count + 1]), count + 1)
}

// The value of at most eight bytes, the most significant first.
fn value_of(bytes: &[u8]) -> u64
    requires { length bytes.now ≤ 8 }
    ensures { result ≡ big_endian bytes.now }
{
    let mut all = [0u8; 8];
    all[8 - bytes.len()..].copy_from_slice(bytes);
    u64::from_be_bytes(all)
}

// The span of a string of `len` bytes after a lead of `lead` bytes.
fn span_after(lead: usize, len: usize, input: &[u8]) -> Taken<Span>
    requires { lead + len < 2 ^ 64 }
    ensures { result ≡ string_after lead len input.now }
{
    if input.len() < lead + len {
        return Taken::More;
    }
    Taken::Got(Span { start: lead, len }, lead + len)
}

/// Reads the string at the start of the input: returns the span of its bytes, which follow the lead, and
/// the length of lead and string together, in bytes.
///
/// Returns `Bad` at offset 0 with [`Reason::BadId`] if the first byte does not begin a string. Does not
/// allocate.
pub fn read_string(input: &[u8]) -> Taken<Span>
    // The bytes taken are a prefix of the input: a lead, and the bytes that it counts.
    ensures got { IfGot result (λ span used. (used ≤ length input.now) × (used ≡ span.start + span.len)
        × IsStringLead span.len (take span.start input.now)) }
    // If the input begins with a lead and the bytes that it counts, the result is their span.
    ensures only { (lead text rest : List ℕ) → IsStringLead (length text) lead → input.now ≡ lead ++ (text ++ rest)
        → result ≡ Taken.Got (record { start = length lead; len = length text }) (length lead + length text) }
    ensures more { (result ≡ Taken.More) ↔ ((text : List ℕ) × IsCutOff (SpellsString text) input.now) }
    ensures bad { (result ≡ Taken.Bad 0 Reason.BadId) ↔ (BeginsIn 0x80 0xDD input.now ⊎ BeginsIn 0xE0 0xFF input.now) }
    ensures exact { result ≡ string_at input.now }
{
    string(input)
}

fn string(input: &[u8]) -> Taken<Span>
    ensures exact { result ≡ string_at input.now }
{
    match input {
        [] => Taken::More,
        [lead, ..] if *lead < 128 => span_after(1, *lead as usize, input),
        [222] => Taken::More,
        [222, a, ..] => span_after(2, *a as usize, input),
        [223] => Taken::More,
        [223, _] => Taken::More,
        [223, a, b, ..] => span_after(3, 256 * *a as usize + *b as usize, input),
        _ => Taken::Bad {
            offset: 0,
            reason: Reason::BadId,
        },
    }
}

// The number of bytes of a value, without leading zero bytes.
fn significant(value: u64) -> usize
    ensures count { result ≡ length (without_leading_zeros (to_be_bytes w64 value)) }
    ensures within { result ≤ 8 }
{
    8 - value.leading_zeros() as usize / 8
}

/// The shortest spelling of a number. Of the two spellings of 0 that have one byte, it is 00. Does not allocate.
pub fn number_spelling(value: u64) -> ArrayVec<u8, 9>
    ensures spells { SpellsNumber value result.items }
    ensures shortest { NoneIsShorter (SpellsNumber value) result.items }
    ensures zero { value ≡ 0 → result.items ≡ 0 ∷ [] }
    ensures exact { result.items ≡ shortest_number value }
{
    shortest(value)
}

fn shortest(value: u64) -> ArrayVec<u8, 9>
    ensures { result.items ≡ shortest_number value }
{
    let mut spelling: ArrayVec<u8, 9> = ArrayVec::new();
    if value < 128 {
        spelling.push(value as u8);
        return spelling;
    }
    let count = significant(value);
    spelling.push(128 + count as u8);
    for byte in &value.to_be_bytes()[8 - count..] {
        spelling.push(*byte);
    }
    spelling
}

/// The length in bytes of the shortest spelling of a number. Does not allocate.
pub fn number_length(value: u64) -> usize
    ensures { result ≡ length (shortest_number value) }
{
    if value >= 128 {
        return 1 + significant(value);
    }
    1
}

/// The shortest lead for a string of `length` bytes. Does not allocate.
pub fn string_lead(length: u16) -> ArrayVec<u8, 3>
    ensures leads { IsStringLead length result.items }
    ensures shortest { NoneIsShorter (IsStringLead length) result.items }
    ensures exact { result.items ≡ shortest_lead length }
{
    lead_of(length)
}

fn lead_of(length: u16) -> ArrayVec<u8, 3>
    ensures { result.items ≡ shortest_lead length }
{
    let mut lead: ArrayVec<u8, 3> = ArrayVec::new();
    if length < 128 {
        lead.push(length as u8);
    } else if length < 256 {
        lead.push(222);
        lead.push(length as u8);
    } else {
        let bytes = length.to_be_bytes();
        lead.push(223);
        lead.push(bytes[0]);
        lead.push(bytes[1]);
    }
    lead
}
