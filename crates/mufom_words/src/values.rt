//! The values of options that are numbers.

ghost use Rattle.std.specs.Prelude.{◌≡◌, ◌≤◌, ◌<◌, ◌^◌, IfSome, option_map};
ghost use Rattle.std.specs.List.{list_all};
ghost use Rattle.mufom_words.specs.Answer.{unless_read, value_fault as wrong_value};
ghost use Rattle.mufom_words.specs.Values.{address_of as address, byte_of as byte, hexadecimal_of as hexadecimal, is_hexadecimal, maus_of as maus};

use crate::stop::UsageFault;

fn are_hexadecimal(bytes: &[u8]) -> bool
    ensures { result ≡ list_all is_hexadecimal bytes.now }
{
    bytes.iter().all(|byte| char::from(*byte).is_digit(16))
}

// The number that hexadecimal digits state, if there are `least` to `most` of them.
fn hexadecimal_of(least: usize, most: usize, word: &str) -> Option<u64>
    requires some { 1 ≤ least }
    requires fits { most ≤ 16 }
    ensures value { result ≡ hexadecimal least most word.now }
    ensures below { IfSome result (λ number. number < 16 ^ most) }
{
    let bytes = word.as_bytes();
    if bytes.len() < least || bytes.len() > most || !are_hexadecimal(bytes) {
        return None;
    }
    u64::from_str_radix(word, 16).ok()
}

/// A byte: two hexadecimal digits of either case.
pub(crate) fn byte_of(word: &str) -> Option<u8>
    ensures { result ≡ byte word.now }
{
    let number = hexadecimal_of(2, 2, word)?;
    Some(number as u8)
}

/// An address: 1 to 16 hexadecimal digits of either case.
pub(crate) fn address_of(word: &str) -> Option<u64>
    ensures { result ≡ address word.now }
{
    hexadecimal_of(1, 16, word)
}

/// The number of bytes in an address: one decimal digit from 1 to 8.
pub(crate) fn maus_of(word: &str) -> Option<u8>
    ensures { result ≡ maus word.now }
{
    match word.as_bytes() {
        [digit] if *digit >= b'1' && *digit <= b'8' => Some(*digit - b'0'),
        _ => None,
    }
}

// The error for a value of `--maus` that is not a number from 1 to 8.
fn maus_fault(count: Option<&str>) -> Option<UsageFault>
    ensures { result ≡ unless_read maus UsageFault.BadCount (option_map (λ text. text.now) count.entry) }
{
    match count {
        Some(text) if maus_of(text).is_none() => Some(UsageFault::BadCount),
        _ => None,
    }
}

// The error for a value of `--fill` that is not a byte.
fn byte_fault(fill: Option<&str>) -> Option<UsageFault>
    ensures { result ≡ unless_read byte UsageFault.BadByte (option_map (λ text. text.now) fill.entry) }
{
    match fill {
        Some(text) if byte_of(text).is_none() => Some(UsageFault::BadByte),
        _ => None,
    }
}

// The error for a value of `--at` that is not an address.
fn address_fault(at: Option<&str>) -> Option<UsageFault>
    ensures { result ≡ unless_read address UsageFault.BadAddress (option_map (λ text. text.now) at.entry) }
{
    match at {
        Some(text) if address_of(text).is_none() => Some(UsageFault::BadAddress),
        _ => None,
    }
}

/// The first error in the values of `--maus`, `--fill` and `--at`, in this order.
pub(crate) fn value_fault(
    count: Option<&str>,
    fill: Option<&str>,
    at: Option<&str>,
) -> Option<UsageFault>
    ensures { let given = option_map (λ text. text.now) in
        result ≡ wrong_value (given count.entry) (given fill.entry) (given at.entry) }
{
    if let Some(fault) = maus_fault(count) {
        return Some(fault);
    }
    if let Some(fault) = byte_fault(fill) {
        return Some(fault);
    }
    address_fault(at)
}
