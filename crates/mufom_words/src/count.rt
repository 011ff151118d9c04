//! A count in decimal digits.

ghost use Rattle.std.specs.Prelude.{◌≡◌, ◌≤◌, ◌+◌, min};
ghost use Rattle.std.specs.List.{list_all};
ghost use Rattle.mufom_words.specs.Operands.{count_of as counted, decimal_number, is_digit};
ghost use Rattle.mufom_numbers.specs.declared.limits.TheConstants.{MOST_MODULES};

use mufom_numbers::limits::MOST_MODULES;

fn are_digits(bytes: &[u8]) -> bool
    ensures { result ≡ list_all is_digit bytes.now }
{
    bytes.iter().all(|byte| *byte >= b'0' && *byte <= b'9')
}

// The number that digits state, capped at the first number that is too great for a count.
fn capped_number(digits: &[u8]) -> u32
    ensures { result ≡ min (MOST_MODULES + 1) (decimal_number digits.now) }
{
    let mut number: u32 = 0;
    for digit in digits {
        let next = number * 10 + digit.saturating_sub(b'0') as u32;
        number = next.min(MOST_MODULES + 1);
    }
    number
}

/// The count that a word states in decimal digits, 1 to 65,536. Leading zeros are allowed.
pub(crate) fn count_of(word: &str) -> Option<u32>
    ensures { result ≡ counted word.now }
{
    let digits = word.as_bytes();
    if digits.is_empty() || !are_digits(digits) {
        return None;
    }
    let number = capped_number(digits);
    if number >= 1 && number <= MOST_MODULES {
        Some(number)
    } else {
        None
    }
}
