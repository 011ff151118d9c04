//! Hexadecimal digits.

ghost use Rattle.std.specs.Prelude.{◌≡◌, ◌<◌, IfSome};
ghost use Rattle.mufom_numbers.specs.Digits.{hex_digit as digit_value};

/// The value of a hexadecimal digit of either case, 0 to 15; `None` for any other byte. Does not allocate.
pub fn hex_digit(byte: u8) -> Option<u8>
    ensures value { result ≡ digit_value byte }
    ensures low { IfSome result (λ d. d < 16) }
{
    match byte {
        b'A'..=b'F' => Some(byte - b'A' + 10),
        b'a'..=b'f' => Some(byte - b'a' + 10),
        b'0'..=b'9' => Some(byte - b'0'),
        _ => None,
    }
}
