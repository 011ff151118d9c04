//! The size of a field that is spelled without a comma.

ghost use Rattle.std.specs.Prelude.{◌≡◌, ◌≤◌, Some};
ghost use Rattle.mufom_records.specs.Fields as fields;
ghost use Rattle.mufom_records.specs.Reading.{no_tokens, with_token};

use mufom_expr::{Letter, Token, operands};

/// The size of a field as GNU binutils spells it: without a comma, as the last number of its tokens.
#[derive(Clone, Copy, Debug, PartialEq, Eq)]
pub(crate) struct PlainSize {
    /// The size in MAUs, 1 to 8.
    pub size: u8,
    /// Whether the variable P is in the tokens before it, which are the expression.
    pub uses_pc: bool,
}

/// What the tokens that were read so far say of a size.
#[derive(Clone, Copy, Debug, PartialEq, Eq)]
pub(crate) struct SizeSoFar {
    /// The number of terms that they leave.
    pub terms: usize,
    /// The offset of the last token.
    pub last: usize,
    /// The size that the last token is, if it is a number from 1 to 8.
    pub size: Option<u8>,
    /// Whether one of them is the variable P.
    pub uses_pc: bool,
}

// The size that a last token is, if it is a number from 1 to 8.
fn size_of(token: Token) -> Option<u8>
    ensures { result ≡ fields.size_of_token (Some token) }
{
    match token {
        Token::Number(n) => {
            if 1 <= n && n <= 8 {
                Some(n as u8)
            } else {
                None
            }
        }
        Token::Var(..) => None,
        Token::Fun(_) => None,
    }
}

fn is_counter(token: Token) -> bool
    ensures { result ≡ fields.is_counter token }
{
    match token {
        Token::Var(Letter::P, _) => true,
        _ => false,
    }
}

impl SizeSoFar {
    /// Nothing was read yet, and the first token is at this offset.
    pub(crate) fn new(at: usize) -> SizeSoFar
        ensures { result ≡ no_tokens at }
    {
        SizeSoFar {
            terms: 0,
            last: at,
            size: None,
            uses_pc: false,
        }
    }

    /// The same after one more token, which is at this offset.
    #[inline(always)]
    pub(crate) fn with(self, token: Token, at: usize) -> SizeSoFar
        requires { self.terms ≤ 255 }
        ensures { result ≡ with_token self token at }
    {
        SizeSoFar {
            terms: self.terms.saturating_sub(operands(token)) + 1,
            last: at,
            size: size_of(token),
            uses_pc: self.uses_pc || is_counter(token),
        }
    }
}
