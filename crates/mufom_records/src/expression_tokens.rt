//! The tokens of a record's expression.

ghost use Rattle.std.specs.Prelude.{◌≡◌, ◌-◌, ◌<◌, ◌≤◌, [], ◌∷◌, ◌++◌, length, take};

use mufom_expr::Token;
use std::marker::Model;

/// The largest number of tokens of an expression.
pub(crate) const MOST_TOKENS: usize = 255;

/// The tokens of the expression that was read last: at most 255, which lie in the value itself. Contracts
/// see them as a list.
#[derive(Debug, Drop)]
pub struct ExpressionTokens {
    tokens: [Token; MOST_TOKENS],
    count: usize,
}

impl Model for ExpressionTokens {
    ghost use Rattle.std.specs.Prelude.{◌≡◌, ◌≤◌, List, length, take};
    ghost use Rattle.mufom_expr.specs.declared.token.Token.{Token};

    ghost Value = { List Token };

    ghost view = { λ t. take t.count t.tokens };

    ghost invariant = { λ t. (t.count ≤ 255) × (length t.tokens ≡ 255) };
}

impl ExpressionTokens {
    /// No tokens. Does not allocate.
    pub fn new() -> ExpressionTokens
        ensures { result ≡ [] }
    {
        ExpressionTokens {
            tokens: [Token::Number(0); MOST_TOKENS],
            count: 0,
        }
    }

    /// The tokens, operands before functions.
    #[inline]
    pub fn as_slice(&self) -> &[Token]
        ensures tokens { result.now ≡ self.now }
        ensures few { length result.now ≤ 255 }
    {
        &self.tokens[..self.count]
    }

    /// Removes all tokens.
    #[inline]
    pub(crate) fn clear(&mut self)
        ensures { self.new ≡ [] }
    {
        self.count = 0;
    }

    /// Appends a token.
    #[inline(always)]
    pub(crate) fn push(&mut self, token: Token)
        requires { length self.old < 255 }
        ensures { self.new ≡ self.old ++ token ∷ [] }
    {
        self.tokens[self.count] = token;
        self.count += 1;
    }

    /// Removes the last token, if there is one.
    #[inline]
    pub(crate) fn remove_last(&mut self)
        ensures { self.new ≡ take (length self.old - 1) self.old }
    {
        self.count = self.count.saturating_sub(1);
    }
}
