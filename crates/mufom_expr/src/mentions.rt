//! Iterating over the variables of an expression.

ghost use Rattle.std.specs.Prelude.{◌≡◌};
ghost use Rattle.mufom_expr.specs.Mentions.{variables_in};

use crate::token::{Letter, Token};
use std::marker::Model;

/// An iterator over the variables of an expression, one for each mention, in the order of its tokens.
/// Contracts see the list of the variables that it has yet to return.
#[derive(Debug, Drop)]
pub struct Mentions<'a> {
    rest: &'a [Token],
}

impl<'a> Model for Mentions<'a> {
    ghost use Rattle.std.specs.Prelude.{ℕ, List};
    ghost use Rattle.mufom_expr.specs.declared.token.Letter.{Letter};
    ghost use Rattle.mufom_expr.specs.Mentions.{variables_in};

    ghost Value = { List (Letter × ℕ) };

    ghost view = { λ m. variables_in m.rest.now };
}

impl<'a> Mentions<'a> {
    pub(crate) fn of(tokens: &'a [Token]) -> Mentions<'a>
        ensures { result ≡ variables_in tokens.now }
    {
        Mentions { rest: tokens }
    }
}

impl<'a> Iterator for Mentions<'a> {
    type Item = (Letter, u32);

    ghost use Rattle.std.specs.Iterator.{YieldsFirst, item_count};

    ghost next_gives = { YieldsFirst (λ m. m) };

    ghost remaining = { item_count (λ m. m) };

    fn next(&mut self) -> Option<(Letter, u32)> {
        while let Some((first, rest)) = self.rest.split_first() {
            self.rest = rest;
            if let Token::Var(letter, index) = *first {
                return Some((letter, index));
            }
        }
        None
    }
}
