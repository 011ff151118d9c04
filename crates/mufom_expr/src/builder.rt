//! Building an expression token by token.

ghost use Rattle.std.specs.Prelude.{◌≡◌, ◌≢◌, ◌⊎◌, ◌↔◌, ◌<◌};
ghost use Rattle.std.specs.Prelude.{[], ◌∷◌, ◌++◌, length, IfOk, OnOk, OnErr, Err, Some};
ghost use Rattle.mufom_expr.specs.Tree.{tokens_of, IsInRange};
ghost use Rattle.mufom_expr.specs.Terms.{the_term, FindsTooFew, LeavesMoreThanOne};

use crate::fault::ExprFault;
use crate::postfix::Postfix;
use crate::token::{Token, operands};
use mufom_numbers::NoMemory;
use std::alloc::Global;
use std::marker::Model;

const MAX_TOKENS: usize = 255;

/// Builds an expression from its tokens in postfix order: at most 255 tokens, in which each function finds
/// its operands. Contracts see the list of the tokens.
#[derive(Debug, Drop)]
pub struct Builder {
    tokens: Vec<Token>,
    terms: usize,
}

impl Model for Builder {
    ghost use Rattle.std.specs.Prelude.{List};
    ghost use Rattle.mufom_expr.specs.declared.token.Token.{Token};
    ghost use Rattle.mufom_expr.specs.Kept.{AreBuilt};

    ghost Value = { List Token };

    ghost view = { λ b. b.tokens.items };

    ghost invariant = { λ b. AreBuilt b.tokens.items b.terms };
}

impl Builder {
    /// A builder without tokens. Does not allocate.
    pub fn new(alloc: Global) -> Builder
        ensures { result ≡ [] }
    {
        Builder {
            tokens: Vec::new(alloc),
            terms: 0,
        }
    }

    /// A builder without tokens, with room for `count` of them.
    pub fn with_capacity(alloc: Global, count: usize) -> Result<Builder, NoMemory>
        ensures { IfOk result (λ b. b ≡ []) }
    {
        let tokens = Vec::with_capacity(alloc, count)?;
        Ok(Builder { tokens, terms: 0 })
    }

    /// Adds a token at the end.
    ///
    /// Returns `TooLong` if there are 255 tokens already, and otherwise `Underflow` if the token is a
    /// function that finds fewer terms than it takes. After an error nothing has changed.
    pub fn push(&mut self, token: Token) -> Result<(), ExprFault>
        ensures ok { OnOk result (self.new ≡ self.old ++ token ∷ []) }
        ensures err { OnErr result (self.new ≡ self.old) }
        ensures too_long { (result ≡ Err ExprFault.TooLong) ↔ (length self.old ≡ 255) }
        ensures underflow { (result ≡ Err ExprFault.Underflow) ↔ ((length self.old < 255) × FindsTooFew self.old token) }
        ensures empty { result ≢ Err ExprFault.Empty }
        ensures surplus { result ≢ Err ExprFault.SurplusTerms }
    {
        if self.tokens.len() >= MAX_TOKENS {
            return Err(ExprFault::TooLong);
        }
        let wanted = operands(token);
        if self.terms < wanted {
            return Err(ExprFault::Underflow);
        }
        if self.tokens.push(token).is_err() {
            return Err(ExprFault::NoMemory);
        }
        self.terms = self.terms - wanted + 1;
        Ok(())
    }

    /// The expression that consists of the tokens. Does not allocate.
    ///
    /// Returns `Empty` if there are no tokens, and `SurplusTerms` if more than one term is left. On an
    /// error the tokens are dropped.
    pub fn finish(self) -> Result<Postfix, ExprFault>
        ensures tree { IfOk result (λ p. p ≡ the_term self) }
        ensures tokens { IfOk result (λ p. tokens_of p ≡ self) }
        ensures empty { (result ≡ Err ExprFault.Empty) ↔ (self ≡ []) }
        ensures surplus { (result ≡ Err ExprFault.SurplusTerms) ↔ LeavesMoreThanOne self }
        ensures only { OnErr result ((self ≡ []) ⊎ LeavesMoreThanOne self) }
    {
        let Builder { tokens, terms } = self;
        if tokens.is_empty() {
            return Err(ExprFault::Empty);
        }
        if terms > 1 {
            return Err(ExprFault::SurplusTerms);
        }
        Ok(Postfix::of(tokens))
    }
}
