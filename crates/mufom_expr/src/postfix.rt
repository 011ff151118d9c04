//! An expression as its postfix tokens.

ghost use Rattle.std.specs.Prelude.{◌≡◌, ◌≤◌, ◌<◌, ◌↔◌, ◌^◌, [], ◌∷◌, length, IfOk, IfSome, IsTrue, Some};
ghost use Rattle.mufom_expr.specs.ExprTree.{tree_of_expr, tokens_of_expr, IsExpression};
ghost use Rattle.std.specs.List.{AllByRecursion};
ghost use Rattle.mufom_expr.specs.Tree.{number, tokens_of, IsInRange};
ghost use Rattle.mufom_expr.specs.Terms.{the_term, LeaveOneTerm};
ghost use Rattle.mufom_expr.specs.Value.{value_at, variables_of, with_variables, divides_by_zero};
ghost use Rattle.mufom_expr.specs.Mentions.{variables_in};
ghost use Rattle.mufom_expr.specs.Held.{tokens_held};
ghost use Rattle.mufom_expr.specs.Numbers.{number_in, number_of};
ghost use Rattle.mufom_expr.specs.Renamed.{renamed_token, renamed_tokens};

use crate::env::{Env, VarMap};
use crate::expr::{Expr, grow, pop_expr};
use crate::mentions::Mentions;
use crate::token::Token;
use crate::value::{Stack, finds_zero_divisor, pop_value, single_value, step, value_of_pair};
use arrayvec::ArrayVec;
use mufom_numbers::NoMemory;
use std::alloc::Global;
use std::fmt::{Debug, Formatter, Write};
use std::marker::Model;
use std::{fmt, slice};

/// An expression: 1 to 255 tokens that leave one term. Contracts see it as its tree.
#[derive(Debug, Drop)]
pub struct Postfix {
    tokens: Tokens,
}

/// The tokens of an expression. A single token, the usual case, is held without an allocation.
#[derive(Drop)]
pub(crate) enum Tokens {
    One(Token),
    Many(Vec<Token>),
}

impl Debug for Tokens {
    fn fmt<W: Write>(&self, f: &mut Formatter<W>) -> fmt::Result {
        self.as_slice().fmt(f)
    }
}

impl Tokens {
    fn as_slice(&self) -> &[Token]
        ensures { result.now ≡ tokens_held self.now }
    {
        match self {
            Tokens::One(token) => slice::from_ref(token),
            Tokens::Many(all) => all.as_slice(),
        }
    }
}

impl Model for Postfix {
    ghost use Rattle.mufom_expr.specs.Tree.{Tree};
    ghost use Rattle.mufom_expr.specs.TreeCode.{tree_code};

    ghost Value = { Tree };

    ghost coded = { tree_code };

    ghost use Rattle.mufom_expr.specs.Terms.{the_term};
    ghost use Rattle.mufom_expr.specs.Held.{tokens_held};
    ghost use Rattle.mufom_expr.specs.Kept.{AreOneExpression};

    ghost view = { λ p. the_term (tokens_held p.tokens) };

    ghost invariant = { λ p. AreOneExpression (tokens_held p.tokens) };
}

impl Postfix {
    /// The expression that consists of one number. Does not allocate.
    pub fn constant(_alloc: Global, value: u64) -> Result<Postfix, NoMemory>
        ensures { IfOk result (λ p. p ≡ number value) }
    {
        Ok(Postfix::single(Token::Number(value)))
    }

    /// The expression that consists of one token. Does not allocate.
    pub fn single(token: Token) -> Postfix
        requires { LeaveOneTerm (token ∷ []) }
        ensures { result ≡ the_term (token ∷ []) }
    {
        Postfix {
            tokens: Tokens::One(token),
        }
    }

    /// Replaces each variable of the expression by the variable that the map gives, and returns the
    /// expression. Does not allocate.
    pub fn renamed<M: VarMap>(self, map: &M) -> Postfix
        ensures { result ≡ with_variables (M.meaning map.now) self }
    {
        let Postfix { tokens } = self;
        match tokens {
            Tokens::One(token) => Postfix::single(renamed(map, token)),
            Tokens::Many(all) => Postfix::of(rename_all(map, all)),
        }
    }

    /// The expression that consists of these tokens, which must leave one term. Does not allocate.
    pub fn of(tokens: Vec<Token>) -> Postfix
        requires one { LeaveOneTerm tokens.items }
        requires few { length tokens.items ≤ 255 }
        requires range { AllByRecursion IsInRange tokens.items }
        ensures { result ≡ the_term tokens.items }
    {
        match tokens.as_slice() {
            [token] => Postfix::single(*token),
            _ => Postfix {
                tokens: Tokens::Many(tokens),
            },
        }
    }

    /// The tokens, operands before functions: 1 to 255. Does not allocate.
    pub fn tokens(&self) -> &[Token]
        ensures tokens { result.now ≡ tokens_of self.now }
        ensures few { length (tokens_of self.now) ≤ 255 }
        ensures range { AllByRecursion IsInRange (tokens_of self.now) }
    {
        self.tokens.as_slice()
    }

    /// The value of an expression that is a single number; 0 for any other. Does not allocate.
    pub fn number_or_zero(&self) -> u64
        ensures { result ≡ number_of self.now }
    {
        number_in(self.tokens())
    }

    /// The value modulo 2 to the width, which is 8 to 64 bits, or `None` if a variable of the expression
    /// has no value or a divisor is 0. Does not allocate.
    pub fn value<E: Env>(&self, env: &E, width: u32) -> Option<u64>
        requires low { 8 ≤ width }
        requires high { width ≤ 64 }
        ensures value { result ≡ value_at (2 ^ width) (E.meaning env.now) self.now }
        ensures residue { IfSome result (λ v. v < 2 ^ width) }
    {
        match &self.tokens {
            Tokens::One(token) => single_value(*token, env, width),
            Tokens::Many(all) => several_value(all.as_slice(), env, width),
        }
    }

    /// Whether a divisor somewhere in the expression has the value 0 modulo 2 to the width, which is 8
    /// to 64 bits. A divisor without a value does not count. Does not allocate.
    pub fn divides_by_zero<E: Env>(&self, env: &E, width: u32) -> bool
        requires low { 8 ≤ width }
        requires high { width ≤ 64 }
        ensures { result ≡ divides_by_zero (value_at (2 ^ width) (E.meaning env.now)) self.now }
    {
        has_zero_divisor(self.tokens.as_slice(), env, width)
    }

    /// The variables of the expression, one for each mention, in the order of its tokens. Does not
    /// allocate.
    pub fn mentions(&self) -> Mentions<'_>
        ensures tokens { result ≡ variables_in (tokens_of self.now) }
        ensures tree { result ≡ variables_of self.now }
    {
        Mentions::of(self.tokens())
    }

    /// A copy of the expression, with each variable replaced by the one that the map gives. Does not
    /// allocate if the expression has one token.
    pub fn map_vars<M: VarMap>(&self, alloc: Global, map: &M) -> Result<Postfix, NoMemory>
        ensures tree { IfOk result (λ p. p ≡ with_variables (M.meaning map.now) self.now) }
        ensures tokens { IfOk result (λ p. tokens_of p ≡ renamed_tokens (M.meaning map.now) (tokens_of self.now)) }
    {
        match &self.tokens {
            Tokens::One(token) => Ok(Postfix::single(renamed(map, *token))),
            Tokens::Many(all) => {
                let tokens = renamed_all(alloc, map, all.as_slice())?;
                Ok(Postfix::of(tokens))
            }
        }
    }

    /// The expression as a tree of nodes.
    pub fn to_expr(&self, alloc: Global) -> Result<Expr, NoMemory>
        ensures tree { IfOk result (λ expr. tree_of_expr expr ≡ Some self.now) }
        ensures tokens { IfOk result (λ expr. tokens_of_expr expr ≡ tokens_of self.now) }
        ensures fits { IfOk result (λ expr. IsExpression expr) }
    {
        let mut stack = Vec::new(alloc);
        for token in self.tokens.as_slice() {
            grow(alloc, &mut stack, *token)?;
        }
        Ok(pop_expr(&mut stack))
    }

    /// A copy of the expression.
    pub fn copy(&self, alloc: Global) -> Result<Postfix, NoMemory>
        ensures { IfOk result (λ p. p ≡ self.now) }
    {
        let tokens = match &self.tokens {
            Tokens::One(token) => Tokens::One(*token),
            Tokens::Many(all) => Tokens::Many(Vec::from_slice(alloc, all.as_slice())?),
        };
        Ok(Postfix { tokens })
    }

    /// Whether the two expressions are the same: they have the same tokens, and so the same tree. Does not allocate.
    pub fn equals(&self, other: &Postfix) -> bool
        ensures { IsTrue result ↔ (self.now ≡ other.now) }
    {
        self.tokens.as_slice() == other.tokens.as_slice()
    }
}

// The value of a single number token; 0 for any other tokens.
fn number_in(tokens: &[Token]) -> u64
    ensures { result ≡ number_in tokens.now }
{
    match tokens {
        [Token::Number(value)] => *value,
        _ => 0,
    }
}

// The value of tokens that form an expression.
fn stack_value<E: Env>(tokens: &[Token], env: &E, width: u32) -> Option<u64>
    requires one { LeaveOneTerm tokens.now }
    requires few { length tokens.now ≤ 255 }
    requires low { 8 ≤ width }
    requires high { width ≤ 64 }
    ensures value { result ≡ value_at (2 ^ width) (E.meaning env.now) (the_term tokens.now) }
    ensures residue { IfSome result (λ v. v < 2 ^ width) }
{
    let mut stack: Stack = ArrayVec::new();
    for token in tokens {
        step(&mut stack, *token, env, width);
    }
    pop_value(&mut stack)
}

// The value of tokens that are an expression; a short form is evaluated without the stack.
fn several_value<E: Env>(tokens: &[Token], env: &E, width: u32) -> Option<u64>
    requires one { LeaveOneTerm tokens.now }
    requires few { length tokens.now ≤ 255 }
    requires low { 8 ≤ width }
    requires high { width ≤ 64 }
    ensures value { result ≡ value_at (2 ^ width) (E.meaning env.now) (the_term tokens.now) }
    ensures residue { IfSome result (λ v. v < 2 ^ width) }
{
    match value_of_pair(tokens, env, width) {
        Some(value) => value,
        None => stack_value(tokens, env, width),
    }
}

// Whether a divisor in the expression of these tokens has the value 0.
fn has_zero_divisor<E: Env>(tokens: &[Token], env: &E, width: u32) -> bool
    requires one { LeaveOneTerm tokens.now }
    requires few { length tokens.now ≤ 255 }
    requires low { 8 ≤ width }
    requires high { width ≤ 64 }
    ensures { result ≡ divides_by_zero (value_at (2 ^ width) (E.meaning env.now)) (the_term tokens.now) }
{
    let mut stack: Stack = ArrayVec::new();
    let mut found = false;
    for token in tokens {
        found = finds_zero_divisor(found, &stack, *token);
        step(&mut stack, *token, env, width);
    }
    found
}

// The token with its variable renamed.
fn renamed<M: VarMap>(map: &M, token: Token) -> Token
    ensures value { result ≡ renamed_token (M.meaning map.now) token }
    ensures range { IsInRange result }
{
    match token {
        Token::Number(value) => Token::Number(value),
        Token::Var(letter, index) => {
            let (letter, index) = map.map(letter, index);
            Token::Var(letter, index)
        }
        Token::Fun(function) => Token::Fun(function),
    }
}

// The tokens with their variables renamed.
fn renamed_all<M: VarMap>(alloc: Global, map: &M, tokens: &[Token]) -> Result<Vec<Token>, NoMemory>
    ensures value { IfOk result (λ all. all.items ≡ renamed_tokens (M.meaning map.now) tokens.now) }
    ensures range { IfOk result (λ all. AllByRecursion IsInRange all.items) }
{
    let mut all = Vec::new(alloc);
    for token in tokens {
        all.push(renamed(map, *token))?;
    }
    Ok(all)
}

// The tokens with their variables renamed in place.
fn rename_all<M: VarMap>(map: &M, mut tokens: Vec<Token>) -> Vec<Token>
    ensures value { result.items ≡ renamed_tokens (M.meaning map.now) tokens.items }
    ensures range { AllByRecursion IsInRange result.items }
{
    for token in tokens.iter_mut() {
        *token = renamed(map, *token);
    }
    tokens
}
