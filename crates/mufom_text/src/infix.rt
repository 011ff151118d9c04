//! Expressions in infix form, from their tokens.

ghost use Rattle.std.specs.Prelude.{◌≡◌, ◌<◌, ◌≤◌, [], ◌∷◌, ◌++◌, List, length, true, false};
ghost use Rattle.std.specs.Fmt.{decimal};
ghost use Rattle.mufom_expr.specs.declared.token.Token.{Token as one_token};
ghost use Rattle.mufom_expr.specs.InfixText.{infix_text, letter_text};
ghost use Rattle.mufom_expr.specs.Tree.{Tree, tokens_of};
ghost use Rattle.mufom_text.specs.Terms.{takes_one, EndsWithTerm};

use crate::output::Output;
use crate::words::{number, numbered};
use mufom_expr::{Function, Letter, Postfix, Token, infix_middle, infix_opening, letter_name};

// Whether a function has one operand.
fn takes_one(function: Function) -> bool
    ensures { result ≡ takes_one function }
{
    matches!(function, Function::Abs | Function::Neg)
}

// The position at which the operands of a function after these tokens begin.
#[cycle(terms)]
fn operands_begin(before: &[Token], function: Function) -> usize
    requires known { EndsWithTerm (before.now ++ Token.Fun function ∷ []) }
    ensures start { (prefix : List one_token) (tree : Tree) → before.now ++ Token.Fun function ∷ [] ≡ prefix ++ tokens_of tree
        → result ≡ length prefix }
    ensures within { result ≤ length before.now }
{
    let last = last_term(before);
    if takes_one(function) {
        last
    } else {
        last_term(&before[..last])
    }
}

// The position at which the last term of the tokens begins.
#[cycle(terms)]
fn last_term(tokens: &[Token]) -> usize
    requires known { EndsWithTerm tokens.now }
    ensures start { (prefix : List one_token) (tree : Tree) → tokens.now ≡ prefix ++ tokens_of tree → result ≡ length prefix }
    ensures within { result < length tokens.now }
{
    let Some((last, before)) = tokens.split_last() else {
        unreachable!()
    };
    match *last {
        Token::Fun(function) => operands_begin(before, function),
        Token::Number(_) => before.len(),
        Token::Var(..) => before.len(),
    }
}

// A function of one operand in infix form.
#[cycle(form)]
fn over_one<K: Output>(out: &mut K, operand: &[Token], function: Function)
    requires one { takes_one function ≡ true }
    requires known { (tree : Tree) × (operand.now ++ Token.Fun function ∷ [] ≡ tokens_of tree) }
    ensures { (tree : Tree) → operand.now ++ Token.Fun function ∷ [] ≡ tokens_of tree → K.takes out.old out.new (infix_text tree) }
{
    out.put(infix_opening(function).as_bytes());
    infix(out, operand);
    out.put(b")");
}

// A function of two operands in infix form.
#[cycle(form)]
fn over_two<K: Output>(out: &mut K, operands: &[Token], function: Function)
    requires two { takes_one function ≡ false }
    requires known { (tree : Tree) × (operands.now ++ Token.Fun function ∷ [] ≡ tokens_of tree) }
    ensures { (tree : Tree) → operands.now ++ Token.Fun function ∷ [] ≡ tokens_of tree → K.takes out.old out.new (infix_text tree) }
{
    let second = last_term(operands);
    out.put(infix_opening(function).as_bytes());
    infix(out, &operands[..second]);
    out.put(infix_middle(function).as_bytes());
    infix(out, &operands[second..]);
    out.put(b")");
}

// The infix form of the tokens of an expression.
#[cycle(form)]
fn infix<K: Output>(out: &mut K, tokens: &[Token])
    requires known { (tree : Tree) × (tokens.now ≡ tokens_of tree) }
    ensures { (tree : Tree) → tokens.now ≡ tokens_of tree → K.takes out.old out.new (infix_text tree) }
{
    let Some((last, before)) = tokens.split_last() else {
        unreachable!()
    };
    match *last {
        Token::Number(value) => number(out, value),
        Token::Var(letter, place) => numbered(out, letter_name(letter).as_bytes(), place as u64),
        Token::Fun(function) if takes_one(function) => over_one(out, before, function),
        Token::Fun(function) => over_two(out, before, function),
    }
}

/// An expression in infix form, as `(R0 + 4)`.
pub(crate) fn expression<K: Output>(out: &mut K, value: &Postfix)
    ensures { K.takes out.old out.new (infix_text value.now) }
{
    infix(out, value.tokens());
}
