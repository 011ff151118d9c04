//! Evaluating expressions with a stack of residues.

ghost use Rattle.std.specs.Prelude.{◌≡◌, ◌+◌, ◌^◌, ◌<◌, ◌≤◌, ◌%◌, ◌||◌};
ghost use Rattle.std.specs.Prelude.{Some, length, reverse, option_map, slice_get, [], ◌∷◌, IfSome};
ghost use Rattle.mufom_expr.specs.Codes.{operands as operands_taken, operands_of};
ghost use Rattle.mufom_expr.specs.Value.{both, value_at};
ghost use Rattle.mufom_expr.specs.Terms.{the_term};
ghost use Rattle.mufom_expr.specs.ValueStack.{unary_value, binary_value, values_with, values_applied, AreResidues, zero_there, token_divides_by_zero};

use crate::env::Env;
use crate::token::{Function, Token, operands};
use arrayvec::ArrayVec;

/// The values on the stack, the topmost at the end: at most one for each token.
pub(crate) type Stack = ArrayVec<Option<u64>, 255>;

fn unary(function: Function, a: u64, width: u32) -> u64
    requires low { 1 ≤ width }
    requires high { width ≤ 64 }
    requires operand { a < 2 ^ width }
    ensures value { result ≡ unary_value (2 ^ width) function a }
    ensures residue { result < 2 ^ width }
{
    let modulus: u128 = 1u128 << width;
    let a = a as u128;
    match function {
        Function::Abs => {
            if a + a < modulus {
                a as u64
            } else {
                ((modulus - a) % modulus) as u64
            }
        }
        _ => ((modulus - a) % modulus) as u64,
    }
}

fn binary(function: Function, a: u64, b: u64, width: u32) -> Option<u64>
    requires low { 1 ≤ width }
    requires high { width ≤ 64 }
    requires left { a < 2 ^ width }
    requires right { b < 2 ^ width }
    requires two { operands_taken function ≡ 2 }
    ensures value { result ≡ binary_value (2 ^ width) function a b }
    ensures residue { IfSome result (λ v. v < 2 ^ width) }
{
    let modulus: u128 = 1u128 << width;
    let x = a as u128;
    let y = b as u128;
    match function {
        Function::Plus => Some(((x + y) % modulus) as u64),
        Function::Minus => Some(((x + (modulus - y)) % modulus) as u64),
        Function::Divide => a.checked_div(b),
        Function::Times => Some((x * y % modulus) as u64),
        Function::Max => Some(a.max(b)),
        Function::Min => Some(a.min(b)),
        Function::Mod => a.checked_rem(b),
        Function::Less => Some((a < b) as u64),
        Function::Greater => Some((b < a) as u64),
        Function::Equal => Some((a == b) as u64),
        Function::Unequal => Some((a != b) as u64),
        Function::And => Some(a & b),
        Function::Or => Some(a | b),
        Function::Xor => Some(a ^ b),
        Function::Abs | Function::Neg => unreachable!(),
    }
}

// The residue of a number modulo 2 to the width.
fn reduced(n: u64, width: u32) -> u64
    requires { width ≤ 64 }
    ensures value { result ≡ n % 2 ^ width }
    ensures residue { result < 2 ^ width }
{
    let modulus: u128 = 1u128 << width;
    (n as u128 % modulus) as u64
}

fn push_value(stack: &mut Stack, value: Option<u64>)
    requires { length stack.old.items < 255 }
    ensures value { reverse stack.new.items ≡ value ∷ reverse stack.old.items }
    ensures length { length stack.new.items ≡ length stack.old.items + 1 }
{
    stack.push(value);
}

/// Pops the topmost value of a stack that is not empty.
pub(crate) fn pop_value(stack: &mut Stack) -> Option<u64>
    requires { 0 < length stack.old.items }
    ensures value { reverse stack.old.items ≡ result ∷ reverse stack.new.items }
    ensures length { length stack.new.items + 1 ≡ length stack.old.items }
{
    match stack.pop() {
        Some(value) => value,
        None => unreachable!(),
    }
}

fn unary_of(function: Function, a: Option<u64>, width: u32) -> Option<u64>
    requires low { 1 ≤ width }
    requires high { width ≤ 64 }
    requires operand { IfSome a (λ v. v < 2 ^ width) }
    ensures value { result ≡ option_map (unary_value (2 ^ width) function) a }
    ensures residue { IfSome result (λ v. v < 2 ^ width) }
{
    match a {
        Some(a) => Some(unary(function, a, width)),
        None => None,
    }
}

fn binary_of(function: Function, a: Option<u64>, b: Option<u64>, width: u32) -> Option<u64>
    requires low { 1 ≤ width }
    requires high { width ≤ 64 }
    requires left { IfSome a (λ v. v < 2 ^ width) }
    requires right { IfSome b (λ v. v < 2 ^ width) }
    requires two { operands_taken function ≡ 2 }
    ensures value { result ≡ both (binary_value (2 ^ width) function) a b }
    ensures residue { IfSome result (λ v. v < 2 ^ width) }
{
    match (a, b) {
        (Some(a), Some(b)) => binary(function, a, b, width),
        _ => None,
    }
}

fn apply_unary(stack: &mut Stack, function: Function, width: u32)
    requires low { 1 ≤ width }
    requires high { width ≤ 64 }
    requires some { 1 ≤ length stack.old.items }
    requires room { length stack.old.items < 255 }
    requires residues { AreResidues (2 ^ width) (reverse stack.old.items) }
    ensures value { reverse stack.new.items ≡ values_applied (2 ^ width) 1 function (reverse stack.old.items) }
    ensures length { length stack.new.items ≡ length stack.old.items }
    ensures residues { AreResidues (2 ^ width) (reverse stack.new.items) }
{
    let a = pop_value(stack);
    push_value(stack, unary_of(function, a, width));
}

fn apply_binary(stack: &mut Stack, function: Function, width: u32)
    requires low { 1 ≤ width }
    requires high { width ≤ 64 }
    requires some { 2 ≤ length stack.old.items }
    requires room { length stack.old.items < 255 }
    requires residues { AreResidues (2 ^ width) (reverse stack.old.items) }
    requires two { operands_taken function ≡ 2 }
    ensures value { reverse stack.new.items ≡ values_applied (2 ^ width) 2 function (reverse stack.old.items) }
    ensures length { length stack.new.items + 1 ≡ length stack.old.items }
    ensures residues { AreResidues (2 ^ width) (reverse stack.new.items) }
{
    let b = pop_value(stack);
    let a = pop_value(stack);
    push_value(stack, binary_of(function, a, b, width));
}

/// Applies a token to the stack: pushes the value of a number or variable, or replaces a function's operands by its value.
pub(crate) fn step<E: Env>(stack: &mut Stack, token: Token, env: &E, width: u32)
    requires low { 1 ≤ width }
    requires high { width ≤ 64 }
    requires operands { operands_of token ≤ length stack.old.items }
    requires room { length stack.old.items < 255 }
    requires residues { AreResidues (2 ^ width) (reverse stack.old.items) }
    ensures value { reverse stack.new.items ≡ values_with (2 ^ width) (E.meaning env.now) (reverse stack.old.items) token }
    ensures length { length stack.new.items + operands_of token ≡ length stack.old.items + 1 }
    ensures residues { AreResidues (2 ^ width) (reverse stack.new.items) }
{
    match token {
        Token::Number(n) => push_value(stack, Some(reduced(n, width))),
        Token::Var(letter, index) => match env.lookup(letter, index) {
            Some(v) => push_value(stack, Some(reduced(v, width))),
            None => push_value(stack, None),
        },
        Token::Fun(Function::Abs) => apply_unary(stack, Function::Abs, width),
        Token::Fun(Function::Neg) => apply_unary(stack, Function::Neg, width),
        Token::Fun(function) => apply_binary(stack, function, width),
    }
}

/// The value of an expression that is one token. Needs no stack.
pub(crate) fn single_value<E: Env>(token: Token, env: &E, width: u32) -> Option<u64>
    requires high { width ≤ 64 }
    requires operand { operands_of token ≡ 0 }
    ensures value { result ≡ value_at (2 ^ width) (E.meaning env.now) (the_term (token ∷ [])) }
    ensures residue { IfSome result (λ v. v < 2 ^ width) }
{
    match token {
        Token::Number(n) => Some(reduced(n, width)),
        Token::Var(letter, index) => match env.lookup(letter, index) {
            Some(v) => Some(reduced(v, width)),
            None => None,
        },
        Token::Fun(_) => unreachable!(),
    }
}

// The value of a function of two tokens, neither of which is a function. Needs no stack.
fn pair_value<E: Env>(
    left: Token,
    right: Token,
    function: Function,
    env: &E,
    width: u32,
) -> Option<u64>
    requires low { 1 ≤ width }
    requires high { width ≤ 64 }
    requires left { operands_of left ≡ 0 }
    requires right { operands_of right ≡ 0 }
    requires two { operands_taken function ≡ 2 }
    ensures value { result ≡ value_at (2 ^ width) (E.meaning env.now) (the_term (left ∷ right ∷ Token.Fun function ∷ [])) }
    ensures residue { IfSome result (λ v. v < 2 ^ width) }
{
    let left = single_value(left, env, width);
    let right = single_value(right, env, width);
    binary_of(function, left, right, width)
}

// The same, with the function given as a token.
fn triple_value<E: Env>(
    left: Token,
    right: Token,
    function: Token,
    env: &E,
    width: u32,
) -> Option<u64>
    requires low { 1 ≤ width }
    requires high { width ≤ 64 }
    requires left { operands_of left ≡ 0 }
    requires right { operands_of right ≡ 0 }
    requires two { operands_of function ≡ 2 }
    ensures value { result ≡ value_at (2 ^ width) (E.meaning env.now) (the_term (left ∷ right ∷ function ∷ [])) }
    ensures residue { IfSome result (λ v. v < 2 ^ width) }
{
    match function {
        Token::Fun(function) => pair_value(left, right, function, env, width),
        _ => unreachable!(),
    }
}

/// The value of three tokens: a function of two tokens, neither of which is a function. Needs no stack.
/// Returns `None` for tokens of another form, even if these have a value.
pub(crate) fn value_of_pair<E: Env>(tokens: &[Token], env: &E, width: u32) -> Option<Option<u64>>
    requires low { 1 ≤ width }
    requires high { width ≤ 64 }
    ensures value { IfSome result (λ value. value ≡ value_at (2 ^ width) (E.meaning env.now) (the_term tokens.now)) }
    ensures residue { IfSome result (λ value. IfSome value (λ v. v < 2 ^ width)) }
{
    match tokens {
        [left, right, function] => {
            if operands(*left) == 0 && operands(*right) == 0 && operands(*function) == 2 {
                Some(triple_value(*left, *right, *function, env, width))
            } else {
                None
            }
        }
        _ => None,
    }
}

fn is_zero(value: Option<Option<u64>>) -> bool
    ensures { result ≡ zero_there value }
{
    match value {
        Some(Some(value)) => value == 0,
        _ => false,
    }
}

fn has_zero_on_top(stack: &Stack) -> bool
    ensures { result ≡ zero_there (slice_get (reverse stack.now.items) 0) }
{
    is_zero(stack.as_slice().last().copied())
}

fn token_divides_by_zero(stack: &Stack, token: Token) -> bool
    ensures { result ≡ token_divides_by_zero (reverse stack.now.items) token }
{
    match token {
        Token::Fun(Function::Divide) => has_zero_on_top(stack),
        Token::Fun(Function::Mod) => has_zero_on_top(stack),
        _ => false,
    }
}

/// Whether a zero divisor was found already, or the token is a quotient or a remainder and its divisor,
/// the topmost value of the stack, is 0.
pub(crate) fn finds_zero_divisor(found: bool, stack: &Stack, token: Token) -> bool
    ensures { result ≡ (found || token_divides_by_zero (reverse stack.now.items) token) }
{
    found || token_divides_by_zero(stack, token)
}
