//! Expressions as trees, and how a tree is built from postfix tokens.

ghost use Rattle.std.specs.Prelude.{◌≡◌, ◌+◌, ◌<◌, ◌≤◌, ◌∷◌, length, reverse, map, OnOk};
ghost use Rattle.mufom_expr.specs.Codes.{operands, operands_of};
ghost use Rattle.mufom_expr.specs.ExprTree.{tree_of_expr, trees_with, trees_applied};

use crate::token::{Function, Letter, Token};
use mufom_numbers::NoMemory;
use std::alloc::Global;

/// An expression as a tree.
#[derive(Debug, Drop)]
pub enum Expr {
    Number(u64),
    Var(Letter, u32),
    /// A function of one operand.
    One(Function, Box<Expr>),
    /// A function of two operands, the left one first.
    Two(Function, Box<Expr>, Box<Expr>),
}

/// Pops the last tree of a stack that is not empty.
pub(crate) fn pop_expr(stack: &mut Vec<Expr>) -> Expr
    requires { 0 < length stack.old.items }
    ensures trees { reverse stack.old.items ≡ result ∷ reverse stack.new.items }
    ensures length { length stack.new.items + 1 ≡ length stack.old.items }
{
    match stack.pop() {
        Some(expr) => expr,
        None => unreachable!(),
    }
}

fn push_expr(stack: &mut Vec<Expr>, expr: Expr) -> Result<(), NoMemory>
    ensures trees { OnOk result (reverse stack.new.items ≡ expr ∷ reverse stack.old.items) }
    ensures length { OnOk result (length stack.new.items ≡ length stack.old.items + 1) }
{
    stack.push(expr)?;
    Ok(())
}

fn join_one(alloc: Global, stack: &mut Vec<Expr>, function: Function) -> Result<(), NoMemory>
    requires { 1 ≤ length stack.old.items }
    ensures trees { OnOk result (map tree_of_expr (reverse stack.new.items)
        ≡ trees_applied 1 function (map tree_of_expr (reverse stack.old.items))) }
    ensures length { OnOk result (length stack.new.items ≡ length stack.old.items) }
{
    let a = pop_expr(stack);
    push_expr(stack, Expr::One(function, Box::new(alloc, a)?))
}

fn join_two(alloc: Global, stack: &mut Vec<Expr>, function: Function) -> Result<(), NoMemory>
    requires { 2 ≤ length stack.old.items }
    ensures trees { OnOk result (map tree_of_expr (reverse stack.new.items)
        ≡ trees_applied 2 function (map tree_of_expr (reverse stack.old.items))) }
    ensures length { OnOk result (length stack.new.items + 1 ≡ length stack.old.items) }
{
    let b = pop_expr(stack);
    let a = pop_expr(stack);
    push_expr(
        stack,
        Expr::Two(function, Box::new(alloc, a)?, Box::new(alloc, b)?),
    )
}

/// Applies a token to the stack: pushes the tree of a number or variable, or replaces a function's operands by its tree.
pub(crate) fn grow(alloc: Global, stack: &mut Vec<Expr>, token: Token) -> Result<(), NoMemory>
    requires { operands_of token ≤ length stack.old.items }
    ensures trees { OnOk result (map tree_of_expr (reverse stack.new.items) ≡ trees_with (map tree_of_expr (reverse stack.old.items)) token) }
    ensures length { OnOk result (length stack.new.items + operands_of token ≡ length stack.old.items + 1) }
{
    match token {
        Token::Number(n) => push_expr(stack, Expr::Number(n)),
        Token::Var(letter, place) => push_expr(stack, Expr::Var(letter, place)),
        Token::Fun(Function::Abs) => join_one(alloc, stack, Function::Abs),
        Token::Fun(Function::Neg) => join_one(alloc, stack, Function::Neg),
        Token::Fun(function) => join_two(alloc, stack, function),
    }
}
