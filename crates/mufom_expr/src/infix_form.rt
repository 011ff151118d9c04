//! The infix form of an expression, as texts print it.

ghost use Rattle.std.specs.Prelude.{◌≡◌, ◌++◌, IfOk, OnOk, IsSome, IfSome, string_bytes};
ghost use Rattle.mufom_expr.specs.ExprTree.{tree_of_expr, IsExpression};
ghost use Rattle.mufom_expr.specs.InfixText.{infix_text, letter_text, opening_text, middle_text};

use crate::expr::Expr;
use crate::token::{Function, Letter};
use mufom_numbers::{Bytes, NoMemory};
use std::alloc::Global;

/// The expression in infix form, for example `(R0 + 4)`.
///
/// Each function must have as many operands as it takes, and there must be at most 255 tokens. Both hold
/// for each tree that `Postfix::to_expr` returns.
pub fn infix(alloc: Global, expr: &Expr) -> Result<Bytes, NoMemory>
    requires { IsExpression expr.now }
    ensures { IfOk result (λ text. IfSome (tree_of_expr expr.now) (λ t. text ≡ infix_text t)) }
{
    let mut text = String::new(alloc);
    write_infix(&mut text, expr)?;
    Bytes::from_slice(alloc, text.as_bytes())
}

/// The name of a letter in the infix form.
pub fn letter_name(letter: Letter) -> &'static str
    ensures { result.now ≡ letter_text letter }
{
    match letter {
        Letter::I => "I",
        Letter::L => "L",
        Letter::P => "P",
        Letter::R => "R",
        Letter::S => "S",
        Letter::X => "X",
    }
}

/// The text before the operands of a function in the infix form.
pub fn infix_opening(function: Function) -> &'static str
    ensures { result.now ≡ opening_text function }
{
    match function {
        Function::Abs => "abs(",
        Function::Neg => "neg(",
        Function::Max => "max(",
        Function::Min => "min(",
        Function::Mod => "mod(",
        Function::And => "and(",
        Function::Or => "or(",
        Function::Xor => "xor(",
        _ => "(",
    }
}

/// The text between the two operands of a function in the infix form.
pub fn infix_middle(function: Function) -> &'static str
    ensures { result.now ≡ middle_text function }
{
    match function {
        Function::Plus => " + ",
        Function::Minus => " - ",
        Function::Divide => " / ",
        Function::Times => " * ",
        Function::Less => " < ",
        Function::Greater => " > ",
        Function::Equal => " = ",
        Function::Unequal => " <> ",
        _ => ", ",
    }
}

// Appends the infix form to the text.
fn write_infix(text: &mut String, expr: &Expr) -> Result<(), NoMemory>
    requires { IsSome (tree_of_expr expr.now) }
    ensures { OnOk result (IfSome (tree_of_expr expr.now) (λ t. string_bytes text.new ≡ string_bytes text.old ++ infix_text t)) }
{
    match expr {
        Expr::Number(n) => write!(text, "{n}")?,
        Expr::Var(letter, place) => {
            text.push_str(letter_name(*letter))?;
            write!(text, "{place}")?;
        }
        Expr::One(function, a) => {
            text.push_str(infix_opening(*function))?;
            write_infix(text, a)?;
            text.push_str(")")?;
        }
        Expr::Two(function, a, b) => {
            text.push_str(infix_opening(*function))?;
            write_infix(text, a)?;
            text.push_str(infix_middle(*function))?;
            write_infix(text, b)?;
            text.push_str(")")?;
        }
    }
    Ok(())
}
