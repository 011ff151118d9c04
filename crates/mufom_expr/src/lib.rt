//! Expressions of object modules: tokens as a file spells them, expressions in postfix form, their
//! trees, and their values.
//!
//! It depends on `mufom_numbers`, `arrayvec` and `thiserror`. Evaluation does not allocate. Its main
//! clause is that of [`Postfix::value`]: evaluating the tokens with a stack gives the value of the
//! expression's tree modulo 2 to the width, in every environment. Contracts see a [`Postfix`] as its
//! tree; tree and tokens determine each other.
#![tactic(auto)]

mod builder;
mod env;
mod expr;
mod fault;
mod infix_form;
mod laws;
mod mentions;
mod postfix;
mod read;
mod token;
mod value;

pub use builder::Builder;
pub use env::{Env, VarMap};
pub use expr::Expr;
pub use fault::ExprFault;
pub use infix_form::{infix, infix_middle, infix_opening, letter_name};
pub use laws::{
    renaming_composes_with_value, spellings_give_one_tree, tokens_give_the_tree_back,
    values_are_residues,
};
pub use mentions::Mentions;
pub use postfix::Postfix;
pub use read::read_token;
pub use token::{FieldKind, Function, Letter, Token, operands};
