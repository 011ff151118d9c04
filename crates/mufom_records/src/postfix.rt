//! Builds an expression from the tokens that were read with a record.

ghost use Rattle.std.specs.Prelude.{◌≡◌, ◌≤◌, ℕ, List, length, IfOk};
ghost use Rattle.mufom_expr.specs.Tree.{Tree, tokens_of};
ghost use Rattle.mufom_expr.specs.Spelled.{SpellsTree};

use mufom_expr::{Postfix, Token};
use mufom_numbers::NoMemory;
use std::alloc::Global;

/// Builds the expression that consists of these tokens. They must be all tokens of an expression that some
/// bytes spell, as those that are read with a [`Record`](crate::Record) are. The variables keep the indexes of
/// the file. An expression of one token allocates nothing; any other makes one allocation.
pub fn postfix_of(alloc: Global, tokens: &[Token]) -> Result<Postfix, NoMemory>
    requires { (tree : Tree) × (bytes : List ℕ) × SpellsTree tree bytes × (tokens.now ≡ tokens_of tree) }
    ensures { IfOk result (λ tree. tokens.now ≡ tokens_of tree) }
{
    match tokens {
        [token] => Ok(Postfix::single(*token)),
        _ => Ok(Postfix::of(Vec::from_slice(alloc, tokens)?)),
    }
}
