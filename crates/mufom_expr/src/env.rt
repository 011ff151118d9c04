//! What a caller provides to an expression: the values of variables, or other variables in their place.

ghost use Rattle.std.specs.Prelude.{◌≡◌, ℕ, Option};
ghost use Rattle.mufom_expr.specs.declared.token.Letter.{Letter};

use crate::token::Letter;

/// An environment: it gives variables their values.
pub trait Env {
    /// The value of a variable, by its letter and its number, or none.
    ghost meaning: { Self → Letter → ℕ → Option ℕ };

    /// The value of a variable, or `None` if it has none.
    fn lookup(&self, letter: Letter, index: u32) -> Option<u64>
        ensures { result ≡ meaning self.now letter index };
}

/// A renaming: it replaces variables by other variables.
pub trait VarMap {
    /// The variable that replaces a variable, by letter and number.
    ghost meaning: { Self → Letter → ℕ → Letter × ℕ };

    /// The letter and the number of the variable that replaces this one.
    fn map(&self, letter: Letter, index: u32) -> (Letter, u32)
        ensures { result ≡ meaning self.now letter index };
}
