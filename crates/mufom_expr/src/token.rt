//! The tokens of an expression: numbers, variables and functions.

ghost use Rattle.std.specs.Prelude.{◌≡◌};
ghost use Rattle.mufom_expr.specs.Codes.{operands_of};
ghost use Rattle.mufom_expr.specs.Tree.{IsInRange};

/// The letter of a variable in the format, which tells what the variable means.
#[derive(Clone, Copy, Debug, PartialEq, Eq)]
pub enum Letter {
    /// The value of a public name.
    I,
    /// The base of a section.
    L,
    /// The program counter of a section.
    P,
    /// The base of a section.
    R,
    /// The size of a section.
    S,
    /// The value of a reference.
    X,
}

/// How the value of a bracketed field is read.
#[derive(Clone, Copy, Debug, PartialEq, Eq)]
pub enum FieldKind {
    Signed,
    Unsigned,
    Either,
}

/// A function of an expression. `Abs` and `Neg` take one operand, all others two.
#[derive(Clone, Copy, Debug, PartialEq, Eq)]
pub enum Function {
    Abs,
    Neg,
    Plus,
    Minus,
    Divide,
    Times,
    Max,
    Min,
    Mod,
    Less,
    Greater,
    Equal,
    Unequal,
    And,
    Or,
    Xor,
}

/// One token of a postfix expression. The number of a variable is the index that a file gives to the
/// entry, or in memory the position of the entry in its list.
#[derive(Clone, Copy, Debug, PartialEq, Eq)]
pub enum Token {
    Number(u64),
    Var(Letter, u32),
    Fun(Function),
}

/// The number of operands of a token: 0, 1 or 2.
pub fn operands(token: Token) -> usize
    ensures count { result ≡ operands_of token }
    ensures range { IsInRange token }
{
    match token {
        Token::Number(_) => 0,
        Token::Var(_, _) => 0,
        Token::Fun(Function::Abs) => 1,
        Token::Fun(Function::Neg) => 1,
        Token::Fun(_) => 2,
    }
}
