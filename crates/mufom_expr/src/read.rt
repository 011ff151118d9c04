//! Reading one token of an expression from the bytes of a file.

ghost use Rattle.std.specs.Prelude.{◌≡◌, ◌↔◌, ◌≤◌, ◌+◌, ℕ, List, ◌++◌, length, take, Some};
ghost use Rattle.mufom_numbers.specs.Spelling.{IfGot, IfBad, number_at};
ghost use Rattle.mufom_expr.specs.declared.token.Letter.{Letter};
ghost use Rattle.mufom_expr.specs.declared.token.Token.{Token};
ghost use Rattle.mufom_expr.specs.Codes.{letter_of, function_of};
ghost use Rattle.mufom_expr.specs.Spelled.{SpellsToken, IsCutOffToken, BeginsWith, IsLeftOutFunction, IsLeftOutLetter, HasBadIndex};
ghost use Rattle.mufom_expr.specs.TokenAt.{token_at, variable_token, with_letter};

use crate::token::{Function, Letter, Token};
use mufom_numbers::{Reason, Taken, codes, read_number};

// The first byte that is the lead of a number and not a number by itself.
const FIRST_LEAD: u8 = 0x80;

#[inline(always)]
fn letter(b: u8) -> Option<Letter>
    ensures { result ≡ letter_of b }
{
    match b {
        codes::LETTER_I => Some(Letter::I),
        codes::LETTER_L => Some(Letter::L),
        codes::LETTER_P => Some(Letter::P),
        codes::LETTER_R => Some(Letter::R),
        codes::LETTER_S => Some(Letter::S),
        codes::LETTER_X => Some(Letter::X),
        _ => None,
    }
}

fn function(b: u8) -> Option<Function>
    ensures { result ≡ function_of b }
{
    match b {
        codes::FUNCTION_ABS => Some(Function::Abs),
        codes::FUNCTION_NEG => Some(Function::Neg),
        codes::FUNCTION_PLUS => Some(Function::Plus),
        codes::FUNCTION_MINUS => Some(Function::Minus),
        codes::FUNCTION_DIVIDE => Some(Function::Divide),
        codes::FUNCTION_TIMES => Some(Function::Times),
        codes::FUNCTION_MAX => Some(Function::Max),
        codes::FUNCTION_MIN => Some(Function::Min),
        codes::FUNCTION_MOD => Some(Function::Mod),
        codes::FUNCTION_LESS => Some(Function::Less),
        codes::FUNCTION_GREATER => Some(Function::Greater),
        codes::FUNCTION_EQUAL => Some(Function::Equal),
        codes::FUNCTION_UNEQUAL => Some(Function::Unequal),
        codes::FUNCTION_AND => Some(Function::And),
        codes::FUNCTION_OR => Some(Function::Or),
        codes::FUNCTION_XOR => Some(Function::Xor),
        _ => None,
    }
}

/// Reads the token at the start of the input, and returns it with the length of its spelling in bytes.
///
/// Returns `Bad`
///
/// - at offset 0 with `UnsupportedFunction`, if the first byte is that of a function which this profile
///   leaves out,
/// - at offset 0 with `UnsupportedVariable`, if it is any other byte that does not begin a number and is not
///   a supported letter (callers pass bytes that begin a token), and
/// - at offset 1 with `BadNumber`, if a letter is followed by a byte that does not begin a number, or by a
///   number of 2^32 or more.
///
/// Does not allocate.
#[inline(always)]
pub fn read_token(input: &[u8]) -> Taken<Token>
    // The bytes taken are a prefix of the input, and spell the token.
    ensures got { IfGot result (λ t used. (used ≤ length input.now) × SpellsToken t (take used input.now)) }
    // If the input begins with a spelling of a token, the result is that token.
    ensures only { (t : Token) (text rest : List ℕ) → SpellsToken t text → input.now ≡ text ++ rest → result ≡ Taken.Got t (length text) }
    ensures more { (result ≡ Taken.More) ↔ IsCutOffToken input.now }
    ensures function { (result ≡ Taken.Bad 0 Reason.UnsupportedFunction) ↔ BeginsWith IsLeftOutFunction input.now }
    ensures variable { (result ≡ Taken.Bad 0 Reason.UnsupportedVariable) ↔ BeginsWith IsLeftOutLetter input.now }
    ensures index { (result ≡ Taken.Bad 1 Reason.BadNumber) ↔ HasBadIndex input.now }
    ensures place { IfBad result (λ offset. offset ≤ 1) }
    ensures exact { result ≡ token_at input.now }
{
    token(input)
}

#[inline(always)]
fn token(input: &[u8]) -> Taken<Token>
    ensures exact { result ≡ token_at input.now }
    ensures place { IfBad result (λ offset. offset ≤ 1) }
{
    let Some(first) = input.first() else {
        return Taken::More;
    };
    let b = *first;
    if b < FIRST_LEAD {
        return Taken::Got(Token::Number(b as u64), 1);
    }
    if b <= codes::LAST_NUMBER {
        return match read_number(input) {
            Taken::Got(n, used) => Taken::Got(Token::Number(n), used),
            Taken::More => Taken::More,
            Taken::Bad { offset, reason } => Taken::Bad { offset, reason },
        };
    }
    if codes::FIRST_FUNCTION <= b && b <= codes::LAST_FUNCTION {
        return match function(b) {
            Some(f) => Taken::Got(Token::Fun(f), 1),
            None => Taken::Bad {
                offset: 0,
                reason: Reason::UnsupportedFunction,
            },
        };
    }
    match letter(b) {
        None => Taken::Bad {
            offset: 0,
            reason: Reason::UnsupportedVariable,
        },
        Some(letter) => variable(letter, &input[1..]),
    }
}

// The variable with this letter, whose index comes next; most indexes have one byte.
#[inline(always)]
fn variable(letter: Letter, rest: &[u8]) -> Taken<Token>
    ensures exact { result ≡ variable_token (Some letter) (number_at rest.now) }
    ensures place { IfBad result (λ offset. offset ≤ 1) }
{
    if let [index, ..] = rest
        && *index < FIRST_LEAD
    {
        return Taken::Got(Token::Var(letter, *index as u32), 2);
    }
    match long_index(rest) {
        Taken::Got(index, used) => Taken::Got(Token::Var(letter, index), used),
        Taken::More => Taken::More,
        Taken::Bad { offset, reason } => Taken::Bad { offset, reason },
    }
}

// The index of a variable, which is the number that comes next, and the length of the variable's spelling. The caller
// makes the token of it: a token that is returned from here would have to be moved.
#[inline(never)]
fn long_index(rest: &[u8]) -> Taken<u32>
    ensures exact { (letter : Letter) → variable_token (Some letter) (number_at rest.now) ≡ with_letter letter result }
    ensures place { IfBad result (λ offset. offset ≤ 1) }
{
    match read_number(rest) {
        Taken::Got(n, used) => {
            if n < 1 << 32 {
                Taken::Got(n as u32, used + 1)
            } else {
                Taken::Bad {
                    offset: 1,
                    reason: Reason::BadNumber,
                }
            }
        }
        Taken::More => Taken::More,
        Taken::Bad { .. } => Taken::Bad {
            offset: 1,
            reason: Reason::BadNumber,
        },
    }
}
