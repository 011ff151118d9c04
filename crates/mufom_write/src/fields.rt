//! Writes numbers, strings and expressions.

ghost use Rattle.std.specs.Prelude.{◌≡◌, ◌++◌, false};
ghost use Rattle.mufom_expr.specs.Codes.{letter_byte, function_byte};
ghost use Rattle.mufom_records.specs.Layouts.{opening, closing};
ghost use Rattle.mufom_module.specs.Written as written;
ghost use Rattle.mufom_module.specs.Written.{shortest};
ghost use Rattle.mufom_module.specs.Defects.{is_long};

use crate::output::Output;
use mufom_expr::{FieldKind, Function, Letter, Postfix, Token};
use mufom_host::Failed;
use mufom_numbers::{Bytes, codes, string_lead};

/// The index that the file has for its first section.
pub(crate) const FIRST_SECTION: u64 = 1;

/// The index that the file has for its first public.
pub(crate) const FIRST_PUBLIC: u64 = 32;

/// The index that the file has for its first reference.
pub(crate) const FIRST_REFERENCE: u64 = 11;

/// The index that the file has for its first debug name.
pub(crate) const FIRST_DEBUG_NAME: u64 = 32;

/// Writes a number.
pub(crate) fn number<K: Output>(out: &mut K, value: u64) -> Result<(), Failed>
    ensures { K.takes out.old out.new (written.number shortest value) result }
{
    out.number(value)
}

/// Writes the start of a record: the bytes of its command, followed by a number.
pub(crate) fn numbered<K: Output>(out: &mut K, command: &[u8], value: u64) -> Result<(), Failed>
    ensures { K.takes out.old out.new (command.now ++ written.number shortest value) result }
{
    out.record(command)?;
    number(out, value)
}

/// Writes bytes within a record, followed by a number.
pub(crate) fn prefixed<K: Output>(out: &mut K, prefix: &[u8], value: u64) -> Result<(), Failed>
    ensures { K.takes out.old out.new (prefix.now ++ written.number shortest value) result }
{
    out.put(prefix)?;
    number(out, value)
}

/// Writes the numbers, one after another.
pub(crate) fn numbers<K: Output>(out: &mut K, values: &[u64]) -> Result<(), Failed>
    ensures { K.takes out.old out.new (written.numbers shortest values.now) result }
{
    for value in values {
        number(out, *value)?;
    }
    Ok(())
}

/// Writes a string: its lead and its bytes.
pub(crate) fn string<K: Output>(out: &mut K, text: &Bytes) -> Result<(), Failed>
    requires { is_long text.now ≡ false }
    ensures { K.takes out.old out.new (written.string shortest text.now) result }
{
    out.put(string_lead(text.len() as u16).as_slice())?;
    out.put(text.as_slice())
}

/// Writes the number of bytes, followed by the bytes.
pub(crate) fn counted<K: Output>(out: &mut K, bytes: &Bytes) -> Result<(), Failed>
    ensures { K.takes out.old out.new (written.counted shortest bytes.now) result }
{
    number(out, bytes.len() as u64)?;
    out.put(bytes.as_slice())
}

// ---- expressions

fn letter_byte(letter: Letter) -> u8
    ensures { result ≡ letter_byte letter }
{
    match letter {
        Letter::I => codes::LETTER_I,
        Letter::L => codes::LETTER_L,
        Letter::P => codes::LETTER_P,
        Letter::R => codes::LETTER_R,
        Letter::S => codes::LETTER_S,
        Letter::X => codes::LETTER_X,
    }
}

fn function_byte(function: Function) -> u8
    ensures { result ≡ function_byte function }
{
    match function {
        Function::Abs => codes::FUNCTION_ABS,
        Function::Neg => codes::FUNCTION_NEG,
        Function::Plus => codes::FUNCTION_PLUS,
        Function::Minus => codes::FUNCTION_MINUS,
        Function::Divide => codes::FUNCTION_DIVIDE,
        Function::Times => codes::FUNCTION_TIMES,
        Function::Max => codes::FUNCTION_MAX,
        Function::Min => codes::FUNCTION_MIN,
        Function::Mod => codes::FUNCTION_MOD,
        Function::Less => codes::FUNCTION_LESS,
        Function::Greater => codes::FUNCTION_GREATER,
        Function::Equal => codes::FUNCTION_EQUAL,
        Function::Unequal => codes::FUNCTION_UNEQUAL,
        Function::And => codes::FUNCTION_AND,
        Function::Or => codes::FUNCTION_OR,
        Function::Xor => codes::FUNCTION_XOR,
    }
}

// The index that the file has for the entry at this position of the letter's list.
fn index_of(letter: Letter, position: u32) -> u64
    ensures { result ≡ written.index_of letter position }
{
    match letter {
        Letter::I => position as u64 + FIRST_PUBLIC,
        Letter::X => position as u64 + FIRST_REFERENCE,
        Letter::L => position as u64 + FIRST_SECTION,
        Letter::P => position as u64 + FIRST_SECTION,
        Letter::R => position as u64 + FIRST_SECTION,
        Letter::S => position as u64 + FIRST_SECTION,
    }
}

fn token<K: Output>(out: &mut K, token: Token) -> Result<(), Failed>
    ensures { K.takes out.old out.new (written.token shortest token) result }
{
    match token {
        Token::Number(value) => number(out, value),
        Token::Var(letter, position) => {
            prefixed(out, &[letter_byte(letter)], index_of(letter, position))
        }
        Token::Fun(function) => out.put(&[function_byte(function)]),
    }
}

/// Writes an expression: its tokens, operands before functions.
pub(crate) fn expression<K: Output>(out: &mut K, value: &Postfix) -> Result<(), Failed>
    ensures { K.takes out.old out.new (written.expression shortest value.now) result }
{
    let tokens = value.tokens();
    for next in tokens {
        token(out, *next)?;
    }
    Ok(())
}

/// The bracket before an expression.
pub(crate) fn opening(kind: FieldKind) -> u8
    ensures { result ≡ opening kind }
{
    match kind {
        FieldKind::Signed => codes::OPEN_SIGNED,
        FieldKind::Unsigned => codes::OPEN_UNSIGNED,
        FieldKind::Either => codes::OPEN_EITHER,
    }
}

/// The bracket after an expression.
pub(crate) fn closing(kind: FieldKind) -> u8
    ensures { result ≡ closing kind }
{
    match kind {
        FieldKind::Signed => codes::CLOSE_SIGNED,
        FieldKind::Unsigned => codes::CLOSE_UNSIGNED,
        FieldKind::Either => codes::CLOSE_EITHER,
    }
}
