//! Reads expressions in one pass, which keeps their tokens and the number of terms on the stack.

ghost use Rattle.std.specs.Prelude.{◌≡◌, ◌+◌, ◌-◌, ◌<◌, ◌≤◌, ◌==◌, ℕ, List, length, drop, IfOk};
ghost use Rattle.mufom_expr.specs.Codes.{operands_of};
ghost use Rattle.mufom_expr.specs.TokenAt.{begins_token as token_begins, token_at, tokens_at};
ghost use Rattle.mufom_numbers.specs.declared.taken.Taken.TheVariants as taken;
ghost use Rattle.mufom_records.specs.Fields.{expression as an_expression, optional_expression as an_optional_expression};
ghost use Rattle.mufom_records.specs.Fields.{sized_expression as a_sized_expression, is_one_of, closing_brackets, closes};
ghost use Rattle.mufom_records.specs.Parts.{IsExpressionIn, IsOptionalExpressionIn, AreTokensIn, AreOptionalTokensIn, without_size};
ghost use Rattle.mufom_records.specs.Reading.{field_at, terms_with, expression_end, tokens_from, without_token, sized_by};

use crate::expression_tokens::{ExpressionTokens, MOST_TOKENS};
use crate::fields::{bad, byte};
use crate::size::{PlainSize, SizeSoFar};
use crate::stop::Stop;
use mufom_expr::{Token, operands, read_token};
use mufom_numbers::{Reason, Span, Taken, codes};

fn begins_token(b: u8) -> bool
    ensures { result ≡ token_begins b }
{
    b <= codes::LAST_NUMBER
        || (codes::FIRST_FUNCTION <= b && b <= codes::LAST_FUNCTION)
        || (codes::LETTER_A <= b && b <= codes::LETTER_Z)
}

// Reads the token at an offset, if `room` more tokens are allowed, and returns the number of terms after it, the offset after
// it, and the token.
#[inline(always)]
fn counted_token(
    room: usize,
    terms: usize,
    input: &[u8],
    at: usize,
) -> Result<(usize, usize, Token), Stop>
    requires at { at ≤ length input.now }
    requires terms { terms ≤ 255 }
    ensures exact { without_token result ≡ terms_with room terms at (token_at (drop at input.now)) }
    ensures left { IfOk result (λ r. r.0 ≡ terms - operands_of r.2 + 1) }
    ensures token { IfOk result (λ r. (used : ℕ) × (token_at (drop at input.now) ≡ taken.Got r.2 used) × (r.1 ≡ at + used)) }
    ensures within { IfOk result (λ r. (at ≤ r.1) × (r.1 ≤ length input.now) × (0 < room) × (r.0 ≤ terms + 1)) }
{
    match read_token(&input[at..]) {
        Taken::More => Err(Stop::More),
        Taken::Bad { offset, reason } => {
            if room == 0 && offset > 0 {
                Err(bad(at, Reason::TooLong))
            } else {
                Err(bad(at + offset, reason))
            }
        }
        Taken::Got(token, used) => {
            let wanted = operands(token);
            if terms < wanted {
                Err(bad(at, Reason::Underflow))
            } else if room == 0 {
                Err(bad(at, Reason::TooLong))
            } else {
                Ok((terms - wanted + 1, at + used, token))
            }
        }
    }
}

// Checks the end of an expression that leaves `terms` terms.
fn end_of(is_empty: bool, terms: usize, at: usize) -> Result<((), usize), Stop>
    ensures exact { result ≡ expression_end is_empty terms at }
    ensures within { IfOk result (λ r. r.1 ≡ at) }
{
    if is_empty {
        Err(bad(at, Reason::Empty))
    } else if terms == 1 {
        Ok(((), at))
    } else {
        Err(bad(at, Reason::SurplusTerms))
    }
}

// Reads the tokens of an expression and puts them in the place of those in the buffer. Returns the offset after the expression.
fn read_tokens(
    input: &[u8],
    start: usize,
    tokens: &mut ExpressionTokens,
) -> Result<((), usize), Stop>
    requires { start ≤ length input.now }
    ensures exact { result ≡ tokens_from 255 0 input.now start }
    ensures tokens { IfOk result (λ _. tokens_at 255 (drop start input.now) ≡ tokens.new) }
    ensures within { IfOk result (λ r. (start ≤ r.1) × (r.1 ≤ length input.now)) }
{
    tokens.clear();
    let mut room = MOST_TOKENS;
    let mut terms = 0;
    let mut at = start;
    loop {
        let (b, _) = byte(input, at)?;
        if !begins_token(b) {
            return end_of(room == MOST_TOKENS, terms, at);
        }
        let (left, after, token) = counted_token(room, terms, input, at)?;
        tokens.push(token);
        room -= 1;
        terms = left;
        at = after;
    }
}

/// Reads an expression: the position of all its bytes, and the offset after it. Its tokens are left in the buffer.
pub(crate) fn expression(
    input: &[u8],
    start: usize,
    tokens: &mut ExpressionTokens,
) -> Result<(Span, usize), Stop>
    requires { start ≤ length input.now }
    ensures exact { result ≡ field_at an_expression input.now start }
    ensures part { IfOk result (λ r. IsExpressionIn input.now r.0) }
    ensures tokens { IfOk result (λ r. AreTokensIn input.now r.0 tokens.new) }
    ensures within { IfOk result (λ r. r.1 ≤ length input.now) }
{
    let (_, at) = read_tokens(input, start, tokens)?;
    let span = Span {
        start,
        len: at - start,
    };
    Ok((span, at))
}

/// Reads an optional expression: none if the next byte cannot begin one. Its tokens are left in the buffer.
pub(crate) fn optional_expression(
    input: &[u8],
    at: usize,
    tokens: &mut ExpressionTokens,
) -> Result<(Option<Span>, usize), Stop>
    requires { at ≤ length input.now }
    ensures exact { result ≡ field_at an_optional_expression input.now at }
    ensures part { IfOk result (λ r. IsOptionalExpressionIn input.now r.0) }
    ensures tokens { IfOk result (λ r. AreOptionalTokensIn input.now r.0 tokens.new) }
    ensures within { IfOk result (λ r. r.1 ≤ length input.now) }
{
    let (b, _) = byte(input, at)?;
    if begins_token(b) {
        let (span, after) = expression(input, at, tokens)?;
        Ok((Some(span), after))
    } else {
        Ok((None, at))
    }
}

fn is_closing(b: u8) -> bool
    ensures { result ≡ is_one_of closing_brackets b }
{
    match b {
        codes::CLOSE_SIGNED | codes::CLOSE_UNSIGNED | codes::CLOSE_EITHER => true,
        _ => false,
    }
}

// Checks the end of an expression that may be followed by a size, before the byte `b` at this offset. The token that is the
// size is removed from the buffer.
fn sized_end(
    room: usize,
    start: usize,
    so_far: SizeSoFar,
    b: u8,
    at: usize,
    tokens: &mut ExpressionTokens,
) -> Result<((Span, Option<PlainSize>), usize), Stop>
    requires order { (start ≤ so_far.last) × (so_far.last ≤ at) }
    requires some { room ≡ 255 → so_far.terms ≡ 0 }
    ensures exact { (input : List ℕ) → closes (drop at input) ≡ is_one_of closing_brackets b
        → result ≡ sized_by input start so_far (expression_end (room == 255) so_far.terms at) }
    ensures tokens { IfOk result (λ r. tokens.new ≡ without_size r.0.1 tokens.old) }
    ensures within { IfOk result (λ r. r.1 ≡ at) }
{
    if so_far.terms == 2 && is_closing(b) {
        if let Some(size) = so_far.size {
            let value = Span {
                start,
                len: so_far.last - start,
            };
            let uses_pc = so_far.uses_pc;
            tokens.remove_last();
            return Ok(((value, Some(PlainSize { size, uses_pc })), at));
        }
    }
    end_of(room == MOST_TOKENS, so_far.terms, at)?;
    let value = Span {
        start,
        len: at - start,
    };
    Ok(((value, None), at))
}

/// Reads an expression and the size of a field after it, if there is one without a comma: the position of the
/// expression's bytes, the size, and the offset after both. The tokens of the expression are left in the buffer.
pub(crate) fn sized_expression(
    input: &[u8],
    start: usize,
    tokens: &mut ExpressionTokens,
) -> Result<((Span, Option<PlainSize>), usize), Stop>
    requires { start ≤ length input.now }
    ensures exact { result ≡ field_at a_sized_expression input.now start }
    ensures part { IfOk result (λ r. IsExpressionIn input.now r.0.0) }
    ensures tokens { IfOk result (λ r. AreTokensIn input.now r.0.0 tokens.new) }
    ensures within { IfOk result (λ r. r.1 ≤ length input.now) }
{
    tokens.clear();
    let mut room = MOST_TOKENS;
    let mut at = start;
    let mut so_far = SizeSoFar::new(start);
    loop {
        let (b, _) = byte(input, at)?;
        if !begins_token(b) {
            return sized_end(room, start, so_far, b, at, tokens);
        }
        let (_, after, token) = counted_token(room, so_far.terms, input, at)?;
        tokens.push(token);
        room -= 1;
        so_far = so_far.with(token, at);
        at = after;
    }
}
