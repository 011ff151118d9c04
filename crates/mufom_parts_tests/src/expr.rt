//! Tests of tokens and expressions: their bytes, values, texts and copies, and the sequences that are errors.

use mufom_expr::Function::{
    Abs, And, Divide, Equal, Greater, Less, Max, Min, Minus, Mod, Neg, Or, Plus, Times, Unequal,
    Xor,
};
use mufom_expr::Token::{Fun, Number, Var};
use mufom_expr::{
    Builder, Env, ExprFault, Function, Letter, Postfix, Token, VarMap, infix, read_token,
};
use mufom_numbers::{Bytes, Reason, Taken};
use std::alloc::Global;
use std::process::Abort;

const R0: Token = Var(Letter::R, 0);

// An environment in which each variable has this value, or none.
#[derive(Drop)]
struct All(Option<u64>);

impl Env for All {
    ghost meaning = { λ all letter index. all.0 };

    fn lookup(&self, _letter: Letter, _index: u32) -> Option<u64> {
        self.0
    }
}

// A renaming that replaces each variable by this one.
#[derive(Drop)]
struct AllAre(Letter, u32);

impl VarMap for AllAre {
    ghost meaning = { λ one letter index. (one.0, one.1) };

    fn map(&self, _letter: Letter, _index: u32) -> (Letter, u32) {
        (self.0, self.1)
    }
}

fn built(alloc: Global, tokens: &[Token]) -> Result<Postfix, ExprFault> {
    let mut builder = Builder::new(alloc);
    for token in tokens {
        builder.push(*token)?;
    }
    builder.finish()
}

fn valued(alloc: Global, tokens: &[Token], r0: Option<u64>, width: u32) -> Option<u64> {
    if !(8..=64).contains(&width) {
        return Some(u64::MAX);
    }
    match built(alloc, tokens) {
        Ok(expression) => expression.value(&All(r0), width),
        Err(_) => Some(u64::MAX),
    }
}

// Tokens, and their values at 16, 24, 32 and 64 bits.
static VALUES: [([Token; 3], &[Option<u64>]); 26] = [
    ([Number(1), Number(65_531), Fun(Plus)], &[Some(65_532); 4]),
    (
        [Number(65_535), Number(2), Fun(Plus)],
        &[Some(1), Some(65_537), Some(65_537), Some(65_537)],
    ),
    (
        [Number(3), Number(5), Fun(Minus)],
        &[
            Some(65_534),
            Some(16_777_214),
            Some(4_294_967_294),
            Some(u64::MAX - 1),
        ],
    ),
    (
        [Number(65_537), Number(3), Fun(Divide)],
        &[Some(0), Some(21_845), Some(21_845), Some(21_845)],
    ),
    (
        [Number(5), Number(65_536), Fun(Divide)],
        &[None, Some(0), Some(0), Some(0)],
    ),
    ([Number(5), Number(0), Fun(Divide)], &[None; 4]),
    (
        [Number(65_535), Number(65_535), Fun(Times)],
        &[
            Some(1),
            Some(16_646_145),
            Some(4_294_836_225),
            Some(4_294_836_225),
        ],
    ),
    (
        [Number(u64::MAX), Number(u64::MAX), Fun(Times)],
        &[Some(1); 4],
    ),
    ([Number(65_531), Number(7), Fun(Max)], &[Some(65_531); 4]),
    ([Number(65_531), Number(7), Fun(Min)], &[Some(7); 4]),
    ([Number(7), Number(2), Fun(Mod)], &[Some(1); 4]),
    (
        [Number(65_543), Number(10), Fun(Mod)],
        &[Some(7), Some(3), Some(3), Some(3)],
    ),
    ([Number(5), Number(0), Fun(Mod)], &[None; 4]),
    ([Number(65_531), Number(7), Fun(Less)], &[Some(0); 4]),
    ([Number(7), Number(65_531), Fun(Less)], &[Some(1); 4]),
    ([Number(65_531), Number(7), Fun(Greater)], &[Some(1); 4]),
    ([Number(7), Number(7), Fun(Greater)], &[Some(0); 4]),
    (
        [Number(65_536), Number(0), Fun(Equal)],
        &[Some(1), Some(0), Some(0), Some(0)],
    ),
    (
        [Number(65_536), Number(0), Fun(Unequal)],
        &[Some(0), Some(1), Some(1), Some(1)],
    ),
    (
        [Number(65_548), Number(65_546), Fun(And)],
        &[Some(8), Some(65_544), Some(65_544), Some(65_544)],
    ),
    (
        [Number(65_548), Number(10), Fun(Or)],
        &[Some(14), Some(65_550), Some(65_550), Some(65_550)],
    ),
    (
        [Number(65_548), Number(10), Fun(Xor)],
        &[Some(6), Some(65_542), Some(65_542), Some(65_542)],
    ),
    (
        [R0, Number(65_531), Fun(Plus)],
        &[Some(4_091), Some(69_627), Some(69_627), Some(69_627)],
    ),
    (
        [Number(65_531), Fun(Neg), Fun(Abs)],
        &[Some(5), Some(65_531), Some(65_531), Some(65_531)],
    ),
    (
        [Number(65_531), Fun(Abs), Fun(Neg)],
        &[
            Some(65_531),
            Some(16_711_685),
            Some(4_294_901_765),
            Some(u64::MAX - 65_530),
        ],
    ),
    ([Number(32_768), Fun(Abs), Fun(Abs)], &[Some(32_768); 4]),
];

// The values of the expression of these tokens at 16, 24, 32 and 64 bits.
fn values(alloc: Global, tokens: &[Token]) -> [Option<u64>; 4] {
    let at = |width| valued(alloc, tokens, Some(4_096), width);
    [at(16), at(24), at(32), at(64)]
}

#[test]
fn each_function_has_its_value_at_each_width(rt: HostRuntime) {
    for (tokens, want) in &VALUES {
        assert_eq!(rt;
            values(rt.alloc(), tokens.as_slice()).as_slice(),
            *want,
            "{tokens:?}"
        );
    }
}

// Tokens, the value of the variable, the width, and the value.
type ValuedCase = (&'static [Token], Option<u64>, u32, Option<u64>);

static VALUED: [ValuedCase; 4] = [
    (&[Number(65_531), Fun(Abs)], None, 16, Some(5)),
    (&[R0, Number(1), Fun(Plus)], None, 16, None),
    // The least and the greatest width.
    (&[Number(255), Number(2), Fun(Plus)], None, 8, Some(1)),
    (
        &[Number(u64::MAX), Number(u64::MAX), Fun(Times)],
        None,
        64,
        Some(1),
    ),
];

#[test]
fn a_value_needs_those_of_its_variables(rt: HostRuntime) {
    for (tokens, r0, width, want) in &VALUED {
        let value = valued(rt.alloc(), tokens, *r0, *width);
        assert_eq!(rt; value, *want, "{tokens:?} at {width}");
    }
}

#[test]
fn a_builder_refuses_what_is_no_expression(rt: HostRuntime) {
    let alloc = rt.alloc();
    let refused = |tokens: &[Token]| match built(alloc, tokens) {
        Ok(_) => None,
        Err(fault) => Some(fault),
    };
    assert_eq!(rt; refused(&[Fun(Plus)]), Some(ExprFault::Underflow));
    assert_eq!(rt;
        refused(&[Number(1), Fun(Plus)]),
        Some(ExprFault::Underflow)
    );
    assert_eq!(rt;
        refused(&[Number(1), Number(2)]),
        Some(ExprFault::SurplusTerms)
    );
    assert_eq!(rt; refused(&[]), Some(ExprFault::Empty));
    assert_eq!(rt; refused(&[Number(1)]), None);
}

// The error for which the builder rejects the token, if it does.
fn fault(builder: &mut Builder, token: Token) -> Option<ExprFault> {
    builder.push(token).err()
}

// A builder of 255 tokens.
fn full(rt: &impl Abort, alloc: Global) -> Builder {
    let mut builder = Builder::new(alloc);
    assert!(rt; fault(&mut builder, Number(1)).is_none());
    for number in 1..255 {
        assert!(rt; fault(&mut builder, Fun(Neg)).is_none(), "token {number}");
    }
    builder
}

#[test]
fn a_builder_takes_255_tokens(rt: HostRuntime) {
    let mut builder = full(&rt, rt.alloc());
    assert_eq!(rt; fault(&mut builder, Number(1)), Some(ExprFault::TooLong));
    assert_eq!(rt; fault(&mut builder, Fun(Plus)), Some(ExprFault::TooLong));
    assert!(rt; builder.finish().is_ok());
}

// Bytes, and the token at their start.
static TOKENS: [(&[u8], Taken<Token>); 11] = [
    (&[0x81, 0x80, 0x00], Taken::Got(Number(128), 2)),
    (&[0xA5, 0x00], Taken::Got(Fun(Plus), 1)),
    (
        &[0xD2, 0x82, 0x01, 0x00],
        Taken::Got(Var(Letter::R, 256), 4),
    ),
    (&[], Taken::More),
    (&[0x81], Taken::More),
    (&[0xD2], Taken::More),
    (
        &[0xC1],
        Taken::Bad {
            offset: 0,
            reason: Reason::UnsupportedVariable,
        },
    ),
    (
        &[0xA4],
        Taken::Bad {
            offset: 0,
            reason: Reason::UnsupportedFunction,
        },
    ),
    (
        &[0xB3],
        Taken::Bad {
            offset: 0,
            reason: Reason::UnsupportedFunction,
        },
    ),
    (
        &[0xC9, 0x89],
        Taken::Bad {
            offset: 1,
            reason: Reason::BadNumber,
        },
    ),
    (
        &[0xC9, 0x85, 1, 0, 0, 0, 0],
        Taken::Bad {
            offset: 1,
            reason: Reason::BadNumber,
        },
    ),
];

#[test]
fn tokens_are_read_by_their_first_byte(rt: HostRuntime) {
    for (bytes, want) in &TOKENS {
        assert_eq!(rt; &read_token(bytes), want, "{bytes:?}");
    }
}

// The byte of each function, of each letter, and of those that the profile leaves out.
static FUNCTIONS: [(u8, Function); 16] = [
    (0xA2, Abs),
    (0xA3, Neg),
    (0xA5, Plus),
    (0xA6, Minus),
    (0xA7, Divide),
    (0xA8, Times),
    (0xA9, Max),
    (0xAA, Min),
    (0xAB, Mod),
    (0xAC, Less),
    (0xAD, Greater),
    (0xAE, Equal),
    (0xAF, Unequal),
    (0xB0, And),
    (0xB1, Or),
    (0xB2, Xor),
];

static LETTERS: [(u8, Letter); 6] = [
    (0xC9, Letter::I),
    (0xCC, Letter::L),
    (0xD0, Letter::P),
    (0xD2, Letter::R),
    (0xD3, Letter::S),
    (0xD8, Letter::X),
];

static LEFT_OUT: [u8; 10] = [0xA0, 0xA1, 0xA4, 0xB3, 0xB4, 0xB5, 0xB6, 0xB7, 0xB8, 0xB9];

#[test]
fn each_function_and_letter_has_its_byte(rt: HostRuntime) {
    for (byte, function) in &FUNCTIONS {
        let token = read_token(&[*byte]);
        assert_eq!(rt; token, Taken::Got(Fun(*function), 1), "{byte}");
    }
    for (byte, letter) in &LETTERS {
        let token = read_token(&[*byte, 7]);
        assert_eq!(rt; token, Taken::Got(Var(*letter, 7), 2), "{byte}");
    }
    let fault = Taken::Bad {
        offset: 0,
        reason: Reason::UnsupportedFunction,
    };
    for byte in &LEFT_OUT {
        assert_eq!(rt; read_token(&[*byte]), fault, "{byte}");
    }
}

// Tokens, and their text in infix form.
static TEXTS: [([Token; 3], &str); 18] = [
    ([R0, Number(4), Fun(Plus)], "(R0 + 4)"),
    ([Var(Letter::I, 1), Number(4), Fun(Minus)], "(I1 - 4)"),
    ([Var(Letter::L, 2), Number(4), Fun(Divide)], "(L2 / 4)"),
    ([Var(Letter::P, 3), Number(4), Fun(Times)], "(P3 * 4)"),
    ([Var(Letter::S, 4), Number(4), Fun(Less)], "(S4 < 4)"),
    ([Var(Letter::X, 5), Number(4), Fun(Greater)], "(X5 > 4)"),
    ([R0, Number(4), Fun(Equal)], "(R0 = 4)"),
    ([R0, Number(4), Fun(Unequal)], "(R0 <> 4)"),
    ([R0, Number(4), Fun(Max)], "max(R0, 4)"),
    ([R0, Number(4), Fun(Min)], "min(R0, 4)"),
    ([R0, Number(4), Fun(Mod)], "mod(R0, 4)"),
    ([R0, Number(4), Fun(And)], "and(R0, 4)"),
    ([R0, Number(4), Fun(Or)], "or(R0, 4)"),
    ([R0, Number(4), Fun(Xor)], "xor(R0, 4)"),
    ([R0, Fun(Abs), Fun(Neg)], "neg(abs(R0))"),
    ([R0, Fun(Neg), Fun(Abs)], "abs(neg(R0))"),
    ([Number(0), Fun(Neg), Fun(Neg)], "neg(neg(0))"),
    (
        [Number(u64::MAX), Fun(Neg), Fun(Neg)],
        "neg(neg(18446744073709551615))",
    ),
];

// The infix form of the expression of these tokens.
fn infix_of(rt: &impl Abort, alloc: Global, tokens: &[Token]) -> Bytes {
    let expression = built(alloc, tokens).expect(rt, "an expression");
    let expr = expression.to_expr(alloc).expect(rt, "memory");
    infix(alloc, &expr).expect(rt, "memory")
}

#[test]
fn expressions_are_shown_in_infix_form(rt: HostRuntime) {
    for (tokens, want) in &TEXTS {
        let text = infix_of(&rt, rt.alloc(), tokens.as_slice());
        assert_eq!(rt; text.as_slice(), want.as_bytes(), "{want}");
    }
}

// R0 minus X7.
static DIFFERENCE: [Token; 3] = [R0, Var(Letter::X, 7), Fun(Minus)];

#[test]
fn expressions_are_copied(rt: HostRuntime) {
    let expression = built(rt.alloc(), &DIFFERENCE).expect(&rt, "an expression");
    let copy = expression.copy(rt.alloc()).expect(&rt, "memory");
    assert_eq!(rt; copy.tokens(), DIFFERENCE.as_slice());
    assert!(rt; copy.equals(&expression));
}

#[test]
fn variables_are_mentioned_in_order(rt: HostRuntime) {
    let expression = built(rt.alloc(), &DIFFERENCE).expect(&rt, "an expression");
    let mut mentions = expression.mentions();
    assert_eq!(rt; mentions.next(), Some((Letter::R, 0)));
    assert_eq!(rt; mentions.next(), Some((Letter::X, 7)));
    assert_eq!(rt; mentions.next(), None);
}

#[test]
fn expressions_are_renamed(rt: HostRuntime) {
    let alloc = rt.alloc();
    let expression = built(alloc, &DIFFERENCE).expect(&rt, "an expression");
    let mapped = expression
        .map_vars(alloc, &AllAre(Letter::I, 3))
        .expect(&rt, "memory");
    let renamed = [Var(Letter::I, 3), Var(Letter::I, 3), Fun(Minus)];
    assert_eq!(rt; mapped.tokens(), renamed.as_slice());
    assert!(rt; !mapped.equals(&expression));
}

#[test]
fn a_number_is_an_expression(rt: HostRuntime) {
    let five = Postfix::constant(rt.alloc(), 5).expect(&rt, "memory");
    assert_eq!(rt; five.tokens(), [Number(5)].as_slice());
    assert_eq!(rt; five.number_or_zero(), 5);
}

#[test]
fn a_difference_is_no_single_number(rt: HostRuntime) {
    let difference = built(rt.alloc(), &DIFFERENCE).expect(&rt, "an expression");
    assert_eq!(rt; difference.number_or_zero(), 0);
}

// Whether a division of the expression of these tokens has a divisor of value 0.
fn divides_by_zero(alloc: Global, tokens: &[Token], r0: Option<u64>, width: u32) -> Option<bool> {
    if !(8..=64).contains(&width) {
        return None;
    }
    match built(alloc, tokens) {
        Ok(expression) => Some(expression.divides_by_zero(&All(r0), width)),
        Err(_) => None,
    }
}

const BY_VARIABLE: &[Token] = &[Number(5), R0, Fun(Mod)];

const INSIDE: &[Token] = &[Number(5), Number(0), Fun(Divide), Number(1), Fun(Plus)];

// Tokens, the value of the variable, the width, and whether a divisor has the value 0.
static DIVISORS: [(&[Token], Option<u64>, u32, bool); 5] = [
    (BY_VARIABLE, Some(256), 8, true),
    (BY_VARIABLE, Some(257), 8, false),
    (BY_VARIABLE, None, 8, false),
    (INSIDE, None, 16, true),
    (&[Number(0)], None, 16, false),
];

#[test]
fn a_divisor_of_value_0_is_found(rt: HostRuntime) {
    for (tokens, r0, width, want) in &DIVISORS {
        let found = divides_by_zero(rt.alloc(), tokens, *r0, *width);
        assert_eq!(rt; found, Some(*want), "{tokens:?} at {width}");
    }
}
