//! The lines of a module with every kind of entry, and each function.

use super::shows;
use crate::every_kind::{every_kind, four_sections};
use mufom_drafts::Draft;
use mufom_expr::Token::{Fun, Number, Var};
use mufom_expr::{Function, Letter, Token};
use std::alloc::Global;

const EVERY_LINE: &str = "\
    module \"m\" processor \"P\" maus 2 order L\n\
    extension 3 bytes\n\
    environment 1 bytes\n\
    section 0 \"c\" CP size 12 align 2\n\
    section 1 \"d\" ASD size 0 align 1 base 4096\n\
    section 2 \"\" CR size 0 align 1\n\
    section 3 \"n\" C size 0 align 1\n\
    public 0 \"f\" = (R0 + 4)\n\
    note type 15 attribute 19 1\n\
    reference 0 \"x\" weak size 8 default 300\n\
    note type 1 attribute 2\n\
    reference 1 \"y\" weak size 0 default 0\n\
    reference 2 \"z\"\n\
    block 4 \"g\" stack 0 type 0 offset R0\n\
    \x20\x20name 0 \"i\"\n\
    \x20\x20note 0 type 0 attribute 1\n\
    \x20\x20value 0 = 5\n\
    \x20\x20block 6 \"l\" stack 1 type 2 offset 3\n\
    \x20\x20\x20\x20name 1 \"j\"\n\
    \x20\x20end = 7\n\
    end = R0\n\
    block 5 \"s\" 1 2\n\
    end\n\
    block 3 \"m\"\n\
    end\n\
    block 11 \"t\" section-type 1 section 1 offset 0\n\
    end\n\
    select 0\n\
    counter 0 = R0\n\
    bytes 2 4E71\n\
    field either 4 = X0\n\
    repeat 3\n\
    \x20\x20bytes 1 00\n\
    repeat 4\n\
    \x20\x20field signed 2 = 6\n\
    repeat 2\n\
    \x20\x20field unsigned 1 = 1\n\
    \x20\x20bytes 1 09\n\
    repeat 0\n\
    start = R0\n\
    ";

#[test]
fn every_kind_of_line_is_printed(rt: HostRuntime) {
    let alloc = rt.alloc();
    shows(&rt, alloc, every_kind(alloc), EVERY_LINE.as_bytes());
}

// ---- functions

static OVER_TWO: [Function; 14] = [
    Function::Plus,
    Function::Minus,
    Function::Divide,
    Function::Times,
    Function::Max,
    Function::Min,
    Function::Mod,
    Function::Less,
    Function::Greater,
    Function::Equal,
    Function::Unequal,
    Function::And,
    Function::Or,
    Function::Xor,
];

// The second operand of the outer difference is a term of four tokens.
const NESTED: [Token; 7] = [
    Number(9),
    Var(Letter::L, 1),
    Var(Letter::I, 0),
    Fun(Function::Minus),
    Fun(Function::Neg),
    Fun(Function::Minus),
    Fun(Function::Abs),
];

// The sections of the module above, and publics whose values are the nested term, and each function over the size of
// the first section and the greatest number.
fn with_functions(alloc: Global) -> Draft {
    let mut draft = four_sections(alloc);
    draft.public(b"n", &NESTED);
    for function in OVER_TWO {
        let value = [Var(Letter::S, 0), Number(u64::MAX), Fun(function)];
        draft.public(b"f", &value);
    }
    draft
}

const FUNCTION_LINES: &str = "\
    module \"m\" processor \"P\" maus 2 order L\n\
    section 0 \"c\" CP size 12 align 2\n\
    section 1 \"d\" ASD size 0 align 1 base 4096\n\
    section 2 \"\" CR size 0 align 1\n\
    section 3 \"n\" C size 0 align 1\n\
    public 0 \"n\" = abs((9 - neg((L1 - I0))))\n\
    public 1 \"f\" = (S0 + 18446744073709551615)\n\
    public 2 \"f\" = (S0 - 18446744073709551615)\n\
    public 3 \"f\" = (S0 / 18446744073709551615)\n\
    public 4 \"f\" = (S0 * 18446744073709551615)\n\
    public 5 \"f\" = max(S0, 18446744073709551615)\n\
    public 6 \"f\" = min(S0, 18446744073709551615)\n\
    public 7 \"f\" = mod(S0, 18446744073709551615)\n\
    public 8 \"f\" = (S0 < 18446744073709551615)\n\
    public 9 \"f\" = (S0 > 18446744073709551615)\n\
    public 10 \"f\" = (S0 = 18446744073709551615)\n\
    public 11 \"f\" = (S0 <> 18446744073709551615)\n\
    public 12 \"f\" = and(S0, 18446744073709551615)\n\
    public 13 \"f\" = or(S0, 18446744073709551615)\n\
    public 14 \"f\" = xor(S0, 18446744073709551615)\n\
    ";

#[test]
fn each_function_is_printed_in_infix_form(rt: HostRuntime) {
    let alloc = rt.alloc();
    let draft = with_functions(alloc);
    shows(&rt, alloc, draft, FUNCTION_LINES.as_bytes());
}
