//! The values of expressions at a program counter.

ghost use Rattle.std.specs.Prelude.{◌≡◌, ◌<◌, ◌≤◌, ◌^◌, IfSome};
ghost use Rattle.mufom_image_bytes.specs.Counted.{value_with};

use mufom_expr::{Env, Letter, Postfix};

// An environment in which P is a program counter. All other variables have their values in `others`.
#[derive(Drop)]
struct AtCounter<'a, E> {
    others: &'a E,
    counter: u64,
}

impl<'a, E: Env> Env for AtCounter<'a, E> {
    ghost use Rattle.mufom_image_bytes.specs.Counted.{at_counter};

    ghost meaning = { λ here. at_counter (E.meaning here.others.now) here.counter };

    fn lookup(&self, letter: Letter, index: u32) -> Option<u64> {
        match letter {
            Letter::P => Some(self.counter),
            other => self.others.lookup(other, index),
        }
    }
}

/// Returns the value of an expression modulo 2 to the power of the width, which is 8 to 64 bits, where P is the
/// program counter and `others` gives all other variables their values. Returns `None` if the expression has no
/// value.
pub fn value_at_counter<E: Env>(
    others: &E,
    width: u32,
    counter: u64,
    expression: &Postfix,
) -> Option<u64>
    requires low { 8 ≤ width }
    requires high { width ≤ 64 }
    ensures value { result ≡ value_with (E.meaning others.now) width counter expression.now }
    ensures residue { IfSome result (λ v. v < 2 ^ width) }
{
    expression.value(&AtCounter { others, counter }, width)
}
