//! The values of the variables of an expression.

ghost use Rattle.std.specs.Prelude.{◌≡◌, slice_get};
ghost use Rattle.mufom_image_values.specs.Surroundings.{known_of, valuation_met};

use crate::resolutions::Resolution;
use mufom_expr::{Env, Letter};
use mufom_sections::Section;

/// What is known of the value of a public.
#[derive(Clone, Copy, Debug, PartialEq, Eq)]
pub enum Evaluation {
    /// It is not evaluated yet.
    Waiting,
    /// It has no value: it divides by 0, or a public that it depends on does.
    Nothing,
    Value(u64),
}

/// The values of all variables that an expression can have.
#[derive(Clone, Copy)]
pub struct Surroundings<'a> {
    pub sections: &'a [Section],
    /// The base of each section.
    pub bases: &'a [u64],
    /// The base of each common, by its position, if the plan places commons.
    pub commons: &'a [u64],
    /// The value of each public.
    pub values: &'a [Evaluation],
    /// What each reference resolves to.
    pub resolutions: &'a [Resolution],
    /// The program counter, if the expression has one.
    pub counter: Option<u64>,
}

fn value_of(valuation: Option<Evaluation>) -> Option<u64>
    ensures { result ≡ known_of valuation }
{
    match valuation {
        Some(Evaluation::Value(value)) => Some(value),
        _ => None,
    }
}

fn value_at(values: &[Evaluation], position: u32) -> Option<u64>
    ensures { result ≡ known_of (slice_get values.now position) }
{
    value_of(values.get(position as usize).copied())
}

fn valuation_met(
    resolution: Option<Resolution>,
    values: &[Evaluation],
    commons: &[u64],
) -> Option<u64>
    ensures { result ≡ valuation_met values.now commons.now resolution }
{
    match resolution {
        Some(Resolution::Public(position)) => value_at(values, position),
        Some(Resolution::Common(position)) => commons.get(position as usize).copied(),
        Some(Resolution::Default(value)) => Some(value),
        _ => None,
    }
}

impl<'a> Env for Surroundings<'a> {
    ghost use Rattle.mufom_image_values.specs.Surroundings.{valuation_in};

    ghost meaning = { valuation_in };

    fn lookup(&self, letter: Letter, index: u32) -> Option<u64> {
        match letter {
            Letter::R | Letter::L => self.bases.get(index as usize).copied(),
            Letter::S => self
                .sections
                .get(index as usize)
                .map(|section| section.size),
            Letter::P => self.counter,
            Letter::I => value_at(self.values, index),
            Letter::X => valuation_met(
                self.resolutions.get(index as usize).copied(),
                self.values,
                self.commons,
            ),
        }
    }
}
