//! The publics that the expression of a public mentions.

ghost use Rattle.std.specs.Prelude.{◌≡◌, ◌≤◌, length};
ghost use Rattle.mufom_image_values.specs.Graph.{public_met, public_named, mentioned_in, tokens_at};

use crate::resolutions::Resolution;
use mufom_expr::{Letter, Token};
use mufom_module::Parts;
use mufom_names::Public;

/// The publics of a module as a graph: each leads to those that its expression mentions.
#[derive(Clone, Copy)]
pub struct Graph<'a> {
    pub parts: &'a Parts,
    /// What each reference of the module resolves to.
    pub resolutions: &'a [Resolution],
}

// The public that a reference resolves to.
fn public_met(resolution: Option<Resolution>) -> Option<u32>
    ensures { result ≡ public_met resolution }
{
    match resolution {
        Some(Resolution::Public(position)) => Some(position),
        _ => None,
    }
}

impl<'a> Graph<'a> {
    pub(crate) fn publics(&self) -> &'a [Public]
        ensures { result.now ≡ self.now.parts.now.names.publics }
    {
        self.parts.names.publics.as_slice()
    }

    // The position of the public that a variable mentions: for I its own number, for X the public to which
    // the reference resolves.
    fn named(&self, letter: Letter, position: u32) -> Option<u32>
        ensures { result ≡ public_named self.now.resolutions.now letter position }
    {
        match letter {
            Letter::I => Some(position),
            Letter::X => public_met(self.resolutions.get(position as usize).copied()),
            Letter::L | Letter::P | Letter::R | Letter::S => None,
        }
    }

    /// The position of the public that a token mentions.
    pub(crate) fn mentioned(&self, token: Token) -> Option<u32>
        ensures { result ≡ mentioned_in self.now.resolutions.now token }
    {
        match token {
            Token::Var(letter, position) => self.named(letter, position),
            Token::Number(_) | Token::Fun(_) => None,
        }
    }

    /// The tokens of the public at a position, or none if there is no such public.
    pub(crate) fn tokens(&self, position: u32) -> &'a [Token]
        ensures tokens { result.now ≡ tokens_at self.now.parts.now.names.publics position }
        ensures few { length result.now ≤ 255 }
    {
        match self.publics().get(position as usize) {
            Some(public) => public.value.tokens(),
            None => &[],
        }
    }
}
