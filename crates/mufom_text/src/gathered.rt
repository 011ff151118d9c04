//! Text that is held in memory.

ghost use Rattle.std.specs.Prelude.{◌≡◌, ◌++◌, IfOk, [], false};
ghost use Rattle.std.proofs.Common.{append-nil, append_assoc, sym, ap, ◌∙◌};

use crate::output::Output;
use mufom_numbers::{Bytes, NoMemory};
use std::alloc::Global;

/// Text that is collected in memory. Once memory has run out, no more is added.
#[derive(Drop)]
pub(crate) struct Gathered {
    text: Vec<u8>,
    is_cut_off: bool,
}

impl Gathered {
    /// No text.
    pub(crate) fn new(alloc: Global) -> Gathered
        ensures empty { result.text.items ≡ [] }
        ensures whole { result.is_cut_off ≡ false }
    {
        Gathered {
            text: Vec::new(alloc),
            is_cut_off: false,
        }
    }

    // Adds text at the end.
    fn add(&mut self, text: &[u8])
        ensures { self.new.is_cut_off ≡ false → (self.old.is_cut_off ≡ false) × (self.new.text.items ≡ self.old.text.items ++ text.now) }
    {
        if self.is_cut_off {
            return;
        }
        if self.text.extend_from_slice(text).is_err() {
            self.is_cut_off = true;
        }
    }

    /// Returns the whole text, or `NoMemory` if a part of it is missing.
    pub(crate) fn into_bytes(self) -> Result<Bytes, NoMemory>
        ensures { IfOk result (λ text. (self.is_cut_off ≡ false) × (text ≡ self.text.items)) }
    {
        let Gathered { text, is_cut_off } = self;
        if is_cut_off {
            Err(NoMemory)
        } else {
            Ok(Bytes::from_vec(text))
        }
    }
}

impl Output for Gathered {
    ghost takes = { λ a b xs. b.is_cut_off ≡ false → (a.is_cut_off ≡ false) × (b.text.items ≡ a.text.items ++ xs) };

    ghost nothing = { λ a. λ whole. (whole, sym (append-nil a.text.items)) };

    ghost joins = { λ a b c xs ys p q. λ whole. (
      (p (q whole).0).0,
      (q whole).1 ∙ ap (λ l. l ++ ys) (p (q whole).0).1 ∙ append_assoc a.text.items xs ys,
    ) };

    fn put(&mut self, text: &[u8]) {
        self.add(text);
    }
}
