//! Destinations for the bytes of a file: a counter, or a file.

ghost use Rattle.std.specs.Prelude.{◌≡◌, ◌+◌, ℕ, List, [], ◌++◌, length, Result, Ok, Err, IsErr};
ghost use Rattle.mufom_host.specs.declared.world.Failed.{Failed};
ghost use Rattle.mufom_numbers.specs.Spelling.{shortest_number};
ghost use Rattle.mufom_write.specs.Writing.{Counts};
ghost use Rattle.mufom_write.specs.Chains.{Counts-nothing, Counts-then, Counts-stopped};

use mufom_host::Failed;
use mufom_numbers::number_length;

/// A destination for the bytes of a file.
pub(crate) trait Output {
    /// The effect of a call that writes bytes: the output before and after it, the bytes, and the result.
    ghost takes: { Self → Self → List ℕ → Result (Unit {0}) Failed → Type 0 };

    /// Adds all of the bytes, or a prefix of them if the call fails.
    fn put(&mut self, bytes: &[u8]) -> Result<(), Failed>
        ensures { takes self.old self.new bytes.now result };

    /// Begins a record with the bytes of its command, as [`put`](Output::put) adds them. An output that
    /// holds bytes may pass those of earlier records on first, so that whole records arrive together.
    fn record(&mut self, command: &[u8]) -> Result<(), Failed>
        ensures { takes self.old self.new command.now result };

    /// Adds the shortest spelling of a number, or a prefix of it if the call fails.
    fn number(&mut self, value: u64) -> Result<(), Failed>
        ensures { takes self.old self.new (shortest_number value) result };

    ghost nothing: { (a : Self) → takes a a [] (Ok tt) };

    ghost joins: { (a b c : Self) (xs ys all : List ℕ) (r : Result (Unit {0}) Failed) → takes a b xs (Ok tt) → takes b c ys r
        → all ≡ xs ++ ys → takes a c all r };

    ghost stops: { (a b : Self) (xs ys all : List ℕ) (e : Failed) (r : Result (Unit {0}) Failed) → takes a b xs (Err e) → IsErr r
        → all ≡ xs ++ ys → takes a b all r };
}

/// Counts the bytes of a file without keeping them. The count stops at the greatest 64-bit number.
#[derive(Drop)]
pub(crate) struct Counter {
    pub(crate) bytes: u64,
}

impl Output for Counter {
    ghost takes = { λ a b xs r. Counts a.bytes b.bytes xs r };

    ghost nothing = { λ a. Counts-nothing a.bytes };

    ghost joins = { λ a b c xs ys all r. Counts-then a.bytes b.bytes c.bytes xs ys all r };

    ghost stops = { λ a b xs ys all e r. Counts-stopped a.bytes b.bytes xs ys all e r };

    fn put(&mut self, bytes: &[u8]) -> Result<(), Failed> {
        self.bytes = self.bytes.saturating_add(bytes.len() as u64);
        Ok(())
    }

    fn record(&mut self, command: &[u8]) -> Result<(), Failed> {
        self.put(command)
    }

    fn number(&mut self, value: u64) -> Result<(), Failed> {
        self.bytes = self.bytes.saturating_add(number_length(value) as u64);
        Ok(())
    }
}
