//! Which calls of a host in memory fail.

ghost use Rattle.std.specs.Prelude.{◌≡◌};
ghost use Rattle.mufom_host.specs.World.{one_more};
ghost use Rattle.mufom_host.specs.Kept.{is_listed};

use mufom_numbers::List;

/// Numbers calls from 0, and knows which of them fail. The number stops at the greatest `u64`.
#[derive(Drop)]
pub struct Calls {
    pub failing: List<u64>,
    pub number: u64,
}

impl Calls {
    pub fn new(failing: List<u64>) -> Calls
        ensures { result ≡ record { failing = failing; number = 0 } }
    {
        Calls { failing, number: 0 }
    }

    /// Counts a call, and returns whether it fails.
    pub fn fails(&mut self) -> bool
        ensures answer { result ≡ is_listed self.old.number self.old.failing }
        ensures after { self.new ≡ record self.old { number = one_more self.old.number } }
    {
        let fails = self.failing.as_slice().contains(&self.number);
        self.number = self.number.saturating_add(1);
        fails
    }
}
