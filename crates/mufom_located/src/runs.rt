//! The part of a location's runs that lies in a section.

ghost use Rattle.std.specs.Prelude.{◌≡◌, ℕ, ◌+◌, ◌-◌, max, take, drop, length, nat_le, nat_lt};
ghost use Rattle.mufom_meaning.specs.Absolute.{loads_between, run_within};
ghost use Rattle.mufom_meaning.specs.Runs.{run_end};
ghost use Rattle.mufom_located.specs.Located.{AreRuns};

use mufom_meaning::Run;

// The runs from the first one that ends after an address. Earlier runs have no byte at or above the address.
fn runs_from(runs: &[Run], from: u64) -> &[Run]
    requires { AreRuns runs.now }
    ensures runs { AreRuns result.now }
    ensures same { (section to : ℕ) → loads_between section runs.now from to ≡ loads_between section result.now from to }
{
    let first = runs.partition_point(
        |run: &Run| -> bool
            ensures { result ≡ nat_le (run_end run.now) from }
        { run.end() <= from as u128 },
    );
    runs.split_at(first).1
}

// The runs up to the last one that begins before an address. Later runs have no byte below the address.
fn runs_up_to(runs: &[Run], to: u128) -> &[Run]
    requires { AreRuns runs.now }
    ensures { (section from : ℕ) → loads_between section runs.now from to ≡ loads_between section result.now from to }
{
    let count = runs.partition_point(
        |run: &Run| -> bool
            ensures { result ≡ nat_lt run.now.address to }
        { (run.address as u128) < to },
    );
    runs.split_at(count).0
}

/// The runs that have bytes from one address up to another. The others load nothing there. The time grows
/// with the logarithm of the number of runs.
pub(crate) fn runs_between(runs: &[Run], from: u64, to: u128) -> &[Run]
    requires { AreRuns runs.now }
    ensures { (section : ℕ) → loads_between section runs.now from to ≡ loads_between section result.now from to }
{
    runs_up_to(runs_from(runs, from), to)
}

/// The part of a run from one address up to another: its address, and its bytes.
pub(crate) fn run_within(run: &Run, from: u64, to: u128) -> (u64, &[u8])
    ensures address { result.0 ≡ (run_within from to run.now).address }
    ensures bytes { result.1.now ≡ (run_within from to run.now).bytes }
{
    let bytes = run.bytes.as_slice();
    let skipped = from.saturating_sub(run.address);
    let wanted = to.saturating_sub(run.address as u128);
    let end = wanted.min(bytes.len() as u128) as usize;
    let begin = (skipped as u128).min(end as u128) as usize;
    let (taken, _) = bytes.split_at(end);
    (run.address.max(from), taken.split_at(begin).1)
}
