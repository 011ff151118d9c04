//! The summary of generated modules at their location.

ghost use Rattle.std.specs.Prelude.{◌≡◌, ◌≤◌, ◌*◌, length, sum, sum_by, IfOk};
ghost use Rattle.mufom_numbers.specs.declared.limits.TheConstants.{MOST_IMAGE_BYTES};
ghost use Rattle.mufom_make.specs.Generated.{summary};

use mufom_image::{Located, Run};
use mufom_numbers::NoMemory;
use std::alloc::Global;

// The number of bytes of the runs.
fn byte_count(runs: &[Run]) -> u64
    requires { sum_by (λ run. length run.bytes) runs.now ≤ MOST_IMAGE_BYTES }
    ensures { result ≡ sum_by (λ run. length run.bytes) runs.now }
{
    let mut count = 0;
    for run in runs {
        count += run.bytes.len() as u64;
    }
    count
}

// The sum of bytes.
fn byte_sum(bytes: &[u8]) -> u64
    requires { length bytes.now ≤ MOST_IMAGE_BYTES }
    ensures sum { result ≡ sum bytes.now }
    ensures bound { result ≤ 255 * length bytes.now }
{
    let mut total = 0;
    for byte in bytes {
        total += *byte as u64;
    }
    total
}

// The sum of the bytes of all runs.
fn run_sum(runs: &[Run]) -> u64
    requires { sum_by (λ run. length run.bytes) runs.now ≤ MOST_IMAGE_BYTES }
    ensures { result ≡ sum_by (λ run. sum run.bytes) runs.now }
{
    let mut total = 0;
    for run in runs {
        total += byte_sum(run.bytes.as_slice());
    }
    total
}

/// Returns the text that is printed about the location of `count` generated modules: their number, the number
/// of located publics, the number of loaded bytes, and the sum of these bytes, one per line.
pub fn summary_text(alloc: Global, count: u32, located: &Located) -> Result<Vec<u8>, NoMemory>
    ensures { IfOk result (λ text. text.items ≡ summary count located.now) }
{
    let parts = located.parts();
    let publics = parts.publics.len();
    let runs = parts.runs.as_slice();
    let bytes = byte_count(runs);
    let sum = run_sum(runs);
    let text = format!(in alloc; "modules {count}\npublics {publics}\nbytes {bytes}\nsum {sum}\n")?;
    Ok(text.into_bytes())
}
