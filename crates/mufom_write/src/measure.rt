//! The lengths of the parts of a file, in bytes.

ghost use Rattle.std.specs.Prelude.{◌≡◌, ◌<◌, ◌^◌, [], All, length, get_or};
ghost use Rattle.mufom_module.specs.Written as form;
ghost use Rattle.mufom_module.specs.Written.{shortest};
ghost use Rattle.mufom_module.specs.Defects.{IsValid};

use crate::output::Counter;
use crate::parts::{module_begin, offset_records, part};
use crate::places::FileLayout;
use mufom_module::{Module, Parts};

// The length of the records before the parts.
fn header_length(parts: &Parts) -> u64
    requires { IsValid parts.now }
    ensures { result ≡ form.header_length shortest parts.now }
{
    let mut counter = Counter { bytes: 0 };
    let _ = module_begin(&mut counter, parts);
    let _ = offset_records(&mut counter, &[0; 8]);
    counter.bytes
}

// The length of the part with this number.
fn part_length(parts: &Parts, number: usize) -> u64
    requires valid { IsValid parts.now }
    requires inside { number < 7 }
    ensures { result ≡ length (get_or (form.parts shortest parts.now) number []) }
{
    let mut counter = Counter { bytes: 0 };
    let _ = part(&mut counter, parts, number);
    counter.bytes
}

/// The offsets of the parts in the written form, and its length, in bytes.
pub(crate) fn layout_of(parts: &Parts) -> FileLayout
    requires { IsValid parts.now }
    ensures offsets { result.offsets ≡ form.offsets shortest parts.now }
    ensures length { result.length ≡ length (form.written parts.now) }
    ensures fits { All (λ offset. offset < 2 ^ 32) result.offsets }
{
    let mut at = header_length(parts);
    let mut offsets = [0u64; 8];
    for number in 0..7 {
        let length = part_length(parts, number);
        offsets[number] = if length == 0 { 0 } else { at };
        at += length;
    }
    offsets[7] = at;
    FileLayout {
        offsets,
        length: at + 1,
    }
}

/// The offsets of the parts in the written form, and its length, in bytes. Does not allocate.
pub fn layout(module: &Module) -> FileLayout
    ensures offsets { result.offsets ≡ form.offsets shortest «module».now }
    ensures length { result.length ≡ length (form.written «module».now) }
{
    layout_of(module.parts())
}
