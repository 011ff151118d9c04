//! The text of a located image.

ghost use Rattle.std.specs.Prelude.{◌≡◌, ◌+◌, ◌-◌, ◌≤◌, ◌<◌, ◌^◌, ◌∷◌, ◌++◌, [], Bool, flat_map, drop, length, codes, All};
ghost use Rattle.std.specs.Fmt.{decimal};
ghost use Rattle.hex.specs.Hex.{encode_upper};
ghost use Rattle.mufom_text.specs.Words.{each, quoted};
ghost use Rattle.mufom_text.specs.Addresses.{address_seen, all_seen, role_seen};
ghost use Rattle.mufom_text.specs.Image.{address, address_text, block_text, byte_text, line_end, line_start, public_text, role_text, row_text};
ghost use Rattle.mufom_text.specs.Image.{run_text, start_text};
ghost use Rattle.mufom_text.specs.Fitting.{FitsIn, IsUnitCount};

use crate::addresses::{DebugAddress, Role};
use crate::output::Output;
use crate::words::{hex_bytes, number, quoted, spaced_hex};
use mufom_meaning::{PublicValue, Run};

// The last `maus` of eight bytes.
fn last_units(bytes: &[u8], maus: u8) -> &[u8]
    requires units { IsUnitCount maus }
    requires eight { length bytes.now ≡ 8 }
    ensures { result.now ≡ drop (8 - maus) bytes.now }
{
    let (_, last) = bytes.split_at(8 - maus as usize);
    last
}

// An address of `maus` units.
fn address<K: Output>(out: &mut K, maus: u8, at: u64)
    requires { IsUnitCount maus }
    ensures { K.takes out.old out.new (address maus at) }
{
    hex_bytes(out, last_units(&at.to_be_bytes(), maus));
}

// ---- loaded bytes

fn line_start<K: Output>(out: &mut K, maus: u8, first: bool, at: u64)
    requires { IsUnitCount maus }
    ensures { K.takes out.old out.new (line_start maus first at) }
{
    if first || at % 16 == 0 {
        address(out, maus, at);
        out.put(b":");
    }
}

fn line_end<K: Output>(out: &mut K, last: bool, at: u64)
    ensures { K.takes out.old out.new (line_end last at) }
{
    if last || at % 16 == 15 {
        out.put(b"\n");
    }
}

fn row_byte<K: Output>(out: &mut K, maus: u8, first: bool, last: bool, at: u64, byte: u8)
    requires { IsUnitCount maus }
    ensures { K.takes out.old out.new (byte_text maus first last at byte) }
{
    line_start(out, maus, first, at);
    spaced_hex(out, byte);
    line_end(out, last, at);
}

// The lines of a row of bytes.
fn row<K: Output>(out: &mut K, maus: u8, at: u64, bytes: &[u8])
    requires units { IsUnitCount maus }
    requires within { at + length bytes.now ≤ 2 ^ 64 }
    ensures { K.takes out.old out.new (row_text maus Bool.true at bytes.now) }
{
    for i in 0..bytes.len() {
        let last = i + 1 == bytes.len();
        row_byte(out, maus, i == 0, last, at + i as u64, bytes[i]);
    }
}

fn run_lines<K: Output>(out: &mut K, maus: u8, run: &Run)
    requires units { IsUnitCount maus }
    requires within { FitsIn run.now }
    ensures { K.takes out.old out.new (run_text maus run.now) }
{
    row(out, maus, run.address, run.bytes.as_slice());
}

/// The lines of loaded bytes.
pub(crate) fn runs<K: Output>(out: &mut K, maus: u8, runs: &[Run])
    requires units { IsUnitCount maus }
    requires within { All FitsIn runs.now }
    ensures { K.takes out.old out.new (flat_map (run_text maus) runs.now) }
{
    for run in runs {
        run_lines(out, maus, run);
    }
}

// ---- the start and the publics

fn start_line<K: Output>(out: &mut K, maus: u8, at: u64)
    requires { IsUnitCount maus }
    ensures { K.takes out.old out.new ((codes "start " ++ address maus at) ++ 10 ∷ []) }
{
    out.put(b"start ");
    address(out, maus, at);
    out.put(b"\n");
}

/// The line of the start, if there is one.
pub(crate) fn located_start<K: Output>(out: &mut K, maus: u8, start: Option<u64>)
    requires { IsUnitCount maus }
    ensures { K.takes out.old out.new (start_text maus start) }
{
    match start {
        Some(at) => start_line(out, maus, at),
        None => {}
    }
}

fn public_line<K: Output>(out: &mut K, maus: u8, public: &PublicValue)
    requires { IsUnitCount maus }
    ensures { K.takes out.old out.new (public_text maus public.now) }
{
    out.put(b"public ");
    address(out, maus, public.value);
    out.put(b" ");
    quoted(out, public.name.as_slice());
    out.put(b"\n");
}

/// The lines of the publics.
pub(crate) fn located_publics<K: Output>(out: &mut K, maus: u8, publics: &[PublicValue])
    requires { IsUnitCount maus }
    ensures { K.takes out.old out.new (flat_map (public_text maus) publics.now) }
{
    for public in publics {
        public_line(out, maus, public);
    }
}

// ---- debug addresses

fn block<K: Output>(out: &mut K, word: &[u8], kind: u8, name: &[u8])
    ensures { K.takes out.old out.new (block_text word.now kind name.now) }
{
    out.put(word);
    number(out, kind as u64);
    out.put(b" ");
    quoted(out, name);
}

fn value_name<K: Output>(out: &mut K, name: &[u8])
    ensures { K.takes out.old out.new (codes " name " ++ quoted name.now) }
{
    out.put(b" name ");
    quoted(out, name);
}

fn role_words<K: Output>(out: &mut K, role: Role<'_>)
    ensures { K.takes out.old out.new (role_text (role_seen role.entry)) }
{
    match role {
        Role::Begin { kind, name } => block(out, b" begin ", kind, name),
        Role::End { kind, name } => block(out, b" end ", kind, name),
        Role::Value { name } => value_name(out, name),
    }
}

fn debug_line<K: Output>(out: &mut K, maus: u8, position: usize, found: &DebugAddress<'_>)
    requires { IsUnitCount maus }
    ensures { K.takes out.old out.new (address_text maus position (address_seen found.now)) }
{
    out.put(b"debug ");
    number(out, position as u64);
    out.put(b" ");
    address(out, maus, found.address);
    role_words(out, found.role);
    out.put(b"\n");
}

/// The lines of debug addresses.
pub(crate) fn debug_lines<K: Output>(out: &mut K, maus: u8, addresses: &[DebugAddress<'_>])
    requires { IsUnitCount maus }
    ensures { K.takes out.old out.new (each (address_text maus) (all_seen addresses.now)) }
{
    for position in 0..addresses.len() {
        debug_line(out, maus, position, &addresses[position]);
    }
}
