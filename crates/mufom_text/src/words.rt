//! Numbers, names and bytes.

ghost use Rattle.std.specs.Prelude.{◌∷◌, ◌++◌, codes, [], flat_map};
ghost use Rattle.std.specs.Fmt.{decimal};
ghost use Rattle.hex.specs.Hex.{encode_upper};
ghost use Rattle.mufom_text.specs.Words.{quoted, quoted_byte, spaced_numbers, hex_bytes, indent};

use crate::digits::DIGITS;
use crate::output::Output;
use crate::quoting::stands_for_itself;
use itoa::Buffer;

/// A number in decimal.
pub fn number<K: Output>(out: &mut K, value: u64)
    ensures { K.takes out.old out.new (decimal value) }
{
    let mut buffer = Buffer::new();
    out.put(buffer.format(value).as_bytes());
}

/// A word and a number in decimal after it.
pub fn numbered<K: Output>(out: &mut K, word: &[u8], value: u64)
    ensures { K.takes out.old out.new (word.now ++ decimal value) }
{
    out.put(word);
    number(out, value);
}

/// The numbers, each after a space.
pub(crate) fn spaced_numbers<K: Output>(out: &mut K, values: &[u64])
    ensures { K.takes out.old out.new (spaced_numbers values.now) }
{
    for value in values {
        numbered(out, b" ", *value);
    }
}

fn hex_byte<K: Output>(out: &mut K, byte: u8)
    ensures { K.takes out.old out.new (encode_upper (byte ∷ [])) }
{
    let high = DIGITS[(byte / 16) as usize];
    let low = DIGITS[(byte % 16) as usize];
    out.put(&[high, low]);
}

/// A space and the two upper-case hexadecimal digits of a byte.
pub(crate) fn spaced_hex<K: Output>(out: &mut K, byte: u8)
    ensures { K.takes out.old out.new (32 ∷ encode_upper (byte ∷ [])) }
{
    let high = DIGITS[(byte / 16) as usize];
    let low = DIGITS[(byte % 16) as usize];
    out.put(&[b' ', high, low]);
}

/// Bytes as upper-case hexadecimal digits.
pub(crate) fn hex_bytes<K: Output>(out: &mut K, bytes: &[u8])
    ensures { K.takes out.old out.new (hex_bytes bytes.now) }
{
    for byte in bytes {
        hex_byte(out, *byte);
    }
}

// A byte that is not printed as it is.
fn escaped_byte<K: Output>(out: &mut K, byte: u8)
    ensures { K.takes out.old out.new (0x5C ∷ 0x78 ∷ encode_upper (byte ∷ [])) }
{
    out.put(b"\\x");
    hex_byte(out, byte);
}

fn quoted_byte<K: Output>(out: &mut K, byte: u8)
    ensures { K.takes out.old out.new (quoted_byte byte) }
{
    if stands_for_itself(byte) {
        out.put(&[byte]);
    } else {
        escaped_byte(out, byte);
    }
}

/// The bytes of a name without its quotes, for a name that is put in parts.
pub fn quoted_bytes<K: Output>(out: &mut K, bytes: &[u8])
    ensures { K.takes out.old out.new (flat_map quoted_byte bytes.now) }
{
    for byte in bytes {
        quoted_byte(out, *byte);
    }
}

/// A name in double quotes: a byte that is not printed as it is becomes a backslash, `x` and two digits.
pub fn quoted<K: Output>(out: &mut K, name: &[u8])
    ensures { K.takes out.old out.new (quoted name.now) }
{
    out.put(b"\"");
    quoted_bytes(out, name);
    out.put(b"\"");
}

/// Two spaces for each open block.
pub(crate) fn indent<K: Output>(out: &mut K, depth: u32)
    ensures { K.takes out.old out.new (indent depth) }
{
    for _ in 0..depth {
        out.put(b"  ");
    }
}
