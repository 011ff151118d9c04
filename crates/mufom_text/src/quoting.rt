//! Names in double quotes, in memory.

ghost use Rattle.std.specs.Prelude.{◌≡◌, ◌++◌, IfOk, OnOk};
ghost use Rattle.mufom_text.specs.Words.{quoted, quoted_byte, stands_for_itself};

use mufom_numbers::NoMemory;
use std::alloc::Global;

/// Whether a byte is printed as it is in a quoted name: 20 to 7E, except the quote and the backslash.
pub(crate) fn stands_for_itself(byte: u8) -> bool
    ensures { result ≡ stands_for_itself byte }
{
    (0x20..=0x7E).contains(&byte) && byte != b'"' && byte != b'\\'
}

fn push_quoted_byte(alloc: Global, text: &mut Vec<u8>, byte: u8) -> Result<(), NoMemory>
    ensures { OnOk result (text.new.items ≡ text.old.items ++ quoted_byte byte) }
{
    if stands_for_itself(byte) {
        text.push(byte)?;
    } else {
        text.extend_from_slice(b"\\x")?;
        text.extend_from_slice(hex::encode_upper(alloc, [byte])?.as_bytes())?;
    }
    Ok(())
}

/// Returns a name in double quotes, as it is printed: a byte that cannot be printed as itself becomes a
/// backslash, `x` and two upper-case hexadecimal digits.
pub fn quoted_name(alloc: Global, name: &[u8]) -> Result<Vec<u8>, NoMemory>
    ensures { IfOk result (λ text. text.items ≡ quoted name.now) }
{
    let mut text = Vec::new(alloc);
    text.push(b'"')?;
    for byte in name {
        push_quoted_byte(alloc, &mut text, *byte)?;
    }
    text.push(b'"')?;
    Ok(text)
}
