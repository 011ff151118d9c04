//! The label of an entry: the 16 bytes of its header that hold its name, or say what it is.

ghost use Rattle.std.specs.Prelude.{◌≡◌, ◌^◌, ◌<◌, ◌≤◌, length, drop, true, is_none, option_map};
ghost use Rattle.std.specs.Char.{is_ascii_digit};
ghost use Rattle.std.specs.List.{list_all, prefix_len, position_or_len};
ghost use Rattle.std.specs.Str.Parse.{AllDigits, digits_value};
ghost use Rattle.mufom_archive.specs.Names.{trimmed, without_slash, is_long_names, is_symbols, is_member, is_reference, ends_name, long_name};
ghost use Rattle.mufom_archive.specs.Names.{begins_past, name_of};

/// The number of decimal digits at the beginning of the text.
pub(crate) fn count_digits(text: &[u8]) -> usize
    ensures { result ≡ prefix_len is_ascii_digit text.now }
{
    for (count, byte) in text.iter().enumerate() {
        if !byte.is_ascii_digit() {
            return count;
        }
    }
    text.len()
}

/// The value of these digits.
pub(crate) fn decimal(digits: &[u8]) -> u64
    requires digits { AllDigits 10 digits.now }
    requires few { length digits.now ≤ 15 }
    ensures value { result ≡ digits_value 10 digits.now }
    ensures small { result < 10 ^ 15 }
{
    let mut number: u64 = 0;
    for byte in digits {
        number = number * 10 + (*byte - b'0') as u64;
    }
    number
}

// The label without the blanks at its end.
fn trimmed(label: &[u8]) -> &[u8]
    ensures word { result.now ≡ trimmed label.now }
    ensures within { length result.now ≤ length label.now }
{
    let mut len = label.len();
    while len > 0 && label[len - 1] == b' ' {
        len -= 1;
    }
    &label[..len]
}

// The name without one slash at its end, if there is one.
fn without_slash(name: &[u8]) -> &[u8]
    ensures name { result.now ≡ without_slash name.now }
    ensures within { length result.now ≤ length name.now }
{
    let len = name.len();
    if len > 0 && name[len - 1] == b'/' {
        &name[..len - 1]
    } else {
        name
    }
}

/// Whether the entry is the table of long names.
pub(crate) fn is_long_names(label: &[u8]) -> bool
    ensures { result ≡ is_long_names label.now }
{
    trimmed(label) == b"//".as_slice()
}

// Whether the entry is a table of symbols.
fn is_symbols(label: &[u8]) -> bool
    ensures { result ≡ is_symbols label.now }
{
    let word = trimmed(label);
    word == b"/".as_slice() || word == b"/SYM64/".as_slice() || word == b"__.SYMDEF".as_slice()
}

/// Whether the entry is a member, and no table.
pub(crate) fn is_member(label: &[u8]) -> bool
    ensures { result ≡ is_member label.now }
{
    !(is_long_names(label) || is_symbols(label))
}

// Whether all bytes are decimal digits.
fn are_digits(bytes: &[u8]) -> bool
    ensures { result ≡ list_all is_ascii_digit bytes.now }
{
    bytes.iter().all(|b| b.is_ascii_digit())
}

// Whether the name says where the name itself begins in the table of long names.
fn is_reference(name: &[u8]) -> bool
    ensures { result ≡ is_reference name.now }
{
    match name {
        [b'/', digits @ ..] => !digits.is_empty() && are_digits(digits),
        _ => false,
    }
}

// The position in the table of long names at which a name begins.
fn position_of(name: &[u8]) -> u64
    requires reference { is_reference name.now ≡ true }
    requires few { length name.now ≤ 16 }
    ensures { result ≡ digits_value 10 (drop 1 name.now) }
{
    decimal(&name[1..])
}

// Whether this byte ends a long name.
fn ends_name(byte: u8) -> bool
    ensures { result ≡ ends_name byte }
{
    byte == b'/' || byte == b'\n'
}

// The length of the long name with which these bytes begin.
fn name_length(bytes: &[u8]) -> usize
    ensures { result ≡ position_or_len ends_name bytes.now }
{
    for (length, byte) in bytes.iter().enumerate() {
        if ends_name(*byte) {
            return length;
        }
    }
    bytes.len()
}

// The long name that begins at this position of the table, or `None` past the end of the table.
fn long_name(table: &[u8], at: u64) -> Option<&[u8]>
    ensures { option_map (λ name. name.now) result ≡ long_name table.now at }
{
    if at > table.len() as u64 {
        return None;
    }
    let rest = &table[at as usize..];
    Some(&rest[..name_length(rest)])
}

/// The name of a member with this label, or `None` if it begins past the end of the table of long names.
pub(crate) fn name_of<'a>(table: &'a [u8], label: &'a [u8]) -> Option<&'a [u8]>
    requires { length label.now ≤ 16 }
    ensures { option_map (λ name. name.now) result ≡ name_of table.now label.now }
{
    let name = without_slash(trimmed(label));
    if is_reference(name) {
        long_name(table, position_of(name))
    } else {
        Some(name)
    }
}

/// Whether the name of a member with this label begins past the end of a table of long names of this size. Takes
/// the same time for a name of any length.
pub(crate) fn begins_past(size: u64, label: &[u8]) -> bool
    requires { length label.now ≤ 16 }
    ensures { result ≡ begins_past size label.now }
{
    let name = without_slash(trimmed(label));
    is_reference(name) && position_of(name) > size
}

/// Whether the name of a member with this label begins past the end of this table of long names.
pub(crate) fn lacks_name(table: &[u8], label: &[u8]) -> bool
    requires { length label.now ≤ 16 }
    ensures { result ≡ is_none (name_of table.now label.now) }
{
    begins_past(table.len() as u64, label)
}
