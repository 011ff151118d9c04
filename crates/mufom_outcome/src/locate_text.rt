//! The texts of errors of locating.

ghost use Rattle.std.specs.Prelude.{◌≡◌, ◌++◌, IfOk, OnOk};
ghost use Rattle.std.specs.Fmt.{decimal};
ghost use Rattle.std.specs.Int.{byte_at, bytes_high_first};
ghost use Rattle.mufom_text.specs.Image.{address};
ghost use Rattle.mufom_text.specs.Show.{kind_text};
ghost use Rattle.mufom_text.specs.Words.{quoted as quoted_text};
ghost use Rattle.mufom_outcome.specs.Complaint.{locate_text, place_text, region_text, site_text};

use mufom_expr::FieldKind;
use mufom_meaning::Site;
use mufom_numbers::{Bytes, NoMemory};
use mufom_place::PlaceRefusal;
use mufom_refusals::LocateRefusal;
use mufom_text::quoted_name;
use std::alloc::Global;

// The byte at a position of a number; position 0 is the least significant.
fn byte_of(number: u64, place: u8) -> u8
    ensures { result ≡ byte_at place number }
{
    match number.to_le_bytes().get(place as usize) {
        Some(byte) => *byte,
        None => 0,
    }
}

// The last `count` bytes of a number, the most significant first.
fn last_bytes(alloc: Global, count: u8, number: u64) -> Result<Vec<u8>, NoMemory>
    ensures { IfOk result (λ bytes. bytes.items ≡ bytes_high_first count number) }
{
    let mut bytes = Vec::new(alloc);
    let mut place = count;
    while place > 0 {
        place -= 1;
        bytes.push(byte_of(number, place))?;
    }
    Ok(bytes)
}

// Adds an address of `maus` units.
fn push_address(alloc: Global, text: &mut Vec<u8>, maus: u8, at: u64) -> Result<(), NoMemory>
    ensures { OnOk result (text.new.items ≡ text.old.items ++ address maus at) }
{
    let bytes = last_bytes(alloc, maus, at)?;
    text.extend_from_slice(hex::encode_upper(alloc, bytes.as_slice())?.as_bytes())?;
    Ok(())
}

// Adds a text and a number.
fn push_number(alloc: Global, text: &mut Vec<u8>, words: &[u8], number: u32) -> Result<(), NoMemory>
    ensures { OnOk result (text.new.items ≡ text.old.items ++ (words.now ++ decimal number)) }
{
    text.extend_from_slice(words)?;
    text.extend_from_slice(format!(in alloc; "{number}")?.as_bytes())?;
    Ok(())
}

/// Adds a text and an address of `maus` units.
pub fn push_at(
    alloc: Global,
    text: &mut Vec<u8>,
    words: &[u8],
    maus: u8,
    at: u64,
) -> Result<(), NoMemory>
    ensures { OnOk result (text.new.items ≡ text.old.items ++ (words.now ++ address maus at)) }
{
    text.extend_from_slice(words)?;
    push_address(alloc, text, maus, at)
}

/// Adds a name in double quotes.
pub fn push_quoted(alloc: Global, text: &mut Vec<u8>, name: &Bytes) -> Result<(), NoMemory>
    ensures { OnOk result (text.new.items ≡ text.old.items ++ quoted_text name.now) }
{
    text.extend_from_slice(quoted_name(alloc, name.as_slice())?.as_slice())?;
    Ok(())
}

// Adds a text and a name in double quotes.
fn push_named(alloc: Global, text: &mut Vec<u8>, words: &str, name: &Bytes) -> Result<(), NoMemory>
    ensures { OnOk result (text.new.items ≡ text.old.items ++ (words.now ++ quoted_text name.now)) }
{
    text.extend_from_slice(words.as_bytes())?;
    push_quoted(alloc, text, name)
}

/// Adds the number of a region, if there is one.
pub(crate) fn push_region(
    alloc: Global,
    text: &mut Vec<u8>,
    region: Option<u32>,
) -> Result<(), NoMemory>
    ensures { OnOk result (text.new.items ≡ text.old.items ++ region_text region) }
{
    match region {
        Some(region) => push_number(alloc, text, b" region ", region),
        None => Ok(()),
    }
}

// Adds the text of an error of placing sections.
fn push_place(alloc: Global, text: &mut Vec<u8>, refusal: PlaceRefusal) -> Result<(), NoMemory>
    ensures { OnOk result (text.new.items ≡ text.old.items ++ place_text refusal) }
{
    match refusal {
        PlaceRefusal::Unplaced(section) => push_number(alloc, text, b"Unplaced section ", section),
        PlaceRefusal::Misfit { section, region } => {
            push_number(alloc, text, b"Misfit section ", section)?;
            push_region(alloc, text, region)
        }
        PlaceRefusal::Overlap(first, other) => {
            push_number(alloc, text, b"Overlap section ", first)?;
            push_number(alloc, text, b" section ", other)
        }
        PlaceRefusal::NoMemory => Err(NoMemory),
    }
}

// Adds the site of an expression.
fn push_site(alloc: Global, text: &mut Vec<u8>, maus: u8, site: &Site) -> Result<(), NoMemory>
    ensures { OnOk result (text.new.items ≡ text.old.items ++ site_text maus site.now) }
{
    match site {
        Site::Public(name) => push_named(alloc, text, "public ", name),
        Site::Counter(section) => push_number(alloc, text, b"counter of section ", *section),
        Site::Field { section, address } => {
            push_at(alloc, text, b"field at ", maus, *address)?;
            push_number(alloc, text, b" in section ", *section)
        }
        Site::Start => Ok(text.extend_from_slice(b"start")?),
        Site::Debug(number) => push_number(alloc, text, b"debug ", *number),
    }
}

// The word of a kind of field.
fn kind_name(kind: FieldKind) -> &'static str
    ensures { result.now ≡ kind_text kind }
{
    match kind {
        FieldKind::Signed => "signed",
        FieldKind::Unsigned => "unsigned",
        FieldKind::Either => "either",
    }
}

/// Adds the text of an error of locating, in which an address has `maus` units.
pub(crate) fn push_locate(
    alloc: Global,
    text: &mut Vec<u8>,
    maus: u8,
    refusal: &LocateRefusal,
) -> Result<(), NoMemory>
    ensures { OnOk result (text.new.items ≡ text.old.items ++ locate_text maus refusal.now) }
{
    match refusal {
        LocateRefusal::Place(refusal) => push_place(alloc, text, *refusal),
        LocateRefusal::Undefined(name) => push_named(alloc, text, "Undefined ", name),
        LocateRefusal::CommonUnplaced(name) => push_named(alloc, text, "CommonUnplaced ", name),
        LocateRefusal::Cycle(name) => push_named(alloc, text, "Cycle ", name),
        LocateRefusal::DivideByZero(site) => {
            text.extend_from_slice(b"DivideByZero ")?;
            push_site(alloc, text, maus, site)
        }
        LocateRefusal::Overflow {
            section,
            address,
            kind,
            size,
            value,
        } => {
            push_number(alloc, text, b"Overflow section ", *section)?;
            push_at(alloc, text, b" at ", maus, *address)?;
            text.push(b' ')?;
            text.extend_from_slice(kind_name(*kind).as_bytes())?;
            push_number(alloc, text, b" ", u32::from(*size))?;
            push_at(alloc, text, b" value ", maus, *value)
        }
        LocateRefusal::LoadOutside { section, address } => {
            push_number(alloc, text, b"LoadOutside section ", *section)?;
            push_at(alloc, text, b" at ", maus, *address)
        }
        LocateRefusal::LoadedTwice(address) => push_at(
            alloc,
            text,
            b"LoadedTwice ",
            maus,
            *address,
        ),
        LocateRefusal::ImageLimit(count) => {
            text.extend_from_slice(format!(in alloc; "ImageLimit {count}")?.as_bytes())?;
            Ok(())
        }
        LocateRefusal::NoMemory => Err(NoMemory),
    }
}
