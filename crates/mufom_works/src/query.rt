//! The lines of an address that is looked up.

ghost use Rattle.std.specs.Prelude.{◌≡◌, ◌++◌, ◌≤◌, IfOk, OnOk};
ghost use Rattle.mufom_addr.specs.AddressHit.{hit_at};
ghost use Rattle.mufom_works.specs.Text.{function_line as line_of_function, hit_text, source_line as line_of_source, source_text};

use mufom_addr::{FunctionHit, Hit, LineHit, find_address};
use mufom_image::Located;
use mufom_numbers::{Bytes, NoMemory};
use mufom_outcome::{push_at, push_quoted};
use std::alloc::Global;

// Adds the name of a source file, or `none`.
fn push_source(alloc: Global, text: &mut Vec<u8>, source: &Option<Bytes>) -> Result<(), NoMemory>
    ensures { OnOk result (text.new.items ≡ text.old.items ++ source_text source.now) }
{
    match source {
        Some(name) => push_quoted(alloc, text, name)?,
        None => text.extend_from_slice(b"none")?,
    }
    Ok(())
}

// Adds the line of a function, or of no function. Addresses have `maus` units.
fn push_function(
    alloc: Global,
    text: &mut Vec<u8>,
    maus: u8,
    function: &Option<FunctionHit>,
) -> Result<(), NoMemory>
    ensures { OnOk result (text.new.items ≡ text.old.items ++ line_of_function maus function.now) }
{
    let Some(function) = function else {
        text.extend_from_slice(b"function none\n")?;
        return Ok(());
    };
    let kind = function.kind;
    text.extend_from_slice(format!(in alloc; "function {kind} ")?.as_bytes())?;
    push_quoted(alloc, text, &function.name)?;
    push_at(alloc, text, b" ", maus, function.begin)?;
    push_at(alloc, text, b" ", maus, function.end)?;
    text.push(b'\n')?;
    Ok(())
}

// Adds the line of a source line, or of no line. Addresses have `maus` units.
fn push_line(
    alloc: Global,
    text: &mut Vec<u8>,
    maus: u8,
    line: &Option<LineHit>,
) -> Result<(), NoMemory>
    ensures { OnOk result (text.new.items ≡ text.old.items ++ line_of_source maus line.now) }
{
    let Some(line) = line else {
        text.extend_from_slice(b"line none\n")?;
        return Ok(());
    };
    let number = line.line;
    text.extend_from_slice(format!(in alloc; "line {number} ")?.as_bytes())?;
    push_at(alloc, text, b"", maus, line.address)?;
    text.extend_from_slice(b" source ")?;
    push_source(alloc, text, &line.source)?;
    text.push(b'\n')?;
    Ok(())
}

// The lines of the function and the source line that were found.
fn hit_lines(alloc: Global, maus: u8, hit: &Hit) -> Result<Vec<u8>, NoMemory>
    ensures { IfOk result (λ text. text.items ≡ hit_text maus hit.now) }
{
    let mut text = Vec::new(alloc);
    push_function(alloc, &mut text, maus, &hit.function)?;
    push_line(alloc, &mut text, maus, &hit.line)?;
    Ok(text)
}

/// The lines of the function and the source line at an address of a location.
pub fn lines_at(alloc: Global, located: &Located, address: u64) -> Result<Vec<u8>, NoMemory>
    ensures { IfOk result (λ text. text.items ≡ hit_text located.now.maus (hit_at located.now.debug address)) }
{
    let parts = located.parts();
    let hit = find_address(alloc, parts.debug.as_slice(), address)?;
    hit_lines(alloc, parts.maus, &hit)
}
