//! Writes the records of sections.

ghost use Rattle.std.specs.Prelude.{◌≡◌, ◌++◌, ◌<◌, ◌^◌, false};
ghost use Rattle.std.specs.List.{list_any};
ghost use Rattle.mufom_module.specs.Written as written;
ghost use Rattle.mufom_module.specs.Written.{shortest, each};
ghost use Rattle.mufom_module.specs.Defects.{is_long};

use crate::fields::{FIRST_SECTION, number, numbered, string};
use crate::output::Output;
use mufom_host::Failed;
use mufom_numbers::codes;
use mufom_sections::{Purpose, Section};

fn letters<K: Output>(out: &mut K, absolute: bool) -> Result<(), Failed>
    ensures { K.takes out.old out.new (written.section_letters absolute) result }
{
    if absolute {
        out.put(&[codes::LETTER_A, codes::LETTER_S])
    } else {
        out.put(&[codes::LETTER_C])
    }
}

fn purpose_letter<K: Output>(out: &mut K, purpose: Option<Purpose>) -> Result<(), Failed>
    ensures { K.takes out.old out.new (written.purpose_letter purpose) result }
{
    match purpose {
        None => Ok(()),
        Some(Purpose::Code) => out.put(&[codes::LETTER_P]),
        Some(Purpose::Data) => out.put(&[codes::LETTER_D]),
        Some(Purpose::Rom) => out.put(&[codes::LETTER_R]),
    }
}

// The ST record.
fn section_record<K: Output>(out: &mut K, index: u64, section: &Section) -> Result<(), Failed>
    requires { is_long section.now.name ≡ false }
    ensures { K.takes out.old out.new (written.section_record shortest index section.now) result }
{
    numbered(out, &[codes::SECTION_TYPE], index)?;
    letters(out, section.absolute)?;
    purpose_letter(out, section.purpose)?;
    string(out, &section.name)
}

// The bytes of a command, the index of a section, and a number.
fn setting<K: Output>(out: &mut K, command: &[u8], index: u64, value: u64) -> Result<(), Failed>
    ensures { K.takes out.old out.new (command.now ++ (written.number shortest index ++ written.number shortest value)) result }
{
    out.record(command)?;
    number(out, index)?;
    number(out, value)
}

// The SA record, if the alignment is not 1.
fn alignment_record<K: Output>(out: &mut K, index: u64, align: u64) -> Result<(), Failed>
    ensures { K.takes out.old out.new (written.alignment_record shortest index align) result }
{
    if align == 1 {
        return Ok(());
    }
    setting(out, &[codes::SECTION_ALIGNMENT], index, align)
}

// The ASS record, if the size is not 0.
fn size_record<K: Output>(out: &mut K, index: u64, size: u64) -> Result<(), Failed>
    ensures { K.takes out.old out.new (written.size_record shortest index size) result }
{
    if size == 0 {
        return Ok(());
    }
    setting(out, &[codes::ASSIGNMENT, codes::LETTER_S], index, size)
}

// The ASL record, if there is a base.
fn base_record<K: Output>(out: &mut K, index: u64, base: Option<u64>) -> Result<(), Failed>
    ensures { K.takes out.old out.new (written.base_record shortest index base) result }
{
    match base {
        Some(base) => setting(out, &[codes::ASSIGNMENT, codes::LETTER_L], index, base),
        None => Ok(()),
    }
}

fn section<K: Output>(out: &mut K, position: usize, section: &Section) -> Result<(), Failed>
    requires short { is_long section.now.name ≡ false }
    requires few { position < 2 ^ 63 }
    ensures { K.takes out.old out.new (written.section shortest position section.now) result }
{
    let index = position as u64 + FIRST_SECTION;
    section_record(out, index, section)?;
    alignment_record(out, index, section.align)?;
    size_record(out, index, section.size)?;
    base_record(out, index, section.base)
}

/// Writes the section part.
pub(crate) fn sections<K: Output>(out: &mut K, sections: &[Section]) -> Result<(), Failed>
    requires { list_any (λ s. is_long s.name) sections.now ≡ false }
    ensures { K.takes out.old out.new (each (written.section shortest) sections.now) result }
{
    for place in 0..sections.len() {
        section(out, place, &sections[place])?;
    }
    Ok(())
}
