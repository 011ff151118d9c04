//! The lines of a module's head and of its sections.

ghost use Rattle.std.specs.Prelude.{◌≡◌, ◌++◌, codes};
ghost use Rattle.std.specs.Fmt.{decimal};
ghost use Rattle.mufom_text.specs.Words.{each, line};
ghost use Rattle.mufom_text.specs.Show.{base_text, module_line, order_letter, purpose_letter, raw_line, raw_text, section_line, type_letters};

use crate::form::TextForm;
use crate::output::Output;
use crate::words::{hex_bytes, number, numbered, quoted};
use mufom_module::{Order, Parts};
use mufom_sections::{Purpose, Section};

fn order_letter(order: Order) -> &'static [u8]
    ensures { result.now ≡ order_letter order }
{
    match order {
        Order::Least => b"L",
        Order::Most => b"M",
    }
}

/// The line of the module.
pub(crate) fn module_line<K: Output>(out: &mut K, parts: &Parts)
    ensures { K.takes out.old out.new (module_line parts.now) }
{
    out.put(b"module ");
    quoted(out, parts.name.as_slice());
    out.put(b" processor ");
    quoted(out, parts.processor.as_slice());
    out.put(b" maus ");
    number(out, parts.maus as u64);
    out.put(b" order ");
    out.put(order_letter(parts.order));
    out.put(b"\n");
}

// The length of a part, in bytes.
fn counted<K: Output>(out: &mut K, count: usize)
    ensures { K.takes out.old out.new (decimal count ++ codes " bytes") }
{
    number(out, count as u64);
    out.put(b" bytes");
}

fn raw_text<K: Output>(out: &mut K, form: TextForm, bytes: &[u8])
    ensures { K.takes out.old out.new (raw_text form bytes.now) }
{
    match form {
        TextForm::Summary => counted(out, bytes.len()),
        TextForm::Listing => hex_bytes(out, bytes),
    }
}

// The line of a part that is kept as bytes.
fn some_raw<K: Output>(out: &mut K, form: TextForm, name: &[u8], bytes: &[u8])
    ensures { K.takes out.old out.new (line ((name.now ++ codes " ") ++ raw_text form bytes.now)) }
{
    out.put(name);
    out.put(b" ");
    raw_text(out, form, bytes);
    out.put(b"\n");
}

/// The line of a part that is kept as bytes (extension or environment); nothing if the part is empty.
pub(crate) fn raw_line<K: Output>(out: &mut K, form: TextForm, name: &[u8], bytes: &[u8])
    ensures { K.takes out.old out.new (raw_line form name.now bytes.now) }
{
    match bytes {
        [] => {}
        _ => some_raw(out, form, name, bytes),
    }
}

fn type_letters(absolute: bool) -> &'static [u8]
    ensures { result.now ≡ type_letters absolute }
{
    if absolute { b"AS" } else { b"C" }
}

fn purpose_letter(purpose: Option<Purpose>) -> &'static [u8]
    ensures { result.now ≡ purpose_letter purpose }
{
    match purpose {
        None => b"",
        Some(Purpose::Code) => b"P",
        Some(Purpose::Data) => b"D",
        Some(Purpose::Rom) => b"R",
    }
}

fn base<K: Output>(out: &mut K, base: Option<u64>)
    ensures { K.takes out.old out.new (base_text base) }
{
    match base {
        Some(base) => numbered(out, b" base ", base),
        None => {}
    }
}

fn section_line<K: Output>(out: &mut K, position: usize, section: &Section)
    ensures { K.takes out.old out.new (section_line position section.now) }
{
    out.put(b"section ");
    number(out, position as u64);
    out.put(b" ");
    quoted(out, section.name.as_slice());
    out.put(b" ");
    out.put(type_letters(section.absolute));
    out.put(purpose_letter(section.purpose));
    out.put(b" size ");
    number(out, section.size);
    out.put(b" align ");
    number(out, section.align);
    base(out, section.base);
    out.put(b"\n");
}

/// The lines of the sections.
pub(crate) fn section_lines<K: Output>(out: &mut K, sections: &[Section])
    ensures { K.takes out.old out.new (each section_line sections.now) }
{
    for position in 0..sections.len() {
        section_line(out, position, &sections[position]);
    }
}
