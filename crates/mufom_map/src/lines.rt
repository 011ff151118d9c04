//! The lines of modules, sections, publics and of the start.

ghost use Rattle.std.specs.Prelude.{◌≡◌, ◌+◌, ◌++◌, Some, false, option_map};
ghost use Rattle.std.specs.Fmt.{decimal};
ghost use Rattle.mufom_text.specs.Fitting.{IsUnitCount};
ghost use Rattle.mufom_text.specs.Digits.{counted};
ghost use Rattle.mufom_text.specs.Words.{each, line};
ghost use Rattle.mufom_map.specs.MapText.{found_public, in_module, in_module_or_plan, in_region, kind_word, module_line, placed_text};
ghost use Rattle.mufom_map.specs.MapText.{public_line, public_text, section_line, start_line};
ghost use Rattle.mufom_map.specs.Shown.{base_of};
ghost use Rattle.mufom_origins.specs.Words.{all_files};

use crate::room::base_of;
use mufom_meaning::PublicValue;
use mufom_origins::{ModuleFiles, Origin, module_text};
use mufom_sections::Section;
use mufom_text::{Output, counted, hex, quoted};

// ---- modules

fn module_line<K: Output>(out: &mut K, names: &ModuleFiles, position: usize, origin: &Origin)
    ensures { K.takes out.old out.new (module_line (all_files names.now) position origin.now) }
{
    module_text(out, names, position, origin.place, &origin.name);
    out.put(b"\n");
}

/// The lines of modules. `names` are the files of all modules that were read.
pub(crate) fn module_lines<K: Output>(out: &mut K, names: &ModuleFiles, origins: &[Origin])
    ensures { K.takes out.old out.new (each (module_line (all_files names.now)) origins.now) }
{
    for position in 0..origins.len() {
        module_line(out, names, position, &origins[position]);
    }
}

// The position of a module, after the word `module`.
fn in_module<K: Output>(out: &mut K, origin: Option<usize>)
    ensures { K.takes out.old out.new (in_module origin) }
{
    match origin {
        Some(position) => counted(out, b" module ", position as u128),
        None => {}
    }
}

// The position of a public's module, after the word `module`, or the word `plan` for a symbol of the plan.
fn in_module_or_plan<K: Output>(out: &mut K, origin: Option<usize>)
    ensures { K.takes out.old out.new (in_module_or_plan origin) }
{
    match origin {
        Some(_) => in_module(out, origin),
        None => out.put(b" plan"),
    }
}

// ---- sections

// The position of a region, after the word `region`.
fn in_region<K: Output>(out: &mut K, region: Option<u32>)
    ensures { K.takes out.old out.new (in_region region) }
{
    match region {
        Some(position) => counted(out, b" region ", position as u128),
        None => {}
    }
}

// The word for an entry: a section has a module, a common and a copy have none.
fn kind_word(copy: bool, origin: Option<usize>) -> &'static [u8]
    ensures { result.now ≡ kind_word copy origin }
{
    match origin {
        Some(_) => b"section ",
        None if copy => b"copy ",
        None => b"common ",
    }
}

// A section, a common or a copy, with its addresses.
fn placed_text<K: Output>(out: &mut K, maus: u8, number: u32, section: &Section)
    requires { IsUnitCount maus }
    ensures { K.takes out.old out.new (placed_text maus (record {
      number = number;
      name = section.now.name;
      size = section.now.size;
      align = section.now.align;
      base = base_of section.now;
      region = None;
      origin = None;
      copy = false;
    })) }
{
    counted(out, b"", number as u128);
    out.put(b" ");
    hex(out, maus, base_of(section));
    counted(out, b" size ", section.size as u128);
    counted(out, b" align ", section.align as u128);
    out.put(b" ");
    quoted(out, section.name.as_slice());
}

/// The line of a section, or of a copy or a common if it has no module.
pub(crate) fn section_line<K: Output>(
    out: &mut K,
    maus: u8,
    number: u32,
    section: &Section,
    region: Option<u32>,
    origin: Option<usize>,
    copy: bool,
)
    requires { IsUnitCount maus }
    ensures { K.takes out.old out.new (section_line maus (record {
      number = number;
      name = section.now.name;
      size = section.now.size;
      align = section.now.align;
      base = base_of section.now;
      region = region;
      origin = origin;
      copy = copy;
    })) }
{
    out.put(kind_word(copy, origin));
    placed_text(out, maus, number, section);
    in_module(out, origin);
    in_region(out, region);
    out.put(b"\n");
}

// ---- publics and the start

// A public, with its value.
fn public_text<K: Output>(out: &mut K, maus: u8, public: &PublicValue, origin: Option<usize>)
    requires { IsUnitCount maus }
    ensures { K.takes out.old out.new (public_text maus (record { name = public.now.name; value = public.now.value; origin = origin })) }
{
    out.put(b"public ");
    hex(out, maus, public.value);
    out.put(b" ");
    quoted(out, public.name.as_slice());
    in_module_or_plan(out, origin);
}

/// The line of a public.
pub(crate) fn public_line<K: Output>(
    out: &mut K,
    maus: u8,
    public: &PublicValue,
    origin: Option<usize>,
)
    requires { IsUnitCount maus }
    ensures { K.takes out.old out.new (public_line maus (record { name = public.now.name; value = public.now.value; origin = origin })) }
{
    public_text(out, maus, public, origin);
    out.put(b"\n");
}

/// The line of a public, with the distance of an address from its value.
pub(crate) fn offset_line<K: Output>(
    out: &mut K,
    maus: u8,
    address: u64,
    public: &PublicValue,
    origin: Option<usize>,
)
    requires { IsUnitCount maus }
    ensures { K.takes out.old out.new (found_public maus address
        (Some (record { name = public.now.name; value = public.now.value; origin = origin }))) }
{
    public_text(out, maus, public, origin);
    counted(
        out,
        b" offset ",
        address.saturating_sub(public.value) as u128,
    );
    out.put(b"\n");
}

// The line of a start.
fn line_of_start<K: Output>(out: &mut K, maus: u8, start: u64, origin: Option<usize>)
    requires { IsUnitCount maus }
    ensures { K.takes out.old out.new (start_line maus (Some (start, origin))) }
{
    out.put(b"start ");
    hex(out, maus, start);
    in_module(out, origin);
    out.put(b"\n");
}

/// The line of the start, if there is one.
pub(crate) fn start_line<K: Output>(
    out: &mut K,
    maus: u8,
    start: Option<u64>,
    origin: Option<usize>,
)
    requires { IsUnitCount maus }
    ensures { K.takes out.old out.new (start_line maus (option_map (λ a. (a, origin)) start)) }
{
    match start {
        Some(start) => line_of_start(out, maus, start, origin),
        None => {}
    }
}
