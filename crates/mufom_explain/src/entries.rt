//! The lines of sections, commons and copies of regions.

ghost use Rattle.std.specs.Prelude.{◌≡◌, ◌++◌, ◌&&◌, Some, codes, map, option_map, slice_get};
ghost use Rattle.std.specs.Str.{bytes_eq};
ghost use Rattle.mufom_text.specs.Fitting.{IsUnitCount};
ghost use Rattle.mufom_text.specs.Words.{each};
ghost use Rattle.mufom_meaning.specs.Flat.{is_common};
ghost use Rattle.mufom_explain.specs.Flat.{file_module, flat_of};
ghost use Rattle.mufom_explain.specs.Lines.{asking_line, asks_by, asks_for, base_text, common_lines, described, module_line, origin_text};
ghost use Rattle.mufom_explain.specs.Lines.{copy_line, place_text, section_line};
ghost use Rattle.mufom_origins.specs.Words.{all_files};

use crate::modules::{FlatModule, module_line};
use mufom_module::Parts;
use mufom_names::Reference;
use mufom_origins::{ModuleFiles, Origin, Origins, Place, module_text};
use mufom_place::RegionCopy;
use mufom_sections::Section;
use mufom_text::{Output, counted, hex, quoted};

// The base of a section.
fn line_of_base<K: Output>(out: &mut K, maus: u8, base: u64)
    requires { IsUnitCount maus }
    ensures { K.takes out.old out.new (base_text maus (Some base)) }
{
    out.put(b" base ");
    hex(out, maus, base);
}

// The base of a section, if it has one.
fn base_text<K: Output>(out: &mut K, maus: u8, base: Option<u64>)
    requires { IsUnitCount maus }
    ensures { K.takes out.old out.new (base_text maus base) }
{
    match base {
        Some(base) => line_of_base(out, maus, base),
        None => {}
    }
}

// The module with a position, after a comma.
fn origin_text<K: Output>(out: &mut K, names: &ModuleFiles, position: usize, origin: &Origin)
    ensures { K.takes out.old out.new (origin_text (all_files names.now) position (Some origin.now)) }
{
    out.put(b", ");
    module_text(out, names, position, origin.place, &origin.name);
}

// The module with a position, if there is one.
fn origin_at<K: Output>(out: &mut K, names: &ModuleFiles, origins: &[Origin], position: usize)
    ensures { K.takes out.old out.new (origin_text (all_files names.now) position (slice_get origins.now position)) }
{
    match origins.get(position) {
        Some(origin) => origin_text(out, names, position, origin),
        None => {}
    }
}

// The module of a place, if there is a place.
fn place_text<K: Output>(out: &mut K, names: &ModuleFiles, origins: &Origins, place: Option<Place>)
    ensures { K.takes out.old out.new (place_text (all_files names.now) origins.now (option_map (λ p. p.«module») place)) }
{
    match place {
        Some(place) => origin_at(out, names, origins.as_slice(), place.module),
        None => {}
    }
}

// The description of a section, a common or a copy, after a word and its number.
fn described<K: Output>(out: &mut K, word: &[u8], number: u32, section: &Section)
    ensures { K.takes out.old out.new (described word.now number section.now) }
{
    counted(out, word, number as u128);
    out.put(b": ");
    quoted(out, section.name.as_slice());
    counted(out, b" size ", section.size as u128);
    counted(out, b" align ", section.align as u128);
}

/// The line of a section with its number and its module, as in
/// `section 3: "code" size 40 align 2, module 1 "b" file 1: "b.695"`.
pub(crate) fn section_line<K: Output>(
    out: &mut K,
    maus: u8,
    names: &ModuleFiles,
    origins: &Origins,
    number: u32,
    section: &Section,
)
    requires { IsUnitCount maus }
    ensures { K.takes out.old out.new (section_line maus (all_files names.now) origins.now number section.now) }
{
    described(out, b"section ", number, section);
    base_text(out, maus, section.base);
    place_text(out, names, origins, origins.section(number));
    out.put(b"\n");
}

/// Puts the line of the copy of a region with its number, as in `copy 3: "ram" size 6 align 8, of region 1`.
pub(crate) fn copy_line<K: Output>(out: &mut K, number: u32, copy: &RegionCopy)
    ensures { K.takes out.old out.new (copy_line number copy.now) }
{
    described(out, b"copy ", number, &copy.section);
    counted(out, b", of region ", copy.source as u128);
    out.put(b"\n");
}

// Whether a reference has this name and requests space.
fn asks_by(name: &[u8], reference: &Reference) -> bool
    ensures { result ≡ asks_by name.now reference.now }
{
    match reference.weak {
        Some(weak) => weak.size != 0 && reference.name.as_slice() == name,
        None => false,
    }
}

// Whether a reference of a module has this name and requests space.
fn asks_for(name: &[u8], parts: &Parts) -> bool
    ensures { result ≡ asks_for name.now parts.now }
{
    let references = parts.names.references.as_slice();
    references.iter().any(|r| asks_by(name, r))
}

// The line of a module that requests space.
fn indented_line<K: Output>(
    out: &mut K,
    names: &ModuleFiles,
    position: usize,
    module: &FlatModule<'_>,
)
    ensures { K.takes out.old out.new (codes "  " ++ module_line (all_files names.now) position (file_module «module».now)) }
{
    out.put(b"  ");
    module_line(out, names, position, module);
}

// The line of a module, if it requests space for the name.
fn asking_line<K: Output>(
    out: &mut K,
    names: &ModuleFiles,
    name: &[u8],
    position: usize,
    module: &FlatModule<'_>,
)
    ensures { K.takes out.old out.new (asking_line (all_files names.now) name.now position (file_module «module».now)) }
{
    match asks_for(name, module.parts) {
        true => indented_line(out, names, position, module),
        false => {}
    }
}

// The lines of the modules that request space for the name.
fn asking_lines<K: Output>(out: &mut K, names: &ModuleFiles, flat: &[FlatModule<'_>], name: &[u8])
    ensures { K.takes out.old out.new (each (asking_line (all_files names.now) name.now) (flat_of flat.now)) }
{
    for position in 0..flat.len() {
        asking_line(out, names, name, position, &flat[position]);
    }
}

/// Puts the line of a common with its number, and those of the modules that request space for its name.
pub(crate) fn common_lines<K: Output>(
    out: &mut K,
    names: &ModuleFiles,
    flat: &[FlatModule<'_>],
    number: u32,
    section: &Section,
)
    ensures { K.takes out.old out.new (common_lines (all_files names.now) (flat_of flat.now) number section.now) }
{
    described(out, b"common ", number, section);
    out.put(b"\n");
    asking_lines(out, names, flat, section.name.as_slice());
}
