//! The words for a module: its position, its name, and the file from which it was read.

ghost use Rattle.std.specs.Prelude.{◌≡◌, slice_get};
ghost use Rattle.mufom_text.specs.Words.{quoted};
ghost use Rattle.mufom_origins.specs.Words.{all_files, file_name, file_text, member_word, module_text, word_at};

use crate::files::{ModuleFiles, ReadFile};
use mufom_members::name_at;
use mufom_numbers::{Bytes, Text};
use mufom_text::{Output, counted, quoted, quoted_bytes};

/// Returns the name of the file with a number, as it was given; empty past the last file.
pub fn file_name(names: &[Text], number: u32) -> &[u8]
    ensures { result.now ≡ file_name names.now number }
{
    match names.get(number as usize) {
        Some(name) => name.as_str().as_bytes(),
        None => &[],
    }
}

// Puts the name of an archive in quotes, with that of a member in parentheses.
fn member_word<K: Output>(out: &mut K, name: &[u8], member: &[u8])
    ensures { K.takes out.old out.new (quoted (member_word name.now member.now)) }
{
    out.put(b"\"");
    quoted_bytes(out, name);
    out.put(b"(");
    quoted_bytes(out, member);
    out.put(b")\"");
}

// Puts the name of a file in quotes, with that of the member at a position if the file is an archive.
fn file_word<K: Output>(out: &mut K, file: &ReadFile, position: usize)
    ensures { K.takes out.old out.new (quoted (word_at file.now.name file.now.listing position)) }
{
    let name = file.name.as_str().as_bytes();
    match file.listing {
        None => quoted(out, name),
        Some(_) => member_word(out, name, name_at(&file.listing, position).unwrap_or(&[])),
    }
}

// Puts the file of the module at a place, by its number and its name.
fn file_text<K: Output>(out: &mut K, files: &ModuleFiles, place: u32)
    ensures { K.takes out.old out.new (file_text (slice_get (all_files files.now) place)) }
{
    if let Some((file, position)) = files.find(place as usize) {
        counted(out, b" file ", file.number as u128);
        out.put(b": ");
        file_word(out, file, position);
    }
}

/// Puts a module by its position in the flat list, with its name and its file, as in
/// `module 1 "b" file 2: "b.695"`. `files` are the files of all modules, in the order in which the modules were
/// read, and `place` is the place of the module among them.
pub fn module_text<K: Output>(
    out: &mut K,
    files: &ModuleFiles,
    position: usize,
    place: u32,
    name: &Bytes,
)
    ensures { K.takes out.old out.new (module_text (all_files files.now) position place name.now) }
{
    counted(out, b"module ", position as u128);
    out.put(b" ");
    quoted(out, name.as_slice());
    file_text(out, files, place);
}
