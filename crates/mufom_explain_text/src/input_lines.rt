//! The lines of an explanation about arguments, inputs that could not be read, and the file that is not written.

ghost use Rattle.std.specs.Prelude.{◌≡◌, [], map, slice_index_or, Some};
ghost use Rattle.std.specs.String.{string_bytes};
ghost use Rattle.mufom_explain.specs.Lines.{file_name as name_of};
ghost use Rattle.mufom_works.specs.InputLines.{cause_text as text_of_cause, missing_line as line_of_missing, unread_file as line_of_file};
ghost use Rattle.mufom_works.specs.InputLines.{unread_plan as line_of_plan, untried_lines, word_line as line_of_word};

use mufom_host::Cause;
use mufom_numbers::Text;
use mufom_text::{Output, counted, quoted};
use mufom_words::Setting;

// ---- arguments

// The argument with a number; empty past the last one.
fn word_at(words: &[String], number: u32) -> &[u8]
    ensures { result.now ≡ slice_index_or (map (λ word. string_bytes word) words.now) number [] }
{
    match words.get(number as usize) {
        Some(word) => word.as_str().as_bytes(),
        None => &[],
    }
}

/// Puts the line of the argument with a number, as in `word 2: "]"`.
pub(crate) fn word_line<K: Output>(out: &mut K, words: &[String], number: u32)
    ensures { K.takes out.old out.new (line_of_word (map (λ word. string_bytes word) words.now) number) }
{
    counted(out, b"word ", number as u128);
    out.put(b": ");
    quoted(out, word_at(words, number));
    out.put(b"\n");
}

/// Puts the line of a required option that is missing, as in `missing: -o`.
pub(crate) fn missing_line<K: Output>(out: &mut K, option: Setting)
    ensures { K.takes out.old out.new (line_of_missing option) }
{
    out.put(b"missing: ");
    out.put(option.spelling().as_bytes());
    out.put(b"\n");
}

// ---- inputs that could not be read

// What follows the name of an input that could not be read.
fn cause_text(cause: Cause) -> &'static [u8]
    ensures { result.now ≡ text_of_cause cause }
{
    match cause {
        Cause::Unknown => b"",
        Cause::NoFile => b": no such file",
        Cause::Folder => b": is a folder",
        Cause::NoPermission => b": no permission",
    }
}

// The name of the file with a number; empty past the last one.
fn file_name(names: &[Text], number: u32) -> &[u8]
    ensures { result.now ≡ name_of names.now number }
{
    match names.get(number as usize) {
        Some(name) => name.as_str().as_bytes(),
        None => &[],
    }
}

/// Puts the line of a file that could not be read, as in `file 2: "b.695": no such file`.
pub(crate) fn unread_file<K: Output>(out: &mut K, names: &[Text], number: u32, cause: Cause)
    ensures { K.takes out.old out.new (line_of_file names.now number cause) }
{
    counted(out, b"file ", number as u128);
    out.put(b": ");
    quoted(out, file_name(names, number));
    out.put(cause_text(cause));
    out.put(b"\n");
}

/// Puts the line of a plan that could not be read, as in `plan: "plan.toml": is a folder`.
pub(crate) fn unread_plan<K: Output>(out: &mut K, name: &Text, cause: Cause)
    ensures { K.takes out.old out.new (line_of_plan name.now cause) }
{
    out.put(b"plan: ");
    quoted(out, name.as_str().as_bytes());
    out.put(cause_text(cause));
    out.put(b"\n");
}

// ---- the file that a run would write

/// Puts the line of the file that a run would write, as in `not tried: writing "a.out"`.
pub(crate) fn untried_line<K: Output>(out: &mut K, name: &Text)
    ensures { K.takes out.old out.new (untried_lines (Some name.now)) }
{
    out.put(b"not tried: writing ");
    quoted(out, name.as_str().as_bytes());
    out.put(b"\n");
}
