//! The lines of publics, references and their notes.

ghost use Rattle.std.specs.Prelude.{◌++◌, codes};
ghost use Rattle.mufom_text.specs.Words.{each, line};
ghost use Rattle.mufom_text.specs.Show.{note_lines, note_text, public_line, public_lines, reference_line, reference_lines, weak_text, weak_words};

use crate::infix::expression;
use crate::output::Output;
use crate::words::{number, quoted, spaced_numbers};
use mufom_names::{Note, Public, Reference, Weak};

/// What a note states, after the word that begins its line.
pub(crate) fn note_text<K: Output>(out: &mut K, note: &Note)
    ensures { K.takes out.old out.new (note_text note.now) }
{
    out.put(b" type ");
    number(out, note.type_index);
    out.put(b" attribute ");
    number(out, note.attribute);
    spaced_numbers(out, note.numbers.as_slice());
}

fn note_line<K: Output>(out: &mut K, note: &Note)
    ensures { K.takes out.old out.new (line (codes "note" ++ note_text note.now)) }
{
    out.put(b"note");
    note_text(out, note);
    out.put(b"\n");
}

fn note_lines<K: Output>(out: &mut K, notes: &[Note])
    ensures { K.takes out.old out.new (note_lines notes.now) }
{
    for note in notes {
        note_line(out, note);
    }
}

// ---- publics

fn public_line<K: Output>(out: &mut K, position: usize, public: &Public)
    ensures { K.takes out.old out.new (public_line position public.now) }
{
    out.put(b"public ");
    number(out, position as u64);
    out.put(b" ");
    quoted(out, public.name.as_slice());
    out.put(b" = ");
    expression(out, &public.value);
    out.put(b"\n");
}

fn public<K: Output>(out: &mut K, position: usize, public: &Public)
    ensures { K.takes out.old out.new (public_lines position public.now) }
{
    public_line(out, position, public);
    note_lines(out, public.notes.as_slice());
}

/// The lines of the publics and their notes.
pub(crate) fn publics<K: Output>(out: &mut K, publics: &[Public])
    ensures { K.takes out.old out.new (each public_lines publics.now) }
{
    for position in 0..publics.len() {
        public(out, position, &publics[position]);
    }
}

// ---- references

fn weak_words<K: Output>(out: &mut K, weak: Weak)
    ensures { K.takes out.old out.new (weak_words weak) }
{
    out.put(b" weak size ");
    number(out, weak.size);
    out.put(b" default ");
    number(out, weak.default);
}

fn weak_text<K: Output>(out: &mut K, weak: Option<Weak>)
    ensures { K.takes out.old out.new (weak_text weak) }
{
    match weak {
        Some(weak) => weak_words(out, weak),
        None => {}
    }
}

fn reference_line<K: Output>(out: &mut K, position: usize, reference: &Reference)
    ensures { K.takes out.old out.new (reference_line position reference.now) }
{
    out.put(b"reference ");
    number(out, position as u64);
    out.put(b" ");
    quoted(out, reference.name.as_slice());
    weak_text(out, reference.weak);
    out.put(b"\n");
}

fn reference<K: Output>(out: &mut K, position: usize, reference: &Reference)
    ensures { K.takes out.old out.new (reference_lines position reference.now) }
{
    reference_line(out, position, reference);
    note_lines(out, reference.notes.as_slice());
}

/// The lines of the references and their notes.
pub(crate) fn references<K: Output>(out: &mut K, references: &[Reference])
    ensures { K.takes out.old out.new (each reference_lines references.now) }
{
    for position in 0..references.len() {
        reference(out, position, &references[position]);
    }
}
