//! The lines of mentions.

ghost use Rattle.std.specs.Prelude.{◌≡◌, flat_map};
ghost use Rattle.std.specs.List.{list_any};
ghost use Rattle.mufom_plan.specs.Names.{has_name};
ghost use Rattle.mufom_text.specs.Words.{each};
ghost use Rattle.mufom_explain.specs.Flat.{file_module, flat_of, parts_of, wanted_names};
ghost use Rattle.mufom_explain.specs.Mentions.{kind_text, mention_line, mention_text, mentions_any, name_lines, named_line};
ghost use Rattle.mufom_origins.specs.Words.{all_files};

use crate::mention::{Mention, MentionKind};
use crate::mentions::Mentions;
use crate::modules::{FlatModule, module_line};
use crate::wanted::Wanted;
use mufom_module::Parts;
use mufom_names::{Public, Reference};
use mufom_origins::ModuleFiles;
use mufom_text::{Output, counted, quoted};

// The text about a mention, after the name.
fn kind_text(kind: MentionKind) -> &'static [u8]
    ensures { result.now ≡ kind_text kind }
{
    match kind {
        MentionKind::Public => b": public in module ",
        MentionKind::Reference => b": reference in module ",
    }
}

// The line of a mention.
fn mention_line<K: Output>(out: &mut K, name: &[u8], mention: &Mention)
    ensures { K.takes out.old out.new (mention_line name.now mention.now) }
{
    quoted(out, name);
    counted(out, kind_text(mention.kind), mention.position as u128);
    out.put(b"\n");
}

// The lines of the mentions of a name.
fn mention_lines<K: Output>(out: &mut K, name: &[u8], mentions: &[Mention])
    ensures { K.takes out.old out.new (flat_map (mention_line name.now) mentions.now) }
{
    for mention in mentions {
        mention_line(out, name, mention);
    }
}

// Whether this is one of the names that are looked for.
fn is_wanted(wanted: &Wanted<'_>, name: &[u8]) -> bool
    ensures { result ≡ has_name (wanted_names wanted.now) name.now }
{
    wanted.index.find(name).is_some()
}

// Whether a public or a reference of the module has one of the names.
fn mentions_any(wanted: &Wanted<'_>, parts: &Parts) -> bool
    ensures { result ≡ mentions_any (wanted_names wanted.now) parts.now }
{
    has_public(wanted, parts.names.publics.as_slice())
        || has_reference(wanted, parts.names.references.as_slice())
}

// Whether one of the publics has one of the names.
fn has_public(wanted: &Wanted<'_>, publics: &[Public]) -> bool
    ensures { result ≡ list_any (λ p. has_name (wanted_names wanted.now) p.name) publics.now }
{
    publics.iter().any(|p| is_wanted(wanted, p.name.as_slice()))
}

// Whether one of the references has one of the names.
fn has_reference(wanted: &Wanted<'_>, references: &[Reference]) -> bool
    ensures { result ≡ list_any (λ r. has_name (wanted_names wanted.now) r.name) references.now }
{
    references
        .iter()
        .any(|r| is_wanted(wanted, r.name.as_slice()))
}

// The line of a module, if it mentions one of the names.
fn named_line<K: Output>(
    out: &mut K,
    names: &ModuleFiles,
    wanted: &Wanted<'_>,
    position: usize,
    module: &FlatModule<'_>,
)
    ensures { K.takes out.old out.new (named_line (all_files names.now) (wanted_names wanted.now) position (file_module «module».now)) }
{
    match mentions_any(wanted, module.parts) {
        true => module_line(out, names, position, module),
        false => {}
    }
}

impl<'a> Mentions<'a> {
    // The lines of the mentions, one name after another.
    fn all_lines<K: Output>(&self, out: &mut K)
        ensures { K.takes out.old out.new (flat_map (name_lines (parts_of self.now.flat.now)) (wanted_names self.now.wanted)) }
    {
        for place in 0..self.wanted.names.len() {
            let name = self.wanted.names[place];
            mention_lines(out, name, self.mentions[place].as_slice());
        }
    }

    // The lines of the modules that mention one of the names.
    fn module_lines<K: Output>(&self, out: &mut K, names: &ModuleFiles)
        ensures { K.takes out.old out.new (each (named_line (all_files names.now) (wanted_names self.now.wanted)) (flat_of self.now.flat.now)) }
    {
        for position in 0..self.flat.len() {
            named_line(out, names, &self.wanted, position, &self.flat[position]);
        }
    }

    /// Puts the lines of the mentions, and those of the modules that contain them.
    pub(crate) fn put<K: Output>(&self, out: &mut K, names: &ModuleFiles)
        ensures { K.takes out.old out.new (mention_text (all_files names.now) (flat_of self.now.flat.now) (wanted_names self.now.wanted)) }
    {
        self.all_lines(out);
        self.module_lines(out, names);
    }
}
