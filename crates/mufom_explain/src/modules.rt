//! The modules of a flat list, with the files that they were read from.

ghost use Rattle.std.specs.Prelude.{◌≡◌, ◌++◌};
ghost use Rattle.mufom_explain.specs.Flat.{file_module};
ghost use Rattle.mufom_explain.specs.Lines.{module_line};
ghost use Rattle.mufom_origins.specs.Words.{all_files};

use mufom_module::Parts;
use mufom_origins::{ModuleFiles, module_text};
use mufom_text::Output;

/// A module of a flat list, with its place among all modules that were read.
#[derive(Clone, Copy)]
pub struct FlatModule<'a> {
    pub place: u32,
    pub parts: &'a Parts,
}

/// The line of a module.
pub(crate) fn module_line<K: Output>(
    out: &mut K,
    names: &ModuleFiles,
    position: usize,
    module: &FlatModule<'_>,
)
    ensures { K.takes out.old out.new (module_line (all_files names.now) position (file_module «module».now)) }
{
    module_text(out, names, position, module.place, &module.parts.name);
    out.put(b"\n");
}
