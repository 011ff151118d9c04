//! Explains the error of a name that should be kept and that no module defines.

ghost use Rattle.std.specs.Prelude.{◌≡◌, ◌<◌, ◌^◌, IfOk, length};
ghost use Rattle.mufom_explain.specs.Details.{name_details};
ghost use Rattle.mufom_explain.specs.Explained.{name_text};
ghost use Rattle.mufom_explain.specs.Flat.{flat_of};
ghost use Rattle.mufom_origins.specs.Words.{all_files};

use crate::details::NameDetails;
use crate::finding::find_mentions;
use crate::modules::FlatModule;
use crate::naming::one_name;
use mufom_numbers::NoMemory;
use mufom_origins::ModuleFiles;
use mufom_text::{Lines, Output};
use std::alloc::Global;

impl<'a> Lines for NameDetails<'a> {
    ghost use Rattle.mufom_explain.specs.Explained.{name_text};

    ghost text = { λ details. name_text details };

    fn put_lines<K: Output>(&self, out: &mut K) {
        self.mentions.put(out, self.names);
    }
}

/// Returns the lines that follow the error line of a name that should be kept and that no module of the flat
/// list defines: the modules that refer to it. `names` are the files of all modules that were read. The
/// time is proportional to the number of names in the modules, and the memory to the number of mentions. The
/// only error is out of memory.
pub fn explain_name<'a>(
    alloc: Global,
    names: &'a ModuleFiles,
    flat: &'a [FlatModule<'a>],
    name: &'a [u8],
) -> Result<NameDetails<'a>, NoMemory>
    requires { length flat.now < 2 ^ 32 }
    ensures { IfOk result (λ details. name_text details ≡ name_details (all_files names.now) (flat_of flat.now) name.now) }
{
    let wanted = one_name(alloc, name)?;
    let mentions = find_mentions(alloc, wanted, flat)?;
    Ok(NameDetails { names, mentions })
}
