//! A module can be read back from its file.

ghost use Rattle.std.specs.Prelude.{◌≤◌, length};
ghost use Rattle.mufom_numbers.specs.declared.limits.TheConstants.{MOST_FILE_BYTES};
ghost use Rattle.mufom_module.specs.Written.{written};
ghost use Rattle.mufom_headline.specs.ReadBack.{IsReadBack};

use mufom_module::Module;

/// A later run reads exactly this module from the file of this module, if the file is not too long. Does
/// nothing at run time.
pub fn written_module_is_read_back(module: &Module)
    ensures { length (written «module».now) ≤ MOST_FILE_BYTES → IsReadBack «module».now }
{
    let _parts = module.parts();
}
