//! What is written of a module is read back.

ghost use Rattle.std.specs.Prelude.{◌≡◌, ◌≢◌, ◌≤◌, true, length, Ok, Err};
ghost use Rattle.mufom_module.specs.Written.{written};
ghost use Rattle.mufom_module.specs.Grammar.{file_limit};
ghost use Rattle.mufom_read.specs.Reader.{HasRead, options_of};

use mufom_module::{Module, a_module_is_valid};
use mufom_read::{ReadStop, Reader};

/// The answer of a reader that has read, in chunks of any size, what `mufom_write::write_module` writes
/// of a module: that module, unless memory runs out. The written form is no longer than a file may be.
pub fn read_back(reader: Reader, module: &Module) -> Result<Module, ReadStop>
    requires debug { (options_of reader).debug ≡ true }
    requires read { HasRead reader (written «module».now) }
    requires short { length (written «module».now) ≤ file_limit }
    ensures { result ≢ Err ReadStop.NoMemory → result ≡ Ok «module».now }
{
    a_module_is_valid(module);
    reader.finish()
}
