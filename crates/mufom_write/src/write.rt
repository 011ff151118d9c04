//! Writing the file of a module.

ghost use Rattle.std.specs.Prelude.{◌≡◌, ◌≤◌, [], Bool, true, length, OnOk, OnErr};
ghost use Rattle.mufom_host.specs.World.{MakingGrowsBy, MakingGrowsByPrefix, OnlyWrites, Rose};
ghost use Rattle.mufom_module.specs.Written.{written};
ghost use Rattle.mufom_write.specs.Writing.{Writes};
ghost use Rattle.mufom_module.specs.Defects.{IsValid};
ghost use Rattle.mufom_module.specs.Grammar.{file_limit, SpellsModule};

use crate::held::Held;
use crate::measure::layout_of;
use crate::output::Output;
use crate::parts::{all_parts, module_begin, offset_records};
use mufom_host::{Failed, Sink};
use mufom_module::{Module, Parts};
use mufom_numbers::codes;
use thiserror::Error;

/// The error of writing a module.
#[derive(Clone, Copy, Debug, PartialEq, Eq, Error)]
pub enum WriteStop {
    /// A write failed, and was counted.
    #[error("a write failed")]
    Fault,
}

// The whole file, with ME at its end.
fn write_form<K: Output>(out: &mut K, parts: &Parts) -> Result<(), Failed>
    requires { IsValid parts.now }
    ensures { K.takes out.old out.new (written parts.now) result }
{
    let layout = layout_of(parts);
    module_begin(out, parts)?;
    offset_records(out, &layout.offsets)?;
    all_parts(out, parts)?;
    out.record(&[codes::MODULE_END])
}

// Writes the whole file through an empty buffer, and flushes the buffer.
fn write_through<K: Sink>(held: &mut Held<K>, parts: &Parts) -> Result<(), Failed>
    requires valid { IsValid parts.now }
    requires empty { held.old.block ≡ [] }
    ensures same { held.new.sink.ghost_name ≡ held.old.sink.ghost_name }
    ensures writes { Writes (K.meaning held.old.sink.now) (K.meaning held.new.sink.now) (K.faults held.old.sink.now)
        (K.faults held.new.sink.now) (written parts.now) result }
{
    write_form(held, parts)?;
    held.flush()
}

// The whole file, record by record.
fn write_held<K: Sink>(sink: &mut K, parts: &Parts) -> Result<(), Failed>
    requires { IsValid parts.now }
    ensures { Writes (K.meaning sink.old) (K.meaning sink.new) (K.faults sink.old) (K.faults sink.new) (written parts.now) result }
{
    let mut held = Held::new(sink);
    let answer = write_through(&mut held, parts);
    let _sink = held.into_sink();
    answer
}

/// Writes the written form of the module to the file being made. Does not allocate.
///
/// The sink gets whole records, at least 64 bytes in each write but the last. A record that is longer than
/// 65,536 bytes takes several writes. The contract does not state this.
///
/// If the written form is no longer than a file may be, it is a file of this module. `Fault` is returned
/// only if a write failed and the count of failed writes rose; a prefix of the written form may then be
/// in the file.
pub fn write_module<K: Sink>(module: &Module, sink: &mut K) -> Result<(), WriteStop>

    // The file grows by the written form or, after an error, by a prefix of it.
    ensures whole { OnOk result (MakingGrowsBy (K.meaning sink.old).making (K.meaning sink.new).making (written «module».now)) }
    ensures prefix { OnErr result (MakingGrowsByPrefix (K.meaning sink.old).making (K.meaning sink.new).making (written «module».now)) }
    // The written form is a file of the module, with and without the forms of GNU binutils.
    ensures spells { length (written «module».now) ≤ file_limit → (gnu : Bool)
        → SpellsModule «module».now (written «module».now) (record { debug = true; gnu = gnu }) }
    // Nothing changes except the file being made and the count of failed writes, which rises on an error.
    ensures only { OnlyWrites (K.meaning sink.old) (K.meaning sink.new) (K.faults sink.old) (K.faults sink.new) }
    ensures cause { OnErr result (Rose (K.faults sink.old).writes (K.faults sink.new).writes) }
{
    match write_held(sink, module.parts()) {
        Ok(()) => Ok(()),
        Err(Failed) => Err(WriteStop::Fault),
    }
}
