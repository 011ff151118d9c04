//! Writes the file of a module, of a raw image, or of a TI-TXT text.

ghost use Rattle.std.specs.Prelude.{flat_map, All, OnErr, OnOk};
ghost use Rattle.mufom_host.specs.World.{MakingGrowsBy, MakingGrowsByPrefix, OnlyWrites, Rose};
ghost use Rattle.mufom_module.specs.Written.{written};
ghost use Rattle.mufom_task.specs.Calls.{call_of};
ghost use Rattle.mufom_command.specs.TextLines.{HasByte, run_lines};
ghost use Rattle.mufom_works.specs.Making.{IsMadeAlone};
ghost use Rattle.mufom_text.specs.Fitting.{FitsIn};
ghost use Rattle.mufom_titxt.specs.Written.{txt_text};
ghost use Rattle.mufom_meaning.specs.AddressMap.{AreApart};
ghost use Rattle.mufom_write.specs.Range.{range_image};
ghost use Rattle.mufom_write.specs.Raw.{raw_image};
ghost use Rattle.mufom_write.specs.Writing.{Writes};

use mufom_host::{Failed, Host, Sink};
use mufom_meaning::Run;
use mufom_module::Module;
use mufom_outcome::Outcome;
use mufom_titxt::{write_end, write_run};
use mufom_write::{write_module, write_range, write_raw};

/// Writes the module to a file with this name. Returns the outcome, whose error line is not printed yet.
pub(crate) fn make_file<H: Host>(name: &str, module: &Module, host: &mut H) -> Outcome
    ensures { IsMadeAlone name.now (written «module».now) (call_of H.meaning H.faults host.old host.new) result }
{
    let Ok(()) = host.create(name) else {
        return Outcome::WriteFault;
    };
    let Ok(()) = write_module(module, host) else {
        return Outcome::WriteFault;
    };
    match host.finish() {
        Ok(()) => Outcome::Done,
        Err(Failed) => Outcome::WriteFault,
    }
}

/// Writes the raw image of the runs to a file with this name. Returns the outcome, whose error line is not
/// printed yet.
pub(crate) fn make_raw_file<H: Host>(name: &str, runs: &[Run], fill: u8, host: &mut H) -> Outcome
    ensures { IsMadeAlone name.now (raw_image fill runs.now) (call_of H.meaning H.faults host.old host.new) result }
{
    let Ok(()) = host.create(name) else {
        return Outcome::WriteFault;
    };
    let Ok(()) = write_raw(runs, fill, host) else {
        return Outcome::WriteFault;
    };
    let finished = host.finish();
    match finished {
        Ok(()) => Outcome::Done,
        Err(Failed) => Outcome::WriteFault,
    }
}

/// Writes one byte for each of `count` addresses, from `from` on, to a file with this name: the byte of the runs,
/// or `fill`. Returns the outcome, whose error line is not printed yet.
pub(crate) fn make_range_file<H: Host>(
    name: &str,
    runs: &[Run],
    fill: u8,
    from: u64,
    count: u64,
    host: &mut H,
) -> Outcome
    requires { AreApart 0 runs.now }
    ensures { IsMadeAlone name.now (range_image fill from count runs.now) (call_of H.meaning H.faults host.old host.new) result }
{
    let Ok(()) = host.create(name) else {
        return Outcome::WriteFault;
    };
    let Ok(()) = write_range(runs, fill, from, count, host) else {
        return Outcome::WriteFault;
    };
    let finished = host.finish();
    match finished {
        Ok(()) => Outcome::Done,
        Err(Failed) => Outcome::WriteFault,
    }
}

// Writes the lines of runs to the file that is being written.
fn write_runs<K: Sink>(runs: &[Run], sink: &mut K) -> Result<(), Failed>
    requires some { All HasByte runs.now }
    requires within { All FitsIn runs.now }
    ensures { Writes (K.meaning sink.old) (K.meaning sink.new) (K.faults sink.old) (K.faults sink.new) (flat_map run_lines runs.now) result }
{
    for run in runs {
        if let Err(Failed) = write_run(run.address, run.bytes.as_slice(), sink) {
            return Err(Failed);
        }
    }
    Ok(())
}

// Writes the TI-TXT text of runs to the file that is being written. Does not allocate.
fn write_txt<K: Sink>(runs: &[Run], sink: &mut K) -> Result<(), Failed>
    requires some { All HasByte runs.now }
    requires within { All FitsIn runs.now }
    ensures whole { OnOk result (MakingGrowsBy (K.meaning sink.old).making (K.meaning sink.new).making (txt_text runs.now)) }
    ensures prefix { OnErr result (MakingGrowsByPrefix (K.meaning sink.old).making (K.meaning sink.new).making (txt_text runs.now)) }
    ensures only { OnlyWrites (K.meaning sink.old) (K.meaning sink.new) (K.faults sink.old) (K.faults sink.new) }
    ensures cause { OnErr result (Rose (K.faults sink.old).writes (K.faults sink.new).writes) }
{
    if let Err(Failed) = write_runs(runs, sink) {
        return Err(Failed);
    }
    write_end(sink)
}

/// Writes the TI-TXT text of the runs to a file with this name. Returns the outcome, whose error line is not
/// printed yet.
pub(crate) fn make_text_file<H: Host>(name: &str, runs: &[Run], host: &mut H) -> Outcome
    requires some { All HasByte runs.now }
    requires within { All FitsIn runs.now }
    ensures { IsMadeAlone name.now (txt_text runs.now) (call_of H.meaning H.faults host.old host.new) result }
{
    let Ok(()) = host.create(name) else {
        return Outcome::WriteFault;
    };
    let Ok(()) = write_txt(runs, host) else {
        return Outcome::WriteFault;
    };
    let finished = host.finish();
    match finished {
        Ok(()) => Outcome::Done,
        Err(Failed) => Outcome::WriteFault,
    }
}
