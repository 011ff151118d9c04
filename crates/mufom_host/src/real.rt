//! The host of the program: files, standard output and standard error of the system.

ghost use Rattle.std.specs.Prelude.{◌≡◌, false};

use crate::counts::Counts;
use crate::streams::{Making, NotWritten, cause_of, pass_on, take_from};
use crate::{Cause, Failed, Host, Sink, Source, World};
use std::fs;
use std::fs::File;
use std::marker::Model;

/// The host of the files and standard streams of the process. It reveals no content.
///
/// [`print`](Host::print) and [`complain`](Host::complain) pass their whole text on to the system before
/// they return, so that nothing is left to print when the program ends: give them large chunks.
/// [`write`](Sink::write) gathers bytes and passes them on in blocks of up to 65,536 bytes, and
/// [`finish`](Host::finish) passes on the last one. So the failure of a block may be reported by a later call
/// than the one that wrote its bytes, at the latest by `finish`. The file then keeps a prefix of what was
/// written, and can't be finished any more. Each call that returns [`Failed`] is counted as an error.
///
/// How bytes reach a file or a stream, and how they are read, is proved over any writer and reader whose
/// contents are known (`streams.rt`). What is trusted is that the system's files and streams are such writers
/// and readers, and that the calls below use the file that they name.
#[derive(Drop)]
pub struct RealHost {
    rt: HostRuntime,
    input: Option<File>,
    output: Option<Making<File>>,
    counts: Counts,
    cause: Cause,
}

impl Model for RealHost {
    ghost use Rattle.mufom_host.specs.World.{Faults};
    ghost use Rattle.mufom_host.specs.Counts.{faults_of};

    ghost Value = { Faults };

    ghost view = { λ host. faults_of host.counts };
}

impl World for RealHost {
    ghost use Rattle.std.specs.Prelude.{refl};
    ghost use Rattle.mufom_host.specs.Real.{reveals_nothing};

    ghost meaning = { λ host. reveals_nothing };

    ghost faults = { λ host. host };

    ghost together = { λ host. record { left = λ known. known; making = λ known. known; bytes = tt } };
}

impl RealHost {
    /// A host that has opened no file and counted no errors, over main's access to the system.
    pub fn new(rt: HostRuntime) -> RealHost
        ensures { result ≡ record { reads = 0; writes = 0; complaints = 0; input_failed = false } }
    {
        RealHost {
            rt,
            input: None,
            output: None,
            counts: Counts::none(),
            cause: Cause::Unknown,
        }
    }
}

impl Source for RealHost {
    fn read(&mut self, buffer: &mut [u8]) -> Result<usize, Failed> {
        let Some(file) = &mut self.input else {
            return Ok(0);
        };
        match take_from(file, buffer) {
            Ok(count) => Ok(count),
            Err(cause) => {
                self.cause = cause;
                Err(self.counts.read_failed())
            }
        }
    }
}

impl Sink for RealHost {
    fn write(&mut self, chunk: &[u8]) -> Result<usize, Failed> {
        let Some(making) = &mut self.output else {
            return Ok(chunk.len());
        };
        match making.write(chunk) {
            Ok(()) => Ok(chunk.len()),
            Err(NotWritten) => Err(self.counts.write_failed()),
        }
    }
}

impl Host for RealHost {
    fn open(&mut self, name: &str) -> Result<(), Failed> {
        match fs::open(&self.rt, name) {
            Ok(file) => {
                self.input = Some(file);
                self.counts.input_opened();
                Ok(())
            }
            Err(error) => {
                self.cause = cause_of(&error);
                Err(self.counts.read_failed())
            }
        }
    }

    /// Empties the file if it exists already.
    fn create(&mut self, name: &str) -> Result<(), Failed> {
        let Ok(file) = fs::create(&self.rt, name) else {
            return Err(self.counts.write_failed());
        };
        self.output = Some(Making::new(file));
        Ok(())
    }

    fn finish(&mut self) -> Result<(), Failed> {
        let Some(making) = &mut self.output else {
            return Ok(());
        };
        if making.flush().is_err() {
            return Err(self.counts.write_failed());
        }
        self.output = None;
        Ok(())
    }

    fn print(&mut self, text: &[u8]) -> Result<(), Failed> {
        match pass_on(&mut self.rt.stdout(), text) {
            Ok(()) => Ok(()),
            Err(NotWritten) => Err(self.counts.write_failed()),
        }
    }

    fn complain(&mut self, text: &[u8]) -> Result<(), Failed> {
        match pass_on(&mut self.rt.stderr(), text) {
            Ok(()) => Ok(()),
            Err(NotWritten) => Err(self.counts.complaint_failed()),
        }
    }

    fn cause(&self) -> Cause {
        self.cause
    }
}
