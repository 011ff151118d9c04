//! Gathers the modules of an archive, entry by entry.

ghost use Rattle.std.specs.Prelude.{◌≡◌, ◌+◌, ◌≤◌, ℕ, List, [], ◌++◌, is_some, Some, None, IfOk, OnOk};
ghost use Rattle.mufom_module.specs.Grammar.{file_limit};
ghost use Rattle.mufom_read.specs.declared.refusal.ReadStop.{ReadStop};
ghost use Rattle.mufom_members.specs.Reading.{HasTaken, IsMoved, IsOpen, IsOpenAt, IsSmall};

use mufom_archive::Entry;
use mufom_module::Module;
use mufom_numbers::{List, NoMemory};
use mufom_read::{ReadOptions, ReadRefusal, ReadStop, Reader};
use std::alloc::Global;

/// The modules of an archive so far.
#[derive(Drop)]
pub(crate) struct Gathered {
    alloc: Global,
    pub(crate) options: ReadOptions,
    /// The modules of the members whose contents are complete.
    pub(crate) modules: List<Module>,
    /// The reader of a member whose contents have begun and are not complete.
    pub(crate) reader: Option<Reader>,
    /// The error of the first member that is refused. No module is added after it.
    pub(crate) refusal: Option<ReadRefusal>,
}

impl Gathered {
    /// No modules yet.
    pub(crate) fn new(alloc: Global, options: ReadOptions) -> Gathered
        ensures options { result.options ≡ options }
        ensures modules { result.modules ≡ [] }
        ensures reader { result.reader ≡ None }
        ensures refusal { result.refusal ≡ None }
    {
        Gathered {
            alloc,
            options,
            modules: List::new(alloc),
            reader: None,
            refusal: None,
        }
    }

    /// The modules, and the error of the first member that is refused, if one is.
    pub(crate) fn into_parts(self) -> (List<Module>, Option<ReadRefusal>)
        ensures modules { result.0 ≡ self.modules }
        ensures refusal { result.1 ≡ self.refusal }
    {
        let Gathered {
            alloc: _,
            options: _,
            modules,
            reader: _,
            refusal,
        } = self;
        (modules, refusal)
    }

    /// Whether a member was refused.
    pub(crate) fn has_refused(&self) -> bool
        ensures { result ≡ is_some self.now.refusal }
    {
        self.refusal.is_some()
    }

    // The reader of contents that have begun, or a new one.
    fn begin(&mut self) -> Result<Reader, NoMemory>
        ensures begun { IfOk result (λ reader. (contents : List ℕ) → IsOpen self.old.options self.old.reader contents
            → IsOpen self.old.options (Some reader) contents) }
        ensures reader { self.new.reader ≡ None }
        ensures options { self.new.options ≡ self.old.options }
        ensures modules { self.new.modules ≡ self.old.modules }
        ensures refusal { self.new.refusal ≡ self.old.refusal }
    {
        match self.reader.take() {
            Some(reader) => Ok(reader),
            None => Reader::new(self.alloc, self.options),
        }
    }

    // Takes the error of a member, or returns that memory ran out.
    fn refuse(&mut self, start: u64, stop: ReadStop) -> Result<(), NoMemory>
        requires start { start ≤ file_limit }
        requires small { IsSmall stop }
        ensures refusal { OnOk result (IsMoved start stop self.new.refusal) }
        ensures options { self.new.options ≡ self.old.options }
        ensures modules { self.new.modules ≡ self.old.modules }
    {
        match stop {
            ReadStop::NoMemory => Err(NoMemory),
            ReadStop::Refused(refusal) => {
                self.refusal = Some(ReadRefusal {
                    offset: start + refusal.offset,
                    reason: refusal.reason,
                });
                Ok(())
            }
        }
    }

    /// Reads further contents of an entry, which may complete them. Nothing is read of a table.
    pub(crate) fn take(
        &mut self,
        entry: &Entry,
        part: &[u8],
        complete: bool,
    ) -> Result<(), NoMemory>
        requires sound { self.old.refusal ≡ None }
        requires start { entry.now.start ≤ file_limit }
        requires begun { (contents : List ℕ) × IsOpenAt self.old.options self.old.reader entry.now contents }
        ensures taken { OnOk result ((contents : List ℕ) → IsOpenAt self.old.options self.old.reader entry.now contents
            → HasTaken self.old.options entry.now (contents ++ part.now) complete self.old.modules self.new.modules self.new.reader
            self.new.refusal) }
        ensures options { self.new.options ≡ self.old.options }
    {
        if !entry.is_member() {
            return Ok(());
        }
        let mut reader = self.begin()?;
        match reader.feed(part) {
            Ok(()) => {}
            Err(stop) => return self.refuse(entry.start, stop),
        }
        if !complete {
            self.reader = Some(reader);
            return Ok(());
        }
        match reader.finish() {
            Ok(module) => {
                self.modules.push(module)?;
                Ok(())
            }
            Err(stop) => self.refuse(entry.start, stop),
        }
    }
}
