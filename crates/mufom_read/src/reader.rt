//! Reads a module from a stream that arrives in chunks.

ghost use Rattle.std.specs.Prelude.{◌≡◌, ◌≢◌, ◌↔◌, ◌<◌, ◌≤◌, ◌*◌, ℕ, List, [], ◌++◌, length, Some, None, Ok, Err, IsSome, IfSome, IfOk};
ghost use Rattle.mufom_numbers.specs.declared.reason.Reason.{Reason};
ghost use Rattle.mufom_module.specs.declared.module.Parts.{Parts};
ghost use Rattle.mufom_module.specs.Written.{weight};
ghost use Rattle.mufom_judging.specs.Judging.{IsRefusedAt, IsPending, IsModule, IsJudged, refusal};
ghost use Rattle.mufom_read.specs.Reader.{HasRead, reader_stop, options_of, answer_of};

use crate::build::module_of;
use crate::prefix::Prefix;
use crate::refusal::ReadStop;
use crate::state::{State, refused};
use mufom_module::Module;
use mufom_numbers::{NoMemory, Reason};
use mufom_records::ReadOptions;
use std::alloc::Global;
use std::marker::Model;

/// Reads a module from bytes that arrive in chunks. How the bytes are cut into chunks makes no difference.
/// In contracts its value is the state that it keeps.
#[derive(Debug)]
pub struct Reader {
    state: State,
}

impl Model for Reader {
    ghost use Rattle.std.specs.Prelude.{ℕ, List};
    ghost use Rattle.mufom_read.specs.declared.state.State.{State};
    ghost use Rattle.mufom_read.specs.Reader.{HasRead};

    ghost Value = { State };

    ghost use Rattle.std.specs.Coded.{codes};
    ghost use Rattle.mufom_expr.specs.TreeCode.{tree_code};
    ghost use Rattle.mufom_debug.specs.contracts.item.DebugItem as debug_item;

    ghost coded = { Prim.hlevel (codes, tree_code, debug_item.the_row.coded) };

    ghost view = { λ r. r.state };

    // There is a stream that it has read.
    ghost invariant = { λ r. (stream : List ℕ) × HasRead r.state stream };
}

// Written out so that the code that drops a reader makes a single call: see "Drops" in docs/ARCHITECTURE.md.
impl Drop for Reader {
    fn drop(self) {
        let Reader { state: _ } = self;
    }
}

impl Reader {
    /// A reader that has read nothing yet, and that reads with these options.
    pub fn new(alloc: Global, options: ReadOptions) -> Result<Reader, NoMemory>
        ensures read { IfOk result (λ reader. HasRead reader []) }
        ensures options { IfOk result (λ reader. options_of reader ≡ options) }
        ensures stop { IfOk result (λ reader. reader_stop reader ≡ None) }
    {
        Ok(Reader {
            state: State {
                alloc,
                options,
                prefix: Prefix::new(alloc),
                rest: Vec::new(alloc),
                stop: None,
            },
        })
    }

    /// Reads the next chunk of the stream. Unless memory runs out, returns `Refused` if and only if the
    /// stream so far contains an error. After an error every further call returns the same error.
    pub fn feed(&mut self, chunk: &[u8]) -> Result<(), ReadStop>
        // The reader has then read this chunk too.
        ensures read { (stream : List ℕ) → HasRead self.old stream → HasRead self.new (stream ++ chunk.now) }
        // It returns the error that stopped the reader, if one did.
        ensures answer { result ≡ answer_of (reader_stop self.new) }
        // A reader that was stopped before does not change.
        ensures stays { IsSome (reader_stop self.old) → self.new ≡ self.old }
        ensures options { options_of self.new ≡ options_of self.old }
        // It returns exactly the first error in the stream so far, unless memory ran out.
        ensures refused { (offset : ℕ) (reason : Reason) (stream : List ℕ) → HasRead self.old stream → reader_stop self.new ≢ Some ReadStop.NoMemory
            → (result ≡ Err (ReadStop.Refused (record { offset = offset; reason = reason }))) ↔ IsRefusedAt (options_of self.old)
            (stream ++ chunk.now) offset reason }
    {
        match self.state.stop {
            None => self.state.read_on(chunk),
            Some(stop) => Err(stop),
        }
    }

    /// The module of the whole stream, or why there is none: `Truncated` if the stream ends too early.
    pub fn finish(self) -> Result<Module, ReadStop>
        ensures stopped { IfSome (reader_stop self) (λ stop. result ≡ Err stop) }
        ensures ok { (stream : List ℕ) → HasRead self stream → IfOk result (λ m. IsModule (options_of self) stream m) }
        // The module's weight is at most ten times the length of the stream.
        ensures weighs { (stream : List ℕ) → HasRead self stream → IfOk result (λ m. weight m ≤ 10 * length stream) }
        // The file of a module is read successfully, unless memory runs out.
        ensures module { (stream : List ℕ) (m : Parts) → HasRead self stream → IsModule (options_of self) stream m
            → result ≢ Err ReadStop.NoMemory → result ≡ Ok m }
        ensures refused { (offset : ℕ) (reason : Reason) (stream : List ℕ) → HasRead self stream → result ≢ Err ReadStop.NoMemory
            → (result ≡ Err (ReadStop.Refused (record { offset = offset; reason = reason }))) ↔ IsJudged (options_of self) stream
            (refusal offset reason) }
    {
        let Reader { state } = self;
        if let Some(stop) = state.stop {
            return Err(stop);
        }
        if !state.prefix.is_ended() {
            return Err(refused(state.len(), Reason::Truncated));
        }
        match module_of(state.into_prefix()) {
            Ok(module) => Ok(module),
            Err(NoMemory) => Err(ReadStop::NoMemory),
        }
    }

    /// The number of bytes that wait for the rest of their record. Does not allocate.
    pub fn pending(&self) -> usize
        ensures exact { (stream : List ℕ) → HasRead self.now stream → reader_stop self.now ≡ None
            → IsPending (options_of self.now) stream result }
        // Fewer than the longest record has: an MB with two strings of 65,535 bytes.
        ensures small { reader_stop self.now ≡ None → result < 131077 }
    {
        self.state.rest.as_slice().len()
    }
}
