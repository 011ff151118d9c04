//! A law about the host in memory: the contract of a function with an empty body.

ghost use Rattle.std.specs.Prelude.{◌≡◌, ℕ, false, List, []};
ghost use Rattle.mufom_host.specs.World.{NamedFile};
ghost use Rattle.mufom_host.specs.Memory.{fresh};
ghost use Rattle.mufom_host.specs.Script.{Call, IsModest, after_calls};

/// A host in memory with empty lists of failing calls counts no errors, as long as only existing files
/// are opened, all bytes and names fit in the room, and at most one file is made.
pub fn modest_calls_never_fail()
    ensures { (files : List NamedFile) (room : ℕ) (calls : List Call) → IsModest files room calls
        → (after_calls (fresh files [] [] room) calls).faults ≡ record { reads = 0; writes = 0; complaints = 0; input_failed = false } }
{}
