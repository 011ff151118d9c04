//! Reads the text of a task that reads no modules.

ghost use Rattle.std.specs.Prelude.{◌≡◌, ◌≤◌, ◌∷◌, [], length, None, IfErr, IfOk, IfSome, OnSome};
ghost use Rattle.mufom_host.specs.World.{GrowsBy, OnlyOpens};
ghost use Rattle.mufom_numbers.specs.declared.limits.TheConstants.{MOST_FILE_BYTES as most};
ghost use Rattle.mufom_groups.specs.Work.{gives};
ghost use Rattle.mufom_task.specs.Calls.{call_of, OpensInputs};
ghost use Rattle.mufom_task.specs.InputsRead.{NamesPlan, TextStop, TextStops};
ghost use Rattle.mufom_task.specs.Reading.{text_in};
ghost use Rattle.mufom_task.specs.Tasks.{input_names};

use crate::task::Inputs;
use crate::whole_file::read_whole;
use mufom_host::Host;
use mufom_numbers::limits::MOST_FILE_BYTES;
use mufom_outcome::{Input, Outcome, Refusal};
use std::alloc::Global;

// The name of the only file of a task.
fn only_file(inputs: &Inputs) -> &str
    requires { length inputs.now.files ≡ 1 }
    ensures { inputs.now.files ≡ result.now ∷ [] }
{
    inputs.files.as_slice()[0].as_str()
}

// Reads the bytes of the text with this name, or returns the outcome of the run if they cannot be read or
// are too many.
fn read_named<H: Host>(alloc: Global, name: &str, host: &mut H) -> Result<Vec<u8>, Outcome>
    ensures text { IfOk result (λ bytes. IfSome (H.meaning host.old).files (λ files. text_in files (name.now ∷ []) (gives bytes.items))) }
    ensures short { IfOk result (λ bytes. length bytes.items ≤ most) }
    ensures stops { IfErr result (λ stop. TextStops name.now (call_of H.meaning H.faults host.old host.new) stop) }
    ensures opens { IfOk result (λ bytes. GrowsBy (H.meaning host.old).opened (H.meaning host.new).opened (name.now ∷ [])) }
    ensures opened { OnSome (H.meaning host.new).opened (GrowsBy (H.meaning host.old).opened (H.meaning host.new).opened (name.now ∷ [])) }
    ensures only { OnlyOpens (H.meaning host.old) (H.meaning host.new) (H.faults host.old) (H.faults host.new) }
{
    match read_whole(alloc, name, Input::File(0), MOST_FILE_BYTES, host) {
        Ok(bytes) if bytes.len() > MOST_FILE_BYTES => {
            Err(Outcome::Refused(Refusal::InputLimit(0)))
        }
        Ok(bytes) => Ok(bytes),
        Err(stop) => Err(stop),
    }
}

/// Reads the one file of a task as a text. Returns the outcome of the run if it cannot be read, is too long,
/// or memory runs out.
pub fn read_text<H: Host>(alloc: Global, inputs: &Inputs, host: &mut H) -> Result<Vec<u8>, Outcome>
    requires no_plan { inputs.now.plan ≡ None }
    requires one { length inputs.now.files ≡ 1 }
    ensures read { IfOk result (λ bytes. IfSome (H.meaning host.old).files (λ files. text_in files inputs.now.files (gives bytes.items))) }
    ensures short { IfOk result (λ bytes. length bytes.items ≤ most) }
    ensures all { IfOk result (λ bytes. GrowsBy (H.meaning host.old).opened (H.meaning host.new).opened (input_names inputs.now)) }
    ensures stops { IfErr result (λ stop. TextStop inputs.now (call_of H.meaning H.faults host.old host.new) stop) }
    ensures named { IfErr result (NamesPlan inputs.now.plan) }
    ensures opened { IfErr result (λ stop. OpensInputs inputs.now (call_of H.meaning H.faults host.old host.new) stop) }
    ensures only { OnlyOpens (H.meaning host.old) (H.meaning host.new) (H.faults host.old) (H.faults host.new) }
{
    match read_named(alloc, only_file(inputs), host) {
        Ok(bytes) => Ok(bytes),
        Err(stop) => Err(stop),
    }
}
