//! The texts of a module.

ghost use Rattle.std.specs.Prelude.{◌≡◌, Err, IfOk, OnOk};
ghost use Rattle.mufom_host.specs.World.{GrowsBy, GrowsByPrefix, OnlyPrints, Rose};
ghost use Rattle.mufom_module.specs.Defects.{IsValid};
ghost use Rattle.mufom_text.specs.Show.{module_text, text_of};

use crate::debug::debug_items;
use crate::form::TextForm;
use crate::gathered::Gathered;
use crate::loads::{loads, start};
use crate::names::{publics, references};
use crate::output::Output;
use crate::print::{Lines, PrintStop, print_lines};
use crate::sections::{module_line, raw_line, section_lines};
use mufom_host::Host;
use mufom_module::{Module, Parts};
use mufom_numbers::{Bytes, NoMemory};
use std::alloc::Global;

// All lines of a module.
fn module_text<K: Output>(out: &mut K, form: TextForm, parts: &Parts)
    requires { IsValid parts.now }
    ensures { K.takes out.old out.new (text_of form parts.now) }
{
    module_line(out, parts);
    raw_line(out, form, b"extension", parts.ext.as_slice());
    raw_line(out, form, b"environment", parts.env.as_slice());
    section_lines(out, parts.sections.as_slice());
    publics(out, parts.names.publics.as_slice());
    references(out, parts.names.references.as_slice());
    let mut names = 0;
    debug_items(out, 0, parts.debug.as_slice(), &mut names);
    loads(out, form, parts.loads.as_slice());
    start(out, &parts.start);
}

// A module, with the form in which it is printed.
#[derive(Drop)]
struct ModuleText<'a> {
    form: TextForm,
    parts: &'a Parts,
    ghost valid: { IsValid parts.now },
}

impl<'a> Lines for ModuleText<'a> {
    ghost use Rattle.mufom_text.specs.Show.{text_of};

    ghost text = { λ lines. text_of lines.form lines.parts.now };

    fn put_lines<K: Output>(&self, out: &mut K) {
        module_text(out, self.form, self.parts);
    }
}

/// Prints a text of the module, in chunks of about 65,536 bytes, the last of which may be shorter.
///
/// `NoMemory` is returned before anything is printed. `Fault` is returned only if a print failed
/// and the host's count of failed writes rose; a prefix of the text may then be printed.
pub fn print_text<H: Host>(
    alloc: Global,
    host: &mut H,
    form: TextForm,
    module: &Module,
) -> Result<(), PrintStop>
    ensures done { OnOk result (GrowsBy (H.meaning host.old).out (H.meaning host.new).out (text_of form «module».now)) }
    ensures fault { result ≡ Err PrintStop.Fault
        → GrowsByPrefix (H.meaning host.old).out (H.meaning host.new).out (text_of form «module».now)
        × Rose (H.faults host.old).writes (H.faults host.new).writes }
    ensures unmade { result ≡ Err PrintStop.NoMemory → (H.meaning host.new).out ≡ (H.meaning host.old).out }
    ensures only { OnlyPrints (H.meaning host.old) (H.meaning host.new) (H.faults host.old) (H.faults host.new) }
{
    let lines = ModuleText {
        form,
        parts: module.parts(),
    };
    print_lines(alloc, host, &lines)
}

/// Prints the summary of the module, in chunks of about 65,536 bytes, the last of which may be shorter.
///
/// `NoMemory` is returned before anything is printed. `Fault` is returned only if a print failed
/// and the host's count of failed writes rose; a prefix of the text may then be printed.
pub fn print_module<H: Host>(alloc: Global, host: &mut H, module: &Module) -> Result<(), PrintStop>
    ensures done { OnOk result (GrowsBy (H.meaning host.old).out (H.meaning host.new).out (module_text «module».now)) }
    ensures fault { result ≡ Err PrintStop.Fault
        → GrowsByPrefix (H.meaning host.old).out (H.meaning host.new).out (module_text «module».now)
        × Rose (H.faults host.old).writes (H.faults host.new).writes }
    ensures unmade { result ≡ Err PrintStop.NoMemory → (H.meaning host.new).out ≡ (H.meaning host.old).out }
    ensures only { OnlyPrints (H.meaning host.old) (H.meaning host.new) (H.faults host.old) (H.faults host.new) }
{
    print_text(alloc, host, TextForm::Summary, module)
}

/// Returns a text of the module as bytes in memory. Time and memory are in proportion to the length of the
/// text.
pub fn text_bytes(alloc: Global, form: TextForm, module: &Module) -> Result<Bytes, NoMemory>
    ensures { IfOk result (λ text. text ≡ text_of form «module».now) }
{
    let mut out = Gathered::new(alloc);
    module_text(&mut out, form, module.parts());
    out.into_bytes()
}
