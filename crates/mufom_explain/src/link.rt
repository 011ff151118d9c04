//! Explains the error of a list of modules that cannot be linked.

ghost use Rattle.std.specs.Prelude.{◌≡◌, ◌<◌, ◌^◌, ℕ, IfOk, length};
ghost use Rattle.mufom_meaning.specs.LinkAnswer.{same_order};
ghost use Rattle.mufom_explain.specs.Details.{differs_from, first_line, link_details, other_line, start_lines};
ghost use Rattle.mufom_explain.specs.Explained.{left_after, link_lines, link_text, start_line};
ghost use Rattle.mufom_explain.specs.Flat.{file_module, flat_of};
ghost use Rattle.mufom_explain.specs.Lines.{ModuleFiles as Files};
ghost use Rattle.mufom_origins.specs.Words.{all_files};

use crate::details::{LinkDetails, LinkKind};
use crate::finding::find_mentions;
use crate::modules::{FlatModule, module_line};
use crate::naming::one_name;
use mufom_module::{Order, Parts};
use mufom_numbers::NoMemory;
use mufom_origins::ModuleFiles;
use mufom_refusals::LinkRefusal;
use mufom_text::{Lines, Output};
use std::alloc::Global;

// Whether two orders of bytes are the same.
fn same_order(order: Order, other: Order) -> bool
    ensures { result ≡ same_order order other }
{
    match (order, other) {
        (Order::Least, Order::Least) => true,
        (Order::Most, Order::Most) => true,
        _ => false,
    }
}

// Whether a module has another descriptor than the first of a list.
fn differs_from(flat: &[FlatModule<'_>], module: &Parts) -> bool
    ensures { (position : ℕ) (file : ℕ) → result ≡ differs_from (flat_of flat.now) (position, (file, «module».now)) }
{
    match flat.first() {
        Some(first) => {
            !(first.parts.maus == module.maus && same_order(first.parts.order, module.order))
        }
        None => false,
    }
}

// The line of the first module whose descriptor differs from that of the first module, if there is one.
fn other_line<K: Output>(out: &mut K, names: &ModuleFiles, flat: &[FlatModule<'_>])
    ensures { K.takes out.old out.new (other_line (all_files names.now) (flat_of flat.now)) }
{
    for position in 0..flat.len() {
        let module = &flat[position];
        if differs_from(flat, module.parts) {
            module_line(out, names, position, module);
            return;
        }
    }
}

// The line of the first module, if there is one.
fn first_line<K: Output>(out: &mut K, names: &ModuleFiles, flat: &[FlatModule<'_>])
    ensures { K.takes out.old out.new (first_line (all_files names.now) (flat_of flat.now)) }
{
    if let Some(first) = flat.first() {
        module_line(out, names, 0, first);
    }
}

// The line of a module, if it has a start and a line is left. Returns the number of lines that are left after
// it.
fn start_line<K: Output>(
    out: &mut K,
    names: &ModuleFiles,
    left: u32,
    position: usize,
    module: &FlatModule<'_>,
) -> u32
    ensures left { result ≡ left_after left (position, file_module «module».now) }
    ensures put { K.takes out.old out.new (start_line (all_files names.now) left (position, file_module «module».now)) }
{
    match left > 0 && module.parts.start.is_some() {
        true => {
            module_line(out, names, position, module);
            left - 1
        }
        false => left,
    }
}

// The lines of the first two modules with a start.
fn start_lines<K: Output>(out: &mut K, names: &ModuleFiles, flat: &[FlatModule<'_>])
    ensures { K.takes out.old out.new (start_lines (all_files names.now) (flat_of flat.now)) }
{
    let mut left = 2;
    for position in 0..flat.len() {
        left = start_line(out, names, left, position, &flat[position]);
    }
}

impl<'a> Lines for LinkDetails<'a> {
    ghost use Rattle.mufom_explain.specs.Explained.{link_text};

    ghost text = { λ details. link_text details };

    fn put_lines<K: Output>(&self, out: &mut K) {
        match &self.kind {
            LinkKind::Mismatch => {
                first_line(out, self.names, self.flat);
                other_line(out, self.names, self.flat);
            }
            LinkKind::Mentions(mentions) => mentions.put(out, self.names),
            LinkKind::Starts => start_lines(out, self.names, self.flat),
            LinkKind::Nothing => {}
        }
    }
}

// The kind of lines that explain an error.
fn kind_of<'a>(
    alloc: Global,
    flat: &'a [FlatModule<'a>],
    refusal: &'a LinkRefusal,
) -> Result<LinkKind<'a>, NoMemory>
    requires { length flat.now < 2 ^ 32 }
    ensures { (names : Files) → IfOk result
        (λ kind. link_lines names (flat_of flat.now) kind ≡ link_details names (flat_of flat.now) refusal.now) }
{
    match refusal {
        LinkRefusal::Mismatch(_, _) => Ok(LinkKind::Mismatch),
        LinkRefusal::Duplicate(name) => Ok(LinkKind::Mentions(find_mentions(
            alloc,
            one_name(alloc, name.as_slice())?,
            flat,
        )?)),
        LinkRefusal::DuplicateStart => Ok(LinkKind::Starts),
        LinkRefusal::NoMemory => Ok(LinkKind::Nothing),
    }
}

/// Returns the lines that follow the error line of a flat list of modules that cannot be linked: the first
/// module and the first with another descriptor, all modules that mention the name of a duplicate, or the
/// first two modules with a start. `names` are the files of all modules that were read. The time is
/// proportional to the number of names in the modules, and the memory to the number of mentions. The only
/// error is out of memory.
pub fn explain_link<'a>(
    alloc: Global,
    names: &'a ModuleFiles,
    flat: &'a [FlatModule<'a>],
    refusal: &'a LinkRefusal,
) -> Result<LinkDetails<'a>, NoMemory>
    requires { length flat.now < 2 ^ 32 }
    ensures { IfOk result (λ details. link_text details ≡ link_details (all_files names.now) (flat_of flat.now) refusal.now) }
{
    let kind = kind_of(alloc, flat, refusal)?;
    Ok(LinkDetails { names, flat, kind })
}
