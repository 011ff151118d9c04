//! The lines of modules that were read.

ghost use Rattle.std.specs.Prelude.{◌≡◌, ◌<◌, ◌^◌, ◌++◌, length, IfOk, OnOk};
ghost use Rattle.std.specs.String.{string_bytes};
ghost use Rattle.mufom_debug.specs.Marks.{marks_of, marks_of_item};
ghost use Rattle.mufom_module.specs.Weights.{capped};
ghost use Rattle.mufom_works.specs.Text.{check_line, check_text, counts_text, item_count, line};

use mufom_debug::DebugItem;
use mufom_module::Module;
use mufom_numbers::NoMemory;
use mufom_text::quoted_name;
use std::alloc::Global;

// The number of debug items in an item, itself included. Counts stop at 2^64 - 1.
#[cycle(counting)]
fn item_total(item: &DebugItem) -> u64
    ensures { result ≡ capped (item_count (marks_of_item item.now)) }
{
    match item {
        DebugItem::Block(block) => 1u64.saturating_add(items_total(block.get().items.as_slice())),
        DebugItem::Name(_) => 1,
        DebugItem::Note { .. } => 1,
        DebugItem::Value { .. } => 1,
    }
}

#[cycle(counting)]
fn items_total(items: &[DebugItem]) -> u64
    ensures { result ≡ capped (item_count (marks_of items.now)) }
{
    let mut total: u64 = 0;
    for item in items {
        total = total.saturating_add(item_total(item));
    }
    total
}

// The number of debug items of a module at all depths.
fn debug_total(module: &Module) -> u64
    ensures { result ≡ item_count (marks_of «module».now.debug) }
{
    items_total(module.parts().debug.as_slice())
}

// The part of a line after the name.
fn counts_text(alloc: Global, module: &Module) -> Result<String, NoMemory>
    ensures { IfOk result (λ text. string_bytes text ≡ line (counts_text «module».now)) }
{
    let parts = module.parts();
    let sections = parts.sections.len();
    let publics = parts.names.publics.len();
    let references = parts.names.references.len();
    let loads = parts.loads.len();
    let debug = debug_total(module);
    Ok(format!(in alloc;
        ": sections {sections} publics {publics} references {references} loads {loads} debug {debug}\n"
    )?)
}

// Adds the line of the module of the file with this number.
fn push_line(
    alloc: Global,
    text: &mut Vec<u8>,
    number: usize,
    module: &Module,
) -> Result<(), NoMemory>
    ensures { OnOk result (text.new.items ≡ text.old.items ++ check_line number «module».now) }
{
    let prefix = format!(in alloc; "file {number} ")?;
    text.extend_from_slice(prefix.as_bytes())?;
    text.extend_from_slice(quoted_name(alloc, module.parts().name.as_slice())?.as_slice())?;
    text.extend_from_slice(counts_text(alloc, module)?.as_bytes())?;
    Ok(())
}

/// Returns a line for each module, with the number of its file.
pub fn module_lines(alloc: Global, modules: &[Module]) -> Result<Vec<u8>, NoMemory>
    ensures { IfOk result (λ text. text.items ≡ check_text modules.now) }
{
    let mut text = Vec::new(alloc);
    for (number, module) in modules.iter().enumerate() {
        push_line(alloc, &mut text, number, module)?;
    }
    Ok(text)
}
