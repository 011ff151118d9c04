//! Builds the module from what was kept of a complete stream.

ghost use Rattle.std.specs.Prelude.{◌≡◌, ℕ, Bool, List, Some, IfOk};
ghost use Rattle.mufom_module.specs.declared.module.Parts as module_parts;
ghost use Rattle.mufom_module.specs.Grammar.{SpellsModule};
ghost use Rattle.mufom_read.specs.declared.header.Names as its_names;
ghost use Rattle.mufom_read.specs.declared.header.Addressing as its_layout;
ghost use Rattle.mufom_read.specs.HeaderSoFar.{header_with};
ghost use Rattle.mufom_judging.specs.Prefixes.{Step};
ghost use Rattle.mufom_read.specs.Built.{IsStatedByKept, IsWhole};
ghost use Rattle.mufom_records.specs.declared.options.ReadOptions.{ReadOptions};

use crate::contents::Contents;
use crate::header::{Addressing, Header, Names};
use crate::prefix::Prefix;
use mufom_module::{Module, Parts};
use mufom_names::NameTable;
use mufom_numbers::{Bytes, List, NoMemory};

// The names and the layout of a header that was read to its end.
fn whole_header(header: Header) -> (Names, Addressing)
    requires { (names : its_names.Names) × (layout : its_layout.Addressing) × (header ≡ header_with (Some names) (Some layout)) }
    ensures { header ≡ header_with (Some result.0) (Some result.1) }
{
    let Header { names, layout } = header;
    let Some(names) = names else { unreachable!() };
    let Some(layout) = layout else { unreachable!() };
    (names, layout)
}

// The parts of the module, from what was kept.
fn parts_of(prefix: Prefix) -> Result<Parts, NoMemory>
    requires { (m : module_parts.Parts) × IsStatedByKept prefix m }
    ensures { IfOk result (λ parts. (m : module_parts.Parts) → IsStatedByKept prefix m → parts ≡ m) }
{
    let Prefix {
        contents,
        tables,
        extension,
        environment,
        ..
    } = prefix;
    let Contents {
        header,
        sections,
        publics,
        references,
        debug,
        loads,
        start,
    } = contents;
    let (names, layout) = whole_header(header);
    let Names { processor, name } = names;
    let sections = sections.into_list();
    let publics = publics.into_placed(tables);
    let items = debug.into_items();
    let loads = loads.into_closed()?;
    Ok(Parts {
        processor,
        name,
        maus: layout.maus,
        order: layout.order,
        ext: Bytes::from_vec(extension),
        env: Bytes::from_vec(environment),
        sections,
        names: NameTable {
            publics,
            references: List::from_vec(references),
        },
        debug: items,
        loads,
        start,
    })
}

/// Builds the module of a prefix that contains no error, has ended, and is the whole stream.
pub(crate) fn module_of(prefix: Prefix) -> Result<Module, NoMemory>
    requires { (options : ReadOptions) × (steps : List Step) × (bytes : List ℕ) × IsWhole options prefix steps bytes }
    ensures { IfOk result (λ m. (options : ReadOptions) (steps : List Step) (bytes : List ℕ) → IsWhole options prefix steps bytes
        → SpellsModule m bytes options) }
{
    let parts = parts_of(prefix)?;
    Ok(Module::sound(parts))
}
