//! Explains the error of a name that a symbol of the plan shares with a public.

ghost use Rattle.std.specs.Prelude.{◌≡◌, ◌<◌, ◌^◌, IfOk, Some, length, position};
ghost use Rattle.std.specs.Str.{bytes_eq};
ghost use Rattle.mufom_explain.specs.Details.{shared_details, symbol_line, symbol_lines};
ghost use Rattle.mufom_explain.specs.Explained.{shared_text};
ghost use Rattle.mufom_explain.specs.Flat.{flat_of};
ghost use Rattle.mufom_origins.specs.Words.{all_files};

use crate::details::SharedDetails;
use crate::modules::FlatModule;
use crate::named::explain_name;
use mufom_numbers::NoMemory;
use mufom_origins::ModuleFiles;
use mufom_plan::{Plan, PlanSymbol};
use mufom_text::{Lines, Output, counted, quoted};
use std::alloc::Global;

// The line of the symbol with a position.
fn symbol_line<K: Output>(out: &mut K, name: &[u8], number: usize)
    ensures { K.takes out.old out.new (symbol_line name.now number) }
{
    quoted(out, name);
    counted(out, b": symbol ", number as u128);
    out.put(b" of the plan");
    out.put(b"\n");
}

// The line of the symbol with a position, if there is one.
fn symbol_lines<K: Output>(out: &mut K, name: &[u8], symbol: Option<usize>)
    ensures { K.takes out.old out.new (symbol_lines name.now symbol) }
{
    match symbol {
        Some(number) => symbol_line(out, name, number),
        None => {}
    }
}

impl<'a> Lines for SharedDetails<'a> {
    ghost use Rattle.mufom_explain.specs.Explained.{shared_text};

    ghost text = { λ details. shared_text details };

    fn put_lines<K: Output>(&self, out: &mut K) {
        symbol_lines(out, self.name, self.symbol);
        self.mentions.put_lines(out);
    }
}

// Whether a symbol has this name.
fn is_named(symbol: &PlanSymbol, name: &[u8]) -> bool
    ensures { result ≡ bytes_eq symbol.now.name name.now }
{
    symbol.name.as_slice() == name
}

// The position of the first symbol with a name.
fn symbol_named(symbols: &[PlanSymbol], name: &[u8]) -> Option<usize>
    ensures { result ≡ position (λ symbol. bytes_eq symbol.name name.now) symbols.now }
{
    symbols.iter().position(|symbol| is_named(symbol, name))
}

/// Returns the lines that follow the error line of a name that a symbol of the plan shares with a public of the
/// modules that are located: the symbol, and the modules of the flat list that mention the name. `names` are the
/// files of all modules that were read. The time is proportional to the number of names in the modules and in
/// the plan, and the memory to the number of mentions. The only error is out of memory.
pub fn explain_shared<'a>(
    alloc: Global,
    names: &'a ModuleFiles,
    flat: &'a [FlatModule<'a>],
    plan: &Plan,
    name: &'a [u8],
) -> Result<SharedDetails<'a>, NoMemory>
    requires few { length flat.now < 2 ^ 32 }
    ensures { IfOk result (λ details. shared_text details ≡ shared_details (all_files names.now) (flat_of flat.now) plan.now name.now) }
{
    let symbol = symbol_named(plan.symbols.as_slice(), name);
    let mentions = explain_name(alloc, names, flat, name)?;
    Ok(SharedDetails {
        name,
        symbol,
        mentions,
    })
}
