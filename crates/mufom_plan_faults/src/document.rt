//! The TOML document of bytes.

ghost use Rattle.std.specs.Prelude.{◌≡◌, IfOk, option_map};
ghost use Rattle.toml.specs.View.{table_view};
ghost use Rattle.mufom_plan.specs.Document.{document_of};

use mufom_numbers::NoMemory;
use std::alloc::Global;
use toml::Table;

/// The document that the bytes spell, if they spell one.
pub(crate) fn document(alloc: Global, text: &[u8]) -> Result<Option<Table>, NoMemory>
    ensures { IfOk result (λ table. option_map table_view table ≡ document_of text.now) }
{
    let Ok(text) = std::str::from_utf8(text) else {
        return Ok(None);
    };
    match toml::table_from_str(alloc, text) {
        Ok(table) => Ok(Some(table)),
        Err(error) if error.is_memory() => Err(NoMemory),
        Err(_) => Ok(None),
    }
}
