//! Reads a line of a listing.

ghost use Rattle.std.specs.Prelude.{◌<◌, length, IfOk, OnOk};
ghost use Rattle.mufom_build_text.specs.Errors.{IsSound};
ghost use Rattle.mufom_build.specs.FirstWords.{keyword_of};
ghost use Rattle.mufom_build.specs.Order.{State, HasCounts};
ghost use Rattle.mufom_build.specs.ReadKinds.{ReadsOf};
ghost use Rattle.mufom_build.specs.ReadRows.{ReadsRow};

use crate::keyword::{Keyword, first_word};
use crate::order::Counts;
use crate::read_debug::{read_block, read_end, read_name, read_value};
use crate::read_loads::{
    read_bytes, read_counter, read_field, read_repeat, read_select, read_start,
};
use crate::read_names::{read_note_line, read_public, read_reference};
use crate::read_sections::{read_environment, read_extension, read_section, read_title};
use crate::row::Row;
use mufom_build_text::Cursor;
use mufom_numbers::NoMemory;
use std::alloc::Global;

// Reads a line of this first word.
fn read_line(
    alloc: Global,
    cursor: &mut Cursor,
    counts: Counts,
    keyword: Keyword,
) -> Result<Row, NoMemory>
    ensures reads { IfOk result (λ row. (s : State) → HasCounts s counts → ReadsOf s (keyword_of keyword) row cursor.old cursor.new) }
{
    match keyword {
        Keyword::Module => read_title(alloc, cursor),
        Keyword::Extension => read_extension(alloc, cursor),
        Keyword::Environment => read_environment(alloc, cursor),
        Keyword::Section => read_section(alloc, cursor, counts.sections),
        Keyword::Public => read_public(alloc, cursor, counts.publics),
        Keyword::Reference => read_reference(alloc, cursor, counts.references),
        Keyword::Note => Ok(read_note_line(cursor)),
        Keyword::Block => read_block(alloc, cursor, counts.depth),
        Keyword::End => read_end(alloc, cursor),
        Keyword::Name => read_name(alloc, cursor, counts.names),
        Keyword::Value => read_value(alloc, cursor),
        Keyword::Select => Ok(read_select(cursor)),
        Keyword::Counter => read_counter(alloc, cursor),
        Keyword::Bytes => read_bytes(alloc, cursor),
        Keyword::Field => read_field(alloc, cursor),
        Keyword::Repeat => Ok(read_repeat(cursor)),
        Keyword::Start => read_start(alloc, cursor),
    }
}

/// Reads a line to its end, in a listing that has these counts before the line. If it is not a line of a
/// listing, notes that a piece is missing.
///
/// The only error is out of memory.
pub(crate) fn read_row(alloc: Global, cursor: &mut Cursor, counts: Counts) -> Result<Row, NoMemory>
    ensures reads { IfOk result (λ row. (s : State) → HasCounts s counts → ReadsRow s row cursor.old cursor.new) }
    ensures shorter { OnOk result (IsSound cursor.new → length cursor.new.rest < length cursor.old.rest) }
{
    let Some(keyword) = first_word(cursor.rest()) else {
        cursor.bad();
        return Ok(Row::End(None));
    };
    read_line(alloc, cursor, counts, keyword)
}
