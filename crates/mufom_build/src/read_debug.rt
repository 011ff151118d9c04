//! Reads the lines of debug items: of blocks, and of debug names and their values.

ghost use Rattle.std.specs.Prelude.{◌≡◌, ◌+◌, ◌∷◌, [], Some, List, IfOk};
ghost use Rattle.mufom_build_text.specs.Loosely.{ReadsLoosely, Anything, Nothing};
ghost use Rattle.mufom_build_text.specs.Pieces.{block};
ghost use Rattle.mufom_build.specs.Lines.{head_pieces};
ghost use Rattle.mufom_build.specs.Order.{State};
ghost use Rattle.mufom_build.specs.ReadKinds.{ReadsFew, ReadsLast, IsHeadOf, ReadsOf, scope_of};
ghost use Rattle.mufom_build.specs.Rows.{on_block, on_end, on_name, on_value};

use crate::ahead::is_ahead;
use crate::read_names::read_numbers;
use crate::row::Row;
use mufom_build_text::Cursor;
use mufom_debug::BlockHead;
use mufom_expr::Postfix;
use mufom_numbers::NoMemory;
use mufom_refusals::BuildReason;
use std::alloc::Global;

// The most blocks that may be open at once.
const MOST_OPEN: usize = 32;

// Notes `Deep` if a block begins when 32 blocks are already open.
fn check_depth(cursor: &mut Cursor, depth: usize)
    ensures reads { ReadsLoosely (λ (u : Unit {0}). block (depth + 1) ∷ []) Anything tt cursor.old cursor.new }
{
    if depth >= MOST_OPEN {
        let column = cursor.column();
        cursor.note(column, BuildReason::Deep);
    }
}

// What the line of a block of a function states after its name.
#[derive(Debug, Drop)]
struct Scope {
    stack: u64,
    type_index: u64,
    offset: Postfix,
}

// Reads what the line of a block of a function has after its name.
fn read_scope(alloc: Global, cursor: &mut Cursor) -> Result<Scope, NoMemory>
    ensures reads { IfOk result (λ scope. ReadsLast scope_of scope cursor.old cursor.new) }
{
    cursor.words(b" stack ");
    let stack = cursor.number();
    cursor.words(b" type ");
    let type_index = cursor.number();
    cursor.words(b" offset ");
    let offset = cursor.value(alloc)?;
    Ok(Scope {
        stack,
        type_index,
        offset,
    })
}

// Reads the head of a block of a global function.
fn read_global(alloc: Global, cursor: &mut Cursor) -> Result<BlockHead, NoMemory>
    ensures reads { IfOk result (λ head. ReadsFew head_pieces (IsHeadOf (Some 4)) Nothing head cursor.old cursor.new) }
{
    let Scope {
        stack,
        type_index,
        offset,
    } = read_scope(alloc, cursor)?;
    Ok(BlockHead::Global {
        stack,
        type_index,
        offset,
    })
}

// Reads the head of a block of a local function.
fn read_local(alloc: Global, cursor: &mut Cursor) -> Result<BlockHead, NoMemory>
    ensures reads { IfOk result (λ head. ReadsFew head_pieces (IsHeadOf (Some 6)) Nothing head cursor.old cursor.new) }
{
    let Scope {
        stack,
        type_index,
        offset,
    } = read_scope(alloc, cursor)?;
    Ok(BlockHead::Local {
        stack,
        type_index,
        offset,
    })
}

// Reads the head of a block of a source file.
fn read_source(cursor: &mut Cursor) -> BlockHead
    ensures reads { ReadsFew head_pieces (IsHeadOf (Some 5)) Nothing result cursor.old cursor.new }
{
    BlockHead::Source {
        numbers: read_numbers(cursor),
    }
}

// Reads the head of a block of a part of a section.
fn read_part(alloc: Global, cursor: &mut Cursor) -> Result<BlockHead, NoMemory>
    ensures reads { IfOk result (λ head. ReadsFew head_pieces (IsHeadOf (Some 11)) Nothing head cursor.old cursor.new) }
{
    cursor.words(b" section-type ");
    let section_type = cursor.number();
    cursor.words(b" section ");
    let section = cursor.place();
    cursor.words(b" offset ");
    let offset = cursor.value(alloc)?;
    Ok(BlockHead::Section {
        section_type,
        section,
        offset,
    })
}

// Reads what the line of a block of this kind has after its name.
fn read_head(alloc: Global, cursor: &mut Cursor, kind: Option<u64>) -> Result<BlockHead, NoMemory>
    ensures reads { IfOk result (λ head. ReadsFew head_pieces (IsHeadOf kind) Nothing head cursor.old cursor.new) }
{
    match kind {
        Some(3) => Ok(BlockHead::Module),
        Some(4) => read_global(alloc, cursor),
        Some(5) => Ok(read_source(cursor)),
        Some(6) => read_local(alloc, cursor),
        Some(11) => read_part(alloc, cursor),
        _ => {
            cursor.bad();
            Ok(BlockHead::Module)
        }
    }
}

/// Reads the line of the beginning of a block, in as many open blocks as `depth`.
pub(crate) fn read_block(alloc: Global, cursor: &mut Cursor, depth: usize) -> Result<Row, NoMemory>
    ensures reads { IfOk result (λ row. (s : State) → s.depth ≡ depth → ReadsOf s on_block row cursor.old cursor.new) }
{
    check_depth(cursor, depth);
    cursor.words(b"block ");
    let kind = cursor.numeral();
    cursor.words(b" ");
    let name = cursor.name(alloc)?;
    let head = read_head(alloc, cursor, kind)?;
    Ok(Row::Block { head, name })
}

/// Reads the line of the end of a block or of a repeat.
pub(crate) fn read_end(alloc: Global, cursor: &mut Cursor) -> Result<Row, NoMemory>
    ensures reads { IfOk result (λ row. (s : State) → ReadsOf s on_end row cursor.old cursor.new) }
{
    cursor.words(b"end");
    if !is_ahead(cursor, b'=') {
        return Ok(Row::End(None));
    }
    cursor.words(b" = ");
    let value = cursor.value(alloc)?;
    Ok(Row::End(Some(value)))
}

/// Reads the line of a debug name, with its position.
pub(crate) fn read_name(alloc: Global, cursor: &mut Cursor, count: usize) -> Result<Row, NoMemory>
    ensures reads { IfOk result (λ row. (s : State) → s.names ≡ count → ReadsOf s on_name row cursor.old cursor.new) }
{
    cursor.words(b"name ");
    cursor.position(count);
    cursor.words(b" ");
    Ok(Row::Name(cursor.name(alloc)?))
}

/// Reads the line of the value of a debug name.
pub(crate) fn read_value(alloc: Global, cursor: &mut Cursor) -> Result<Row, NoMemory>
    ensures reads { IfOk result (λ row. (s : State) → ReadsOf s on_value row cursor.old cursor.new) }
{
    cursor.words(b"value ");
    let name = cursor.place();
    cursor.words(b" = ");
    let value = cursor.value(alloc)?;
    Ok(Row::Value { name, value })
}
