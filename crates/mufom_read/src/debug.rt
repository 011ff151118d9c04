//! The debug items read so far, and the blocks that are still open.

ghost use Rattle.std.specs.Prelude.{◌≡◌, ◌≢◌, ◌==◌, ◌||◌, ◌++◌, ◌∷◌, [], true, false, if◌then◌else◌, drop, option_map, IfOk, OnOk};
ghost use Rattle.std.specs.List.{cons_option};
ghost use Rattle.mufom_debug.specs.declared.item.BlockHead.TheVariants as heads;
ghost use Rattle.mufom_debug.specs.Marks.{block_begin, block_end, name_mark, note_mark, value_mark, kind_number, marks_of, marks_of_item};
ghost use Rattle.mufom_records.specs.Parts.{offset_of_block};
ghost use Rattle.mufom_module.specs.SpelledRecords as records;
ghost use Rattle.mufom_module.specs.RecordParts as parts;
ghost use Rattle.mufom_module.specs.Gathered as gathered;
ghost use Rattle.mufom_judging.specs.Faults as faults;
ghost use Rattle.mufom_read.specs.Kept.{indexes_by, record_of_seen, HasOwnParts, as_fault};
ghost use Rattle.mufom_read.specs.DebugSoFar.{stacked, opened, marks_kept};
ghost use Rattle.mufom_judging.specs.RecordFields.{HasKind};

use crate::positions::{position_in, renamed};
use crate::publics::{note, stated};
use crate::refusal::ReadRefusal;
use crate::seen::SeenRecord;
use crate::tables::Tables;
use mufom_debug::{Block, BlockHead, Boxed, DebugItem};
use mufom_expr::Postfix;
use mufom_names::Note;
use mufom_numbers::{Bytes, List, NoMemory, Reason};
use mufom_records::{BlockTail, Record};
use std::alloc::Global;
use std::mem;

// The largest number of blocks that may be open at once.
const MOST_OPEN: usize = 32;

// The kind number of a block for a global function.
const GLOBAL_KIND: u64 = 4;

/// A block whose end was not read yet.
#[derive(Debug, Drop)]
pub(crate) struct OpenBlock {
    /// The offset of its BB record in the file.
    pub start: u64,
    pub head: BlockHead,
    pub name: Bytes,
    /// The items before it at the same level.
    pub before: List<DebugItem>,
}

/// The debug items read so far.
#[derive(Debug, Drop)]
pub(crate) struct Debugs {
    /// The items of the innermost open block, or of the debug part itself if no block is open.
    pub items: List<DebugItem>,
    /// The open blocks, the innermost last.
    pub blocks: List<OpenBlock>,
}

// ---- items

fn name_item(name: Bytes) -> DebugItem
    ensures { marks_of_item result ≡ name_mark name ∷ [] }
{
    DebugItem::Name(name)
}

fn note_item(name: u32, note: Note) -> DebugItem
    ensures { marks_of_item result ≡ note_mark name note ∷ [] }
{
    DebugItem::Note { name, note }
}

fn value_item(name: u32, value: Postfix) -> DebugItem
    ensures { marks_of_item result ≡ value_mark name value ∷ [] }
{
    DebugItem::Value { name, value }
}

fn block_item(
    alloc: Global,
    head: BlockHead,
    name: Bytes,
    items: List<DebugItem>,
    end: Option<Postfix>,
) -> Result<DebugItem, NoMemory>
    ensures { IfOk result (λ item. marks_of_item item ≡ block_begin head name ∷ (marks_of items ++ block_end end ∷ [])) }
{
    let block = Block {
        head,
        name,
        items,
        end,
    };
    Ok(DebugItem::Block(Boxed::new(alloc, block)?))
}

// The head of a global function if the kind is 4, otherwise of a local one.
fn scope_head(kind: u64, stack: u64, type_index: u64, offset: Postfix) -> BlockHead
    ensures { result ≡ (if kind == 4 then heads.Global stack type_index offset else heads.Local stack type_index offset) }
{
    if kind == GLOBAL_KIND {
        BlockHead::Global {
            stack,
            type_index,
            offset,
        }
    } else {
        BlockHead::Local {
            stack,
            type_index,
            offset,
        }
    }
}

// The head of a block of this kind. `offset` is its expression, if the kind has one.
fn head_of(
    tables: &Tables,
    kind: u64,
    block: &BlockTail,
    offset: Option<Postfix>,
) -> Result<BlockHead, NoMemory>
    requires { (p : records.SpelledRecord)
        × (offset ≡ option_map (records.positioned (indexes_by tables.now)) (option_map (records.tree_in p) (offset_of_block block.now))) }
    ensures { IfOk result (λ head. (p : records.SpelledRecord)
        → offset ≡ option_map (records.positioned (indexes_by tables.now)) (option_map (records.tree_in p) (offset_of_block block.now))
        → head ≡ gathered.head_by (indexes_by tables.now) p kind block.now) }
{
    match block {
        BlockTail::Module => Ok(BlockHead::Module),
        BlockTail::Scope {
            stack,
            type_index,
            ..
        } => Ok(scope_head(kind, *stack, *type_index, stated(offset))),
        BlockTail::Source(numbers) => Ok(BlockHead::Source {
            numbers: numbers.clone()?,
        }),
        BlockTail::Section {
            section_type,
            section,
            ..
        } => Ok(BlockHead::Section {
            section_type: *section_type,
            section: position_in(&tables.sections, *section),
            offset: stated(offset),
        }),
    }
}

// ---- blocks

// Whether blocks of this kind have no expression at their end.
fn ends_plainly(head: &BlockHead) -> bool
    ensures { result ≡ ((kind_number head.now == 3) || (kind_number head.now == 5)) }
{
    match head {
        BlockHead::Module => true,
        BlockHead::Global { .. } => false,
        BlockHead::Source { .. } => true,
        BlockHead::Local { .. } => false,
        BlockHead::Section { .. } => false,
    }
}

/// Whether the record is a BE with no open block, or a BE with an expression for a block whose kind allows none.
pub(crate) fn ends_badly(blocks: &[OpenBlock], record: &Record) -> bool
    ensures { result ≡ faults.ends_badly (stacked [] blocks.now) «record».now }
{
    match record {
        Record::BlockEnd(value) => match blocks {
            [] => true,
            [.., innermost] => value.is_some() && ends_plainly(&innermost.head),
        },
        _ => false,
    }
}

/// Whether the record begins a block although 32 are open already.
pub(crate) fn is_too_deep(blocks: &[OpenBlock], record: &Record) -> bool
    ensures { result ≡ faults.is_too_deep (stacked [] blocks.now) «record».now }
{
    match record {
        Record::BlockBegin(..) => blocks.len() >= MOST_OPEN,
        _ => false,
    }
}

/// The error for a block that is left open, at the start of the innermost one.
pub(crate) fn open_fault(blocks: &[OpenBlock]) -> Option<ReadRefusal>
    ensures { option_map as_fault result ≡ faults.open_fault (stacked [] blocks.now) }
{
    match blocks {
        [] => None,
        [.., innermost] => Some(ReadRefusal {
            offset: innermost.start,
            reason: Reason::BlockNesting,
        }),
    }
}

impl Debugs {
    /// No debug items. Does not allocate.
    pub(crate) fn new(alloc: Global) -> Debugs
        ensures marks { marks_kept result ≡ [] }
        ensures blocks { opened result ≡ [] }
    {
        Debugs {
            items: List::new(alloc),
            blocks: List::new(alloc),
        }
    }

    /// The items of the debug part, if no block is open. Does not allocate.
    pub(crate) fn into_items(self) -> List<DebugItem>
        ensures { result ≡ self.items }
    {
        let Debugs { items, .. } = self;
        items
    }

    // Adds an item to the innermost open block, or to the debug part if no block is open.
    fn add(&mut self, item: DebugItem) -> Result<(), NoMemory>
        ensures marks { OnOk result (marks_kept self.new ≡ marks_kept self.old ++ marks_of_item item) }
        ensures blocks { opened self.new ≡ opened self.old }
    {
        self.items.push(item)
    }

    // Begins a block. `start` is the offset of its record.
    fn begin(
        &mut self,
        alloc: Global,
        start: u64,
        head: BlockHead,
        name: Bytes,
    ) -> Result<(), NoMemory>
        ensures marks { OnOk result (marks_kept self.new ≡ marks_kept self.old ++ block_begin head name ∷ []) }
        ensures blocks { OnOk result (opened self.new ≡ (start, kind_number head) ∷ opened self.old) }
    {
        let before = mem::replace(&mut self.items, List::new(alloc));
        self.blocks.push(OpenBlock {
            start,
            head,
            name,
            before,
        })
    }

    // Ends the innermost open block.
    fn end(&mut self, alloc: Global, end: Option<Postfix>) -> Result<(), NoMemory>
        requires { opened self.old ≢ [] }
        ensures marks { OnOk result (marks_kept self.new ≡ marks_kept self.old ++ block_end end ∷ []) }
        ensures blocks { OnOk result (opened self.new ≡ drop 1 (opened self.old)) }
    {
        match self.blocks.pop() {
            None => unreachable!(),
            Some(block) => {
                let OpenBlock {
                    head,
                    name,
                    before,
                    ..
                } = block;
                let items = mem::replace(&mut self.items, before);
                self.items.push(block_item(alloc, head, name, items, end)?)
            }
        }
    }

    /// Adds what a record states about the debug items. `tree` is its expression, if it is of the debug part.
    pub(crate) fn take(
        &mut self,
        alloc: Global,
        tables: &Tables,
        seen: &SeenRecord,
        tree: Option<Postfix>,
    ) -> Result<(), NoMemory>
        requires own { HasOwnParts seen.now }
        requires tree { parts.stands_in parts.debug_part seen.now.row.now ≡ true
            → tree ≡ records.tree_of_record (record_of_seen seen.now) }
        requires kind { HasKind seen.now.row.now }
        requires nested { faults.ends_badly (opened self.old) seen.now.row.now ≡ false }
        ensures marks { OnOk result (marks_kept self.new ≡ marks_kept self.old
            ++ cons_option (gathered.mark_by (indexes_by tables.now) (record_of_seen seen.now) seen.now.row.now) []) }
        ensures blocks { OnOk result (opened self.new ≡ faults.opened_after (opened self.old) seen.now.start seen.now.row.now) }
    {
        let value = renamed(tables, tree);
        match seen.row {
            Record::BlockBegin(kind, _, name, block) => {
                let head = head_of(tables, *kind, block, value)?;
                let name = seen.copy_text(alloc, *name)?;
                self.begin(alloc, seen.start, head, name)
            }
            Record::BlockEnd(_) => self.end(alloc, value),
            Record::DebugName(_, name) => {
                let name = seen.copy_text(alloc, *name)?;
                self.add(name_item(name))
            }
            Record::DebugValue(index, _) => {
                let name = position_in(&tables.debug_names, *index);
                self.add(value_item(name, stated(value)))
            }
            Record::DebugNote(index, type_index, attribute, numbers) => {
                let name = position_in(&tables.debug_names, *index);
                let note = note(*type_index, *attribute, numbers)?;
                self.add(note_item(name, note))
            }
            _ => Ok(()),
        }
    }
}
