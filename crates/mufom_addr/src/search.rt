//! One pass over debug items, with the best function and the best line so far.

ghost use Rattle.std.specs.Prelude.{◌≡◌, ◌≤◌, ◌+◌, ◌==◌, ◌<◌, [], ◌∷◌, ◌++◌, ℕ, List, option_map, option_to_list, OnOk, IfOk, if◌then◌else◌};
ghost use Rattle.mufom_debug.specs.Marks.{depth_of, marks_of, marks_of_item};
ghost use Rattle.mufom_addr.specs.AddressHit.{function_begin, function_between, hit_among, is_around, line_given};
ghost use Rattle.mufom_addr.specs.Entries.{Around, Entry, block as block_entry, entries_of, entries_of_item, note as note_entry, source_within};
ghost use Rattle.mufom_addr.specs.Entries.{value as value_entry};
ghost use Rattle.mufom_addr.specs.Search.{HasSeen, SeesMore, function_held, line_held, number_for, or_greater, with_function, with_line};

use crate::hit::{FunctionHit, Hit, LineHit};
use mufom_debug::{Block, BlockHead, DebugItem};
use mufom_expr::Postfix;
use mufom_names::Note;
use mufom_numbers::{Bytes, NoMemory};
use std::alloc::Global;

// The attribute of a note that gives a line number.
const LINE_ATTRIBUTE: u64 = 7;

/// A function around the address, and the number of blocks around it.
#[derive(Clone, Copy)]
pub(crate) struct FoundFunction<'a> {
    pub depth: u32,
    pub kind: u8,
    pub name: &'a [u8],
    pub begin: u64,
    pub end: u64,
}

/// A line at or below the address, with the name of its source file.
#[derive(Clone, Copy)]
pub(crate) struct FoundLine<'a> {
    pub line: u64,
    pub address: u64,
    pub source: Option<&'a [u8]>,
}

/// The state of a pass over debug items.
#[derive(Drop)]
pub(crate) struct Search<'a> {
    /// The address in question.
    pub address: u64,
    /// The innermost function so far.
    pub function: Option<FoundFunction<'a>>,
    /// The nearest line so far.
    pub line: Option<FoundLine<'a>>,
    /// The line number that a note gave each name last, by the name's position.
    pub line_numbers: Vec<Option<u64>>,
}

// ---- single items

// The expression of the first address of a function; `None` for other blocks.
fn function_begin(head: &BlockHead) -> Option<&Postfix>
    ensures { option_map (λ begin. begin.now) result ≡ function_begin head.now }
{
    match head {
        BlockHead::Global { offset, .. } => Some(offset),
        BlockHead::Local { offset, .. } => Some(offset),
        BlockHead::Module => None,
        BlockHead::Source { .. } => None,
        BlockHead::Section { .. } => None,
    }
}

// The block as a function, if it is a function's block and has an end.
fn function_in<'a>(block: &'a Block, depth: u32) -> Option<FoundFunction<'a>>
    ensures { option_to_list (option_map function_held result)
        ≡ function_between depth block.now.head block.now.name (function_begin block.now.head) block.now.end }
{
    let begin = function_begin(&block.head);
    match (begin, &block.end) {
        (Some(begin), Some(end)) => Some(FoundFunction {
            depth,
            kind: block.head.kind(),
            name: block.name.as_slice(),
            begin: begin.number_or_zero(),
            end: end.number_or_zero(),
        }),
        _ => None,
    }
}

// The source file of the items in the block.
fn source_within<'a>(block: &'a Block, source: Option<&'a [u8]>) -> Option<&'a [u8]>
    ensures { option_map (λ s. s.now) result ≡ source_within block.now.head block.now.name (option_map (λ s. s.now) source.entry) }
{
    match &block.head {
        BlockHead::Source { .. } => Some(block.name.as_slice()),
        BlockHead::Module => source,
        BlockHead::Global { .. } => source,
        BlockHead::Local { .. } => source,
        BlockHead::Section { .. } => source,
    }
}

// The line number that a note gives.
fn line_given(note: &Note) -> Option<u64>
    ensures { result ≡ line_given note.now }
{
    if note.attribute != LINE_ATTRIBUTE {
        return None;
    }
    note.numbers.as_slice().first().copied()
}

// ---- the best so far

// The function found, if it is deeper than the best so far.
fn or_deeper<'a>(
    best: Option<FoundFunction<'a>>,
    found: FoundFunction<'a>,
) -> Option<FoundFunction<'a>>
    ensures { option_map function_held result ≡ or_greater (λ f. f.depth) (option_map function_held best.entry) (function_held found.entry) }
{
    match best {
        None => Some(found),
        Some(best) if best.depth < found.depth => Some(found),
        Some(best) => Some(best),
    }
}

// The line found, if its address is greater than that of the best so far.
fn or_higher<'a>(best: Option<FoundLine<'a>>, found: FoundLine<'a>) -> Option<FoundLine<'a>>
    ensures { option_map line_held result ≡ or_greater (λ l. l.address) (option_map line_held best.entry) (line_held found.entry) }
{
    match best {
        None => Some(found),
        Some(best) if best.address < found.address => Some(found),
        Some(best) => Some(best),
    }
}

// The innermost function so far, after one more function, which counts only if it is around the address.
fn innermost<'a>(
    address: u64,
    best: Option<FoundFunction<'a>>,
    found: FoundFunction<'a>,
) -> Option<FoundFunction<'a>>
    ensures { option_map function_held result ≡ with_function address (option_map function_held best.entry) (Some (function_held found.entry)) }
{
    if found.begin <= address && address <= found.end {
        or_deeper(best, found)
    } else {
        best
    }
}

// The nearest line so far, after one more line, which counts only if its address is not above the given one.
fn nearest<'a>(
    address: u64,
    best: Option<FoundLine<'a>>,
    found: FoundLine<'a>,
) -> Option<FoundLine<'a>>
    ensures { option_map line_held result ≡ with_line address (option_map line_held best.entry) (Some (line_held found.entry)) }
{
    if found.address <= address {
        or_higher(best, found)
    } else {
        best
    }
}

// ---- line numbers of names

// Sets the line number of a name in the table, which grows if it is too short.
fn set_line_number(numbers: &mut Vec<Option<u64>>, name: u32, line: u64) -> Result<(), NoMemory>
    ensures { OnOk result ((other : ℕ) →
        number_for numbers.new.items other ≡ (if name == other then Some line else number_for numbers.old.items other)) }
{
    let place = name as usize;
    while numbers.len() <= place {
        numbers.push(None)?;
    }
    numbers[place] = Some(line);
    Ok(())
}

// The line number of a name.
fn number_for(numbers: &[Option<u64>], name: u32) -> Option<u64>
    ensures { result ≡ number_for numbers.now name }
{
    match numbers.get(name as usize) {
        Some(line) => *line,
        None => None,
    }
}

// ---- the pass

impl<'a> Search<'a> {
    /// A search that has seen no items.
    pub(crate) fn new(alloc: Global, address: u64) -> Search<'a>
        ensures { HasSeen address [] result }
    {
        Search {
            address,
            function: None,
            line: None,
            line_numbers: Vec::new(alloc),
        }
    }

    fn see_block(&mut self, block: &'a Block, depth: u32)
        ensures { SeesMore (block_entry depth block.now.head block.now.name block.now.«end» ∷ []) self.old self.new }
    {
        if let Some(found) = function_in(block, depth) {
            self.function = innermost(self.address, self.function, found);
        }
    }

    fn see_note(&mut self, name: u32, note: &Note) -> Result<(), NoMemory>
        ensures { OnOk result (SeesMore (note_entry name note.now ∷ []) self.old self.new) }
    {
        if let Some(line) = line_given(note) {
            set_line_number(&mut self.line_numbers, name, line)?;
        }
        Ok(())
    }

    fn see_value(&mut self, source: Option<&'a [u8]>, name: u32, value: &Postfix)
        ensures { SeesMore (value_entry (option_map (λ s. s.now) source.entry) name value.now ∷ []) self.old self.new }
    {
        if let Some(line) = number_for(&self.line_numbers, name) {
            let address = value.number_or_zero();
            let found = FoundLine {
                line,
                address,
                source,
            };
            self.line = nearest(self.address, self.line, found);
        }
    }

    #[cycle(seeing)]
    fn see_item(
        &mut self,
        item: &'a DebugItem,
        depth: u32,
        source: Option<&'a [u8]>,
    ) -> Result<(), NoMemory>
        requires { depth + depth_of (marks_of_item item.now) ≤ 32 }
        ensures { let around : Around = record { depth = depth; source = option_map (λ s. s.now) source.entry } in
            OnOk result (SeesMore (entries_of_item item.now around) self.old self.new) }
    {
        match item {
            DebugItem::Block(block) => {
                let block = block.get();
                self.see_block(block, depth);
                let source = source_within(block, source);
                self.see_items(block.items.as_slice(), depth + 1, source)
            }
            DebugItem::Name(_) => Ok(()),
            DebugItem::Note { name, note } => self.see_note(*name, note),
            DebugItem::Value { name, value } => {
                self.see_value(source, *name, value);
                Ok(())
            }
        }
    }

    /// Visits the items inside `depth` blocks; `source` is the name of the innermost source file around them.
    #[cycle(seeing)]
    pub(crate) fn see_items(
        &mut self,
        items: &'a [DebugItem],
        depth: u32,
        source: Option<&'a [u8]>,
    ) -> Result<(), NoMemory>
        requires { depth + depth_of (marks_of items.now) ≤ 32 }
        ensures { let around : Around = record { depth = depth; source = option_map (λ s. s.now) source.entry } in
            OnOk result (SeesMore (entries_of items.now around) self.old self.new) }
    {
        for item in items {
            self.see_item(item, depth, source)?;
        }
        Ok(())
    }
    /// Returns the best function and the best line.
    pub(crate) fn hit(&self, alloc: Global) -> Result<Hit, NoMemory>
        ensures { (address : ℕ) (entries : List Entry) → HasSeen address entries self.now → IfOk result (λ hit. hit ≡ hit_among address entries) }
    {
        Ok(Hit {
            function: function_hit(alloc, self.function)?,
            line: line_hit(alloc, self.line)?,
        })
    }
}

// ---- the result

fn function_hit(
    alloc: Global,
    best: Option<FoundFunction<'_>>,
) -> Result<Option<FunctionHit>, NoMemory>
    ensures { IfOk result (λ hit. hit ≡ option_map (λ f. f.hit) (option_map function_held best.entry)) }
{
    let Some(best) = best else {
        return Ok(None);
    };
    Ok(Some(FunctionHit {
        kind: best.kind,
        name: Bytes::from_slice(alloc, best.name)?,
        begin: best.begin,
        end: best.end,
    }))
}

fn copy_source(alloc: Global, source: Option<&[u8]>) -> Result<Option<Bytes>, NoMemory>
    ensures { IfOk result (λ copy. copy ≡ option_map (λ s. s.now) source.entry) }
{
    match source {
        Some(name) => Ok(Some(Bytes::from_slice(alloc, name)?)),
        None => Ok(None),
    }
}

fn line_hit(alloc: Global, best: Option<FoundLine<'_>>) -> Result<Option<LineHit>, NoMemory>
    ensures { IfOk result (λ hit. hit ≡ option_map line_held best.entry) }
{
    let Some(best) = best else {
        return Ok(None);
    };
    Ok(Some(LineHit {
        line: best.line,
        address: best.address,
        source: copy_source(alloc, best.source)?,
    }))
}
