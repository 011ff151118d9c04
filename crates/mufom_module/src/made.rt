//! Proves, in a walk over the parts of a module, the bounds that their types set. The walk computes nothing.

ghost use Rattle.std.specs.Prelude.{◌<◌, ◌≤◌, ◌^◌, All, IfSome, length};
ghost use Rattle.mufom_numbers.specs.Spelling.{AreBytes};
ghost use Rattle.mufom_debug.specs.Marks.{block_begin, block_end, marks_of, marks_of_item};
ghost use Rattle.mufom_module.specs.Made.{IsNumber, IsMadeTree, IsMadeSection, IsMadeNote, IsMadeWeak, IsMadePublic, IsMadeReference, IsMadeItem};
ghost use Rattle.mufom_module.specs.Made.{IsMadeLoad, IsMadeHead, IsMadeMark, IsMade};

use crate::module::Parts;
use mufom_debug::{BlockHead, DebugItem};
use mufom_expr::Postfix;
use mufom_loads::{Item, Load};
use mufom_names::{Note, Public, Reference, Weak};
use mufom_sections::Section;

fn bytes(bytes: &[u8])
    ensures { AreBytes bytes.now }
{
    let _all = bytes;
}

fn numbers(numbers: &[u64])
    ensures { All IsNumber numbers.now }
{
    let _all = numbers;
}

fn expression(value: &Postfix)
    ensures { IsMadeTree value.now }
{
    let _tokens = value.tokens();
}

fn optional_expression(value: &Option<Postfix>)
    ensures { IfSome value.now IsMadeTree }
{
    if let Some(value) = value {
        expression(value);
    }
}

// ---- sections

fn optional_number(number: Option<u64>)
    ensures { IfSome number IsNumber }
{
    if let Some(number) = number {
        let _number = number;
    }
}

fn section(section: &Section)
    ensures { IsMadeSection section.now }
{
    bytes(section.name.as_slice());
    optional_number(section.base);
    let _size = section.size;
    let _align = section.align;
}

fn sections(sections: &[Section])
    ensures { All IsMadeSection sections.now }
{
    for next in sections {
        section(next);
    }
}

// ---- names

fn note(note: &Note)
    ensures { IsMadeNote note.now }
{
    numbers(note.numbers.as_slice());
    let _type_index = note.type_index;
    let _attribute = note.attribute;
}

fn notes(notes: &[Note])
    ensures { All IsMadeNote notes.now }
{
    for next in notes {
        note(next);
    }
}

fn public(public: &Public)
    ensures { IsMadePublic public.now }
{
    bytes(public.name.as_slice());
    expression(&public.value);
    notes(public.notes.as_slice());
}

fn publics(publics: &[Public])
    ensures { All IsMadePublic publics.now }
{
    for next in publics {
        public(next);
    }
}

fn weak(weak: Option<Weak>)
    ensures { IfSome weak IsMadeWeak }
{
    if let Some(weak) = weak {
        let _size = weak.size;
        let _default = weak.default;
    }
}

fn reference(reference: &Reference)
    ensures { IsMadeReference reference.now }
{
    bytes(reference.name.as_slice());
    weak(reference.weak);
    notes(reference.notes.as_slice());
}

fn references(references: &[Reference])
    ensures { All IsMadeReference references.now }
{
    for next in references {
        reference(next);
    }
}

// ---- debug items

fn head(head: &BlockHead)
    ensures { IsMadeHead head.now }
{
    match head {
        BlockHead::Module => (),
        BlockHead::Source { numbers: all } => numbers(all.as_slice()),
        BlockHead::Global {
            stack,
            type_index,
            offset,
        } => scope(*stack, *type_index, offset),
        BlockHead::Local {
            stack,
            type_index,
            offset,
        } => scope(*stack, *type_index, offset),
        BlockHead::Section {
            section_type,
            section,
            offset,
        } => {
            let _section = *section;
            scope(*section_type, 0, offset);
        }
    }
}

fn scope(first: u64, second: u64, offset: &Postfix)
    ensures { IsNumber first × IsNumber second × IsMadeTree offset.now }
{
    expression(offset);
}

fn begin(block: &BlockHead, name: &[u8])
    ensures { IsMadeMark (block_begin block.now name.now) }
{
    head(block);
    bytes(name);
}

fn end(value: &Option<Postfix>)
    ensures { IsMadeMark (block_end value.now) }
{
    optional_expression(value);
}

#[cycle(making)]
fn debug_item(item: &DebugItem)
    ensures { All IsMadeMark (marks_of_item item.now) }
{
    match item {
        DebugItem::Block(block) => {
            let block = block.get();
            begin(&block.head, block.name.as_slice());
            debug_items(block.items.as_slice());
            end(&block.end);
        }
        DebugItem::Name(name) => bytes(name.as_slice()),
        DebugItem::Note { name, note: its } => {
            let _name = *name;
            note(its);
        }
        DebugItem::Value { name, value } => {
            let _name = *name;
            expression(value);
        }
    }
}

#[cycle(making)]
fn debug_items(items: &[DebugItem])
    ensures { All IsMadeMark (marks_of items.now) }
{
    for item in items {
        debug_item(item);
    }
}

// ---- loads

fn item(item: &Item)
    ensures { IsMadeItem item.now }
{
    match item {
        Item::Literal(literal) => bytes(literal.as_slice()),
        Item::Field { value, size, .. } => {
            let _size = *size;
            expression(value);
        }
    }
}

fn items(items: &[Item])
    ensures { All IsMadeItem items.now }
{
    for next in items {
        item(next);
    }
}

fn load(load: &Load)
    ensures { IsMadeLoad load.now }
{
    match load {
        Load::SetSection(section) => {
            let _section = *section;
        }
        Load::SetPc { section, value } => {
            let _section = *section;
            expression(value);
        }
        Load::One(one) => item(one),
        Load::Repeat { count, items: all } => {
            let _count = *count;
            items(all.as_slice());
        }
    }
}

fn loads(loads: &[Load])
    ensures { All IsMadeLoad loads.now }
{
    for next in loads {
        load(next);
    }
}

// ---- the whole

// The strings of the header, and the raw parts.
fn frame(parts: &Parts)
    ensures processor { AreBytes parts.now.processor }
    ensures name { AreBytes parts.now.name }
    ensures extension { AreBytes parts.now.ext }
    ensures environment { AreBytes parts.now.env }
    ensures units { parts.now.maus < 256 }
{
    bytes(parts.processor.as_slice());
    bytes(parts.name.as_slice());
    bytes(parts.ext.as_slice());
    bytes(parts.env.as_slice());
    let _units = parts.maus;
}

/// States the bounds that the types of all parts give as a clause: a byte is below 256, and so on. The walk
/// has no effect when the program runs.
pub(crate) fn type_bounds(parts: &Parts)
    ensures { IsMade parts.now }
{
    frame(parts);
    sections(parts.sections.as_slice());
    publics(parts.names.publics.as_slice());
    references(parts.names.references.as_slice());
    debug_items(parts.debug.as_slice());
    loads(parts.loads.as_slice());
    optional_expression(&parts.start);
}
