//! The parts of a module so far, as they are built from the lines of its listing.

ghost use Rattle.std.specs.Prelude.{◌≡◌, ◌<◌, ◌++◌, ◌∷◌, [], length, is_some, Some, None, true, OnOk, IfSome};
ghost use Rattle.mufom_build.specs.declared.order.Stage.TheVariants as stages;
ghost use Rattle.mufom_build.specs.Drafts.{sketch_of, draft_rows, state_of, IsDraft, IsPut, IsPutNote, IsNext};
ghost use Rattle.mufom_build.specs.Order.{HasCounts, may_come, may_end, start};
ghost use Rattle.mufom_build.specs.Outlines.{IsKept};
ghost use Rattle.mufom_build.specs.Rows.{on_module, on_section, on_public, on_note, on_reference, on_block};
ghost use Rattle.mufom_build.specs.Rows.{on_end, on_name, on_value, on_repeat, rows_of};
ghost use Rattle.mufom_build.specs.Rows.{Row as StatedRow};
ghost use Rattle.mufom_build.specs.Shown.{Shows, shown_kind};
ghost use Rattle.mufom_build.specs.Sketches.{put_load, put_item};

use crate::order::{Counts, Kind, Stage, may_follow};
use crate::outline::Outline;
use crate::row::{Row, Title};
use mufom_debug::BlockHead;
use mufom_expr::Postfix;
use mufom_loads::{Item, Load};
use mufom_module::{Order, Parts};
use mufom_names::{Note, Public, Reference, Weak};
use mufom_numbers::{Bytes, List, NoMemory};
use mufom_sections::Section;
use std::alloc::Global;

/// A repeat whose end has not been read.
#[derive(Debug, Drop)]
pub(crate) struct OpenRepeat {
    count: u64,
    items: List<Item>,
}

/// The parts of a module so far.
#[derive(Debug, Drop)]
pub(crate) struct Draft {
    /// The part to which the last line belongs.
    stage: Stage,
    /// The parts, without the debug items.
    parts: Parts,
    outline: Outline,
    repeat: Option<OpenRepeat>,
}

impl Draft {
    /// Returns an empty draft.
    pub(crate) fn new(alloc: Global) -> Draft
        ensures rows { draft_rows result ≡ [] }
        ensures state { state_of result ≡ start }
        ensures kept { IsDraft result }
    {
        Draft {
            stage: Stage::Nothing,
            parts: Parts::new(alloc, 1, Order::Least),
            outline: Outline::new(alloc),
            repeat: None,
        }
    }

    /// Returns the number of lines of each kind so far.
    pub(crate) fn counts(&self) -> Counts
        requires { IsDraft self.now }
        ensures { HasCounts (state_of self.now) result }
    {
        Counts {
            sections: self.parts.sections.len(),
            publics: self.parts.names.publics.len(),
            references: self.parts.names.references.len(),
            names: self.outline.names(),
            depth: self.outline.depth(),
        }
    }

    /// Whether a line of this kind may come next.
    pub(crate) fn may_take(&self, kind: Kind) -> bool
        requires { IsDraft self.now }
        ensures { result ≡ may_come (state_of self.now) kind }
    {
        may_follow(
            self.stage,
            self.outline.depth(),
            self.repeat.is_some(),
            kind,
        )
    }

    // Takes the first line.
    fn take_title(&mut self, title: Title)
        requires { IsKept self.old.outline }
        ensures { IsPut self.old self.new (on_module, (title.name, title.processor, title.maus, title.order)) }
    {
        let Title {
            name,
            processor,
            maus,
            order,
        } = title;
        self.stage = Stage::Module;
        self.parts.name = name;
        self.parts.processor = processor;
        self.parts.maus = maus;
        self.parts.order = order;
    }

    // Takes a section.
    fn take_section(&mut self, section: Section) -> Result<(), NoMemory>
        requires { IsKept self.old.outline }
        ensures { OnOk result (IsPut self.old self.new (on_section, section)) }
    {
        self.stage = Stage::Sections;
        self.parts.sections.push(section)?;
        Ok(())
    }

    // Takes a public symbol, without notes.
    fn take_public(&mut self, alloc: Global, name: Bytes, value: Postfix) -> Result<(), NoMemory>
        requires { IsKept self.old.outline }
        ensures { OnOk result (IsPut self.old self.new (on_public, (name, value))) }
    {
        self.stage = Stage::Publics;
        let notes = List::new(alloc);
        self.parts
            .names
            .publics
            .push(Public { name, value, notes })?;
        Ok(())
    }

    // Takes a reference, without notes.
    fn take_reference(
        &mut self,
        alloc: Global,
        name: Bytes,
        weak: Option<Weak>,
    ) -> Result<(), NoMemory>
        requires { IsKept self.old.outline }
        ensures { OnOk result (IsPut self.old self.new (on_reference, (name, weak))) }
    {
        self.stage = Stage::References;
        let notes = List::new(alloc);
        self.parts
            .names
            .references
            .push(Reference { name, weak, notes })?;
        Ok(())
    }

    // Adds a note to the last public symbol.
    fn note_public(&mut self, note: Note) -> Result<(), NoMemory>
        requires { IsKept self.old.outline }
        ensures { OnOk result (IsPutNote stages.Publics self.old self.new note) }
    {
        if let Some(mut public) = self.parts.names.publics.pop() {
            public.notes.push(note)?;
            self.parts.names.publics.push(public)?;
        }
        Ok(())
    }

    // Adds a note to the last reference.
    fn note_reference(&mut self, note: Note) -> Result<(), NoMemory>
        requires { IsKept self.old.outline }
        ensures { OnOk result (IsPutNote stages.References self.old self.new note) }
    {
        if let Some(mut reference) = self.parts.names.references.pop() {
            reference.notes.push(note)?;
            self.parts.names.references.push(reference)?;
        }
        Ok(())
    }

    // Takes a note of the last name.
    fn take_note(&mut self, note: Note) -> Result<(), NoMemory>
        requires { IsKept self.old.outline }
        ensures { OnOk result (IsPut self.old self.new (on_note, (None, note))) }
    {
        match self.stage {
            Stage::Publics => self.note_public(note),
            _ => self.note_reference(note),
        }
    }

    // Takes the beginning of a block.
    fn take_block(&mut self, alloc: Global, head: BlockHead, name: Bytes) -> Result<(), NoMemory>
        requires { IsKept self.old.outline }
        ensures { OnOk result (IsPut self.old self.new (on_block, (head, name))) }
    {
        self.stage = Stage::Debug;
        self.outline.begin(alloc, head, name)
    }

    // Takes a debug name.
    fn take_name(&mut self, name: Bytes) -> Result<(), NoMemory>
        requires { IsKept self.old.outline }
        ensures { OnOk result (IsPut self.old self.new (on_name, name)) }
    {
        self.stage = Stage::Debug;
        self.outline.name(name)
    }

    // Takes a note of a debug name.
    fn take_debug_note(&mut self, name: u32, note: Note) -> Result<(), NoMemory>
        requires { IsKept self.old.outline }
        ensures { OnOk result (IsPut self.old self.new (on_note, (Some name, note))) }
    {
        self.stage = Stage::Debug;
        self.outline.note(name, note)
    }

    // Takes the value of a debug name.
    fn take_value(&mut self, name: u32, value: Postfix) -> Result<(), NoMemory>
        requires { IsKept self.old.outline }
        ensures { OnOk result (IsPut self.old self.new (on_value, (name, value))) }
    {
        self.stage = Stage::Debug;
        self.outline.value(name, value)
    }

    // Takes the end of the repeat if one is open, or otherwise of a block.
    fn take_end(&mut self, alloc: Global, value: Option<Postfix>) -> Result<(), NoMemory>
        requires kept { IsKept self.old.outline }
        requires inside { self.old.repeat ≡ None → 0 < length self.old.outline.blocks.items }
        ensures { OnOk result (IsPut self.old self.new (on_end, value)) }
    {
        match self.repeat.take() {
            Some(OpenRepeat { count, items }) => {
                self.parts.loads.push(Load::Repeat { count, items })
            }
            None => self.outline.end(alloc, value),
        }
    }

    // Takes a load that is not a repeat.
    fn take_load(&mut self, load: Load) -> Result<(), NoMemory>
        requires { IsKept self.old.outline }
        ensures sketch { OnOk result (sketch_of self.new ≡ put_load (sketch_of self.old) load) }
        ensures outline { OnOk result (IsKept self.new.outline) }
    {
        self.stage = Stage::Loads;
        self.parts.loads.push(load)
    }

    // Takes an item, of the repeat if one is open.
    fn take_item(&mut self, item: Item) -> Result<(), NoMemory>
        requires { IsKept self.old.outline }
        ensures sketch { OnOk result (sketch_of self.new ≡ put_item self.old.repeat (sketch_of self.old) item) }
        ensures outline { OnOk result (IsKept self.new.outline) }
    {
        self.stage = Stage::Loads;
        match &mut self.repeat {
            Some(open_repeat) => open_repeat.items.push(item),
            None => self.parts.loads.push(Load::One(item)),
        }
    }

    // Takes the beginning of a repeat.
    fn take_repeat(&mut self, alloc: Global, count: u64)
        requires { IsKept self.old.outline }
        ensures { IsPut self.old self.new (on_repeat, count) }
    {
        self.stage = Stage::Loads;
        self.repeat = Some(OpenRepeat {
            count,
            items: List::new(alloc),
        });
    }

    /// Adds what the next line states, which must be a line that may come here.
    pub(crate) fn take(&mut self, alloc: Global, row: Row) -> Result<(), NoMemory>
        requires kept { IsDraft self.old }
        requires may { may_come (state_of self.old) (shown_kind row) ≡ true }
        ensures { (r : StatedRow) → Shows row r → OnOk result (IsNext self.old self.new r) }
    {
        match row {
            Row::Title(title) => self.take_title(title),
            Row::Extension(bytes) => {
                self.stage = Stage::Extension;
                self.parts.ext = bytes;
            }
            Row::Environment(bytes) => {
                self.stage = Stage::Environment;
                self.parts.env = bytes;
            }
            Row::Section(section) => self.take_section(section)?,
            Row::Public { name, value } => self.take_public(alloc, name, value)?,
            Row::Reference { name, weak } => self.take_reference(alloc, name, weak)?,
            Row::Note(note) => self.take_note(note)?,
            Row::DebugNote { name, note } => self.take_debug_note(name, note)?,
            Row::Block { head, name } => self.take_block(alloc, head, name)?,
            Row::End(value) => self.take_end(alloc, value)?,
            Row::Name(name) => self.take_name(name)?,
            Row::Value { name, value } => self.take_value(name, value)?,
            Row::Select(section) => self.take_load(Load::SetSection(section))?,
            Row::Counter { section, value } => {
                self.take_load(Load::SetPc { section, value })?;
            }
            Row::Item(item) => self.take_item(item)?,
            Row::Repeat(count) => self.take_repeat(alloc, count),
            Row::Start(value) => {
                self.stage = Stage::Start;
                self.parts.start = Some(value);
            }
        }
        Ok(())
    }

    /// Returns the parts, if the listing may end after the lines so far.
    pub(crate) fn finish(self) -> Option<Parts>
        requires { IsDraft self }
        ensures some { is_some result ≡ may_end (state_of self) }
        ensures rows { IfSome result (λ parts. rows_of parts ≡ draft_rows self) }
    {
        let Draft {
            stage,
            mut parts,
            outline,
            repeat,
        } = self;
        if stage == Stage::Nothing || repeat.is_some() {
            return None;
        }
        parts.debug = outline.finish()?;
        Some(parts)
    }
}
