//! A module that grows by its entries.

use crate::fault::DraftFault;
use crate::tokens::{expression, note};
use mufom_debug::Block;
use mufom_expr::{FieldKind, Token};
use mufom_loads::{Item, Load};
use mufom_module::{Module, Order, Parts, assemble};
use mufom_names::{Public, Reference, Weak};
use mufom_numbers::{Bytes, List, NoMemory};
use mufom_sections::{Purpose, Section};
use std::alloc::Global;

/// A section: its name, whether it is absolute, its purpose, size, alignment and base.
pub type SectionRow<'a> = (&'a [u8], bool, Option<Purpose>, u64, u64, Option<u64>);

/// What is loaded: bytes, or the value of an expression in a field of this kind and size.
#[derive(Clone, Copy)]
pub enum Data<'a> {
    Bytes(&'a [u8]),
    Field(FieldKind, u8, &'a [Token]),
}

/// A module that grows by its entries, with the most significant byte first. The first fault is kept, and `parts` and
/// `module` return it.
#[derive(Drop)]
pub struct Draft {
    pub(crate) alloc: Global,
    /// What the module has so far, without its open blocks.
    pub parts: Parts,
    // The open blocks, the outermost first.
    pub(crate) open: Vec<Block>,
    fault: Option<DraftFault>,
}

impl Draft {
    /// A module without entries, and with `maus` bytes for an address.
    pub fn new(alloc: Global, maus: u8) -> Draft {
        Draft {
            alloc,
            parts: Parts::new(alloc, maus, Order::Most),
            open: Vec::new(alloc),
            fault: None,
        }
    }

    // Keeps the first fault.
    pub(crate) fn keep(&mut self, added: Result<(), DraftFault>) {
        if let (None, Err(fault)) = (self.fault, added) {
            self.fault = Some(fault);
        }
    }

    fn try_title(&mut self, processor: &[u8], name: &[u8]) -> Result<(), DraftFault> {
        self.parts.processor = Bytes::from_slice(self.alloc, processor)?;
        self.parts.name = Bytes::from_slice(self.alloc, name)?;
        Ok(())
    }

    /// The module is for this processor, and has this name.
    pub fn title(&mut self, processor: &[u8], name: &[u8]) {
        let added = self.try_title(processor, name);
        self.keep(added);
    }

    fn try_skipped(&mut self, extension: &[u8], environment: &[u8]) -> Result<(), DraftFault> {
        self.parts.ext = Bytes::from_slice(self.alloc, extension)?;
        self.parts.env = Bytes::from_slice(self.alloc, environment)?;
        Ok(())
    }

    /// The bytes of the extension part and of the environment part.
    pub fn skipped(&mut self, extension: &[u8], environment: &[u8]) {
        let added = self.try_skipped(extension, environment);
        self.keep(added);
    }

    fn try_section(&mut self, row: &SectionRow) -> Result<(), DraftFault> {
        let section = Section {
            name: Bytes::from_slice(self.alloc, row.0)?,
            absolute: row.1,
            purpose: row.2,
            size: row.3,
            align: row.4,
            base: row.5,
        };
        Ok(self.parts.sections.push(section)?)
    }

    /// The section of this row.
    pub fn section_row(&mut self, row: &SectionRow) {
        let added = self.try_section(row);
        self.keep(added);
    }

    /// A section of this name and size, which is absolute if it has a base.
    pub fn section(&mut self, name: &[u8], size: u64, base: Option<u64>) {
        self.section_row(&(name, base.is_some(), None, size, 1, base));
    }

    fn try_public(&mut self, name: &[u8], value: &[Token]) -> Result<(), DraftFault> {
        let public = Public {
            name: Bytes::from_slice(self.alloc, name)?,
            value: expression(self.alloc, value)?,
            notes: List::new(self.alloc),
        };
        Ok(self.parts.names.publics.push(public)?)
    }

    /// A public of this name and value.
    pub fn public(&mut self, name: &[u8], value: &[Token]) {
        let added = self.try_public(name, value);
        self.keep(added);
    }

    fn try_note_public(&mut self, kind: (u64, u64), numbers: &[u64]) -> Result<(), DraftFault> {
        let Some(mut public) = self.parts.names.publics.pop() else {
            return Err(DraftFault::Missing);
        };
        public.notes.push(note(kind.0, kind.1, numbers)?)?;
        Ok(self.parts.names.publics.push(public)?)
    }

    /// The last public has a note of this type and attribute with these numbers.
    pub fn note_public(&mut self, type_index: u64, attribute: u64, numbers: &[u64]) {
        let added = self.try_note_public((type_index, attribute), numbers);
        self.keep(added);
    }

    fn try_reference(&mut self, name: &[u8], weak: Option<Weak>) -> Result<(), DraftFault> {
        let reference = Reference {
            name: Bytes::from_slice(self.alloc, name)?,
            weak,
            notes: List::new(self.alloc),
        };
        Ok(self.parts.names.references.push(reference)?)
    }

    /// A strong reference of this name.
    pub fn reference(&mut self, name: &[u8]) {
        let added = self.try_reference(name, None);
        self.keep(added);
    }

    /// A weak reference of this name, size and default.
    pub fn weak(&mut self, name: &[u8], size: u64, default: u64) {
        let added = self.try_reference(name, Some(Weak { size, default }));
        self.keep(added);
    }

    fn try_note_reference(&mut self, kind: (u64, u64), numbers: &[u64]) -> Result<(), DraftFault> {
        let Some(mut reference) = self.parts.names.references.pop() else {
            return Err(DraftFault::Missing);
        };
        reference.notes.push(note(kind.0, kind.1, numbers)?)?;
        Ok(self.parts.names.references.push(reference)?)
    }

    /// The last reference has a note of this type and attribute with these numbers.
    pub fn note_reference(&mut self, type_index: u64, attribute: u64, numbers: &[u64]) {
        let added = self.try_note_reference((type_index, attribute), numbers);
        self.keep(added);
    }

    fn load(&mut self, load: Load) {
        let added = self.parts.loads.push(load);
        self.keep(added.map_err(DraftFault::from));
    }

    /// What follows is put into the section at this position.
    pub fn select(&mut self, section: u32) {
        self.load(Load::SetSection(section));
    }

    fn try_counter(&mut self, section: u32, value: &[Token]) -> Result<(), DraftFault> {
        let value = expression(self.alloc, value)?;
        Ok(self.parts.loads.push(Load::SetPc { section, value })?)
    }

    /// The program counter of the section at this position is set to the value of this expression.
    pub fn counter(&mut self, section: u32, value: &[Token]) {
        let added = self.try_counter(section, value);
        self.keep(added);
    }

    fn try_once(&mut self, data: Data) -> Result<(), DraftFault> {
        let item = item(self.alloc, data)?;
        Ok(self.parts.loads.push(Load::One(item))?)
    }

    /// This is loaded once.
    pub fn once(&mut self, data: Data) {
        let added = self.try_once(data);
        self.keep(added);
    }

    fn try_repeat(&mut self, count: u64, all: &[Data]) -> Result<(), DraftFault> {
        let mut items = List::new(self.alloc);
        for data in all {
            items.push(item(self.alloc, *data)?)?;
        }
        Ok(self.parts.loads.push(Load::Repeat { count, items })?)
    }

    /// These are loaded one after the other, `count` times.
    pub fn repeat(&mut self, count: u64, all: &[Data]) {
        let added = self.try_repeat(count, all);
        self.keep(added);
    }

    fn try_start(&mut self, value: &[Token]) -> Result<(), DraftFault> {
        self.parts.start = Some(expression(self.alloc, value)?);
        Ok(())
    }

    /// The start address.
    pub fn start(&mut self, value: &[Token]) {
        let added = self.try_start(value);
        self.keep(added);
    }

    /// The parts of the module, or the first fault of the draft.
    pub fn parts(self) -> Result<Parts, DraftFault> {
        let Draft {
            alloc: _,
            parts,
            open,
            fault,
        } = self;
        match fault {
            Some(fault) => Err(fault),
            None if open.is_empty() => Ok(parts),
            None => Err(DraftFault::Missing),
        }
    }

    /// The module, or the first fault of the draft.
    pub fn module(self) -> Result<Module, DraftFault> {
        match assemble(self.parts()?) {
            Ok(module) => Ok(module),
            Err((_, defect)) => Err(DraftFault::Defect(defect)),
        }
    }
}

// The load item of this data.
fn item(alloc: Global, data: Data) -> Result<Item, DraftFault> {
    match data {
        Data::Bytes(bytes) => Ok(Item::Literal(Bytes::from_slice(alloc, bytes)?)),
        Data::Field(kind, size, tokens) => {
            let value = expression(alloc, tokens)?;
            Ok(Item::Field { kind, size, value })
        }
    }
}
