//! The sections read so far, with what was stated about each.

ghost use Rattle.std.specs.Prelude.{◌≡◌, ◌<◌, ◌^◌, ◌++◌, ◌∷◌, [], List, length, slice_get, slice_set, None, Some, OnOk, option_map};
ghost use Rattle.mufom_sections.specs.declared.section.Section as its_section;
ghost use Rattle.mufom_module.specs.Gathered as gathered;
ghost use Rattle.mufom_judging.specs.Prefixes.{OffsetRecord};
ghost use Rattle.mufom_read.specs.Kept.{record_of_seen, placed, HasOwnParts, as_fault};
ghost use Rattle.mufom_read.specs.SectionsSoFar.{AreSectionsOf, AreSectionsBefore, is_unbased, first_unbased};

use crate::publics::declared_position;
use crate::refusal::ReadRefusal;
use crate::seen::SeenRecord;
use mufom_numbers::{List, NoMemory, Reason, codes};
use mufom_records::Record;
use mufom_sections::{IndexTable, Purpose, Section};
use std::alloc::Global;

/// The sections read so far, and the offset in the file of the declaration of each.
#[derive(Debug, Drop)]
pub(crate) struct Sections {
    pub list: Vec<Section>,
    pub starts: Vec<u32>,
}

// ---- in place

// Gives the section at a position its size in MAUs.
fn set_size(sections: &mut Vec<Section>, position: usize, size: u64)
    requires { position < length sections.old.items }
    ensures { (old : its_section.Section) → slice_get sections.old.items position ≡ Some old
        → sections.new.items ≡ slice_set sections.old.items position (record old { size = size }) }
{
    sections[position].size = size;
}

// Gives the section at a position its alignment.
fn set_align(sections: &mut Vec<Section>, position: usize, align: u64)
    requires { position < length sections.old.items }
    ensures { (old : its_section.Section) → slice_get sections.old.items position ≡ Some old
        → sections.new.items ≡ slice_set sections.old.items position (record old { align = align }) }
{
    sections[position].align = align;
}

// Gives the section at a position its base.
fn set_base(sections: &mut Vec<Section>, position: usize, base: u64)
    requires { position < length sections.old.items }
    ensures { (old : its_section.Section) → slice_get sections.old.items position ≡ Some old
        → sections.new.items ≡ slice_set sections.old.items position (record old { base = Some base }) }
{
    sections[position].base = Some(base);
}

// The purpose that a letter selects: D0 code, C4 data, D2 ROM data.
fn purpose_of(letter: u8) -> Purpose
    ensures { result ≡ gathered.purpose_of letter }
{
    match letter {
        codes::LETTER_P => Purpose::Code,
        codes::LETTER_D => Purpose::Data,
        _ => Purpose::Rom,
    }
}

fn optional_purpose(letter: Option<u8>) -> Option<Purpose>
    ensures { result ≡ option_map gathered.purpose_of letter }
{
    match letter {
        None => None,
        Some(letter) => Some(purpose_of(letter)),
    }
}

// Whether the section is absolute and has no base.
fn is_unbased(section: &Section) -> bool
    ensures { result ≡ is_unbased section.now }
{
    section.absolute && section.base.is_none()
}

impl Sections {
    /// No sections. Does not allocate.
    pub(crate) fn new(alloc: Global) -> Sections
        ensures { AreSectionsOf result [] }
    {
        Sections {
            list: Vec::new(alloc),
            starts: Vec::new(alloc),
        }
    }

    /// The sections without the offsets of their declarations. Does not allocate.
    pub(crate) fn into_list(self) -> List<Section>
        ensures { result ≡ self.list.items }
    {
        let Sections { list, .. } = self;
        List::from_vec(list)
    }

    // Adds a section. `start` is the offset of its declaration.
    fn add(&mut self, section: Section, start: u32) -> Result<(), NoMemory>
        ensures list { OnOk result (self.new.list.items ≡ self.old.list.items ++ section ∷ []) }
        ensures starts { OnOk result (self.new.starts.items ≡ self.old.starts.items ++ start ∷ []) }
    {
        self.starts.push(start)?;
        self.list.push(section)?;
        Ok(())
    }

    /// Adds what a record states about the sections.
    pub(crate) fn take(
        &mut self,
        alloc: Global,
        table: &IndexTable,
        seen: &SeenRecord,
    ) -> Result<(), NoMemory>
        requires own { HasOwnParts seen.now }
        requires start { seen.now.start < 2 ^ 32 }
        requires known { (all : List OffsetRecord) × AreSectionsBefore self.old table.now all (record_of_seen seen.now) }
        ensures { OnOk result ((all : List OffsetRecord) → AreSectionsBefore self.old table.now all (record_of_seen seen.now)
            → AreSectionsOf self.new (all ++ placed seen.now ∷ [])) }
    {
        match seen.row {
            Record::SectionType(_, absolute, letter, name, ..) => {
                let section = Section {
                    name: seen.copy_text(alloc, *name)?,
                    absolute: *absolute,
                    purpose: optional_purpose(*letter),
                    size: 0,
                    align: 1,
                    base: None,
                };
                self.add(section, seen.start as u32)
            }
            Record::SectionSize(index, size) => {
                let position = declared_position(table, *index);
                set_size(&mut self.list, position, *size);
                Ok(())
            }
            Record::Alignment(index, align, _) => {
                let position = declared_position(table, *index);
                set_align(&mut self.list, position, *align);
                Ok(())
            }
            Record::SectionBase(index, base) => {
                let position = declared_position(table, *index);
                set_base(&mut self.list, position, *base);
                Ok(())
            }
            _ => Ok(()),
        }
    }

    /// The error of the first absolute section without a base, if there is one.
    pub(crate) fn fault(&self) -> Option<ReadRefusal>
        requires { length self.now.list.items ≡ length self.now.starts.items }
        ensures { option_map as_fault result ≡ first_unbased self.now.starts.items self.now.list.items }
    {
        for (position, section) in self.list.iter().enumerate() {
            if is_unbased(section) {
                return Some(ReadRefusal {
                    offset: self.starts[position] as u64,
                    reason: Reason::MissingBase,
                });
            }
        }
        None
    }
}
