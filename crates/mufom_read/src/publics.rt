//! The publics read so far, with what was stated about each.

ghost use Rattle.std.specs.Prelude.{◌≡◌, ◌<◌, ◌^◌, ◌==◌, ◌++◌, ◌∷◌, [], true, List, nat_eq, length, map, slice_get, slice_set, None, Some, IfOk};
ghost use Rattle.std.specs.Prelude.{OnOk, option_map};
ghost use Rattle.std.specs.List.{list_any, IsDistinct};
ghost use Rattle.mufom_expr.specs.Tree.{Tree, number};
ghost use Rattle.mufom_names.specs.declared.name.Public as name_public;
ghost use Rattle.mufom_module.specs.SpelledRecords as records;
ghost use Rattle.mufom_module.specs.Gathered as gathered;
ghost use Rattle.mufom_read.specs.declared.publics.PublicMark.TheVariants.{Declared, Valued};
ghost use Rattle.mufom_judging.specs.Prefixes.{OffsetRecord};
ghost use Rattle.mufom_read.specs.Kept.{record_of_seen, placed, HasOwnParts, indexes_by, as_fault};
ghost use Rattle.mufom_read.specs.NamesSoFar.{ArePublicsOf, IsBefore, placed_public, value_fault, public_faults, earlier, least_from};

use crate::positions::Positions;
use crate::refusal::ReadRefusal;
use crate::rules::has_unknown_variable;
use crate::seen::SeenRecord;
use crate::tables::Tables;
use arrayvec::ArrayVec;
use mufom_expr::{Postfix, Token};
use mufom_names::{Note, Public};
use mufom_numbers::{Bytes, List, NoMemory, Reason};
use mufom_records::Record;
use mufom_sections::IndexTable;
use std::alloc::Global;
use std::mem;

/// Where an error in a public is reported. Offsets are in bytes from the start of the file.
#[derive(Clone, Copy, Debug, PartialEq, Eq)]
pub(crate) enum PublicMark {
    /// No value is stated yet: at the offset of the declaration.
    Declared(u32),
    /// A value is stated: at the offset of the record that states it.
    Valued(u32),
}

/// The publics read so far, and the mark of each at the same position. Variables in values still have the indexes of the
/// file.
#[derive(Debug, Drop)]
pub(crate) struct Publics {
    pub list: Vec<Public>,
    pub marks: Vec<PublicMark>,
}

// ---- in place

// Gives the public at a position its value.
fn set_value(publics: &mut Vec<Public>, position: usize, value: Postfix)
    requires { position < length publics.old.items }
    ensures { (public : name_public.Public) → slice_get publics.old.items position ≡ Some public
        → publics.new.items ≡ slice_set publics.old.items position (record public { value = value }) }
{
    publics[position].value = value;
}

// Adds a note to the public at a position.
fn push_note(publics: &mut Vec<Public>, position: usize, note: Note) -> Result<(), NoMemory>
    requires { position < length publics.old.items }
    ensures { OnOk result ((public : name_public.Public) → slice_get publics.old.items position ≡ Some public
        → publics.new.items ≡ slice_set publics.old.items position (record public { notes = public.notes ++ note ∷ [] })) }
{
    publics[position].notes.push(note)
}

// Keeps the offset of the record that states the value of the public at a position.
fn set_valued(marks: &mut Vec<PublicMark>, position: usize, start: u32)
    requires { position < length marks.old.items }
    ensures { marks.new.items ≡ slice_set marks.old.items position (Valued start) }
{
    marks[position] = PublicMark::Valued(start);
}

/// A note with a copy of its numbers.
pub(crate) fn note(
    type_index: u64,
    attribute: u64,
    numbers: &ArrayVec<u64, 4>,
) -> Result<Note, NoMemory>
    ensures { IfOk result (λ note. note ≡ gathered.note_of type_index attribute numbers.now) }
{
    Ok(Note {
        type_index,
        attribute,
        numbers: numbers.clone()?,
    })
}

impl Publics {
    /// No publics. Does not allocate.
    pub(crate) fn new(alloc: Global) -> Publics
        ensures { ArePublicsOf result [] }
    {
        Publics {
            list: Vec::new(alloc),
            marks: Vec::new(alloc),
        }
    }

    // Adds a public about which nothing was stated yet. `start` is the offset of its declaration.
    fn add(&mut self, alloc: Global, name: Bytes, start: u32) -> Result<(), NoMemory>
        ensures list { OnOk result (self.new.list.items ≡ self.old.list.items ++ record { name = name; value = number 0; notes = [] } ∷ []) }
        ensures marks { OnOk result (self.new.marks.items ≡ self.old.marks.items ++ Declared start ∷ []) }
    {
        self.marks.push(PublicMark::Declared(start))?;
        self.list.push(Public {
            name,
            value: Postfix::single(Token::Number(0)),
            notes: List::new(alloc),
        })?;
        Ok(())
    }

    // Gives the public at a position its value. `start` is the offset of the record that states it.
    fn give(&mut self, position: usize, start: u32, value: Postfix)
        requires list { position < length self.old.list.items }
        requires marks { position < length self.old.marks.items }
        ensures list { (public : name_public.Public) → slice_get self.old.list.items position ≡ Some public
            → self.new.list.items ≡ slice_set self.old.list.items position (record public { value = value }) }
        ensures marks { self.new.marks.items ≡ slice_set self.old.marks.items position (Valued start) }
    {
        set_value(&mut self.list, position, value);
        set_valued(&mut self.marks, position, start);
    }

    /// Adds what a record states about the publics. `value` is the public's value, if the record states one.
    pub(crate) fn take(
        &mut self,
        alloc: Global,
        table: &IndexTable,
        seen: &SeenRecord,
        value: Option<Postfix>,
    ) -> Result<(), NoMemory>
        requires own { HasOwnParts seen.now }
        requires value { records.is_public_value seen.now.row.now ≡ true → value ≡ records.tree_of_record (record_of_seen seen.now) }
        requires start { seen.now.start < 2 ^ 32 }
        requires known { (all : List OffsetRecord) × IsBefore self.old table.now all (record_of_seen seen.now) }
        ensures { OnOk result ((all : List OffsetRecord) → IsBefore self.old table.now all (record_of_seen seen.now)
            → ArePublicsOf self.new (all ++ placed seen.now ∷ [])) }
    {
        match seen.row {
            Record::PublicName(_, name) => {
                let name = seen.copy_text(alloc, *name)?;
                self.add(alloc, name, seen.start as u32)
            }
            Record::PublicValue(index, _) => {
                let position = declared_position(table, *index);
                self.give(position, seen.start as u32, stated(value));
                Ok(())
            }
            Record::PublicNote(index, type_index, attribute, numbers) => {
                let position = declared_position(table, *index);
                let note = note(*type_index, *attribute, numbers)?;
                push_note(&mut self.list, position, note)
            }
            _ => Ok(()),
        }
    }

    /// The publics, with positions in place of the indexes of the file. Does not allocate.
    pub(crate) fn into_placed(self, tables: Tables) -> List<Public>
        ensures { result ≡ map (placed_public (indexes_by tables)) self.list.items }
    {
        List::from_vec(place_all(&tables, self.list))
    }

    /// The error in the publics with the smallest offset, if there is one: a public without a value, or a value with a
    /// variable whose index is not declared.
    pub(crate) fn fault(&self, tables: &Tables) -> Option<ReadRefusal>
        requires { length self.now.list.items ≡ length self.now.marks.items }
        ensures { option_map as_fault result ≡ least_from None (public_faults tables.now self.now.marks.items self.now.list.items) }
    {
        let mut fault = None;
        for (position, public) in self.list.iter().enumerate() {
            fault = earlier(
                fault,
                public_fault(tables, self.marks[position], &public.value),
            );
        }
        fault
    }
}

// Replaces the indexes of the file by positions in the value of a public.
fn place(public: &mut Public, tables: &Tables)
    ensures { public.new ≡ placed_public (indexes_by tables.now) public.old }
{
    let value = mem::replace(&mut public.value, Postfix::single(Token::Number(0)));
    public.value = value.renamed(&Positions { tables });
}

// Replaces the indexes of the file by positions in the values of all publics.
fn place_all(tables: &Tables, mut publics: Vec<Public>) -> Vec<Public>
    ensures { result.items ≡ map (placed_public (indexes_by tables.now)) publics.items }
{
    for public in publics.iter_mut() {
        place(public, tables);
    }
    publics
}

fn refusal(place: u32, reason: Reason) -> ReadRefusal
    ensures { as_fault result ≡ (place, reason) }
{
    ReadRefusal {
        offset: place as u64,
        reason,
    }
}

// The error of a public with this mark and value, if there is one.
fn public_fault(tables: &Tables, mark: PublicMark, value: &Postfix) -> Option<ReadRefusal>
    ensures { option_map as_fault result ≡ value_fault tables.now value.now mark }
{
    match mark {
        PublicMark::Declared(start) => Some(refusal(start, Reason::MissingValue)),
        PublicMark::Valued(start) => {
            if has_unknown_variable(tables, value) {
                Some(refusal(start, Reason::UnknownIndex))
            } else {
                None
            }
        }
    }
}

// The error with the smaller offset.
fn earlier(first: Option<ReadRefusal>, second: Option<ReadRefusal>) -> Option<ReadRefusal>
    ensures { option_map as_fault result ≡ earlier (option_map as_fault first) (option_map as_fault second) }
{
    match first {
        None => second,
        Some(a) => match second {
            None => Some(a),
            Some(b) => {
                if b.offset < a.offset {
                    Some(b)
                } else {
                    Some(a)
                }
            }
        },
    }
}

/// The position of an index in the table, which must have it.
pub(crate) fn declared_position(table: &IndexTable, index: u32) -> usize
    requires { list_any (λ i. i == index) table.now ≡ true }
    ensures there { slice_get table.now result ≡ Some index }
    ensures within { result < length table.now }
    ensures distinct { IsDistinct nat_eq table.now }
{
    match table.position(index) {
        Some(position) => position as usize,
        None => unreachable!(),
    }
}

/// The expression, which must be present.
pub(crate) fn stated(value: Option<Postfix>) -> Postfix
    requires { (tree : Tree) × (value ≡ Some tree) }
    ensures { value ≡ Some result }
{
    match value {
        Some(value) => value,
        None => unreachable!(),
    }
}
