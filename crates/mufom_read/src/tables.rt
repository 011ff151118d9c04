//! Tables of the indexes that records declare, and of what they may state only once.

ghost use Rattle.std.specs.Prelude.{◌≡◌, ◌++◌, ◌∷◌, [], ◌<◌, ◌^◌, ◌-◌, ◌==◌, false, true, length, OnOk};
ghost use Rattle.std.specs.List.{list_any};
ghost use Rattle.mufom_expr.specs.Spelled.{list_of};
ghost use Rattle.mufom_module.specs.SpelledRecords as records;
ghost use Rattle.mufom_read.specs.Kept.{entries_in, indexes_by, tables_of, with_row, is_new, HasRoom};

use mufom_expr::Letter;
use mufom_numbers::NoMemory;
use mufom_records::Record;
use mufom_sections::IndexTable;
use std::alloc::Global;

/// The indexes that records declare or state something about, each table in the order of the file.
#[derive(Debug, Drop)]
pub(crate) struct Tables {
    pub sections: IndexTable,
    pub publics: IndexTable,
    pub references: IndexTable,
    pub debug_names: IndexTable,
    /// The sections with an alignment. `sizes` and `bases` are those with a size and with a base.
    pub alignments: IndexTable,
    pub sizes: IndexTable,
    pub bases: IndexTable,
    /// The publics with a value.
    pub values: IndexTable,
    /// The references that are weak.
    pub weaknesses: IndexTable,
    /// The current section, which the last SB set.
    pub current: Option<u32>,
    pub has_start: bool,
}

/// Whether the table has the index.
pub(crate) fn has(table: &IndexTable, index: u32) -> bool
    ensures { result ≡ list_any (λ i. i == index) table.now }
{
    table.position(index).is_some()
}

// Adds an index that the table does not have yet.
fn add(table: &mut IndexTable, index: u32) -> Result<(), NoMemory>
    requires room { length table.old < 2 ^ 32 - 1 }
    requires new { list_any (λ i. i == index) table.old ≡ false }
    ensures { OnOk result (table.new ≡ table.old ++ index ∷ []) }
{
    table.add_new(index)?;
    Ok(())
}

impl Tables {
    /// Empty tables. Does not allocate.
    pub(crate) fn new(alloc: Global) -> Tables
        ensures { result ≡ tables_of [] }
    {
        Tables {
            sections: IndexTable::new(alloc),
            publics: IndexTable::new(alloc),
            references: IndexTable::new(alloc),
            debug_names: IndexTable::new(alloc),
            alignments: IndexTable::new(alloc),
            sizes: IndexTable::new(alloc),
            bases: IndexTable::new(alloc),
            values: IndexTable::new(alloc),
            weaknesses: IndexTable::new(alloc),
            current: None,
            has_start: false,
        }
    }

    /// Adds what the next record declares or states.
    pub(crate) fn add(&mut self, record: &Record) -> Result<(), NoMemory>
        requires room { HasRoom self.old }
        requires new { is_new self.old «record».now ≡ true }
        ensures { OnOk result (self.new ≡ with_row self.old «record».now) }
    {
        match record {
            Record::SectionType(i, ..) => add(&mut self.sections, *i),
            Record::PublicName(i, _) => add(&mut self.publics, *i),
            Record::ReferenceName(i, _) => add(&mut self.references, *i),
            Record::DebugName(i, _) => add(&mut self.debug_names, *i),
            Record::Alignment(i, ..) => add(&mut self.alignments, *i),
            Record::SectionSize(i, _) => add(&mut self.sizes, *i),
            Record::SectionBase(i, _) => add(&mut self.bases, *i),
            Record::PublicValue(i, _) => add(&mut self.values, *i),
            Record::WeakReference(i, ..) => add(&mut self.weaknesses, *i),
            Record::SetSection(i) => {
                self.current = Some(*i);
                Ok(())
            }
            Record::Start(_) => {
                self.has_start = true;
                Ok(())
            }
            _ => Ok(()),
        }
    }
}

/// The table of the entries that a variable with this letter refers to.
pub(crate) fn entries(tables: &Tables, letter: Letter) -> &IndexTable
    ensures kind { result.now ≡ entries_in tables.now (records.kind_of_letter letter) }
    ensures list { result.now ≡ list_of (indexes_by tables.now) letter }
{
    match letter {
        Letter::I => &tables.publics,
        Letter::X => &tables.references,
        Letter::L => &tables.sections,
        Letter::P => &tables.sections,
        Letter::R => &tables.sections,
        Letter::S => &tables.sections,
    }
}
