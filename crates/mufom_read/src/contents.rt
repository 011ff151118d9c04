//! The parts of the module, as far as the records read so far state them.

ghost use Rattle.std.specs.Prelude.{◌≡◌, ◌<◌, ◌^◌, ◌++◌, ◌∷◌, [], false, List, OnOk};
ghost use Rattle.mufom_module.specs.SpelledRecords as records;
ghost use Rattle.mufom_judging.specs.Prefixes.{OffsetRecord};
ghost use Rattle.mufom_judging.specs.Faults as faults;
ghost use Rattle.mufom_read.specs.Kept.{record_of_seen, placed, HasOwnParts};
ghost use Rattle.mufom_read.specs.DebugSoFar.{opened};
ghost use Rattle.mufom_judging.specs.RecordFields.{HasKind};
ghost use Rattle.mufom_read.specs.ContentsSoFar.{AreContentsOf, AreContentsBefore};

use crate::debug::Debugs;
use crate::header::Header;
use crate::loads::Loads;
use crate::part::{Part, part_of};
use crate::positions::renamed;
use crate::publics::Publics;
use crate::references::take as take_reference;
use crate::sections::Sections;
use crate::seen::SeenRecord;
use crate::tables::Tables;
use mufom_expr::Postfix;
use mufom_names::Reference;
use mufom_numbers::NoMemory;
use std::alloc::Global;

/// The parts of the module so far, each from the records of one part of the file.
#[derive(Debug, Drop)]
pub(crate) struct Contents {
    pub header: Header,
    pub sections: Sections,
    pub publics: Publics,
    pub references: Vec<Reference>,
    pub debug: Debugs,
    pub loads: Loads,
    /// The start address, with positions in place of the indexes of the file.
    pub start: Option<Postfix>,
}

impl Contents {
    /// Empty contents, before any record. Does not allocate.
    pub(crate) fn new(alloc: Global) -> Contents
        ensures { AreContentsOf result [] }
    {
        Contents {
            header: Header::new(),
            sections: Sections::new(alloc),
            publics: Publics::new(alloc),
            references: Vec::new(alloc),
            debug: Debugs::new(alloc),
            loads: Loads::new(alloc),
            start: None,
        }
    }

    /// Adds what a record states to the part that the record belongs to. `tables` is what the records before it declare, and
    /// `tree` is its expression. The other parts do not change.
    pub(crate) fn take(
        &mut self,
        alloc: Global,
        tables: &Tables,
        seen: &SeenRecord,
        tree: Option<Postfix>,
    ) -> Result<(), NoMemory>
        requires own { HasOwnParts seen.now }
        requires tree { tree ≡ records.tree_of_record (record_of_seen seen.now) }
        requires start { seen.now.start < 2 ^ 32 }
        requires kind { HasKind seen.now.row.now }
        requires nested { faults.ends_badly (opened self.old.debug) seen.now.row.now ≡ false }
        requires known { (all : List OffsetRecord) × AreContentsBefore self.old tables.now all (record_of_seen seen.now) }
        ensures { OnOk result ((all : List OffsetRecord) → AreContentsBefore self.old tables.now all (record_of_seen seen.now)
            → AreContentsOf self.new (all ++ placed seen.now ∷ [])) }
    {
        match part_of(seen.row) {
            None => self.header.take(alloc, seen),
            Some(Part::Section) => self.sections.take(alloc, &tables.sections, seen),
            Some(Part::External) => {
                self.publics.take(alloc, &tables.publics, seen, tree)?;
                take_reference(alloc, &mut self.references, &tables.references, seen)
            }
            Some(Part::Debug) => self.debug.take(alloc, tables, seen, tree),
            Some(Part::Data) => {
                let maus = self.header.maus();
                self.loads.take(alloc, tables, maus, seen, tree)
            }
            Some(Part::Trailer) => {
                self.start = renamed(tables, tree);
                Ok(())
            }
            Some(Part::Extension) => Ok(()),
            Some(Part::Environment) => Ok(()),
            Some(Part::End) => Ok(()),
        }
    }
}
