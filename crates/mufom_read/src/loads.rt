//! The loads read so far, and the record that may still get items.

ghost use Rattle.std.specs.Prelude.{◌≡◌, [], ◌∷◌, ◌++◌, IfOk, OnOk, option_map, Some, true, false};
ghost use Rattle.mufom_expr.specs.Tree.{Tree};
ghost use Rattle.mufom_expr.specs.Spelled.{Indexes};
ghost use Rattle.mufom_module.specs.SpelledRecords as records;
ghost use Rattle.mufom_module.specs.RecordParts as parts;
ghost use Rattle.mufom_module.specs.Gathered as gathered;
ghost use Rattle.mufom_read.specs.Kept.{indexes_by, record_of_seen, HasOwnParts};
ghost use Rattle.mufom_read.specs.LoadsSoFar.{loads_and, no_loads, closed, with_item, opened_by, is_item, loads_at_once, with_load};
ghost use Rattle.mufom_read.specs.declared.loads.OpenLoad.TheVariants as open_load;

use crate::positions::{position_in, renamed};
use crate::seen::SeenRecord;
use crate::tables::Tables;
use mufom_expr::Postfix;
use mufom_loads::{Item, Load};
use mufom_numbers::{List, NoMemory};
use mufom_records::Record;
use std::alloc::Global;
use std::mem;

/// The record that further items would belong to.
#[derive(Debug, Drop)]
pub(crate) enum OpenLoad {
    Nothing,
    /// LR: each item is a load of its own.
    Relocate,
    /// RE with LR: the repeat count, and its items so far.
    Repeat { count: u64, items: List<Item> },
}

/// The loads read so far, and the record that may still get items.
#[derive(Debug, Drop)]
pub(crate) struct Loads {
    pub loads: List<Load>,
    pub awaiting: OpenLoad,
}

// Whether the record is an item.
fn is_item(record: &Record) -> bool
    ensures { result ≡ is_item «record».now }
{
    match record {
        Record::ConstantItem(_) => true,
        Record::FieldItem(..) => true,
        _ => false,
    }
}

// The item that the record states, with this value. A field without a size has the size of an address.
fn item_of(
    alloc: Global,
    maus: u8,
    record: &SeenRecord,
    value: Option<Postfix>,
) -> Result<Item, NoMemory>
    requires own { HasOwnParts «record».now }
    requires item { is_item «record».now.row.now ≡ true }
    requires value { (ix : Indexes)
        × (value ≡ option_map (records.positioned ix) (records.tree_of_record (record_of_seen «record».now))) }
    ensures { IfOk result (λ item. (ix : Indexes)
        → value ≡ option_map (records.positioned ix) (records.tree_of_record (record_of_seen «record».now))
        → gathered.item_by ix maus (record_of_seen «record».now) «record».now.row.now ≡ Some item) }
{
    match record.row {
        Record::ConstantItem(run) => {
            let bytes = record.copy_text(alloc, *run)?;
            Ok(Item::Literal(bytes))
        }
        Record::FieldItem(kind, _, size) => match value {
            Some(value) => Ok(Item::Field {
                kind: *kind,
                value,
                size: size.unwrap_or(maus),
            }),
            None => unreachable!(),
        },
        _ => unreachable!(),
    }
}

// The load that sets the program counter of the section with this index to a value.
fn set_pc(tables: &Tables, index: u32, value: Option<Postfix>) -> Load
    requires { (tree : Tree) × (value ≡ Some tree) }
    ensures { (tree : Tree) → value ≡ Some tree → result ≡ Load.SetPc (records.position_in tables.now.sections index) tree }
{
    let section = position_in(&tables.sections, index);
    match value {
        Some(value) => Load::SetPc { section, value },
        None => unreachable!(),
    }
}

// Adds the loads that a record states at once. The record is not an item. An LR, alone or after RE, adds none here: its
// items follow.
fn add_loads(
    alloc: Global,
    tables: &Tables,
    loads: &mut List<Load>,
    record: &SeenRecord,
    value: Option<Postfix>,
) -> Result<(), NoMemory>
    requires own { HasOwnParts «record».now }
    requires value { parts.stands_in parts.data_part «record».now.row.now ≡ true → value
        ≡ option_map (records.positioned (indexes_by tables.now)) (records.tree_of_record (record_of_seen «record».now)) }
    ensures { OnOk result (loads.new ≡ loads.old
        ++ loads_at_once (indexes_by tables.now) (record_of_seen «record».now) «record».now.row.now) }
{
    match record.row {
        Record::SetSection(index) => {
            loads.push(Load::SetSection(position_in(&tables.sections, *index)))
        }
        Record::SetPc(index, _) => loads.push(set_pc(tables, *index, value)),
        Record::Constant(run) => {
            let bytes = record.copy_text(alloc, *run)?;
            loads.push(Load::One(Item::Literal(bytes)))
        }
        Record::RepeatConstant(count, run) => {
            let bytes = record.copy_text(alloc, *run)?;
            let items = List::single(alloc, Item::Literal(bytes))?;
            loads.push(Load::Repeat {
                count: *count,
                items,
            })
        }
        _ => Ok(()),
    }
}

impl Loads {
    /// No loads. Does not allocate.
    pub(crate) fn new(alloc: Global) -> Loads
        ensures { result ≡ no_loads }
    {
        Loads {
            loads: List::new(alloc),
            awaiting: OpenLoad::Nothing,
        }
    }

    /// All loads, once no further item can follow.
    pub(crate) fn into_closed(mut self) -> Result<List<Load>, NoMemory>
        ensures { IfOk result (λ loads. loads ≡ closed self) }
    {
        self.close()?;
        let Loads { loads, .. } = self;
        Ok(loads)
    }

    // Ends the record that could get items: no further item follows.
    fn close(&mut self) -> Result<(), NoMemory>
        ensures { OnOk result (self.new ≡ loads_and (closed self.old) open_load.Nothing) }
    {
        match &self.awaiting {
            OpenLoad::Repeat { .. } => self.close_repeat(),
            OpenLoad::Relocate => {
                self.awaiting = OpenLoad::Nothing;
                Ok(())
            }
            OpenLoad::Nothing => Ok(()),
        }
    }

    // The same, if the record may be a repeat.
    #[inline(never)]
    fn close_repeat(&mut self) -> Result<(), NoMemory>
        ensures { OnOk result (self.new ≡ loads_and (closed self.old) open_load.Nothing) }
    {
        match mem::replace(&mut self.awaiting, OpenLoad::Nothing) {
            OpenLoad::Repeat { count, items } => self.loads.push(Load::Repeat { count, items }),
            OpenLoad::Relocate => Ok(()),
            OpenLoad::Nothing => Ok(()),
        }
    }

    // If the record is an LR, alone or after RE, items may follow from now on.
    fn open(&mut self, alloc: Global, record: &Record)
        requires { self.old.awaiting ≡ open_load.Nothing }
        ensures { self.new ≡ loads_and self.old.loads (opened_by «record».now) }
    {
        match record {
            Record::Relocate => self.awaiting = OpenLoad::Relocate,
            Record::RepeatRelocate(count) => {
                self.awaiting = OpenLoad::Repeat {
                    count: *count,
                    items: List::new(alloc),
                }
            }
            _ => {}
        }
    }

    // Adds an item to the record that it belongs to.
    fn add_item(&mut self, item: Item) -> Result<(), NoMemory>
        ensures { OnOk result (self.new ≡ with_item self.old.loads self.old.awaiting item) }
    {
        match &mut self.awaiting {
            OpenLoad::Repeat { items, .. } => items.push(item),
            OpenLoad::Relocate => self.loads.push(Load::One(item)),
            OpenLoad::Nothing => Ok(()),
        }
    }

    // Takes a record that is not an item, with this value.
    fn take_other(
        &mut self,
        alloc: Global,
        tables: &Tables,
        record: &SeenRecord,
        value: Option<Postfix>,
    ) -> Result<(), NoMemory>
        requires own { HasOwnParts «record».now }
        requires value { parts.stands_in parts.data_part «record».now.row.now ≡ true → value
            ≡ option_map (records.positioned (indexes_by tables.now)) (records.tree_of_record (record_of_seen «record».now)) }
        ensures { OnOk result (self.new ≡ loads_and
            (closed self.old ++ loads_at_once (indexes_by tables.now) (record_of_seen «record».now) «record».now.row.now)
            (opened_by «record».now.row.now)) }
    {
        self.close()?;
        self.open(alloc, record.row);
        add_loads(alloc, tables, &mut self.loads, record, value)
    }

    /// Adds what a record states of the loads. `tables` has the indexes that the records before it declare, and `maus` is the
    /// number of MAUs in an address. If the record is of the data part, `tree` is its expression, over the indexes of the file.
    pub(crate) fn take(
        &mut self,
        alloc: Global,
        tables: &Tables,
        maus: u8,
        record: &SeenRecord,
        tree: Option<Postfix>,
    ) -> Result<(), NoMemory>
        requires own { HasOwnParts «record».now }
        requires tree { parts.stands_in parts.data_part «record».now.row.now ≡ true
            → tree ≡ records.tree_of_record (record_of_seen «record».now) }
        ensures { OnOk result (self.new ≡ with_load (indexes_by tables.now) maus self.old (record_of_seen «record».now)) }
    {
        let value = renamed(tables, tree);
        if is_item(record.row) {
            let item = item_of(alloc, maus, record, value)?;
            self.add_item(item)
        } else {
            self.take_other(alloc, tables, record, value)
        }
    }
}
