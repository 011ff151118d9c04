//! What the records of the header state, and their errors.

ghost use Rattle.std.specs.Prelude.{◌≡◌, ◌++◌, ◌∷◌, [], Some, None, option_map, nat_lt, OnOk};
ghost use Rattle.std.specs.List.{list_any};
ghost use Rattle.std.specs.Option.{option_or};
ghost use Rattle.mufom_records.specs.Parts.{LiesIn};
ghost use Rattle.mufom_judging.specs.Faults as faults;
ghost use Rattle.mufom_read.specs.Kept.{as_fault, first_or, record_of_seen, HasOwnParts};
ghost use Rattle.mufom_read.specs.HeaderSoFar.{names_at, layout_from, header_with, header_after};
ghost use Rattle.mufom_judging.specs.RecordFields.{order_of};
ghost use Rattle.mufom_read.specs.LoadsSoFar.{units_or};

use crate::part::first_present;
use crate::refusal::ReadRefusal;
use crate::seen::SeenRecord;
use mufom_module::Order;
use mufom_numbers::{Bytes, NoMemory, Reason, Span, codes};
use mufom_records::Record;
use std::alloc::Global;

// The largest number of addressable units (MAUs) in an address.
const MOST_UNITS: u64 = 8;

// The MAUs of an address until a descriptor is read. No load comes before it, so any value would do.
const ANY_UNITS: u8 = 2;

/// The names in the module's first record.
#[derive(Debug, Drop)]
pub(crate) struct Names {
    pub processor: Bytes,
    pub name: Bytes,
}

/// What the address descriptor states.
#[derive(Clone, Copy, Debug, PartialEq, Eq)]
pub(crate) struct Addressing {
    /// The number of MAUs in an address.
    pub maus: u8,
    pub order: Order,
}

/// What the header states, as far as it was read so far.
#[derive(Debug, Drop)]
pub(crate) struct Header {
    pub names: Option<Names>,
    pub layout: Option<Addressing>,
}

// The byte order that a letter selects: the most significant byte first if there is no letter.
fn order_of(letter: Option<u8>) -> Order
    ensures { result ≡ order_of letter }
{
    match letter {
        Some(letter) => {
            if letter == codes::LETTER_L {
                Order::Least
            } else {
                Order::Most
            }
        }
        None => Order::Most,
    }
}

// The MAUs of an address, capped at 8, and the byte order.
fn layout_of(maus: u64, letter: Option<u8>) -> Addressing
    ensures { result ≡ layout_from maus letter }
{
    Addressing {
        maus: maus.min(MOST_UNITS) as u8,
        order: order_of(letter),
    }
}

impl Header {
    /// A header before any record of it was read.
    pub(crate) fn new() -> Header
        ensures { result ≡ header_with None None }
    {
        Header {
            names: None,
            layout: None,
        }
    }

    /// The number of MAUs in an address.
    pub(crate) fn maus(&self) -> u8
        ensures { result ≡ units_or (option_map (λ l. l.maus) self.now.layout) }
    {
        match self.layout {
            Some(layout) => layout.maus,
            None => ANY_UNITS,
        }
    }

    // Keeps the names, unless there are some already.
    fn keep_names(
        &mut self,
        alloc: Global,
        seen: &SeenRecord,
        processor: Span,
        name: Span,
    ) -> Result<(), NoMemory>
        requires processor { LiesIn seen.now.bytes.now processor }
        requires name { LiesIn seen.now.bytes.now name }
        ensures { OnOk result (self.new ≡ header_with (option_or self.old.names (Some (names_at (record_of_seen seen.now) processor name)))
            self.old.layout) }
    {
        if self.names.is_none() {
            self.names = Some(Names {
                processor: seen.copy_text(alloc, processor)?,
                name: seen.copy_text(alloc, name)?,
            });
        }
        Ok(())
    }

    // Keeps the layout, unless there is one already.
    fn keep_layout(&mut self, layout: Addressing)
        ensures { self.new ≡ header_with self.old.names (option_or self.old.layout (Some layout)) }
    {
        if self.layout.is_none() {
            self.layout = Some(layout);
        }
    }

    /// Adds what a record of the header states. The first statement counts: a later record never changes it.
    pub(crate) fn take(&mut self, alloc: Global, seen: &SeenRecord) -> Result<(), NoMemory>
        requires { HasOwnParts seen.now }
        ensures { OnOk result (self.new ≡ header_after self.old (record_of_seen seen.now)) }
    {
        match seen.row {
            Record::ModuleBegin(processor, name) => self.keep_names(alloc, seen, *processor, *name),
            Record::Descriptor(_, maus, letter) => {
                self.keep_layout(layout_of(*maus, *letter));
                Ok(())
            }
            _ => Ok(()),
        }
    }
}

// ---- errors

fn is_below_any(earlier: &[u64], offset: u64) -> bool
    ensures { result ≡ list_any (λ e. nat_lt offset e) earlier.now }
{
    earlier.iter().any(|other| offset < *other)
}

// Whether the offset is not 0 and below an earlier one, or is the eighth one (that of the module's end) and 0.
fn is_out_of_order(earlier: &[u64], offset: u64) -> bool
    ensures { result ≡ faults.is_out_of_order earlier.now offset }
{
    offset != 0 && is_below_any(earlier, offset) || earlier.len() == 7 && offset == 0
}

// The first of the two numbers that is not 0.
fn first_or(first: u64, second: u64) -> u64
    ensures { result ≡ first_or first second }
{
    match first {
        0 => second,
        first => first,
    }
}

// Whether this is the eighth offset, and the first of the eight that is not 0 differs from `end`, the offset after the header.
fn leaves_gap(earlier: &[u64], offset: u64, end: u64) -> bool
    ensures { result ≡ faults.leaves_gap (earlier.now ++ offset ∷ []) end }
{
    earlier.len() == 7 && first_or(first_present(earlier), offset) != end
}

// The error of a part's offset after the earlier ones, if there is one. Its record is at `start..end` in the file.
fn offset_fault(earlier: &[u64], offset: u64, start: u64, end: u64) -> Option<ReadRefusal>
    ensures { option_map as_fault result ≡ faults.offset_fault earlier.now offset start end }
{
    if is_out_of_order(earlier, offset) {
        let reason = Reason::OffsetOrder;
        return Some(ReadRefusal {
            offset: start,
            reason,
        });
    }
    if leaves_gap(earlier, offset, end) {
        let reason = Reason::PartGap;
        return Some(ReadRefusal {
            offset: end,
            reason,
        });
    }
    None
}

// Whether an addressable unit does not have 8 bits, or an address does not have 1 to 8 units.
fn is_bad_descriptor(record: &Record) -> bool
    ensures { result ≡ faults.is_bad_descriptor «record».now }
{
    match record {
        Record::Descriptor(bits, maus, _) => *bits != 8 || *maus < 1 || *maus > 8,
        _ => false,
    }
}

/// The error of a record of the header, if there is one. The record is at `start..end` in the file.
pub(crate) fn header_fault(
    earlier: &[u64],
    record: &Record,
    start: u64,
    end: u64,
) -> Option<ReadRefusal>
    ensures { option_map as_fault result ≡ faults.header_fault earlier.now start end «record».now }
{
    if let Record::Offset(_, offset) = record {
        return offset_fault(earlier, *offset, start, end);
    }
    if is_bad_descriptor(record) {
        let reason = Reason::BadDescriptor;
        return Some(ReadRefusal {
            offset: start,
            reason,
        });
    }
    None
}
