//! The parts of a file, and which of them a byte is in.

ghost use Rattle.std.specs.Prelude.{◌≡◌, option_map};
ghost use Rattle.mufom_judging.specs.Prefixes.{first_present, part_among, parts_in_order, is_raw};
ghost use Rattle.mufom_module.specs.RecordParts as parts;
ghost use Rattle.mufom_read.specs.PartsOfCode.{as_part, as_parts, as_extent};

use mufom_records::Record;

/// The parts of a file in order, and the record that ends it.
#[derive(Clone, Copy, Debug, PartialEq, Eq)]
pub(crate) enum Part {
    Extension,
    Environment,
    Section,
    External,
    Debug,
    Data,
    Trailer,
    End,
}

/// A part, the offset of its first byte, and the offset of the byte after it.
#[derive(Clone, Copy, Debug, PartialEq, Eq)]
pub(crate) struct Extent {
    pub part: Part,
    pub from: u64,
    pub to: u64,
}

const PARTS: [Part; 7] = [
    Part::Extension,
    Part::Environment,
    Part::Section,
    Part::External,
    Part::Debug,
    Part::Data,
    Part::Trailer,
];

/// The first offset that is not 0, or 0 if all are.
pub(crate) fn first_present(offsets: &[u64]) -> u64
    ensures { result ≡ first_present offsets.now }
{
    match offsets {
        [] => 0,
        [0, after @ ..] => first_present(after),
        [first, ..] => *first,
    }
}

// The part that contains the byte at `at`, among these parts with their offsets.
fn part_among(parts: &[Part], offsets: &[u64], at: u64) -> Option<Extent>
    ensures { option_map as_extent result ≡ part_among (as_parts parts.now) offsets.now at }
{
    match parts {
        [] => None,
        [part, parts @ ..] => match offsets {
            [] => None,
            [from, offsets @ ..] => {
                let to = first_present(offsets);
                if *from != 0 && *from <= at && at < to {
                    Some(Extent {
                        part: *part,
                        from: *from,
                        to,
                    })
                } else {
                    part_among(parts, offsets, at)
                }
            }
        },
    }
}

/// The part that contains the byte at offset `at`, by the offsets of the header.
pub(crate) fn part_at(offsets: &[u64], at: u64) -> Option<Extent>
    ensures { option_map as_extent result ≡ part_among parts_in_order offsets.now at }
{
    part_among(&PARTS, offsets, at)
}

/// Whether the part's bytes are not read as records: the extension, the environment, and a debug part that
/// is skipped.
pub(crate) fn is_raw(reads_debug: bool, part: Part) -> bool
    ensures { result ≡ is_raw reads_debug (as_part part) }
{
    match part {
        Part::Extension => true,
        Part::Environment => true,
        Part::Debug => !reads_debug,
        Part::Section => false,
        Part::External => false,
        Part::Data => false,
        Part::Trailer => false,
        Part::End => false,
    }
}

/// The part that a record belongs to. Records of the header belong to none.
pub(crate) fn part_of(record: &Record) -> Option<Part>
    ensures { option_map as_part result ≡ parts.part_of «record».now }
{
    match record {
        Record::ModuleBegin(..) => None,
        Record::Descriptor(..) => None,
        Record::Offset(..) => None,
        Record::ModuleEnd => Some(Part::End),
        Record::SectionType(..) => Some(Part::Section),
        Record::Alignment(..) => Some(Part::Section),
        Record::SectionSize(..) => Some(Part::Section),
        Record::SectionBase(..) => Some(Part::Section),
        Record::PublicName(..) => Some(Part::External),
        Record::PublicValue(..) => Some(Part::External),
        Record::PublicNote(..) => Some(Part::External),
        Record::ReferenceName(..) => Some(Part::External),
        Record::WeakReference(..) => Some(Part::External),
        Record::ReferenceNote(..) => Some(Part::External),
        Record::BlockBegin(..) => Some(Part::Debug),
        Record::BlockEnd(_) => Some(Part::Debug),
        Record::DebugName(..) => Some(Part::Debug),
        Record::DebugValue(..) => Some(Part::Debug),
        Record::DebugNote(..) => Some(Part::Debug),
        Record::SetSection(_) => Some(Part::Data),
        Record::SetPc(..) => Some(Part::Data),
        Record::Constant(_) => Some(Part::Data),
        Record::Relocate => Some(Part::Data),
        Record::ConstantItem(_) => Some(Part::Data),
        Record::FieldItem(..) => Some(Part::Data),
        Record::RepeatConstant(..) => Some(Part::Data),
        Record::RepeatRelocate(_) => Some(Part::Data),
        Record::Start(_) => Some(Part::Trailer),
    }
}

/// Whether the record belongs to the part.
pub(crate) fn stands_in(part: Part, record: &Record) -> bool
    ensures { result ≡ parts.stands_in (as_part part) «record».now }
{
    part_of(record) == Some(part)
}
