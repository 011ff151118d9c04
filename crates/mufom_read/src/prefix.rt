//! The records and unread bytes with which a stream begins, and the step after them.

ghost use Rattle.std.specs.Prelude.{◌≡◌, ◌≢◌, ◌+◌, ◌-◌, ◌≤◌, ◌<◌, [], ◌++◌, ◌∷◌, ℕ, Bool, true, false, ◌==◌, nat_lt, ◌&&◌, not, if◌then◌else◌};
ghost use Rattle.std.specs.Prelude.{Some, OnOk, List, length, take, None, option_map, IfOk, IsTrue, MatchOption};
ghost use Rattle.std.specs.List.{cons_option};
ghost use Rattle.mufom_module.specs.SpelledRecords as records;
ghost use Rattle.mufom_module.specs.RecordParts as parts;
ghost use Rattle.mufom_judging.specs.Prefixes as prefixes;
ghost use Rattle.mufom_judging.specs.Faults as faults;
ghost use Rattle.mufom_read.specs.PartsOfCode.{as_part, as_extent};
ghost use Rattle.mufom_read.specs.Kept.{record_of_seen, placed, HasOwnParts, HasOwnTokens, HasRoom, is_new, as_fault};
ghost use Rattle.mufom_read.specs.DebugSoFar.{opened};
ghost use Rattle.mufom_judging.specs.RecordFields.{HasKind};
ghost use Rattle.mufom_read.specs.ContentsSoFar.{AreContentsOf, AreContentsBefore, AreMarked};
ghost use Rattle.mufom_read.specs.PrefixOfCode.{IsPrefixOf, IsRead, IsRawPart, HasJudged, HasRaw, HasSkipped, IsPlacedWell, with_record, as_location};
ghost use Rattle.mufom_read.specs.PrefixOfCode.{next_location, is_inside, mode_at, end_at, HasTaken, IsStepTaken, HasAdvanced};
ghost use Rattle.mufom_read.specs.declared.prefix.Next.TheVariants as nexts;
ghost use Rattle.mufom_records.specs.Reading.{record_within};
ghost use Rattle.mufom_records.specs.declared.record.Mode.TheVariants as modes;
ghost use Rattle.mufom_module.specs.Grammar as grammar;
ghost use Rattle.mufom_module.specs.Grammar.{offset_in, file_limit};

use crate::contents::Contents;
use crate::header::header_fault;
use crate::part::{Extent, Part, is_raw, part_at, stands_in};
use crate::refusal::ReadRefusal;
use crate::rules::rule_broken;
use crate::seen::SeenRecord;
use crate::tables::Tables;
use crate::whole::whole_fault;
use mufom_expr::Postfix;
use mufom_numbers::{List, NoMemory, Reason, codes};
use mufom_records::{ExpressionTokens, Mode, ReadOptions, Record, Stop, read_record_before};
use std::alloc::Global;

// The position, from 0, of the last record of the header.
const LAST_OF_HEADER: u8 = 9;

/// What is kept of the records and bytes of a stream that were read so far and contain no error.
#[derive(Debug, Drop)]
pub(crate) struct Prefix {
    /// What the records state of the module.
    pub contents: Contents,
    pub tables: Tables,
    /// Whether items may follow the last record.
    pub awaits_items: bool,
    /// Whether the end of the module was read.
    pub ended: bool,
    /// The offsets in the header, as far as they were read.
    pub offsets: List<u64>,
    pub extension: Vec<u8>,
    pub environment: Vec<u8>,
    /// The length in bytes.
    pub size: u64,
    /// The location of the next byte.
    pub location: Location,
}

/// The location of the next byte.
#[derive(Clone, Copy, Debug, PartialEq, Eq)]
pub(crate) enum Location {
    /// In the header, after the given number of records.
    Header(u8),
    Part(Extent),
    /// Where the end of the module must be.
    End,
}

/// The result of reading on from a prefix.
#[derive(Clone, Copy, Debug, PartialEq, Eq)]
pub(crate) enum Next {
    /// This number of bytes was added to the prefix.
    Took(usize),
    /// More bytes are needed.
    More,
    Refused(ReadRefusal),
}

// The first `count` bytes.
fn prefix_of(bytes: &[u8], count: usize) -> &[u8]
    requires { count ≤ length bytes.now }
    ensures { result.now ≡ take count bytes.now }
{
    &bytes[..count]
}

// Whether the bytes begin with a number or an opening bracket, as an item of an LR does.
fn begins_item(rest: &[u8]) -> bool
    ensures { result ≡ parts.begins_item rest.now }
{
    match rest {
        [] => false,
        [0x00..=codes::LAST_NUMBER, ..] => true,
        [
            codes::OPEN_SIGNED | codes::OPEN_UNSIGNED | codes::OPEN_EITHER,
            ..
        ] => true,
        _ => false,
    }
}

// Whether items may follow the record.
fn opens_items(record: &Record) -> bool
    ensures { result ≡ parts.opens_items «record».now }
{
    match record {
        Record::Relocate => true,
        Record::RepeatRelocate(_) => true,
        Record::ConstantItem(_) => true,
        Record::FieldItem(..) => true,
        _ => false,
    }
}

// The record that the header must have after `count` records.
fn header_mode(count: u8) -> Mode
    ensures { result ≡ prefixes.header_mode count }
{
    match count {
        0 => Mode::Begin,
        1 => Mode::Descriptor,
        _ => Mode::Offset(count - 2),
    }
}

// Adds the offset that a record states, if it states one.
fn add_offset(offsets: &mut List<u64>, record: &Record) -> Result<(), NoMemory>
    ensures { OnOk result (offsets.new ≡ offsets.old ++ cons_option (offset_in «record».now) []) }
{
    match record {
        Record::Offset(_, offset) => offsets.push(*offset),
        _ => Ok(()),
    }
}

// The part of the location, if the part's bytes are not read as records.
fn raw_part(options: ReadOptions, place: Location) -> Option<Extent>
    ensures { MatchOption result (IsRead options place) (IsRawPart options place) }
{
    match place {
        Location::Header(_) => None,
        Location::Part(extent) => {
            if is_raw(options.debug, extent.part) {
                Some(extent)
            } else {
                None
            }
        }
        Location::End => None,
    }
}

// The mode of an item of an LR.
fn items_mode(options: ReadOptions) -> Mode
    ensures { result ≡ parts.items_mode options }
{
    if options.gnu {
        Mode::GnuItems
    } else {
        Mode::Items
    }
}

fn body_mode(options: ReadOptions, items: bool) -> Mode
    ensures { result ≡ (if items then parts.items_mode options else modes.Body) }
{
    if items {
        items_mode(options)
    } else {
        Mode::Body
    }
}

// W4: the offset of the debug part.
fn debug_offset(offsets: &[u64]) -> u64
    ensures { result ≡ grammar.debug_offset offsets.now }
{
    match offsets {
        [_, _, _, _, offset, ..] => *offset,
        _ => 0,
    }
}

// The number of bytes from an offset up to the debug part, if the records before that part end before its first
// byte, whatever that byte is.
fn bytes_to_debug(options: ReadOptions, offsets: &[u64], size: u64) -> Option<usize>
    ensures { result ≡ (if grammar.ends_before_debug options offsets.now && nat_lt size (grammar.debug_offset offsets.now)
        then Some (grammar.debug_offset offsets.now - size) else None) }
{
    if !options.gnu || options.debug {
        return None;
    }
    let end = debug_offset(offsets);
    if size < end {
        Some((end - size) as usize)
    } else {
        None
    }
}

// The first `count` bytes, or all if there are fewer.
fn at_most(bytes: &[u8], count: u64) -> &[u8]
    ensures { result.now ≡ take count bytes.now }
{
    if (bytes.len() as u64) <= count {
        bytes
    } else {
        &bytes[..count as usize]
    }
}

fn is_module_end(record: &Record) -> bool
    ensures { result ≡ prefixes.is_module_end «record».now }
{
    matches!(record, Record::ModuleEnd)
}

impl Prefix {
    /// The empty prefix. Does not allocate.
    pub(crate) fn new(alloc: Global) -> Prefix
        ensures { IsPrefixOf result [] }
    {
        Prefix {
            contents: Contents::new(alloc),
            tables: Tables::new(alloc),
            awaits_items: false,
            ended: false,
            offsets: List::new(alloc),
            extension: Vec::new(alloc),
            environment: Vec::new(alloc),
            size: 0,
            location: Location::Header(0),
        }
    }

    // The location of the byte after the prefix, found by the offsets. Used after the header only.
    fn find_location(&self) -> Location
        ensures { as_location result ≡ prefixes.location_by (prefixes.part_among prefixes.parts_in_order self.now.offsets self.now.size) }
    {
        match part_at(self.offsets.as_slice(), self.size) {
            Some(extent) => Location::Part(extent),
            None => Location::End,
        }
    }

    // Whether the byte after the prefix is still in the part that is kept as the location.
    fn stays_in_part(&self) -> bool
        ensures { IsTrue result → next_location (as_location self.now.location) self.now.offsets self.now.size
            ≡ as_location self.now.location }
    {
        match self.location {
            Location::Part(extent) => self.size < extent.to,
            Location::Header(_) => false,
            Location::End => false,
        }
    }

    // The location of the byte after the prefix, if the last step was in the location that is kept. Within the header and
    // within a part the offsets need not be searched.
    #[inline(never)]
    fn next_location(&self) -> Location
        ensures { as_location result ≡ next_location (as_location self.now.location) self.now.offsets self.now.size }
    {
        match self.location {
            Location::Header(count) => {
                if count < LAST_OF_HEADER {
                    Location::Header(count + 1)
                } else {
                    self.find_location()
                }
            }
            Location::Part(extent) => {
                if self.size < extent.to {
                    Location::Part(extent)
                } else {
                    self.find_location()
                }
            }
            Location::End => self.find_location(),
        }
    }

    // Whether the last byte of the prefix and the next byte are in the same part.
    fn is_inside(&self) -> bool
        ensures { result ≡ is_inside (as_location self.now.location) self.now.size }
    {
        match self.location {
            Location::Header(_) => false,
            Location::Part(extent) => extent.from < self.size,
            Location::End => false,
        }
    }

    /// Whether the end of the module was read.
    pub(crate) fn is_ended(&self) -> bool
        ensures kept { result ≡ self.now.ended }
        ensures prefix { (prefix : List prefixes.Step) → IsPrefixOf self.now prefix
            → result ≡ prefixes.is_ended prefix }
    {
        self.ended
    }

    // Whether an item may follow the prefix in this part, and the next byte begins one.
    fn may_go_on(&self, extent: Extent, rest: &[u8]) -> bool
        ensures { result ≡ (not (self.now.size == extent.from) && (self.now.awaits_items && parts.begins_item rest.now)) }
    {
        self.size != extent.from && self.awaits_items && begins_item(rest)
    }

    // The mode in which to read the bytes at a location.
    fn mode(&self, options: ReadOptions, place: Location, rest: &[u8]) -> Mode
        ensures { (prefix : List prefixes.Step) → IsPrefixOf self.now prefix
            → result ≡ mode_at options prefix (as_location place) rest.now }
    {
        match place {
            Location::Header(count) => header_mode(count),
            Location::Part(extent) => body_mode(options, self.may_go_on(extent, rest)),
            Location::End => Mode::Body,
        }
    }

    // The number of bytes up to those of the debug part that belong to no record, at a location.
    fn end(&self, options: ReadOptions, place: Location) -> Option<usize>
        ensures { (prefix : List prefixes.Step) → IsPrefixOf self.now prefix
            → result ≡ end_at options prefix (as_location place) }
    {
        match place {
            Location::Header(_) => None,
            Location::Part(_) => bytes_to_debug(options, self.offsets.as_slice(), self.size),
            Location::End => None,
        }
    }

    // An error of the record after the prefix, reported at its first byte.
    fn refused(&self, reason: Reason) -> Option<ReadRefusal>
        ensures { option_map as_fault result ≡ Some (self.now.size, reason) }
    {
        Some(ReadRefusal {
            offset: self.size,
            reason,
        })
    }

    // The error of a record that breaks a rule, if it does. `tree` is its expression.
    fn rule_fault(&self, record: &Record, tree: Option<&Postfix>) -> Option<ReadRefusal>
        ensures { (prefix : List prefixes.Step) (p : records.SpelledRecord) → IsPrefixOf self.now prefix
            → p.row ≡ «record».now → records.tree_of_record p ≡ option_map (λ t. t.now) tree.entry
            → option_map as_fault result ≡ faults.fault_for self.now.size (faults.rule_broken prefix p) }
    {
        match rule_broken(
            &self.tables,
            self.contents.debug.blocks.as_slice(),
            record,
            tree,
        ) {
            None => None,
            Some(reason) => self.refused(reason),
        }
    }

    // The error of a complete record in a part, if there is one. `tree` is its expression.
    fn part_fault(
        &self,
        extent: Extent,
        next: &SeenRecord,
        tree: Option<&Postfix>,
    ) -> Option<ReadRefusal>
        requires fits { self.now.size + length next.now.bytes.now ≤ file_limit }
        ensures { (prefix : List prefixes.Step) → IsPrefixOf self.now prefix
            → records.tree_of_record (record_of_seen next.now) ≡ option_map (λ t. t.now) tree.entry
            → option_map as_fault result
            ≡ faults.part_record_fault prefix (as_extent extent) self.now.size (record_of_seen next.now) }
    {
        if self.size + next.bytes.len() as u64 > extent.to {
            return self.refused(Reason::PartGap);
        }
        if !stands_in(extent.part, next.row) {
            return self.refused(Reason::WrongPart);
        }
        self.rule_fault(next.row, tree)
    }

    // The error of a complete record at its location, if there is one. `tree` is its expression.
    fn record_fault(
        &self,
        place: Location,
        next: &SeenRecord,
        tree: Option<&Postfix>,
    ) -> Option<ReadRefusal>
        requires fits { self.now.size + length next.now.bytes.now ≤ file_limit }
        requires placed { IsPlacedWell place next.now.row.now }
        ensures { (prefix : List prefixes.Step) → IsPrefixOf self.now prefix
            → records.tree_of_record (record_of_seen next.now) ≡ option_map (λ t. t.now) tree.entry
            → option_map as_fault result
            ≡ faults.record_fault prefix (as_location place) self.now.size (record_of_seen next.now) }
    {
        match place {
            Location::Header(_) => {
                let end = self.size + next.bytes.len() as u64;
                let earlier = self.offsets.as_slice();
                header_fault(earlier, next.row, self.size, end)
            }
            Location::Part(extent) => self.part_fault(extent, next, tree),
            Location::End => {
                if stands_in(Part::End, next.row) {
                    None
                } else {
                    self.refused(Reason::WrongPart)
                }
            }
        }
    }

    // Adds a record that has no error. `tree` is its expression.
    #[inline(always)]
    fn add(
        &mut self,
        alloc: Global,
        next: &SeenRecord,
        tree: Option<Postfix>,
    ) -> Result<(), NoMemory>
        requires room { HasRoom self.old.tables }
        requires new { is_new self.old.tables next.now.row.now ≡ true }
        requires own { HasOwnParts next.now }
        requires tree { tree ≡ records.tree_of_record (record_of_seen next.now) }
        requires fits { self.old.size + length next.now.bytes.now ≤ file_limit }
        requires start { next.now.start ≡ self.old.size }
        requires known { (all : List prefixes.OffsetRecord) × AreContentsBefore self.old.contents self.old.tables all (record_of_seen next.now) }
        requires kind { HasKind next.now.row.now }
        requires nested { faults.ends_badly (opened self.old.contents.debug) next.now.row.now ≡ false }
        ensures added { OnOk result (self.new ≡ with_record self.old (record_of_seen next.now) self.new) }
        ensures contents { OnOk result ((all : List prefixes.OffsetRecord)
            → AreContentsBefore self.old.contents self.old.tables all (record_of_seen next.now)
            → AreContentsOf self.new.contents (all ++ placed next.now ∷ [])) }
        ensures location { OnOk result (as_location self.new.location
            ≡ next_location (as_location self.old.location) (self.old.offsets ++ cons_option (offset_in next.now.row.now) [])
            (self.old.size + length next.now.bytes.now)) }
    {
        self.contents.take(alloc, &self.tables, next, tree)?;
        self.tables.add(next.row)?;
        add_offset(&mut self.offsets, next.row)?;
        self.awaits_items = opens_items(next.row);
        self.ended = is_module_end(next.row);
        self.size += next.bytes.len() as u64;
        if !self.stays_in_part() {
            self.location = self.next_location();
        }
        Ok(())
    }

    // Checks the record after the prefix, and adds it if it has no error.
    #[inline(always)]
    fn take(&mut self, alloc: Global, place: Location, next: &SeenRecord) -> Result<Next, NoMemory>
        requires known { (prefix : List prefixes.Step) × IsPrefixOf self.old prefix
            × (as_location place ≡ prefixes.location_after prefix) }
        requires own { HasOwnParts next.now }
        requires tokens { HasOwnTokens next.now }
        requires some { 0 < length next.now.bytes.now }
        requires start { next.now.start ≡ self.old.size }
        requires fits { self.old.size + length next.now.bytes.now ≤ file_limit }
        requires placed { IsPlacedWell place next.now.row.now }
        ensures { IfOk result (λ done. (prefix : List prefixes.Step) → IsPrefixOf self.old prefix
            → as_location place ≡ prefixes.location_after prefix
            → HasTaken prefix (record_of_seen next.now) self.new done) }
    {
        let tree = next.expression(alloc)?;
        match self.record_fault(place, next, tree.as_ref()) {
            Some(refusal) => Ok(Next::Refused(refusal)),
            None => {
                self.add(alloc, next, tree)?;
                Ok(Next::Took(next.bytes.len()))
            }
        }
    }

    // Reads the record at the start of `rest`, checks it and adds it. The tokens of its expression are read to `tokens`.
    #[inline(always)]
    fn read(
        &mut self,
        alloc: Global,
        options: ReadOptions,
        place: Location,
        rest: &[u8],
        tokens: &mut ExpressionTokens,
    ) -> Result<Next, NoMemory>
        requires known { (prefix : List prefixes.Step) × IsPrefixOf self.old prefix
            × (as_location place ≡ prefixes.location_after prefix) }
        requires fits { self.old.size + length rest.now ≤ file_limit }
        ensures { IfOk result (λ next. (prefix : List prefixes.Step) → IsPrefixOf self.old prefix
            → as_location place ≡ prefixes.location_after prefix
            → HasJudged prefix
            (prefixes.as_step (prefixes.size_of prefix) rest.now
            (record_within (end_at options prefix (as_location place))
            (mode_at options prefix (as_location place) rest.now) rest.now)) rest.now self.new next) }
    {
        // Any record: `read_record_before` stores the one that it reads here.
        let mut row = Record::ModuleEnd;
        let mode = self.mode(options, place, rest);
        match read_record_before(rest, self.end(options, place), mode, &mut row, tokens) {
            Ok(used) => {
                let next = SeenRecord {
                    start: self.size,
                    row: &row,
                    bytes: prefix_of(rest, used),
                    tokens: tokens.as_slice(),
                };
                self.take(alloc, place, &next)
            }
            Err(Stop::More) => Ok(Next::More),
            Err(Stop::Bad { offset, reason }) => Ok(Next::Refused(ReadRefusal {
                offset: self.size + offset as u64,
                reason,
            })),
        }
    }

    // Adds bytes of a part that is not read as records.
    fn add_raw(&mut self, part: Part, bytes: &[u8]) -> Result<(), NoMemory>
        requires fits { self.old.size + length bytes.now ≤ file_limit }
        ensures { OnOk result (HasRaw self.old part bytes.now self.new) }
    {
        match part {
            Part::Extension => self.extension.extend_from_slice(bytes)?,
            Part::Environment => self.environment.extend_from_slice(bytes)?,
            _ => {}
        }
        self.size += bytes.len() as u64;
        if !self.stays_in_part() {
            self.location = self.next_location();
        }
        Ok(())
    }

    // Takes bytes of a part that is not read as records: up to the part's end, or all that are there.
    fn skip(&mut self, extent: Extent, rest: &[u8]) -> Result<Next, NoMemory>
        requires fits { self.old.size + length rest.now ≤ file_limit }
        requires within { self.old.size < extent.to }
        ensures { IfOk result (λ next. HasSkipped self.old extent.part (extent.to - self.old.size) rest.now self.new next) }
    {
        if rest.is_empty() {
            return Ok(Next::More);
        }
        let bytes = at_most(rest, extent.to - self.size);
        self.add_raw(extent.part, bytes)?;
        Ok(Next::Took(bytes.len()))
    }

    /// If a part ends where the prefix does: the error of that part as a whole.
    fn ended_fault(&self) -> Option<ReadRefusal>
        requires { AreMarked self.now.contents }
        ensures { (prefix : List prefixes.Step) → IsPrefixOf self.now prefix
            → option_map as_fault result ≡ faults.ended_part_fault prefix }
    {
        if self.is_inside() {
            return None;
        }
        match part_at(self.offsets.as_slice(), self.size.saturating_sub(1)) {
            None => None,
            Some(extent) => {
                if extent.to == self.size {
                    whole_fault(extent.part, &self.tables, &self.contents)
                } else {
                    None
                }
            }
        }
    }

    // Takes the next record, or bytes that are not read as records.
    #[inline(always)]
    fn step(
        &mut self,
        alloc: Global,
        options: ReadOptions,
        rest: &[u8],
        tokens: &mut ExpressionTokens,
    ) -> Result<Next, NoMemory>
        requires known { (prefix : List prefixes.Step) × IsPrefixOf self.old prefix }
        requires fits { self.old.size + length rest.now ≤ file_limit }
        ensures { IfOk result (λ next. (prefix : List prefixes.Step) → IsPrefixOf self.old prefix
            → prefixes.is_ended prefix ≡ false → faults.ended_part_fault prefix ≡ None
            → IsStepTaken options prefix rest.now self.new next) }
    {
        let place = self.location;
        match raw_part(options, place) {
            Some(extent) => self.skip(extent, rest),
            None => self.read(alloc, options, place, rest, tokens),
        }
    }

    /// Takes the next record, or bytes that are not read as records. If a part ends after them, checks the part as a whole.
    /// `tokens` is room for the tokens of the record's expression; what it holds before does not matter.
    pub(crate) fn advance(
        &mut self,
        alloc: Global,
        options: ReadOptions,
        rest: &[u8],
        tokens: &mut ExpressionTokens,
    ) -> Result<Next, NoMemory>
        requires known { (prefix : List prefixes.Step) × IsPrefixOf self.old prefix × (prefixes.is_ended prefix ≡ false)
            × (faults.ended_part_fault prefix ≡ None) }
        requires fits { self.old.size + length rest.now ≤ file_limit }
        ensures { IfOk result (λ next. (prefix : List prefixes.Step) → IsPrefixOf self.old prefix
            → prefixes.is_ended prefix ≡ false → faults.ended_part_fault prefix ≡ None
            → HasAdvanced options prefix rest.now self.new next) }
    {
        match self.step(alloc, options, rest, tokens)? {
            Next::Took(count) => Ok(self.judge_part(count)),
            Next::More => Ok(Next::More),
            Next::Refused(refusal) => Ok(Next::Refused(refusal)),
        }
    }

    // Checks the part that ends after the `count` bytes that were taken, if one does, unless the module has ended.
    fn judge_part(&self, count: usize) -> Next
        requires { AreMarked self.now.contents }
        ensures { (options : ReadOptions) (prefix : List prefixes.Step) (rest : List ℕ)
            → IsStepTaken options prefix rest self.now (nexts.Took count) → HasAdvanced options prefix rest self.now result }
    {
        if self.is_ended() {
            return Next::Took(count);
        }
        match self.ended_fault() {
            None => Next::Took(count),
            Some(refusal) => Next::Refused(refusal),
        }
    }
}
