//! Tests of reading streams, whole and byte by byte: valid modules, and each error with its offset.

ghost use Rattle.std.specs.Prelude.{◌<◌};

use crate::records::long_expression;
use mufom_host::{Host, MemHost};
use mufom_module::Module;
use mufom_numbers::{Bytes, List, Reason, Text};
use mufom_read::{ReadOptions, ReadRefusal, ReadStop, Reader};
use mufom_source::{SourceStop, read_module};
use std::alloc::Global;
use std::process::Abort;

// The ways in which the bytes of a file are read.
pub(crate) const WITH_DEBUG: ReadOptions = ReadOptions {
    debug: true,
    gnu: false,
};

pub(crate) const WITHOUT_DEBUG: ReadOptions = ReadOptions {
    debug: false,
    gnu: false,
};

pub(crate) const GNU: ReadOptions = ReadOptions {
    debug: true,
    gnu: true,
};

pub(crate) const GNU_WITHOUT_DEBUG: ReadOptions = ReadOptions {
    debug: false,
    gnu: true,
};

// A module with an absolute section of four bytes at 1000 (hexadecimal), all of them loaded, and a start address there.
pub(crate) const PLAIN: &[u8; 120] = b"\
    \xE0\x05\x36\x38\x30\x30\x30\x01\x41\xEC\x08\x04\xCD\xE2\xD7\x00\x84\x00\x00\x00\x00\xE2\xD7\x01\x84\x00\x00\x00\x00\xE2\xD7\x02\
    \x84\x00\x00\x00\x4D\xE2\xD7\x03\x84\x00\x00\x00\x00\xE2\xD7\x04\x84\x00\x00\x00\x00\xE2\xD7\x05\x84\x00\x00\x00\x64\xE2\xD7\x06\
    \x84\x00\x00\x00\x72\xE2\xD7\x07\x84\x00\x00\x00\x77\xE6\x01\xC1\xD3\xD0\x04\x63\x6F\x64\x65\xE7\x01\x02\xE2\xD3\x01\x04\xE2\xCC\
    \x01\x82\x10\x00\xE5\x01\xE2\xD0\x01\x82\x10\x00\xED\x04\x4E\x71\x4E\x75\xE2\xC7\x82\x10\x00\xE1\
    ";

// A module with a relocatable section, the two parts that are not read as records, a public with a note, a reference, fields
// and a start address.
const PROGRAM: &[u8; 164] = b"\
    \xE0\x05\x36\x38\x30\x30\x30\x04\x70\x72\x6F\x67\xEC\x08\x04\xE2\xD7\x00\x84\x00\x00\x00\x4F\xE2\xD7\x01\x84\x00\x00\x00\x52\xE2\
    \xD7\x02\x84\x00\x00\x00\x55\xE2\xD7\x03\x84\x00\x00\x00\x66\xE2\xD7\x04\x84\x00\x00\x00\x00\xE2\xD7\x05\x84\x00\x00\x00\x81\xE2\
    \xD7\x06\x84\x00\x00\x00\x9B\xE2\xD7\x07\x84\x00\x00\x00\xA3\xF0\x20\x00\xF0\x21\x00\xE6\x01\xC3\xD0\x05\x2E\x74\x65\x78\x74\xE7\
    \x01\x02\xE2\xD3\x01\x0C\xE8\x20\x04\x6D\x61\x69\x6E\xF1\xC9\x20\x0F\x13\x01\xE2\xC9\x20\xD2\x01\x04\xA5\xE9\x0B\x04\x65\x78\x69\
    \x74\xE5\x01\xE2\xD0\x01\xD2\x01\xE4\x04\x4E\x71\x4E\x71\xBE\xD2\x01\x04\xA5\xBF\xBA\xD8\x0B\xD0\x01\xA6\xBB\xE2\xC7\xBE\xD2\x01\
    \x04\xA5\xBF\xE1\
    ";

// A module with a relocatable section, and the public that the program above refers to.
const LIBRARY: &[u8; 111] = b"\
    \xE0\x05\x36\x38\x30\x30\x30\x03\x6C\x69\x62\xEC\x08\x04\xE2\xD7\x00\x84\x00\x00\x00\x00\xE2\xD7\x01\x84\x00\x00\x00\x00\xE2\xD7\
    \x02\x84\x00\x00\x00\x4E\xE2\xD7\x03\x84\x00\x00\x00\x5C\xE2\xD7\x04\x84\x00\x00\x00\x00\xE2\xD7\x05\x84\x00\x00\x00\x68\xE2\xD7\
    \x06\x84\x00\x00\x00\x00\xE2\xD7\x07\x84\x00\x00\x00\x6E\xE6\x01\xC3\xD0\x05\x2E\x74\x65\x78\x74\xE2\xD3\x01\x02\xE8\x20\x04\x65\
    \x78\x69\x74\xE2\xC9\x20\xD2\x01\xE5\x01\xED\x02\x4E\x75\xE1\
    ";

// The parts of the program above, as text.
const PROGRAM_TEXT: &str =
    "Parts { processor: Bytes { held: [54, 56, 48, 48, 48] }, name: Bytes { held: [112, \
    114, 111, 103] }, maus: 4, order: Most, ext: Bytes { held: [240, 32, 0] }, env: \
    Bytes { held: [240, 33, 0] }, sections: List { items: [Section { name: Bytes { held: \
    [46, 116, 101, 120, 116] }, absolute: false, purpose: Some(Code), size: 12, align: \
    2, base: None }] }, names: NameTable { publics: List { items: [Public { name: Bytes \
    { held: [109, 97, 105, 110] }, value: Postfix { tokens: [Var(R, 0), Number(4), \
    Fun(Plus)] }, notes: List { items: [Note { type_index: 15, attribute: 19, numbers: \
    [1] }] } }] }, references: List { items: [Reference { name: Bytes { held: [101, 120, \
    105, 116] }, weak: None, notes: List { items: [] } }] } }, debug: List { items: [] \
    }, loads: List { items: [SetSection(0), SetPc { section: 0, value: Postfix { tokens: \
    [Var(R, 0)] } }, One(Literal(Bytes { held: [78, 113, 78, 113] })), One(Field { kind: \
    Either, size: 4, value: Postfix { tokens: [Var(R, 0), Number(4), Fun(Plus)] } }), \
    One(Field { kind: Signed, size: 4, value: Postfix { tokens: [Var(X, 0), Var(P, 0), \
    Fun(Minus)] } })] }, start: Some(Postfix { tokens: [Var(R, 0), Number(4), \
    Fun(Plus)] }) }";

// A debug part with blocks of each kind, a name, its note and its values.
const BLOCKS: &[u8; 74] = b"\
    \xF0\x20\x01\x78\xF1\xCE\x20\x0F\x07\x01\xF8\x03\x00\x01\x6D\xF8\x05\x00\x01\x73\x01\x02\xF8\x04\x00\x01\x66\x00\x0F\xD2\x01\xF8\
    \x06\x00\x01\x67\x02\x00\xD2\x01\x04\xA5\xE2\xCE\x20\xD2\x01\xF9\xD2\x01\x08\xA5\xF9\xD2\x01\x0C\xA5\xF9\xF8\x0B\x00\x01\x63\x01\
    \x01\xD2\x01\xF9\x10\xF9\xE2\xCE\x20\x01\
    ";

// The debug items of this part, as text.
const BLOCKS_TEXT: &str =
    "List { items: [Name(Bytes { held: [120] }), Note { name: 0, note: Note { type_index: \
    15, attribute: 7, numbers: [1] } }, Block(Boxed { inner: Block { head: Module, name: \
    Bytes { held: [109] }, items: List { items: [Block(Boxed { inner: Block { head: \
    Source { numbers: [1, 2] }, name: Bytes { held: [115] }, items: List { items: \
    [Block(Boxed { inner: Block { head: Global { stack: 0, type_index: 15, offset: \
    Postfix { tokens: [Var(R, 0)] } }, name: Bytes { held: [102] }, items: List { items: \
    [Block(Boxed { inner: Block { head: Local { stack: 2, type_index: 0, offset: Postfix \
    { tokens: [Var(R, 0), Number(4), Fun(Plus)] } }, name: Bytes { held: [103] }, items: \
    List { items: [Value { name: 0, value: Postfix { tokens: [Var(R, 0)] } }] }, end: \
    Some(Postfix { tokens: [Var(R, 0), Number(8), Fun(Plus)] }) } })] }, end: \
    Some(Postfix { tokens: [Var(R, 0), Number(12), Fun(Plus)] }) } })] }, end: None } \
    }), Block(Boxed { inner: Block { head: Section { section_type: 1, section: 0, \
    offset: Postfix { tokens: [Var(R, 0)] } }, name: Bytes { held: [99] }, items: List { \
    items: [] }, end: Some(Postfix { tokens: [Number(16)] }) } })] }, end: None } }), \
    Value { name: 0, value: Postfix { tokens: [Number(1)] } }] }";

// ---- streams

/// A copy of these bytes.
pub(crate) fn copy_of(rt: &impl Abort, alloc: Global, bytes: &[u8]) -> Vec<u8> {
    Vec::from_slice(alloc, bytes).expect(rt, "memory")
}

/// Adds bytes at the end.
pub(crate) fn add(rt: &impl Abort, stream: &mut Vec<u8>, bytes: &[u8]) {
    stream.extend_from_slice(bytes).expect(rt, "memory");
}

/// Changes the byte at an offset.
pub(crate) fn set(stream: &mut Vec<u8>, offset: usize, byte: u8) {
    if let Some(old) = stream.get_mut(offset) {
        *old = byte;
    }
}

/// The offset of ME after a part that begins at offset 100.
pub(crate) fn end_after(part: &[u8]) -> u16 {
    u16::try_from(part.len().saturating_add(100)).unwrap_or(u16::MAX)
}

// The offsets, in the plain module, of the low byte of the offset of a part.
pub(crate) const EXTERNAL: usize = 44;

pub(crate) const DEBUG: usize = 52;

pub(crate) const DATA: usize = 60;

/// The plain module with `part` in place of all parts after its section part. The low byte of the new part's offset is at
/// `offset`.
pub(crate) fn with_part(rt: &impl Abort, alloc: Global, offset: usize, part: &[u8]) -> Vec<u8> {
    let [high, low] = end_after(part).to_be_bytes();
    let mut stream = copy_of(rt, alloc, &PLAIN[..100]);
    for (at, byte) in [(DATA, 0), (offset, 100), (68, 0), (75, high), (76, low)] {
        set(&mut stream, at, byte);
    }
    add(rt, &mut stream, part);
    add(rt, &mut stream, b"\xE1");
    stream
}

// ---- what streams give

/// Reads a stream in chunks of `size` bytes: its module, or why there is none.
pub(crate) fn read(
    alloc: Global,
    stream: &[u8],
    size: usize,
    options: ReadOptions,
) -> Result<Module, ReadStop>
    requires { 0 < size }
{
    let Ok(mut reader) = Reader::new(alloc, options) else {
        return Err(ReadStop::NoMemory);
    };
    for chunk in stream.chunks(size) {
        reader.feed(chunk)?;
    }
    reader.finish()
}

pub(crate) fn refused(offset: u64, reason: Reason) -> Option<ReadStop> {
    Some(ReadStop::Refused(ReadRefusal { offset, reason }))
}

fn stop(alloc: Global, stream: &[u8], size: usize, options: ReadOptions) -> Option<ReadStop>
    requires { 0 < size }
{
    match read(alloc, stream, size, options) {
        Ok(_) => None,
        Err(stop) => Some(stop),
    }
}

/// The parts, as text, of a module whose stream is read in chunks of `size` bytes.
pub(crate) fn text_of(rt: &impl Abort, alloc: Global, stream: &[u8], size: usize) -> String
    requires { 0 < size }
{
    match read(alloc, stream, size, WITH_DEBUG) {
        Ok(module) => format!(in alloc; "{:?}", module.parts()).expect(rt, "memory"),
        Err(stop) => panic!(rt; "{stop:?}"),
    }
}

/// Asserts that reading a stream in chunks of `size` bytes results in this error, or in a module for `None`.
pub(crate) fn gives(
    rt: &impl Abort,
    alloc: Global,
    stream: &[u8],
    size: usize,
    options: ReadOptions,
    wanted: Option<ReadStop>,
)
    requires { 0 < size }
{
    assert_eq!(rt;
        stop(alloc, stream, size, options),
        wanted,
        "{} bytes in chunks of {size}",
        stream.len()
    );
}

// Asserts that a stream, read whole and in chunks of one and of seven bytes, has this error at this offset.
fn is_refused(rt: &impl Abort, alloc: Global, stream: &[u8], offset: u64, reason: Reason) {
    let wanted = refused(offset, reason);
    gives(rt, alloc, stream, 1000, WITH_DEBUG, wanted);
    gives(rt, alloc, stream, 1, WITH_DEBUG, wanted);
    gives(rt, alloc, stream, 7, WITH_DEBUG, wanted);
}

fn is_module(rt: &impl Abort, alloc: Global, stream: &[u8]) {
    gives(rt, alloc, stream, 1000, WITH_DEBUG, None);
    gives(rt, alloc, stream, 1, WITH_DEBUG, None);
    gives(rt, alloc, stream, 3, WITHOUT_DEBUG, None);
}

// ---- streams with an error

// The offset and the new value of a byte of the plain module, the offset at which the error is reported, and its reason.
type Changed = (usize, u8, u64, Reason);

static CHANGED: [Changed; 19] = [
    (0, 0xE1, 0, Reason::BadHeader),
    (9, 0xE2, 9, Reason::BadHeader),
    (15, 0x01, 13, Reason::BadHeader),
    (14, 0xD3, 13, Reason::BadHeader),
    (10, 0x89, 10, Reason::BadNumber),
    (10, 0x10, 9, Reason::BadDescriptor),
    (11, 0x09, 9, Reason::BadDescriptor),
    (76, 0x00, 69, Reason::OffsetOrder),
    (60, 0x40, 53, Reason::OffsetOrder),
    (36, 0x4E, 77, Reason::PartGap),
    (60, 0x63, 94, Reason::PartGap),
    (78, 0x02, 87, Reason::UnknownIndex),
    (89, 0x00, 87, Reason::BadAlignment),
    (101, 0x02, 100, Reason::UnknownIndex),
    (108, 0xE0, 114, Reason::BadId),
    (79, 0xC2, 79, Reason::BadSectionType),
    (52, 0x01, 45, Reason::OffsetOrder),
    (52, 0x4E, 77, Reason::PartGap),
    (119, 0xE4, 119, Reason::WrongPart),
];

fn changed_is_refused(rt: &impl Abort, alloc: Global, row: &Changed) {
    let mut stream = copy_of(rt, alloc, PLAIN);
    set(&mut stream, row.0, row.1);
    is_refused(rt, alloc, &stream, row.2, row.3);
}

#[test]
fn a_changed_byte_is_refused_at_its_place(rt: HostRuntime) {
    for row in &CHANGED {
        changed_is_refused(&rt, rt.alloc(), row);
    }
}

// A part (where its offset is, and its bytes), the offset at which the error is reported, and its reason.
type Part = (usize, &'static [u8], u64, Reason);

static PARTS: [Part; 47] = [
    (DATA, b"\xE5\x89", 101, Reason::BadNumber),
    (DATA, b"\xE2\xAA", 101, Reason::BadRecord),
    (DATA, b"\xF2", 100, Reason::UnsupportedRecord),
    (
        DATA,
        b"\xE2\xD0\x01\x01\x02\xB9",
        105,
        Reason::UnsupportedFunction,
    ),
    (
        DATA,
        b"\xE2\xD0\x01\xC1\x01",
        103,
        Reason::UnsupportedVariable,
    ),
    (DATA, b"\xE2\xD0\x01\xA5", 103, Reason::Underflow),
    (
        DATA,
        b"\xE2\xD0\x01\x01\x02\xE5\x01",
        105,
        Reason::SurplusTerms,
    ),
    (DATA, b"\xE2\xD0\x01\xE5\x01", 103, Reason::Empty),
    (DATA, b"\xED\x83\x01\x00\x00", 101, Reason::LongRun),
    (
        DATA,
        b"\xE5\x01\xE4\xBE\x00\x90\x09\xBF",
        106,
        Reason::BadFieldSize,
    ),
    (
        DATA,
        b"\xE5\x01\xE4\xBE\x00\xBB",
        105,
        Reason::BracketMismatch,
    ),
    (DATA, b"\xE7\x01\x02", 100, Reason::WrongPart),
    (DATA, b"\xED\x01\xAA", 100, Reason::NoSection),
    (DATA, b"\xE4", 100, Reason::NoSection),
    (DATA, b"\xE5\x01\xE1", 102, Reason::WrongPart),
    (
        DATA,
        b"\xE5\x01\xE2\xD0\x01\xD0\x02",
        102,
        Reason::UnknownIndex,
    ),
    (DATA, b"\xE5\x01\xE2\xD0\x01\xE0", 105, Reason::Empty),
    (DATA, b"\x00", 100, Reason::BadRecord),
    (DATA, b"\xF8\x07\x00\x00", 101, Reason::UnsupportedBlock),
    (
        DATA,
        b"\xF1\xCE\x20\x00\x06",
        104,
        Reason::UnsupportedAttribute,
    ),
    (DEBUG, b"\xF9", 100, Reason::BlockNesting),
    (
        DEBUG,
        b"\xF8\x03\x00\x01\x61\xF9\x00",
        105,
        Reason::BlockNesting,
    ),
    (
        DEBUG,
        b"\xF8\x05\x00\x01\x61\xF9\x00",
        105,
        Reason::BlockNesting,
    ),
    (
        DEBUG,
        b"\xF8\x03\x00\x01\x61\xF8\x03\x00\x01\x62",
        105,
        Reason::BlockNesting,
    ),
    (DEBUG, b"\xF9\xD2\x02", 100, Reason::UnknownIndex),
    (
        DEBUG,
        b"\xF8\x0B\x00\x00\x00\x02\x00",
        100,
        Reason::UnknownIndex,
    ),
    (
        DEBUG,
        b"\xF0\x20\x01\x61\xF0\x20\x01\x62",
        104,
        Reason::DuplicateIndex,
    ),
    (DEBUG, b"\xE2\xCE\x20\x00", 100, Reason::UnknownIndex),
    (
        DEBUG,
        b"\xF0\x20\x01\x61\xE2\xCE\x20\xD0\x01",
        104,
        Reason::BadP,
    ),
    (DEBUG, b"\xE8\x20\x01\x61", 100, Reason::WrongPart),
    (
        DEBUG,
        b"\xF8\x07\x00\x01\x61",
        101,
        Reason::UnsupportedBlock,
    ),
    (
        DEBUG,
        b"\xF1\xCE\x20\x00\x06",
        104,
        Reason::UnsupportedAttribute,
    ),
    (EXTERNAL, b"\xE8\x20\x01\x61", 100, Reason::MissingValue),
    (
        EXTERNAL,
        b"\xE8\x20\x01\x61\xE2\xC9\x20\xD0\x01",
        104,
        Reason::BadP,
    ),
    (
        EXTERNAL,
        b"\xE8\x20\x01\x61\xE2\xC9\x20\xC9\x21",
        104,
        Reason::UnknownIndex,
    ),
    (
        EXTERNAL,
        b"\xE8\x20\x01\x61\xE8\x20\x01\x62",
        104,
        Reason::DuplicateIndex,
    ),
    (
        EXTERNAL,
        b"\xE8\x20\x01\x61\xE2\xC9\x20\x00\xE2\xC9\x20\x01",
        108,
        Reason::DuplicateValue,
    ),
    (EXTERNAL, b"\xE2\xC9\x20\x00", 100, Reason::UnknownIndex),
    (
        EXTERNAL,
        b"\xE9\x0B\x01\x61\xF4\x0B\x04\xF4\x0B\x04",
        107,
        Reason::DuplicateValue,
    ),
    (
        EXTERNAL,
        b"\xF1\xC9\x20\x00\x00\x00\x00",
        100,
        Reason::UnknownIndex,
    ),
    (
        EXTERNAL,
        b"\xE8\x20\x01\x61\xE8\x21\x01\x62\xE2\xC9\x21\xC9\x22",
        100,
        Reason::MissingValue,
    ),
    // Two errors each, of which the one that is checked first is reported.
    (
        EXTERNAL,
        b"\xE8\x20\x01\x61\xE2\xC9\x20\xD0\x09",
        104,
        Reason::BadP,
    ),
    (EXTERNAL, b"\xE2\xC9\x20\xD0\x09", 100, Reason::UnknownIndex),
    (
        EXTERNAL,
        b"\xE8\x20\x01\x61\xE2\xC9\x20\x00\xE2\xC9\x20\xD0\x01",
        108,
        Reason::DuplicateValue,
    ),
    (
        EXTERNAL,
        b"\xE9\x0B\x01\x61\xF4\x0B\x04\xF4\x0C\x04",
        107,
        Reason::UnknownIndex,
    ),
    (
        DATA,
        b"\xE5\x01\xE4\xBE\x01\x02\xBB",
        106,
        Reason::SurplusTerms,
    ),
    (DATA, b"\xE5\x01\xE4\xBE\xBB", 104, Reason::Empty),
];

fn part_is_refused(rt: &impl Abort, alloc: Global, row: &Part) {
    let stream = with_part(rt, alloc, row.0, row.1);
    is_refused(rt, alloc, &stream, row.2, row.3);
}

#[test]
fn each_reason_has_its_place(rt: HostRuntime) {
    for row in &PARTS {
        part_is_refused(&rt, rt.alloc(), row);
    }
}

#[test]
fn modules_are_read_whole_and_byte_by_byte(rt: HostRuntime) {
    is_module(&rt, rt.alloc(), PLAIN);
    is_module(&rt, rt.alloc(), PROGRAM);
    is_module(&rt, rt.alloc(), LIBRARY);
}

fn is_truncated(rt: &impl Abort, alloc: Global, stream: &[u8]) {
    let wanted = refused(stream.len() as u64, Reason::Truncated);
    gives(rt, alloc, stream, 1000, WITH_DEBUG, wanted);
}

#[test]
fn a_prefix_of_a_module_is_truncated(rt: HostRuntime) {
    for length in 0..164 {
        is_truncated(&rt, rt.alloc(), &PROGRAM[..length]);
    }
}

#[test]
fn a_byte_after_the_end_is_refused(rt: HostRuntime) {
    let mut stream = copy_of(&rt, rt.alloc(), PLAIN);
    add(&rt, &mut stream, b"\x00");
    is_refused(&rt, rt.alloc(), &stream, 120, Reason::AfterEnd);
}

fn feeds(rt: &impl Abort, reader: &mut Reader, chunk: &[u8], wanted: Result<(), ReadStop>) {
    assert_eq!(rt; reader.feed(chunk), wanted);
}

// Why a reader has no module at the end of its stream, or `None` if it has one.
fn end(reader: Reader) -> Option<ReadStop> {
    match reader.finish() {
        Ok(_) => None,
        Err(stop) => Some(stop),
    }
}

const BAD_HEADER: ReadStop = ReadStop::Refused(ReadRefusal {
    offset: 0,
    reason: Reason::BadHeader,
});

#[test]
fn a_stop_is_answered_again(rt: HostRuntime) {
    let mut reader = Reader::new(rt.alloc(), WITH_DEBUG).expect(&rt, "memory");
    feeds(&rt, &mut reader, b"\xE1", Err(BAD_HEADER));
    feeds(&rt, &mut reader, b"", Err(BAD_HEADER));
    feeds(&rt, &mut reader, PLAIN, Err(BAD_HEADER));
    assert_eq!(rt; end(reader), Some(BAD_HEADER));
}

#[test]
fn a_second_start_is_refused(rt: HostRuntime) {
    let mut stream = copy_of(&rt, rt.alloc(), &PLAIN[..119]);
    add(&rt, &mut stream, b"\xE2\xC7\x00\xE1");
    set(&mut stream, 76, 0x7A);
    is_refused(&rt, rt.alloc(), &stream, 119, Reason::DuplicateValue);
}

#[test]
fn an_absolute_section_has_a_base(rt: HostRuntime) {
    let mut stream = copy_of(&rt, rt.alloc(), &PLAIN[..94]);
    add(&rt, &mut stream, b"\xE1");
    for (at, byte) in [(60, 0), (68, 0), (76, 0x5E)] {
        set(&mut stream, at, byte);
    }
    is_refused(&rt, rt.alloc(), &stream, 77, Reason::MissingBase);
}

#[test]
fn a_256th_token_is_refused(rt: HostRuntime) {
    let mut stream = with_part(&rt, rt.alloc(), DATA, &long_expression(1));
    is_refused(&rt, rt.alloc(), &stream, 358, Reason::TooLong);
    stream.truncate(358);
    is_refused(&rt, rt.alloc(), &stream, 358, Reason::Truncated);
}

// ---- the size limit of a file

fn zeros(rt: &impl Abort, alloc: Global, count: usize) -> Vec<u8> {
    vec![in alloc; 0u8; count].expect(rt, "memory")
}

// The header of a module whose extension part is raw bytes, up to the end of a file.
fn raw_header(rt: &impl Abort, alloc: Global) -> Vec<u8> {
    let mut header = copy_of(rt, alloc, &PLAIN[..77]);
    for (at, byte) in [(20, 0x4D), (36, 0), (60, 0), (68, 0), (73, 4), (76, 0)] {
        set(&mut header, at, byte);
    }
    header
}

// A reader that has read 66,060,365 bytes of a module whose extension part is raw bytes, and `more` bytes after these. A
// file may have 1,048,499 bytes more than 66,060,365.
fn nearly_full(rt: &impl Abort, alloc: Global, more: usize) -> Reader {
    let mut reader = Reader::new(alloc, WITH_DEBUG).expect(rt, "memory");
    let header = raw_header(rt, alloc);
    feeds(rt, &mut reader, &header, Ok(()));
    let chunk = zeros(rt, alloc, 1_048_576);
    for _ in 0..63 {
        feeds(rt, &mut reader, &chunk, Ok(()));
    }
    feeds(rt, &mut reader, &zeros(rt, alloc, more), Ok(()));
    reader
}

const BEYOND_THE_LIMIT: ReadStop = ReadStop::Refused(ReadRefusal {
    offset: 67_108_864,
    reason: Reason::FileLimit,
});

#[test]
fn a_stream_beyond_the_limit_is_refused(rt: HostRuntime) {
    let mut reader = nearly_full(&rt, rt.alloc(), 0);
    let chunk = zeros(&rt, rt.alloc(), 1_048_576);
    feeds(&rt, &mut reader, &chunk, Err(BEYOND_THE_LIMIT));
}

#[test]
fn the_byte_beyond_the_limit_is_refused(rt: HostRuntime) {
    let mut reader = nearly_full(&rt, rt.alloc(), 1_048_498);
    feeds(&rt, &mut reader, b"\x00", Ok(()));
    feeds(&rt, &mut reader, b"\x00", Err(BEYOND_THE_LIMIT));
}

// ---- modules

#[test]
fn a_debug_part_is_passed_over(rt: HostRuntime) {
    let alloc = rt.alloc();
    let stream = with_part(&rt, alloc, DEBUG, b"\x00\x89\xFF");
    gives(&rt, alloc, &stream, 1000, WITHOUT_DEBUG, None);
    gives(&rt, alloc, &stream, 1, WITHOUT_DEBUG, None);
    is_refused(&rt, alloc, &stream, 100, Reason::BadRecord);
}

// Asserts that `count` bytes wait for the rest of their record after this stream.
fn are_pending(rt: &impl Abort, alloc: Global, stream: &[u8], count: usize) {
    let mut reader = Reader::new(alloc, WITH_DEBUG).expect(rt, "memory");
    let _ = reader.feed(stream);
    assert_eq!(rt; reader.pending(), count);
}

#[test]
fn bytes_after_whole_records_are_pending(rt: HostRuntime) {
    are_pending(&rt, rt.alloc(), b"", 0);
    are_pending(&rt, rt.alloc(), &PROGRAM[..8], 8);
    are_pending(&rt, rt.alloc(), &PROGRAM[..81], 0);
    are_pending(&rt, rt.alloc(), &PROGRAM[..96], 1);
}

#[test]
fn what_the_records_say_is_what_the_module_has(rt: HostRuntime) {
    let text = text_of(&rt, rt.alloc(), PROGRAM, 5);
    assert_eq!(rt; text.as_str(), PROGRAM_TEXT);
}

// The debug items of a module, as text.
fn debug_text(rt: &impl Abort, alloc: Global, stream: &[u8]) -> String {
    match read(alloc, stream, 5, WITH_DEBUG) {
        Ok(module) => format!(in alloc; "{:?}", module.parts().debug).expect(rt, "memory"),
        Err(stop) => panic!(rt; "{stop:?}"),
    }
}

#[test]
fn blocks_of_each_kind_are_the_debug_items(rt: HostRuntime) {
    let stream = with_part(&rt, rt.alloc(), DEBUG, BLOCKS);
    let items = debug_text(&rt, rt.alloc(), &stream);
    assert_eq!(rt; items.as_str(), BLOCKS_TEXT);
}

// ---- sources

// The plain module as a file, with its name.
fn file(rt: &impl Abort, alloc: Global) -> (Text, Bytes) {
    let name = Text::from_str(alloc, "a").expect(rt, "memory");
    let bytes = Bytes::from_slice(alloc, PLAIN).expect(rt, "memory");
    (name, bytes)
}

fn files(rt: &impl Abort, alloc: Global) -> List<(Text, Bytes)> {
    let mut files = List::new(alloc);
    files.push(file(rt, alloc)).expect(rt, "memory");
    files
}

// A host with the plain module as a file.
fn host(rt: &impl Abort, alloc: Global) -> MemHost {
    let files = files(rt, alloc);
    MemHost::new(alloc, files, List::new(alloc), List::new(alloc), 1000).expect(rt, "memory")
}

// A host in which the file of the plain module is open.
fn open_host(rt: &impl Abort, alloc: Global) -> MemHost {
    let mut host = host(rt, alloc);
    assert_eq!(rt; host.open("a"), Ok(()));
    host
}

#[test]
fn a_source_is_read_within_its_limit(rt: HostRuntime) {
    let mut source = open_host(&rt, rt.alloc());
    let read = read_module(rt.alloc(), &mut source, 120, WITH_DEBUG);
    assert!(rt; matches!(read, Ok((_, 120))));
}

#[test]
fn a_source_is_not_read_past_its_limit(rt: HostRuntime) {
    let mut source = open_host(&rt, rt.alloc());
    let stop = read_module(rt.alloc(), &mut source, 119, WITH_DEBUG);
    assert!(rt; matches!(stop, Err(SourceStop::Limit)));
}
