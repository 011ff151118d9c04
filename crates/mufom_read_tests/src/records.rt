//! Tests of reading single records: complete ones with their values, each error at its offset, and an expression.

use mufom_expr::{Function, Letter, Token};
use mufom_numbers::{Reason, Taken};
use mufom_records::{ExpressionTokens, Mode, Record, next_record, postfix_of, read_record};
use std::alloc::Global;
use std::process::Abort;

// Complete records, each followed by the byte E1, with the mode to read them in and their values.
static RECORDS: [(Mode, &[u8], &str); 61] = [
    (
        Mode::Begin,
        b"\xE0\x05\x36\x38\x30\x30\x30\x01\x41\xE1",
        "ModuleBegin(Span { start: 2, len: 5 }, Span { start: 8, len: 1 })",
    ),
    (
        Mode::Body,
        b"\xE0\xDE\x01\x41\xDF\x00\x01\x42\xE1",
        "ModuleBegin(Span { start: 3, len: 1 }, Span { start: 7, len: 1 })",
    ),
    (
        Mode::Descriptor,
        b"\xEC\x08\x04\xE1",
        "Descriptor(8, 4, None)",
    ),
    (
        Mode::Descriptor,
        b"\xEC\x81\x08\x04\xCD\xE1",
        "Descriptor(8, 4, Some(205))",
    ),
    (
        Mode::Descriptor,
        b"\xEC\x08\x02\xCC\xE1",
        "Descriptor(8, 2, Some(204))",
    ),
    (
        Mode::Offset(2),
        b"\xE2\xD7\x02\x84\x00\x00\x00\x4D\xE1",
        "Offset(2, 77)",
    ),
    (
        Mode::Offset(3),
        b"\xE2\xD7\x81\x03\x83\x00\x01\x00\xE1",
        "Offset(3, 256)",
    ),
    (
        Mode::Body,
        b"\xE2\xD7\x80\x88\x00\x00\x00\x00\x00\x00\x01\x00\xE1",
        "Offset(0, 256)",
    ),
    (Mode::Body, b"\xE1\xE1", "ModuleEnd"),
    (
        Mode::Body,
        b"\xE6\x01\xC1\xD3\xD0\x04\x63\x6F\x64\x65\xE1",
        "SectionType(1, true, Some(208), Span { start: 6, len: 4 }, None, None, None)",
    ),
    (
        Mode::Body,
        b"\xE6\x01\xC3\x00\x05\xE1",
        "SectionType(1, false, None, Span { start: 4, len: 0 }, Some(5), None, None)",
    ),
    (
        Mode::Body,
        b"\xE6\x84\xFF\xFF\xFF\xFF\xC3\xC4\x00\x81\x07\x08\x80\xE1",
        "SectionType(4294967295, false, Some(196), Span { start: 9, len: 0 }, Some(7), Some(8), Some(0))",
    ),
    (
        Mode::Body,
        b"\xE6\x01\xC3\xD2\x00\x05\x06\xE1",
        "SectionType(1, false, Some(210), Span { start: 5, len: 0 }, Some(5), Some(6), None)",
    ),
    (Mode::Body, b"\xE7\x01\x02\xE1", "Alignment(1, 2, None)"),
    (
        Mode::Body,
        b"\xE7\x01\x87\x00\x00\x00\x00\x00\x00\x02\xE1",
        "Alignment(1, 2, None)",
    ),
    (
        Mode::Body,
        b"\xE7\x01\x02\x03\xE1",
        "Alignment(1, 2, Some(3))",
    ),
    (Mode::Body, b"\xE2\xD3\x01\x04\xE1", "SectionSize(1, 4)"),
    (
        Mode::Body,
        b"\xE2\xD3\x01\x85\x01\x00\x00\x00\x00\xE1",
        "SectionSize(1, 4294967296)",
    ),
    (
        Mode::Body,
        b"\xE2\xCC\x01\x82\x10\x00\xE1",
        "SectionBase(1, 4096)",
    ),
    (
        Mode::Body,
        b"\xE2\xCC\x01\x86\x00\x00\x00\x00\x10\x00\xE1",
        "SectionBase(1, 4096)",
    ),
    (
        Mode::Body,
        b"\xE8\x20\x01\x66\xE1",
        "PublicName(32, Span { start: 3, len: 1 })",
    ),
    (
        Mode::Body,
        b"\xE2\xC9\x20\xD2\x01\x04\xA5\xE1",
        "PublicValue(32, Span { start: 3, len: 4 })",
    ),
    (
        Mode::Body,
        b"\xF1\xC9\x20\x0F\x13\xE1",
        "PublicNote(32, 15, 19, [])",
    ),
    (
        Mode::Body,
        b"\xF1\xC9\x20\x0F\x13\x01\x02\x03\x04\xE1",
        "PublicNote(32, 15, 19, [1, 2, 3, 4])",
    ),
    (
        Mode::Body,
        b"\xE9\x0B\x01\x67\xE1",
        "ReferenceName(11, Span { start: 3, len: 1 })",
    ),
    (
        Mode::Body,
        b"\xF4\x0B\x04\xE1",
        "WeakReference(11, 4, None)",
    ),
    (
        Mode::Body,
        b"\xF4\x0B\x04\x09\xE1",
        "WeakReference(11, 4, Some(9))",
    ),
    (
        Mode::Body,
        b"\xF1\xD8\x0B\x00\x00\x01\xE1",
        "ReferenceNote(11, 0, 0, [1])",
    ),
    (
        Mode::Body,
        b"\xF8\x03\x00\x01\x61\xE1",
        "BlockBegin(3, 0, Span { start: 4, len: 1 }, Module)",
    ),
    (
        Mode::Body,
        b"\xF8\x04\x00\x01\x61\x00\x02\xD2\x01\xE1",
        "BlockBegin(4, 0, Span { start: 4, len: 1 }, Scope { stack: 0, type_index: 2, offset: Span { start: 7, len: 2 } })",
    ),
    (
        Mode::Body,
        b"\xF8\x06\x00\x00\x07\x02\x05\xE1",
        "BlockBegin(6, 0, Span { start: 4, len: 0 }, Scope { stack: 7, type_index: 2, offset: Span { start: 6, len: 1 } })",
    ),
    (
        Mode::Body,
        b"\xF8\x05\x00\x00\xE1",
        "BlockBegin(5, 0, Span { start: 4, len: 0 }, Source([]))",
    ),
    (
        Mode::Body,
        b"\xF8\x05\x00\x00\x01\x02\x03\x04\x05\x06\xE1",
        "BlockBegin(5, 0, Span { start: 4, len: 0 }, Source([1, 2, 3, 4, 5, 6]))",
    ),
    (
        Mode::Body,
        b"\xF8\x0B\x00\x00\x07\x01\x05\xE1",
        "BlockBegin(11, 0, Span { start: 4, len: 0 }, Section { section_type: 7, section: 1, offset: Span { start: 6, len: 1 } })",
    ),
    (Mode::Body, b"\xF9\xE1", "BlockEnd(None)"),
    (
        Mode::Body,
        b"\xF9\xD2\x01\xE1",
        "BlockEnd(Some(Span { start: 1, len: 2 }))",
    ),
    (
        Mode::Body,
        b"\xF0\x20\x01\x78\xE1",
        "DebugName(32, Span { start: 3, len: 1 })",
    ),
    (
        Mode::Body,
        b"\xE2\xCE\x20\x05\xA3\xE1",
        "DebugValue(32, Span { start: 3, len: 2 })",
    ),
    (
        Mode::Body,
        b"\xF1\xCE\x20\x00\x07\x0C\x00\xE1",
        "DebugNote(32, 0, 7, [12, 0])",
    ),
    (Mode::Body, b"\xE5\x01\xE1", "SetSection(1)"),
    (
        Mode::Body,
        b"\xE2\xD0\x01\xD0\x01\x05\xA5\xE1",
        "SetPc(1, Span { start: 3, len: 4 })",
    ),
    (
        Mode::Body,
        b"\xED\x02\xAA\xBB\xE1",
        "Constant(Span { start: 2, len: 2 })",
    ),
    (
        Mode::Body,
        b"\xED\x00\xE1",
        "Constant(Span { start: 2, len: 0 })",
    ),
    (Mode::Body, b"\xE4\xE1", "Relocate"),
    (
        Mode::Items,
        b"\x81\x02\xAA\xBB\xE1",
        "ConstantItem(Span { start: 2, len: 2 })",
    ),
    (
        Mode::Items,
        b"\xBA\x05\xBB\xE1",
        "FieldItem(Signed, Span { start: 1, len: 1 }, None)",
    ),
    (
        Mode::Items,
        b"\xBC\x05\x90\x82\x00\x01\xBD\xE1",
        "FieldItem(Unsigned, Span { start: 1, len: 1 }, Some(1))",
    ),
    (
        Mode::Items,
        b"\xBE\xD8\x0B\x90\x02\xBF\xE1",
        "FieldItem(Either, Span { start: 1, len: 2 }, Some(2))",
    ),
    (
        Mode::GnuItems,
        b"\xBE\xD2\x01\x02\xBF\xE1",
        "FieldItem(Either, Span { start: 1, len: 2 }, Some(2))",
    ),
    (
        Mode::GnuItems,
        b"\xBE\x05\x02\xBF\xE1",
        "FieldItem(Either, Span { start: 1, len: 1 }, Some(2))",
    ),
    (
        Mode::GnuItems,
        b"\xBE\xD2\x01\x81\x02\xBF\xE1",
        "FieldItem(Either, Span { start: 1, len: 2 }, Some(2))",
    ),
    (
        Mode::GnuItems,
        b"\xBE\xD2\x01\xD0\x01\xA6\x02\xBF\xE1",
        "FieldItem(Signed, Span { start: 1, len: 5 }, Some(2))",
    ),
    (
        Mode::GnuItems,
        b"\xBC\xD2\x01\xD0\x01\xA6\x02\xBD\xE1",
        "FieldItem(Unsigned, Span { start: 1, len: 5 }, Some(2))",
    ),
    (
        Mode::GnuItems,
        b"\xBE\x02\xBF\xE1",
        "FieldItem(Either, Span { start: 1, len: 1 }, None)",
    ),
    (
        Mode::GnuItems,
        b"\xBE\xD0\x01\x90\x02\xBF\xE1",
        "FieldItem(Either, Span { start: 1, len: 2 }, Some(2))",
    ),
    (
        Mode::Body,
        b"\xF7\x03\xED\x01\xAA\xE1",
        "RepeatConstant(3, Span { start: 4, len: 1 })",
    ),
    (Mode::Body, b"\xF7\x03\xE4\xE1", "RepeatRelocate(3)"),
    (
        Mode::Body,
        b"\xE2\xC7\x82\x10\x00\xE1",
        "Start(Span { start: 2, len: 3 })",
    ),
    (
        Mode::Body,
        b"\xE2\xC7\xBA\x05\xBB\xE1",
        "Start(Span { start: 3, len: 1 })",
    ),
    (
        Mode::Body,
        b"\xE2\xC7\xBC\x05\xBD\xE1",
        "Start(Span { start: 3, len: 1 })",
    ),
    (
        Mode::Body,
        b"\xE2\xC7\xBE\x05\xBF\xE1",
        "Start(Span { start: 3, len: 1 })",
    ),
];

// The result of reading a record at the start of the bytes, as text.
fn beginning(rt: &impl Abort, alloc: Global, mode: Mode, bytes: &[u8]) -> Taken<String> {
    match next_record(bytes, mode) {
        Taken::Got(record, length) => {
            let text = format!(in alloc; "{record:?}").expect(rt, "memory");
            Taken::Got(text, length)
        }
        Taken::More => Taken::More,
        Taken::Bad { offset, reason } => Taken::Bad { offset, reason },
    }
}

// Asserts that each proper prefix of a record needs more bytes. `bytes` is the record and one byte after it.
fn is_wanted_whole(rt: &impl Abort, alloc: Global, mode: Mode, bytes: &[u8], want: &str) {
    for end in 0..bytes.len().saturating_sub(1) {
        let answer = beginning(rt, alloc, mode, &bytes[..end]);
        assert!(rt; matches!(answer, Taken::More), "{want} of {end}");
    }
}

// Asserts that all bytes except the last one are read as this record.
fn is_read_whole(rt: &impl Abort, alloc: Global, mode: Mode, bytes: &[u8], want: &str) {
    let Taken::Got(text, length) = beginning(rt, alloc, mode, bytes) else {
        panic!(rt; "{want}");
    };
    assert_eq!(rt; text.as_str(), want, "{want}");
    assert_eq!(rt; length, bytes.len().saturating_sub(1), "{want}");
}

#[test]
fn records_are_read_whole_and_wanted_whole(rt: HostRuntime) {
    for (mode, bytes, want) in &RECORDS {
        is_wanted_whole(&rt, rt.alloc(), *mode, bytes, want);
        is_read_whole(&rt, rt.alloc(), *mode, bytes, want);
    }
}

// Inputs with an error, the offset at which it is reported, and its reason.
type Fault<'a> = (Mode, &'a [u8], usize, Reason);

static FAULTS: [Fault<'static>; 57] = [
    (Mode::Body, b"\xE5\x89", 1, Reason::BadNumber),
    (
        Mode::Body,
        b"\xE5\x85\x01\x00\x00\x00\x00",
        1,
        Reason::BadNumber,
    ),
    (Mode::Body, b"\xE2\xD0\x01\xD2\xFF", 4, Reason::BadNumber),
    (
        Mode::Body,
        b"\xE2\xD0\x01\xD2\x85\x01\x00\x00\x00\x00",
        4,
        Reason::BadNumber,
    ),
    (Mode::Items, b"\xBA\x05\x90\xBB", 3, Reason::BadNumber),
    (Mode::Items, b"\x91", 0, Reason::BadNumber),
    (Mode::Offset(1), b"\xE2\xD7\x89", 2, Reason::BadNumber),
    (Mode::Descriptor, b"\xEC\x89", 1, Reason::BadNumber),
    (Mode::Body, b"\xE8\x20\x80", 2, Reason::BadId),
    (
        Mode::Begin,
        b"\xE0\x04\x4E\x71\x4E\x75\xE2",
        6,
        Reason::BadId,
    ),
    (Mode::Body, b"\x00", 0, Reason::BadRecord),
    (Mode::Body, b"\xE2\x00", 1, Reason::BadRecord),
    (Mode::Body, b"\xF1\x00", 1, Reason::BadRecord),
    (Mode::Body, b"\xF7\x01\xE5", 2, Reason::BadRecord),
    (Mode::Body, b"\xF2", 0, Reason::UnsupportedRecord),
    (Mode::Body, b"\xE2\xC1", 0, Reason::UnsupportedRecord),
    (Mode::Body, b"\xE2\xD2", 0, Reason::UnsupportedRecord),
    (
        Mode::Body,
        b"\xE2\xD0\x01\xA4",
        3,
        Reason::UnsupportedFunction,
    ),
    (Mode::Body, b"\xF9\xB3", 1, Reason::UnsupportedFunction),
    (
        Mode::Body,
        b"\xE2\xD0\x01\x05\xC1",
        4,
        Reason::UnsupportedVariable,
    ),
    (Mode::Body, b"\xE2\xD0\x01\x05\xA5", 4, Reason::Underflow),
    (Mode::Body, b"\xF9\xA2", 1, Reason::Underflow),
    (
        Mode::Body,
        b"\xE2\xD0\x01\x01\x02\xE5",
        5,
        Reason::SurplusTerms,
    ),
    (Mode::Items, b"\xBA\x01\x02\xBB", 3, Reason::SurplusTerms),
    (
        Mode::GnuItems,
        b"\xBE\xD2\x01\x09\xBF",
        4,
        Reason::SurplusTerms,
    ),
    (
        Mode::GnuItems,
        b"\xBE\xD2\x01\x00\xBF",
        4,
        Reason::SurplusTerms,
    ),
    (
        Mode::GnuItems,
        b"\xBE\x01\x02\x03\xBF",
        4,
        Reason::SurplusTerms,
    ),
    (
        Mode::GnuItems,
        b"\xBE\xD2\x01\x02\x90\x02\xBF",
        4,
        Reason::SurplusTerms,
    ),
    (
        Mode::GnuItems,
        b"\xBE\xD2\x01\x02\xBB",
        4,
        Reason::BracketMismatch,
    ),
    (
        Mode::GnuItems,
        b"\xBE\x02\xD2\x01\xBF",
        4,
        Reason::SurplusTerms,
    ),
    (
        Mode::Items,
        b"\xBE\xD2\x01\x02\xBF",
        4,
        Reason::SurplusTerms,
    ),
    (Mode::Items, b"\xBE\x05\x02\xBF", 3, Reason::SurplusTerms),
    (
        Mode::Items,
        b"\xBE\xD2\x01\x81\x02\xBF",
        5,
        Reason::SurplusTerms,
    ),
    (
        Mode::Items,
        b"\xBE\xD2\x01\xD0\x01\xA6\x02\xBF",
        7,
        Reason::SurplusTerms,
    ),
    (Mode::Body, b"\xE2\xD0\x01\xE5", 3, Reason::Empty),
    (Mode::Body, b"\xE2\xC7\xBE\xBF", 3, Reason::Empty),
    (Mode::Body, b"\xED\x83\x01\x00\x00", 1, Reason::LongRun),
    (Mode::Items, b"\x83\x01\x00\x00", 0, Reason::LongRun),
    (Mode::Items, b"\xBA\x05\x90\x09", 3, Reason::BadFieldSize),
    (Mode::Items, b"\xBA\x05\x90\x80", 3, Reason::BadFieldSize),
    (Mode::Items, b"\xBA\x05\xBD", 2, Reason::BracketMismatch),
    (
        Mode::Items,
        b"\xBE\x05\x90\x02\xBD",
        4,
        Reason::BracketMismatch,
    ),
    (
        Mode::Body,
        b"\xE2\xC7\xBC\x05\xE1",
        4,
        Reason::BracketMismatch,
    ),
    (Mode::Body, b"\xE6\x01\xC4", 2, Reason::BadSectionType),
    (Mode::Body, b"\xE6\x01\xC1\xC4", 2, Reason::BadSectionType),
    (Mode::Body, b"\xF8\x01", 1, Reason::UnsupportedBlock),
    (
        Mode::Body,
        b"\xF1\xCE\x20\x00\x06",
        4,
        Reason::UnsupportedAttribute,
    ),
    (Mode::Begin, b"\xE1", 0, Reason::BadHeader),
    (Mode::Descriptor, b"\xE2", 0, Reason::BadHeader),
    (Mode::Offset(1), b"\xEC", 0, Reason::BadHeader),
    (Mode::Offset(1), b"\xE2\xD3", 0, Reason::BadHeader),
    (
        Mode::Offset(1),
        b"\xE2\xD7\x82\x00\x02",
        0,
        Reason::BadHeader,
    ),
    (Mode::Body, b"\xE5\x89\x89", 1, Reason::BadNumber),
    (Mode::Body, b"\xF8\x01\x89", 1, Reason::UnsupportedBlock),
    (Mode::Body, b"\xE2\xD0\x01\xA5\xC1", 3, Reason::Underflow),
    (Mode::Body, b"\xE6\x01\xC4\x80", 2, Reason::BadSectionType),
    (Mode::Body, b"\xED\x83\x01\x00\x00\x89", 1, Reason::LongRun),
];

fn is_named(rt: &impl Abort, alloc: Global, row: &Fault<'_>) {
    let (mode, bytes, at, reason) = row;
    match beginning(rt, alloc, *mode, bytes) {
        Taken::Bad {
            offset,
            reason: why,
        } => assert_eq!(rt; (offset, why), (*at, *reason), "{bytes:?}"),
        _ => panic!(rt; "no fault in {bytes:?}"),
    }
}

#[test]
fn the_first_fault_is_named_at_its_place(rt: HostRuntime) {
    for row in &FAULTS {
        is_named(&rt, rt.alloc(), row);
    }
}

/// An ASP with an expression of 255 tokens, followed by one token too many.
pub(crate) fn long_expression(section: u8) -> [u8; 259] {
    let mut bytes = [0; 259];
    bytes[0] = 0xE2;
    bytes[1] = 0xD0;
    bytes[2] = section;
    for i in 0..127 {
        bytes[2 * i + 5] = 0xA5;
    }
    bytes
}

#[test]
fn an_expression_has_at_most_255_tokens(rt: HostRuntime) {
    let mut bytes = long_expression(0);
    let fault = (Mode::Body, bytes.as_slice(), 258, Reason::TooLong);
    is_named(&rt, rt.alloc(), &fault);
    bytes[258] = 0xE1;
    let want = "SetPc(0, Span { start: 3, len: 255 })";
    is_read_whole(&rt, rt.alloc(), Mode::Body, &bytes, want);
}

#[test]
fn the_tokens_of_an_expression_are_left(rt: HostRuntime) {
    let mut row = Record::ModuleEnd;
    let mut tokens = ExpressionTokens::new();
    let input = b"\xE2\xD0\x00\xD8\x0B\xD0\x01\xA6\xE1";
    let read = read_record(input, Mode::Body, &mut row, &mut tokens);
    assert_eq!(rt; read, Ok(8));
    let want = [
        Token::Var(Letter::X, 11),
        Token::Var(Letter::P, 1),
        Token::Fun(Function::Minus),
    ];
    assert_eq!(rt; tokens.as_slice(), want.as_slice());
}

#[test]
fn an_expression_is_built_from_its_tokens(rt: HostRuntime) {
    let tokens = [
        Token::Var(Letter::X, 11),
        Token::Var(Letter::P, 1),
        Token::Fun(Function::Minus),
    ];
    let difference = postfix_of(rt.alloc(), &tokens).expect(&rt, "memory");
    assert_eq!(rt; difference.tokens(), tokens.as_slice());
}
