//! Tests of the forms of GNU binutils: sizes without a comma, and expressions that end where debug data of another format begins.

use crate::streams::{
    DATA, DEBUG, EXTERNAL, GNU, GNU_WITHOUT_DEBUG, WITH_DEBUG, WITHOUT_DEBUG, add, copy_of,
    end_after, gives, read, refused, set, text_of, with_part,
};
use mufom_numbers::Reason;
use mufom_read::{ReadOptions, ReadStop};
use std::alloc::Global;
use std::process::Abort;

// The plain module with these external and debug parts in place of all parts after its section part.
fn with_external_and_debug(
    rt: &impl Abort,
    alloc: Global,
    external: &[u8],
    debug: &[u8],
) -> Vec<u8> {
    let mut stream = with_part(rt, alloc, EXTERNAL, external);
    stream.truncate(external.len().saturating_add(100));
    let [high, low] = end_after(external).to_be_bytes();
    for (at, byte) in [(51, high), (DEBUG, low)] {
        set(&mut stream, at, byte);
    }
    add(rt, &mut stream, debug);
    let end = u16::try_from(stream.len()).unwrap_or(u16::MAX);
    let [high, low] = end.to_be_bytes();
    for (at, byte) in [(75, high), (76, low)] {
        set(&mut stream, at, byte);
    }
    add(rt, &mut stream, b"\xE1");
    stream
}

// Asserts what a stream gives, read whole and in chunks of one and of seven bytes.
fn gives_in_any_chunks(
    rt: &impl Abort,
    alloc: Global,
    stream: &[u8],
    options: ReadOptions,
    wanted: Option<ReadStop>,
) {
    gives(rt, alloc, stream, 1000, options, wanted);
    gives(rt, alloc, stream, 1, options, wanted);
    gives(rt, alloc, stream, 7, options, wanted);
}

// A public, whose value is the last token of the part, and debug data of another format after it.
#[test]
fn an_expression_ends_before_raw_debug_data(rt: HostRuntime) {
    let alloc = rt.alloc();
    let external = b"\xE8\x20\x01\x61\xE2\xC9\x20\x00";
    let stream = with_external_and_debug(&rt, alloc, external, b"\x01\x02\x03\xE1");
    let surplus = refused(111, Reason::SurplusTerms);
    gives_in_any_chunks(&rt, alloc, &stream, WITHOUT_DEBUG, surplus);
    gives_in_any_chunks(&rt, alloc, &stream, WITH_DEBUG, surplus);
    gives_in_any_chunks(&rt, alloc, &stream, GNU, surplus);
    gives_in_any_chunks(&rt, alloc, &stream, GNU_WITHOUT_DEBUG, None);
}

// Two terms before debug data that begins with a function of two operands.
#[test]
fn raw_debug_data_ends_no_expression(rt: HostRuntime) {
    let alloc = rt.alloc();
    let external = b"\xE8\x20\x01\x61\xE2\xC9\x20\x00\x00";
    let stream = with_external_and_debug(&rt, alloc, external, b"\xA5\xE1");
    let gap = refused(104, Reason::PartGap);
    gives_in_any_chunks(&rt, alloc, &stream, WITHOUT_DEBUG, gap);
    let surplus = refused(109, Reason::SurplusTerms);
    gives_in_any_chunks(&rt, alloc, &stream, GNU_WITHOUT_DEBUG, surplus);
}

// A name that goes on into the debug part.
#[test]
fn a_record_that_takes_in_debug_data_is_read_as_it_is(rt: HostRuntime) {
    let alloc = rt.alloc();
    let stream = with_external_and_debug(&rt, alloc, b"\xE8\x20\x03\x61", b"\x62\x63\xE1\xE1");
    let gap = refused(100, Reason::PartGap);
    gives_in_any_chunks(&rt, alloc, &stream, WITHOUT_DEBUG, gap);
    gives_in_any_chunks(&rt, alloc, &stream, GNU_WITHOUT_DEBUG, gap);
}

// A field whose size has no comma, as the only item of the data part.
fn sized_field(rt: &impl Abort, alloc: Global, item: &[u8]) -> Vec<u8> {
    let mut part = copy_of(rt, alloc, b"\xE5\x01\xE4");
    add(rt, &mut part, item);
    with_part(rt, alloc, DATA, &part)
}

#[test]
fn a_size_without_a_comma_is_read(rt: HostRuntime) {
    let alloc = rt.alloc();
    let stream = sized_field(&rt, alloc, b"\xBE\xD2\x01\x02\xBF");
    gives_in_any_chunks(&rt, alloc, &stream, GNU, None);
    gives_in_any_chunks(
        &rt,
        alloc,
        &stream,
        WITH_DEBUG,
        refused(107, Reason::SurplusTerms),
    );
}

// Asserts that a field without a comma is the module of one with a comma.
fn are_the_same(rt: &impl Abort, alloc: Global, gnu: &[u8], plain: &[u8]) {
    let first = gnu_text(rt, alloc, &sized_field(rt, alloc, gnu));
    let second = text_of(rt, alloc, &sized_field(rt, alloc, plain), 7);
    assert_eq!(rt; first.as_str(), second.as_str());
}

// The parts, as text, of a module with the forms of GNU binutils.
fn gnu_text(rt: &impl Abort, alloc: Global, stream: &[u8]) -> String {
    match read(alloc, stream, 7, GNU) {
        Ok(module) => format!(in alloc; "{:?}", module.parts()).expect(rt, "memory"),
        Err(stop) => panic!(rt; "{stop:?}"),
    }
}

#[test]
fn fields_without_a_comma_are_those_with_one(rt: HostRuntime) {
    let alloc = rt.alloc();
    are_the_same(
        &rt,
        alloc,
        b"\xBE\xD2\x01\x02\xBF",
        b"\xBE\xD2\x01\x90\x02\xBF",
    );
    are_the_same(&rt, alloc, b"\xBE\x05\x02\xBF", b"\xBE\x05\x90\x02\xBF");
    are_the_same(
        &rt,
        alloc,
        b"\xBE\xD2\x01\xD0\x01\xA6\x02\xBF",
        b"\xBA\xD2\x01\xD0\x01\xA6\x90\x02\xBB",
    );
    are_the_same(
        &rt,
        alloc,
        b"\xBC\xD2\x01\xD0\x01\xA6\x02\xBD",
        b"\xBC\xD2\x01\xD0\x01\xA6\x90\x02\xBD",
    );
    are_the_same(&rt, alloc, b"\xBE\x02\xBF", b"\xBE\x02\xBF");
}
