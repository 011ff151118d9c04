//! Texts that are read, refused and written, and the module of a text.

use mufom_host::{Host, MemHost};
use mufom_loads::{Item, Load};
use mufom_numbers::{Bytes, List};
use mufom_titxt::{
    TextRun, TxtReason, TxtRefusal, TxtStop, read_txt, text_module, write_end, write_run,
};
use std::alloc::Global;
use std::process::Abort;

// The runs of a text, if addresses have four units.
fn read(rt: &impl Abort, alloc: Global, text: &str) -> List<TextRun> {
    let text = text.as_bytes();
    assert!(rt; text.len() < 100);
    read_txt(alloc, text, 4).ok().expect(rt, "runs")
}

// The error of a text, if addresses have four units.
fn refusal(rt: &impl Abort, alloc: Global, text: &str) -> TxtRefusal {
    let text = text.as_bytes();
    assert!(rt; text.len() < 100);
    let refusal = match read_txt(alloc, text, 4) {
        Err(TxtStop::Refused(refusal)) => Some(refusal),
        _ => None,
    };
    refusal.expect(rt, "a refusal")
}

#[test]
fn bytes_are_read_in_any_order_of_addresses(rt: HostRuntime) {
    let runs = read(
        &rt,
        rt.alloc(),
        "@1002\n4E 75\n@1010\n00\n @1000 \n\n4e  71\nQ",
    );
    let runs = runs.as_slice();
    assert_eq!(rt; runs.len(), 2);
    assert_eq!(rt; runs[0].address, 0x1000);
    assert_eq!(rt; runs[0].bytes.as_slice(), &b"\x4E\x71\x4E\x75"[..]);
    assert_eq!(rt; runs[0].end(), 0x1004);
    assert_eq!(rt; runs[1].address, 0x1010);
    assert_eq!(rt; runs[1].bytes.as_slice(), &b"\x00"[..]);
}

#[test]
fn carriage_returns_end_lines(rt: HostRuntime) {
    let runs = read(&rt, rt.alloc(), "@f000\r\n4e\r\nq\r\n");
    let runs = runs.as_slice();
    assert_eq!(rt; runs.len(), 1);
    assert_eq!(rt; runs[0].address, 0xF000);
    assert_eq!(rt; runs[0].bytes.as_slice(), &b"\x4E"[..]);
}

#[test]
fn the_first_line_with_an_error_is_named(rt: HostRuntime) {
    let cases = [
        ("00 11\nq\n", 1, TxtReason::NoAddress),
        ("@0\n00\n@0\n01\nq\n", 4, TxtReason::Twice(0)),
        ("@FFFFFFFF\n00 01\nq\n", 2, TxtReason::Beyond),
        ("@10\n", 2, TxtReason::NoEnd),
        ("q\n\nq", 3, TxtReason::AfterEnd),
        ("@0\n001\nq\n", 2, TxtReason::BadLine),
    ];
    for (text, line, reason) in cases {
        let wanted = TxtRefusal { line, reason };
        assert_eq!(rt; refusal(&rt, rt.alloc(), text), wanted, "{text}");
    }
}

#[test]
fn runs_are_written_in_lines_of_sixteen_bytes(rt: HostRuntime) {
    let alloc = rt.alloc();
    let host = MemHost::new(
        alloc,
        List::new(alloc),
        List::new(alloc),
        List::new(alloc),
        4096,
    );
    let mut host = host.expect(&rt, "memory");
    assert!(rt; host.create("out").is_ok());
    assert!(rt; write_run(0x1000, b"\x4E\x71\x4E\x75", &mut host).is_ok());
    assert!(rt; write_run(0x12345, b"ABCDEFGHIJKLMNOPQ", &mut host).is_ok());
    assert!(rt; write_end(&mut host).is_ok());
    let (_, text) = host.making().expect(&rt, "a file");
    let wanted = "\
        @1000\n\
        4E 71 4E 75\n\
        @12345\n\
        41 42 43 44 45 46 47 48 49 4A 4B 4C 4D 4E 4F 50\n\
        51\n\
        q\n\
        ";
    assert_eq!(rt; text, wanted.as_bytes());
}

#[test]
fn a_run_is_a_section_of_the_module(rt: HostRuntime) {
    let alloc = rt.alloc();
    let bytes = Bytes::from_slice(alloc, b"\x4E\x71\x4E\x75").expect(&rt, "memory");
    let run = TextRun {
        address: 0x1000,
        bytes,
    };
    let module = text_module(alloc, &[run], 4).expect(&rt, "memory");
    let parts = module.parts();
    let sections = parts.sections.as_slice();
    assert_eq!(rt; sections.len(), 1);
    assert_eq!(rt; sections[0].base, Some(0x1000));
    assert_eq!(rt; sections[0].size, 4);
    let loads = parts.loads.as_slice();
    assert_eq!(rt; loads.len(), 2);
    assert!(rt; matches!(loads[0], Load::SetSection(0)));
    let literal = match &loads[1] {
        Load::One(Item::Literal(literal)) => Some(literal),
        _ => None,
    };
    let literal = literal.expect(&rt, "a literal");
    assert_eq!(rt; literal.as_slice(), &b"\x4E\x71\x4E\x75"[..]);
}
