//! Tests of the real host: a file that is written and read back, and texts that are printed.

use mufom_host::{Failed, Host, RealHost, Sink, Source};
use std::fs;
use std::test::Fail;

const NAME: &str = "real_host_test.tmp";

// Makes the file from these two chunks, and returns whether every call succeeded.
fn makes(host: &mut RealHost, first: &[u8], second: &[u8]) -> bool {
    host.create(NAME).is_ok()
        && host.write(first) == Ok(first.len())
        && host.write(second) == Ok(second.len())
        && host.finish().is_ok()
}

// The number of bytes that one read of the file gives, if it opens.
fn reads(host: &mut RealHost, buffer: &mut [u8]) -> Result<usize, Failed> {
    host.open(NAME)?;
    host.read(buffer)
}

#[test]
fn a_file_is_written_and_read_back(rt: HostRuntime) -> Result<(), Fail> {
    let mut host = RealHost::new(rt.clone()?);
    let mut buffer = [0u8; 16];
    assert_eq!(rt;
        reads(&mut host, &mut buffer),
        Err(Failed),
        "it is not there"
    );
    assert!(rt; makes(&mut host, b"written ", b"in two"));
    assert_eq!(rt; reads(&mut host, &mut buffer), Ok(14));
    assert_eq!(rt; buffer, *b"written in two\0\0");
    assert!(rt; makes(&mut host, b"", b""), "it is emptied");
    assert_eq!(rt; reads(&mut host, &mut buffer), Ok(0));
    fs::remove_file(&rt, NAME)?;
    Ok(())
}

/// A length in bytes: more than the host gathers of a file, and less than two blocks.
const LONG: usize = 100_000;

// Whether a file is read back correctly that was written in three chunks: a short one, one that is longer
// than a block, and a short one again.
fn returns_all(host: &mut RealHost, long: &[u8]) -> bool {
    let mut first = [0u8; 1];
    let mut rest = [0u8; LONG];
    host.create(NAME).is_ok()
        && host.write(b"a") == Ok(1)
        && host.write(long) == Ok(LONG)
        && host.write(b"z") == Ok(1)
        && host.finish().is_ok()
        && reads(host, &mut first) == Ok(1)
        && host.read(&mut rest) == Ok(LONG)
        && rest.as_slice() == long
        && host.read(&mut first) == Ok(1)
        && first == *b"z"
        && host.read(&mut first) == Ok(0)
}

#[test]
fn a_file_of_several_blocks_is_written(rt: HostRuntime) -> Result<(), Fail> {
    let mut host = RealHost::new(rt.clone()?);
    assert!(rt; returns_all(&mut host, &[b'x'; LONG]));
    fs::remove_file(&rt, NAME)?;
    Ok(())
}

#[test]
fn texts_are_printed(rt: HostRuntime) -> Result<(), Fail> {
    let mut host = RealHost::new(rt.clone()?);
    assert_eq!(rt; host.print(b"printed\n"), Ok(()));
    assert_eq!(rt; host.complain(b"complained\n"), Ok(()));
    Ok(())
}
