//! Modules that are written and read back.

use mufom_drafts::files::{ABSOLUTE, BLOCKS, EMPTY, EVERY_KIND, LIBRARY, RELOCATABLE};
use mufom_host::{Host, MemHost};
use mufom_module::Module;
use mufom_numbers::List;
use mufom_read::{ReadOptions, Reader};
use mufom_text::print_module;
use mufom_write::write_module;
use std::alloc::Global;
use std::process::Abort;

/// How many bytes a host has room for.
const ROOM: usize = 65_536;

const ABSOLUTE_TEXT: &str = "\
      module \"A\" processor \"68000\" maus 4 order M\n\
      section 0 \"code\" ASP size 4 align 2 base 4096\n\
      select 0\n\
      counter 0 = 4096\n\
      bytes 4 4E714E75\n\
      start = 4096\n";

const RELOCATABLE_TEXT: &str = "\
      module \"prog\" processor \"68000\" maus 4 order M\n\
      extension 3 bytes\n\
      environment 3 bytes\n\
      section 0 \".text\" CP size 12 align 2\n\
      public 0 \"main\" = (R0 + 4)\n\
      note type 15 attribute 19 1\n\
      reference 0 \"exit\"\n\
      select 0\n\
      counter 0 = R0\n\
      bytes 4 4E714E71\n\
      field either 4 = (R0 + 4)\n\
      field signed 4 = (X0 - P0)\n\
      start = (R0 + 4)\n";

const LIBRARY_TEXT: &str =
    "module \"lib\" processor \"68000\" maus 4 order M\nsection 0 \".text\" CP size 2 align 1\npublic 0 \"exit\" = R0\nselect 0\nbytes 2 4E75\n";

const EMPTY_TEXT: &str = "module \"A\" processor \"68000\" maus 4 order M\n";

const EVERY_KIND_TEXT: &str = "\
      module \"m\" processor \"P\" maus 2 order L\n\
      extension 3 bytes\n\
      environment 1 bytes\n\
      section 0 \"c\" CP size 12 align 2\n\
      section 1 \"d\" ASD size 0 align 1 base 4096\n\
      section 2 \"\" CR size 0 align 1\n\
      section 3 \"n\" C size 0 align 1\n\
      public 0 \"f\" = (R0 + 4)\n\
      note type 15 attribute 19 1\n\
      reference 0 \"x\" weak size 8 default 300\n\
      note type 1 attribute 2\n\
      reference 1 \"y\" weak size 0 default 0\n\
      reference 2 \"z\"\n\
      select 0\n\
      counter 0 = R0\n\
      bytes 2 4E71\n\
      field either 4 = X0\n\
      repeat 3\n\
      \x20\x20bytes 1 00\n\
      repeat 4\n\
      \x20\x20field signed 2 = 6\n\
      repeat 2\n\
      \x20\x20field unsigned 1 = 1\n\
      \x20\x20bytes 1 09\n\
      repeat 0\n\
      start = R0\n";

const BLOCKS_TEXT: &str = "\
      module \"d\" processor \"P\" maus 4 order M\n\
      section 0 \"c\" CP size 16 align 1\n\
      name 0 \"x\"\n\
      note 0 type 15 attribute 7 1\n\
      block 3 \"m\"\n\
      \x20\x20block 5 \"s\" 1 2\n\
      \x20\x20\x20\x20block 4 \"f\" stack 0 type 15 offset R0\n\
      \x20\x20\x20\x20\x20\x20block 6 \"g\" stack 2 type 0 offset (R0 + 4)\n\
      \x20\x20\x20\x20\x20\x20\x20\x20value 0 = R0\n\
      \x20\x20\x20\x20\x20\x20end = (R0 + 8)\n\
      \x20\x20\x20\x20end = (R0 + 12)\n\
      \x20\x20end\n\
      \x20\x20block 11 \"c\" section-type 1 section 0 offset R0\n\
      \x20\x20end = 16\n\
      end\n\
      value 0 = 1\n";

// The debug part is read, and no form of GNU binutils is accepted.
const OPTIONS: ReadOptions = ReadOptions {
    debug: true,
    gnu: false,
};

// The module of a file that comes in these chunks.
fn read(rt: &impl Abort, alloc: Global, fed: &[&[u8]]) -> Module {
    let mut reader = Reader::new(alloc, OPTIONS).expect(rt, "memory");
    for chunk in fed {
        assert_eq!(rt; reader.feed(chunk), Ok(()), "{chunk:?}");
    }
    match reader.finish() {
        Ok(module) => module,
        Err(stop) => panic!(rt; "{stop:?}"),
    }
}

// A host without files, on which no call fails.
fn host(rt: &impl Abort, alloc: Global) -> MemHost {
    let (files, reads, writes) = (List::new(alloc), List::new(alloc), List::new(alloc));
    MemHost::new(alloc, files, reads, writes, ROOM).expect(rt, "memory")
}

// What is written of a module.
fn written(rt: &impl Abort, alloc: Global, module: &Module) -> Vec<u8> {
    let mut host = host(rt, alloc);
    assert_eq!(rt; host.create("a"), Ok(()));
    assert_eq!(rt; write_module(module, &mut host), Ok(()));
    let (_, bytes) = host.making().expect(rt, "a file");
    Vec::from_slice(alloc, bytes).expect(rt, "memory")
}

// What is written of the module of a file that comes in these chunks.
fn rewritten(rt: &impl Abort, alloc: Global, fed: &[&[u8]]) -> Vec<u8> {
    let module = read(rt, alloc, fed);
    written(rt, alloc, &module)
}

// The module of a file is shown as this text.
fn shows(rt: &impl Abort, alloc: Global, file: &[u8], text: &str) {
    let module = read(rt, alloc, &[file]);
    let mut host = host(rt, alloc);
    assert_eq!(rt; print_module(alloc, &mut host, &module), Ok(()));
    assert_eq!(rt; host.out(), text.as_bytes());
}

// The module of a file is shown as this text; so is what is written of it, which is written again as
// it is.
fn returns(rt: &impl Abort, alloc: Global, file: &[u8], text: &str) {
    shows(rt, alloc, file, text);
    let written = rewritten(rt, alloc, &[file]);
    shows(rt, alloc, &written, text);
    assert_eq!(rt; rewritten(rt, alloc, &[&written]), written);
}

#[test]
fn hand_made_modules_are_read_back(rt: HostRuntime) {
    let alloc = rt.alloc();
    returns(&rt, alloc, &ABSOLUTE, ABSOLUTE_TEXT);
    returns(&rt, alloc, &RELOCATABLE, RELOCATABLE_TEXT);
    returns(&rt, alloc, &LIBRARY, LIBRARY_TEXT);
    returns(&rt, alloc, &EMPTY, EMPTY_TEXT);
}

#[test]
fn a_module_with_every_kind_of_record_is_read_back(rt: HostRuntime) {
    let alloc = rt.alloc();
    returns(&rt, alloc, &EVERY_KIND, EVERY_KIND_TEXT);
    assert_eq!(rt;
        rewritten(&rt, alloc, &[&EVERY_KIND]).as_slice(),
        EVERY_KIND.as_slice()
    );
}

#[test]
fn a_module_with_blocks_of_every_kind_is_read_back(rt: HostRuntime) {
    let alloc = rt.alloc();
    returns(&rt, alloc, &BLOCKS, BLOCKS_TEXT);
    assert_eq!(rt;
        rewritten(&rt, alloc, &[&BLOCKS]).as_slice(),
        BLOCKS.as_slice()
    );
}

// The record of the offset of the section part begins at 31, with the bytes E2, D7, 2 and 84.
#[test]
fn a_file_that_is_cut_anywhere_gives_the_same_module(rt: HostRuntime) {
    let alloc = rt.alloc();
    let file: &[u8] = &RELOCATABLE;
    let whole = rewritten(&rt, alloc, &[file]);
    let cut = [&file[..32], &file[32..35], &file[35..]];
    assert_eq!(rt; rewritten(&rt, alloc, &cut), whole);
    let mut bytes = Vec::new(alloc);
    for byte in file.chunks(1) {
        bytes.push(byte).expect(&rt, "memory");
    }
    assert_eq!(rt; rewritten(&rt, alloc, &bytes), whole);
}
