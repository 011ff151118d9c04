//! Texts of modules, and arguments that show none.

use mufom_runs::{File, Held, replay};

const FILES: &[File] = &[
    ("m1", Held::Absolute),
    ("a", Held::Relocatable),
    ("-x", Held::Absolute),
    ("-", Held::Absolute),
];

const SHOWN: &str = r#"
$ show m1
module "A" processor "68000" maus 4 order M
section 0 "code" ASP size 4 align 2 base 4096
select 0
counter 0 = 4096
bytes 4 4E714E75
start = 4096
$ show m1 --no-debug
module "A" processor "68000" maus 4 order M
section 0 "code" ASP size 4 align 2 base 4096
select 0
counter 0 = 4096
bytes 4 4E714E75
start = 4096
$ show a
module "prog" processor "68000" maus 4 order M
extension 3 bytes
environment 3 bytes
section 0 ".text" CP size 12 align 2
public 0 "main" = (R0 + 4)
note type 15 attribute 19 1
reference 0 "exit"
select 0
counter 0 = R0
bytes 4 4E714E71
field either 4 = (R0 + 4)
field signed 4 = (X0 - P0)
start = (R0 + 4)
# Names after two dashes, and a dash alone.
$ show -- -x
module "A" processor "68000" maus 4 order M
section 0 "code" ASP size 4 align 2 base 4096
select 0
counter 0 = 4096
bytes 4 4E714E75
start = 4096
$ show -
module "A" processor "68000" maus 4 order M
section 0 "code" ASP size 4 align 2 base 4096
select 0
counter 0 = 4096
bytes 4 4E714E75
start = 4096
"#;

#[test]
fn modules_are_shown(rt: HostRuntime) {
    replay(rt.alloc(), FILES, SHOWN).expect(&rt, "a transcript");
}

const USAGE: &str = r#"
$ 
[2] usage: no command
$ dmup a
[2] usage: no command
$ dump
[2] usage: no file
$ show m1 m1
[2] usage: file count
$ show [
[2] usage: stray bracket
$ show --help
[2] usage: bad words
$ show --no-debug --no-debug m1
[2] usage: bad words
"#;

#[test]
fn words_that_show_no_file_are_usage_faults(rt: HostRuntime) {
    replay(rt.alloc(), FILES, USAGE).expect(&rt, "a transcript");
}
