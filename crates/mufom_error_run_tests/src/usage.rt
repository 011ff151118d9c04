//! Arguments that give no command, numbers and groups that a command does not take, and how they are explained.

use mufom_runs::replay;
use std::alloc::Global;
use std::process::Abort;

/// Groups and members that are not whole, and others.
const RUNS: &str = r#"
$ dump [ ]
[2] usage: empty group
$ dump ]
[2] usage: stray bracket
$ dump [ a
[2] usage: open group
$ dump a +
[2] usage: bad members
# Words of other kinds.
$ locate a
[2] usage: bad words
$ show a b
[2] usage: file count
$ make 0
[2] usage: bad count
$ make
[2] usage: file count
# Two generated modules are located.
$ make 2
modules 2
publics 2
bytes 32
sum 103
"#;

#[test]
fn words_come_to_this(rt: HostRuntime) {
    replay(rt.alloc(), &[], RUNS).expect(&rt, "a transcript");
}

// A transcript of a run with these arguments, with its explanation. The arguments are some words `count` times, then
// `middle`, and then others `count` times.
fn limited(
    rt: &impl Abort,
    alloc: Global,
    words: (&str, &str, &str, &str),
    count: usize,
    name: &str,
) -> String {
    let (command, before, middle, after) = words;
    let before = before.repeat(alloc, count).expect(rt, "memory");
    let after = after.repeat(alloc, count).expect(rt, "memory");
    let line = format!(in alloc; "{command}{before}{middle}{after}").expect(rt, "memory");
    let error = format!(in alloc; "refused: {name} {count}\n").expect(rt, "memory");
    let text = format!(in alloc;
        "\n$ {line}\n[1] {error}$ explain {line}\n{error}\n(help {name})\n"
    );
    text.expect(rt, "memory")
}

#[test]
fn a_file_more_than_1024_is_too_many(rt: HostRuntime) {
    let alloc = rt.alloc();
    let text = limited(&rt, alloc, ("check", " f", "", ""), 1025, "TooManyFiles");
    replay(alloc, &[], text.as_str()).expect(&rt, "a transcript");
}

#[test]
fn groups_are_at_most_64_deep(rt: HostRuntime) {
    let alloc = rt.alloc();
    let text = limited(&rt, alloc, ("dump", " [", " a", " ]"), 65, "TooDeep");
    replay(alloc, &[], text.as_str()).expect(&rt, "a transcript");
}

/// The error, the argument or the option that it is about, and the text of the command or the list of commands.
const EXPLAINED: &str = r#"
$ explain lnk a
usage: no command
word 0: "lnk"

(help)
$ explain -- dump a
usage: no command
word 0: "--"

(help)
$ explain dump --pln p a
usage: bad words
word 1: "--pln"

(help dump)
$ explain locate a
usage: bad words
missing: -o

(help locate)
$ explain addr --gnu a
usage: bad words
missing: --at

(help addr)
$ explain -h a
usage: bad words
word 1: "a"

(help help)
$ explain --version 1
usage: bad words
word 1: "1"

(help version)
$ explain make 0
usage: bad count
word 1: "0"

(help make)
$ explain fromtxt --maus=9 -o c a
usage: bad count
word 1: "--maus=9"

(help fromtxt)
$ explain bin --fill 0xFF -o b a
usage: bad byte
word 2: "0xFF"

(help bin)
$ explain addr --at x a
usage: bad address
word 2: "x"

(help addr)
$ explain show a b
usage: file count
word 2: "b"

(help show)
$ explain check
usage: no file

(help check)
$ explain dump a [ ]
usage: empty group
word 3: "]"

(help dump)
$ explain dump [ a [ b ]
usage: open group
word 1: "["

(help dump)
$ explain dump a ]
usage: stray bracket
word 2: "]"

(help dump)
$ explain map a +
usage: bad members
word 2: "+"

(help map)
"#;

#[test]
fn wrong_arguments_are_explained(rt: HostRuntime) {
    replay(rt.alloc(), &[], EXPLAINED).expect(&rt, "a transcript");
}
