//! Words of command lines: the commands that they give, and the first thing that is wrong with
//! them.

use mufom_numbers::Text;
use mufom_words::{Command, Mark, commands_are_sound, read_words, trees_are_spelled};
use std::alloc::Global;
use std::process::Abort;

/// The words of a line, with one blank between each two.
pub(crate) fn words_of(rt: &impl Abort, alloc: Global, line: &str) -> Vec<String> {
    let mut words = Vec::new(alloc);
    for word in line.split(' ') {
        let word = word.to_string(alloc).expect(rt, "memory");
        words.push(word).expect(rt, "memory");
    }
    words
}

// Adds the file with this number, as `NUMBER:NAME`.
fn push_file(rt: &impl Abort, alloc: Global, text: &mut String, files: &[Text], number: usize) {
    let name = files.get(number).expect(rt, "a file").as_str();
    let file = format!(in alloc; " {number}:{name}").expect(rt, "memory");
    text.push_str(file.as_str()).expect(rt, "memory");
}

// Adds the files that are not members, with their brackets. Returns how many they are.
fn push_tree(rt: &impl Abort, alloc: Global, text: &mut String, command: &Command) -> usize {
    let mut count: usize = 0;
    for mark in command.marks.as_slice() {
        match mark {
            Mark::Open => text.push_str(" [").expect(rt, "memory"),
            Mark::Close => text.push_str(" ]").expect(rt, "memory"),
            Mark::File(number) => {
                push_file(rt, alloc, text, command.files.as_slice(), *number as usize);
                count = count.saturating_add(1);
            }
        }
    }
    count
}

// Adds a `+` and the members, if there are any.
fn push_members(rt: &impl Abort, alloc: Global, text: &mut String, files: &[Text], first: usize) {
    if first < files.len() {
        text.push_str(" +").expect(rt, "memory");
    }
    for number in first..files.len() {
        push_file(rt, alloc, text, files, number);
    }
}

// Adds the names that the options give.
fn push_names(rt: &impl Abort, alloc: Global, text: &mut String, command: &Command) {
    if let Some(name) = &command.name {
        let name = name.as_slice();
        let given = format!(in alloc; " name={name:?}").expect(rt, "memory");
        text.push_str(given.as_str()).expect(rt, "memory");
    }
    if let Some(out) = &command.out {
        text.push_str(" out=").expect(rt, "memory");
        text.push_str(out.as_str()).expect(rt, "memory");
    }
    if let Some(plan) = &command.plan {
        text.push_str(" plan=").expect(rt, "memory");
        text.push_str(plan.as_str()).expect(rt, "memory");
    }
    for keep in command.keep.as_slice() {
        let keep = keep.as_slice();
        let given = format!(in alloc; " keep={keep:?}").expect(rt, "memory");
        text.push_str(given.as_str()).expect(rt, "memory");
    }
    if let Some(region) = &command.region {
        let region = region.as_slice();
        let given = format!(in alloc; " region={region:?}").expect(rt, "memory");
        text.push_str(given.as_str()).expect(rt, "memory");
    }
    if let Some(help) = &command.help {
        text.push_str(" help=").expect(rt, "memory");
        text.push_str(help.as_str()).expect(rt, "memory");
    }
}

// Adds a number with its name, unless it is the number without the option.
fn push_number(
    rt: &impl Abort,
    alloc: Global,
    text: &mut String,
    name: &str,
    value: u64,
    none: u64,
) {
    if value != none {
        let given = format!(in alloc; " {name}={value}").expect(rt, "memory");
        text.push_str(given.as_str()).expect(rt, "memory");
    }
}

// Adds the address that is looked up, if there is one.
fn push_address(rt: &impl Abort, alloc: Global, text: &mut String, at: Option<u64>) {
    if let Some(address) = at {
        let given = format!(in alloc; " at={address}").expect(rt, "memory");
        text.push_str(given.as_str()).expect(rt, "memory");
    }
}

// A command in words: its verb, what its options give, and its files. What it would be without an option is
// left out, so a row has no word on options that its line has not.
fn command_text(rt: &impl Abort, alloc: Global, command: &Command) -> String {
    let verb = command.verb;
    let mut text = format!(in alloc; "{verb:?}").expect(rt, "memory");
    if command.no_debug {
        text.push_str(" no_debug").expect(rt, "memory");
    }
    if command.gnu {
        text.push_str(" gnu").expect(rt, "memory");
    }
    if command.listing {
        text.push_str(" listing").expect(rt, "memory");
    }
    push_names(rt, alloc, &mut text, command);
    push_number(rt, alloc, &mut text, "count", command.count as u64, 0);
    push_number(rt, alloc, &mut text, "fill", command.fill as u64, 0);
    push_address(rt, alloc, &mut text, command.at);
    push_number(rt, alloc, &mut text, "maus", command.maus as u64, 4);
    let roots = push_tree(rt, alloc, &mut text, command);
    push_members(rt, alloc, &mut text, command.files.as_slice(), roots);
    text
}

// The command that the arguments give, as text, or the first error in them.
fn answer(rt: &impl Abort, alloc: Global, words: &[String]) -> String {
    assert!(rt; words.len() < 1 << 32);
    match read_words(alloc, words) {
        Ok(command) => command_text(rt, alloc, &command),
        Err(stop) => format!(in alloc; "{stop:?}").expect(rt, "memory"),
    }
}

// Checks that the arguments in a line give this text.
fn gives(rt: &impl Abort, alloc: Global, line: &str, want: &str) {
    let words = words_of(rt, alloc, line);
    let text = answer(rt, alloc, &words);
    assert_eq!(rt; text.as_str(), want, "{line}");
}

// Lines and the commands that they give, with files by their numbers.
static COMMANDS: [(&str, &str); 33] = [
    // Files in their order.
    ("show a", "Show 0:a"),
    ("dump a", "Dump 0:a"),
    ("check b a b", "Check 0:b 1:a 2:b"),
    // An option before, between and after files.
    ("show --no-debug a", "Show no_debug 0:a"),
    ("check a --no-debug b", "Check no_debug 0:a 1:b"),
    ("check a b --no-debug", "Check no_debug 0:a 1:b"),
    ("check --gnu a --no-debug", "Check no_debug gnu 0:a"),
    ("addr --gnu --at 0 a", "Addr gnu at=0 0:a"),
    // Two dashes end the options, and one dash names a file.
    ("check -- --no-debug -x", "Check 0:--no-debug 1:-x"),
    ("check - a", "Check 0:- 1:a"),
    ("show help", "Show 0:help"),
    ("show ", "Show 0:"),
    // Groups and members, with a plan.
    (
        "dump [ [ a ] b ] c + --plan p d",
        "Dump plan=p [ [ 0:a ] 1:b ] 2:c + 3:d",
    ),
    // Options with values.
    (
        "link --name=n -oc a --no-debug",
        "Link no_debug name=[110] out=c 0:a",
    ),
    ("locate -o=c --plan  a", "Locate out=c plan= 0:a"),
    ("make 0065536", "Make count=65536"),
    // A flag of one command, and values that are numbers.
    ("show --listing a", "Show listing 0:a"),
    ("bin --fill=fE -oc a", "Bin out=c fill=254 0:a"),
    ("bin --region ab -oc a", "Bin out=c region=[97, 98] 0:a"),
    (
        "addr --at 00FfFFffFFffFFff a",
        "Addr at=72057594037927935 0:a",
    ),
    // Members of a map.
    ("map a --plan p + b", "Map plan=p 0:a + 1:b"),
    // A name that is kept, which may be empty.
    ("dump --keep main a", "Dump keep=[109, 97, 105, 110] 0:a"),
    ("bin --keep= -oc a", "Bin out=c keep=[] 0:a"),
    ("map a --keep=m", "Map keep=[109] 0:a"),
    ("dump --keep a --keep b c", "Dump keep=[97] keep=[98] 0:c"),
    // The address of a map, which may be left out.
    ("map --at 0 a", "Map at=0 0:a"),
    ("map --at=10A a", "Map at=266 0:a"),
    // Texts of images.
    (
        "txt a --plan=p --no-debug -o c",
        "Txt no_debug out=c plan=p 0:a",
    ),
    ("fromtxt --maus 8 -oc a", "FromTxt out=c maus=8 0:a"),
    ("build -o c a", "Build out=c 0:a"),
    // What is explained is not read.
    ("explain -- dump a", "Explain"),
    ("explain --help", "Explain"),
    ("-V", "Version help=mufom 1.0.0\n"),
];

#[test]
fn lines_give_commands(rt: HostRuntime) {
    for (line, want) in &COMMANDS {
        gives(&rt, rt.alloc(), line, want);
    }
    trees_are_spelled();
    commands_are_sound();
}

// Lines that give none, and the first thing that is wrong with each.
static FAULTS: [(&str, &str); 70] = [
    // Without a command.
    ("dmup a", "Usage(NoCommand)"),
    ("-- help", "Usage(NoCommand)"),
    // Help with another word than a topic, or with two.
    ("help nothing", "Usage(BadWords)"),
    ("--help dump show", "Usage(BadWords)"),
    ("version 1", "Usage(BadWords)"),
    // Nothing to explain, or an explanation.
    ("explain", "Usage(BadWords)"),
    ("explain explain dump a", "Usage(BadWords)"),
    ("--explain dump a", "Usage(NoCommand)"),
    // Numbers that are written otherwise.
    ("bin --fill 0 -oc a", "Usage(BadByte)"),
    ("bin --fill= -oc a", "Usage(BadByte)"),
    ("bin --fill 0 -oc", "Usage(NoFile)"),
    ("addr --at 0x10 a", "Usage(BadAddress)"),
    ("addr --at 00000000000000001 a", "Usage(BadAddress)"),
    ("map --at 0x10 a", "Usage(BadAddress)"),
    ("map --at 0 --at 1 a", "Usage(BadWords)"),
    ("addr a", "Usage(BadWords)"),
    ("addr --at 0 --keep a b", "Usage(BadWords)"),
    ("link --keep a -oc b", "Usage(BadWords)"),
    ("map -oc a", "Usage(BadWords)"),
    ("fromtxt --maus 04 -oc a", "Usage(BadCount)"),
    ("fromtxt --maus 0 -oc a", "Usage(BadCount)"),
    ("fromtxt --maus=9 -oc a", "Usage(BadCount)"),
    ("fromtxt --maus= -oc a", "Usage(BadCount)"),
    ("fromtxt --maus 9 -oc", "Usage(NoFile)"),
    ("fromtxt -oc a b", "Usage(FileCount)"),
    ("fromtxt -oc a + b", "Usage(BadMembers)"),
    ("fromtxt -oc [ a ]", "Usage(StrayBracket)"),
    ("fromtxt a", "Usage(BadWords)"),
    ("build -oc", "Usage(NoFile)"),
    ("build -oc a b", "Usage(FileCount)"),
    ("build a", "Usage(BadWords)"),
    ("txt --maus 4 -oc a", "Usage(BadWords)"),
    ("Show a", "Usage(NoCommand)"),
    // Options that a command has not.
    ("check -x", "Usage(BadWords)"),
    ("show --help", "Usage(BadWords)"),
    ("show -h a", "Usage(BadWords)"),
    ("dump -o c a", "Usage(BadWords)"),
    ("show --no-debug=true a", "Usage(BadWords)"),
    ("show --no-debug a --no-debug", "Usage(BadWords)"),
    // Words that name no file, and too many files.
    ("dump", "Usage(NoFile)"),
    ("show", "Usage(NoFile)"),
    ("check --", "Usage(NoFile)"),
    ("show ]", "Usage(StrayBracket)"),
    ("check +", "Usage(BadMembers)"),
    ("show a b", "Usage(FileCount)"),
    // The first fault.
    ("check ] -x", "Usage(BadWords)"),
    ("check + [", "Usage(BadMembers)"),
    ("check a [ +", "Usage(StrayBracket)"),
    ("dump a b +", "Usage(BadMembers)"),
    // Groups and members.
    ("dump [ ] ] ]", "Usage(EmptyGroup)"),
    ("dump ] [ ] +", "Usage(StrayBracket)"),
    ("dump a [ b c", "Usage(OpenGroup)"),
    ("dump [ a + ]", "Usage(BadMembers)"),
    ("dump a + b +", "Usage(BadMembers)"),
    ("dump a b c +", "Usage(BadMembers)"),
    ("dump a + [ b", "Usage(BadMembers)"),
    ("dump a + ] b", "Usage(StrayBracket)"),
    ("dump + a ] b", "Usage(BadMembers)"),
    ("dump a ] + +", "Usage(StrayBracket)"),
    ("dump -- [ ] -o", "Usage(EmptyGroup)"),
    ("dump [ ] -x a", "Usage(BadWords)"),
    // Single lines.
    ("locate [ a", "Usage(BadWords)"),
    ("make", "Usage(FileCount)"),
    ("make 0 ]", "Usage(FileCount)"),
    ("make 0", "Usage(BadCount)"),
    ("make 65537", "Usage(BadCount)"),
    ("make +1", "Usage(BadCount)"),
    ("make 1a", "Usage(BadCount)"),
    ("make ", "Usage(BadCount)"),
    ("make 99999999999999999999", "Usage(BadCount)"),
];

#[test]
fn lines_are_refused_for_their_first_fault(rt: HostRuntime) {
    for (line, want) in &FAULTS {
        gives(&rt, rt.alloc(), line, want);
    }
}

#[test]
fn no_words_are_no_command(rt: HostRuntime) {
    let text = answer(&rt, rt.alloc(), &[]);
    assert_eq!(rt; text.as_str(), "Usage(NoCommand)");
}

// A word, and then some words a number of times, each text with the blank before it.
fn long_line(rt: &impl Abort, alloc: Global, first: &str, rest: &[(&str, u32)]) -> String {
    let mut line = first.to_string(alloc).expect(rt, "memory");
    for (words, count) in rest {
        for _ in 0..*count {
            line.push_str(words).expect(rt, "memory");
        }
    }
    line
}

// How many files the command of a line has, and how many marks.
fn counts(rt: &impl Abort, alloc: Global, line: &str) -> (usize, usize) {
    let words = words_of(rt, alloc, line);
    assert!(rt; words.len() < 1 << 32);
    let command = read_words(alloc, &words).expect(rt, "a command");
    (command.files.len(), command.marks.len())
}

#[test]
fn files_are_at_most_1024(rt: HostRuntime) {
    let line = long_line(&rt, rt.alloc(), "check", &[(" a", 1024)]);
    assert_eq!(rt; counts(&rt, rt.alloc(), &line), (1024, 1024));
    let line = long_line(&rt, rt.alloc(), "check", &[(" a", 1025)]);
    gives(&rt, rt.alloc(), &line, "TooManyFiles(1025)");
    let line = long_line(&rt, rt.alloc(), "show", &[(" a", 1025)]);
    gives(&rt, rt.alloc(), &line, "Usage(FileCount)");
}

#[test]
fn groups_are_at_most_64_deep(rt: HostRuntime) {
    let line = long_line(
        &rt,
        rt.alloc(),
        "dump",
        &[(" [", 64), (" a", 1), (" ]", 64)],
    );
    assert_eq!(rt; counts(&rt, rt.alloc(), &line), (1, 129));
    let line = long_line(
        &rt,
        rt.alloc(),
        "dump",
        &[(" [", 65), (" a", 1), (" ]", 65)],
    );
    gives(&rt, rt.alloc(), &line, "TooDeep(65)");
}
