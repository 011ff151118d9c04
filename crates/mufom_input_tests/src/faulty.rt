//! The arguments that errors in the arguments are about.

use crate::words::words_of;
use mufom_words::{UsageFault, WordsStop, faulty_argument, read_words};
use std::alloc::Global;
use std::process::Abort;

// Lines that give no command, and what the error is about. Arguments count from 0.
static ROWS: [(&str, &str); 52] = [
    ("dump --pln p a", "Word(1)"),
    ("locate a", "Missing(Out)"),
    ("dmup a", "Word(0)"),
    ("dump a ]", "Word(2)"),
    ("bin --fill 0xFF -o b a", "Word(2)"),
    ("show a b", "Word(2)"),
    ("dump --plan=p --pln=p a", "Word(2)"),
    ("dump --no-debug=1 a", "Word(1)"),
    ("show --no-debug a --no-debug", "Word(3)"),
    ("dump --plan p a --plan=q", "Word(4)"),
    ("dump --plan", "Word(1)"),
    ("dump --plan --no-debug a -x", "Word(1)"),
    ("dump --plan -- a", "Word(1)"),
    ("link -ob -oc a", "Word(2)"),
    ("dump -oc a", "Word(1)"),
    ("link -x -o", "Word(1)"),
    ("link a -o", "Word(2)"),
    ("dump a -o=c", "Word(2)"),
    ("addr --plan p a", "Missing(At)"),
    ("addr a -x", "Word(2)"),
    ("fromtxt t", "Missing(Out)"),
    ("make -x 1", "Word(1)"),
    ("dump -- -x ]", "Word(3)"),
    ("make 1 2 3", "Word(2)"),
    ("make -- 0", "Word(2)"),
    ("make", "Nothing"),
    ("fromtxt --maus=9 -o c a", "Word(1)"),
    ("bin a --fill=g -oc", "Word(2)"),
    ("dump a [ ]", "Word(3)"),
    ("dump [ a [ b ]", "Word(1)"),
    ("dump [ a [ b", "Word(3)"),
    ("dump [ a [ b ] [ c", "Word(6)"),
    ("dump + a", "Word(1)"),
    ("dump a + b + c", "Word(4)"),
    ("dump a + b [ c ]", "Word(4)"),
    ("dump [ a + b ]", "Word(3)"),
    ("dump a + --no-debug", "Word(2)"),
    ("check a + b", "Word(2)"),
    ("show a [", "Word(2)"),
    ("build -o c ] a", "Word(3)"),
    ("build -o c a b c", "Word(4)"),
    ("map", "Nothing"),
    ("map --keep a", "Nothing"),
    ("help a b", "Word(2)"),
    ("help Misfit b c", "Word(2)"),
    ("help a", "Word(1)"),
    ("version a b", "Word(1)"),
    ("addr --at 0x a", "Word(2)"),
    ("addr --gnu a --at=", "Word(3)"),
    ("fromtxt -oc a --maus 0", "Word(4)"),
    ("link -o c - -x", "Word(4)"),
    ("dump --gnu --gnu a", "Word(2)"),
];

// The error in the arguments.
fn fault_in(rt: &impl Abort, alloc: Global, words: &[String], line: &str) -> UsageFault {
    assert!(rt; words.len() < 1 << 32);
    match read_words(alloc, words) {
        Err(WordsStop::Usage(fault)) => fault,
        _ => panic!(rt; "{line} has no usage error"),
    }
}

#[test]
fn each_error_is_about_its_argument(rt: HostRuntime) {
    for (line, want) in &ROWS {
        let words = words_of(&rt, rt.alloc(), line);
        assert!(&rt; words.len() < 1 << 32, "{line}");
        let fault = fault_in(&rt, rt.alloc(), &words, line);
        let found = faulty_argument(rt.alloc(), &words, fault).expect(&rt, "memory");
        let text = format!(in rt.alloc(); "{found:?}").expect(&rt, "memory");
        assert_eq!(&rt; text.as_str(), *want, "{line}");
    }
}
