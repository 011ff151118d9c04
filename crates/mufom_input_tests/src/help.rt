//! Words and the topics that they name.

use mufom_help::{VERSION, command_list, topic_text, version_line};
use std::rt::HostRuntime;

// Words, and how the first line of their text begins.
static NAMED: [(&str, &str); 9] = [
    ("show", "show: prints one module"),
    ("version", "version: prints the version"),
    ("BadNumber", "BadNumber: a number is expected"),
    ("FileLimit", "FileLimit: a file has more"),
    ("TooLong", "TooLong: an expression, a plan or a raw image"),
    ("Duplicate", "Duplicate: two public symbols"),
    ("Overflow", "Overflow: a value does not fit"),
    ("usage", "usage: the arguments give no command"),
    ("memory", "memory: the system gave"),
];

// Words that name no topic.
static UNNAMED: [&str; 6] = ["", "misfit", "Misfit ", "Misfi", "--help", "Usage"];

#[test]
fn words_name_topics(rt: HostRuntime) {
    for (word, beginning) in &NAMED {
        let text = topic_text(word).unwrap_or("");
        assert!(&rt; text.starts_with(*beginning), "{word}");
    }
    for word in &UNNAMED {
        assert!(&rt; topic_text(word).is_none(), "{word}");
    }
}

#[test]
fn the_list_and_the_version_are_printed(rt: HostRuntime) {
    assert!(&rt; command_list().starts_with("mufom links, locates and inspects"));
    assert_eq!(&rt; version_line(), VERSION);
    assert_eq!(&rt; VERSION, "mufom 1.0.0\n");
}
