//! The operands of a command: names of files in groups and of members, or a count.

ghost use Rattle.std.specs.Prelude.{◌≡◌, ◌+◌, ◌-◌, ◌≤◌, ◌<◌, ◌^◌, false, IfOk, length, map};
ghost use Rattle.mufom_words.specs.Operands.{count_fault as wrong_count, depth_from, depth_in, depth_of as depth_by, end_fault as wrong_end};
ghost use Rattle.mufom_words.specs.Operands.{file_words, files_of as files_by, first_count as first_number, grouped_fault as wrong_group, marks_from};
ghost use Rattle.mufom_words.specs.Operands.{marks_of as marks_by, names_in, number_fault as wrong_number, number_of as number_by};
ghost use Rattle.mufom_words.specs.Operands.{operands_fault as wrong_operand, plain_fault_from, step as next_walk, word_of};

use crate::command::Mark;
use crate::count::count_of;
use crate::form::Operands;
use crate::stop::UsageFault;
use mufom_numbers::{List, NoMemory, Text};
use std::alloc::Global;

/// The kind of an operand in a list of files.
#[derive(Clone, Copy, Debug, PartialEq, Eq)]
pub(crate) enum FileWord {
    /// `[`
    Opening,
    /// `]`
    Closing,
    /// `+`
    Plus,
    /// The name of a file.
    Name,
}

/// The state after the operands so far.
#[derive(Clone, Copy, Debug, PartialEq, Eq)]
pub(crate) enum Walk {
    /// In the tree of files: `depth` groups are open, `opened` tells whether the last operand opened one,
    /// and `any` whether there is a file.
    Tree { depth: u32, opened: bool, any: bool },
    /// In the members; `any` tells whether there is one.
    Members { any: bool },
}

/// The kind of an operand.
pub(crate) fn file_word(word: &str) -> FileWord
    ensures { result ≡ word_of word.now }
{
    match word {
        "[" => FileWord::Opening,
        "]" => FileWord::Closing,
        "+" => FileWord::Plus,
        _ => FileWord::Name,
    }
}

// ---- errors

// The first error in files, for a command without groups: a bracket, a `+`, or no file.
fn plain_fault(words: &[&str]) -> Option<UsageFault>
    ensures { result ≡ plain_fault_from false (file_words (map (λ word. word.now) words.now)) }
{
    let mut any = false;
    for word in words {
        match file_word(word) {
            FileWord::Opening | FileWord::Closing => return Some(UsageFault::StrayBracket),
            FileWord::Plus => return Some(UsageFault::BadMembers),
            FileWord::Name => any = true,
        }
    }
    if any { None } else { Some(UsageFault::NoFile) }
}

// The state after an operand in the tree of files, or the error in it.
fn step_in_tree(depth: u32, opened: bool, any: bool, word: FileWord) -> Result<Walk, UsageFault>
    requires { depth < 2 ^ 32 - 1 }
    ensures { result ≡ next_walk (Walk.Tree depth opened any) word }
{
    match word {
        FileWord::Opening => Ok(Walk::Tree {
            depth: depth + 1,
            opened: true,
            any,
        }),
        FileWord::Closing if depth == 0 => Err(UsageFault::StrayBracket),
        FileWord::Closing if opened => Err(UsageFault::EmptyGroup),
        FileWord::Closing => Ok(Walk::Tree {
            depth: depth - 1,
            opened: false,
            any,
        }),
        FileWord::Plus if depth == 0 && any => Ok(Walk::Members { any: false }),
        FileWord::Plus => Err(UsageFault::BadMembers),
        FileWord::Name => Ok(Walk::Tree {
            depth,
            opened: false,
            any: true,
        }),
    }
}

/// The state after an operand, or the error in it.
pub(crate) fn step(walk: Walk, word: FileWord) -> Result<Walk, UsageFault>
    requires { depth_in walk < 2 ^ 32 - 1 }
    ensures value { result ≡ next_walk walk word }
    ensures depth { IfOk result (λ next. depth_in next ≤ depth_in walk + 1) }
{
    match walk {
        Walk::Tree { depth, opened, any } => step_in_tree(depth, opened, any, word),
        Walk::Members { .. } => match word {
            FileWord::Opening | FileWord::Plus => Err(UsageFault::BadMembers),
            FileWord::Closing => Err(UsageFault::StrayBracket),
            FileWord::Name => Ok(Walk::Members { any: true }),
        },
    }
}

// The error at the end of the operands, if there is one.
fn end_fault(walk: Walk) -> Option<UsageFault>
    ensures { result ≡ wrong_end walk }
{
    match walk {
        Walk::Tree { depth, .. } if depth > 0 => Some(UsageFault::OpenGroup),
        Walk::Tree { any: false, .. } => Some(UsageFault::NoFile),
        Walk::Members { any: false } => Some(UsageFault::BadMembers),
        _ => None,
    }
}

// The error of the first operand that has one, or else that of the end.
fn grouped_fault(words: &[&str]) -> Option<UsageFault>
    requires { length words.now < 2 ^ 32 }
    ensures { result ≡ wrong_group (file_words (map (λ word. word.now) words.now)) }
{
    let mut walk = Walk::Tree {
        depth: 0,
        opened: false,
        any: false,
    };
    for word in words {
        match step(walk, file_word(word)) {
            Ok(next) => walk = next,
            Err(fault) => return Some(fault),
        }
    }
    end_fault(walk)
}

/// An error in the brackets or the members, or that there is no file.
pub(crate) fn operands_fault(operands: Operands, words: &[&str]) -> Option<UsageFault>
    requires { length words.now < 2 ^ 32 }
    ensures { result ≡ wrong_operand operands (map (λ word. word.now) words.now) }
{
    match operands {
        Operands::OneFile | Operands::SomeFiles => plain_fault(words),
        Operands::GroupedFiles => grouped_fault(words),
        Operands::OneCount => None,
    }
}

/// The error for another number of operands than the command takes.
pub(crate) fn number_fault(operands: Operands, words: &[&str]) -> Option<UsageFault>
    ensures { result ≡ wrong_number operands (map (λ word. word.now) words.now) }
{
    let wrong = match operands {
        Operands::OneFile => words.len() > 1,
        Operands::SomeFiles | Operands::GroupedFiles => false,
        Operands::OneCount => words.len() != 1,
    };
    if wrong {
        Some(UsageFault::FileCount)
    } else {
        None
    }
}

// The count that the first word states.
fn first_count(words: &[&str]) -> Option<u32>
    ensures { result ≡ first_number (map (λ word. word.now) words.now) }
{
    count_of(words.first()?)
}

/// The error for a count that is invalid, if the command takes one.
pub(crate) fn count_fault(operands: Operands, words: &[&str]) -> Option<UsageFault>
    ensures { result ≡ wrong_count operands (map (λ word. word.now) words.now) }
{
    match operands {
        Operands::OneCount if first_count(words).is_none() => Some(UsageFault::BadCount),
        _ => None,
    }
}

// ---- what the arguments give

/// The count, or 0 if the command takes none.
pub(crate) fn number_of(operands: Operands, words: &[&str]) -> u32
    ensures { result ≡ number_by operands (map (λ word. word.now) words.now) }
{
    match operands {
        Operands::OneCount => first_count(words).unwrap_or(0),
        _ => 0,
    }
}

fn name_count(words: &[&str]) -> u32
    requires { length words.now < 2 ^ 32 }
    ensures { result ≡ length (names_in (map (λ word. word.now) words.now)) }
{
    let mut count = 0;
    for word in words {
        if file_word(word) == FileWord::Name {
            count += 1;
        }
    }
    count
}

/// The number of files that the operands name, members included.
pub(crate) fn file_count(operands: Operands, words: &[&str]) -> u32
    requires { length words.now < 2 ^ 32 }
    ensures { result ≡ length (files_by operands (map (λ word. word.now) words.now)) }
{
    match operands {
        Operands::OneCount => 0,
        _ => name_count(words),
    }
}

// The greatest number of groups that are open at once.
fn greatest_depth(words: &[&str]) -> u32
    requires { length words.now < 2 ^ 32 }
    ensures { result ≡ depth_from 0 (file_words (map (λ word. word.now) words.now)) }
{
    let mut depth: u32 = 0;
    let mut greatest = 0;
    for word in words {
        greatest = depth.max(greatest);
        match file_word(word) {
            FileWord::Opening => depth += 1,
            FileWord::Closing => depth = depth.saturating_sub(1),
            FileWord::Plus => return greatest,
            FileWord::Name => {}
        }
    }
    depth.max(greatest)
}

/// The greatest number of groups that are open at once; 0 if the command takes no files.
pub(crate) fn depth_of(operands: Operands, words: &[&str]) -> u32
    requires { length words.now < 2 ^ 32 }
    ensures { result ≡ depth_by operands (map (λ word. word.now) words.now) }
{
    match operands {
        Operands::OneCount => 0,
        _ => greatest_depth(words),
    }
}

fn names(alloc: Global, words: &[&str]) -> Result<List<Text>, NoMemory>
    ensures { IfOk result (λ names. names ≡ names_in (map (λ word. word.now) words.now)) }
{
    let mut names = List::new(alloc);
    for word in words {
        if file_word(word) == FileWord::Name {
            names.push(Text::from_str(alloc, word)?)?;
        }
    }
    Ok(names)
}

/// Copies of the names of the files, members included.
pub(crate) fn files_of(
    alloc: Global,
    operands: Operands,
    words: &[&str],
) -> Result<List<Text>, NoMemory>
    ensures { IfOk result (λ names. names ≡ files_by operands (map (λ word. word.now) words.now)) }
{
    match operands {
        Operands::OneCount => Ok(List::new(alloc)),
        _ => names(alloc, words),
    }
}

fn tree_marks(alloc: Global, words: &[&str]) -> Result<List<Mark>, NoMemory>
    requires { length words.now < 2 ^ 32 }
    ensures { IfOk result (λ marks. marks ≡ marks_from 0 (file_words (map (λ word. word.now) words.now))) }
{
    let mut marks = List::new(alloc);
    let mut next = 0;
    for word in words {
        match file_word(word) {
            FileWord::Opening => marks.push(Mark::Open)?,
            FileWord::Closing => marks.push(Mark::Close)?,
            FileWord::Plus => return Ok(marks),
            FileWord::Name => {
                marks.push(Mark::File(next))?;
                next += 1;
            }
        }
    }
    Ok(marks)
}

/// The marks of the tree of files.
pub(crate) fn marks_of(
    alloc: Global,
    operands: Operands,
    words: &[&str],
) -> Result<List<Mark>, NoMemory>
    requires { length words.now < 2 ^ 32 }
    ensures { IfOk result (λ marks. marks ≡ marks_by operands (map (λ word. word.now) words.now)) }
{
    match operands {
        Operands::OneCount => Ok(List::new(alloc)),
        _ => tree_marks(alloc, words),
    }
}
