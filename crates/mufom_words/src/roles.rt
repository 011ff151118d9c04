//! The role of each argument after the name of a command: an option, its value, or an operand.

ghost use Rattle.std.specs.Prelude.{◌≡◌, ◌<◌, ◌≤◌, ◌-◌, ◌^◌, IfOk, length, map, option_map};
ghost use Rattle.std.specs.List.{find, list_any};
ghost use Rattle.std.specs.String.{string_bytes};
ghost use Rattle.mufom_words.specs.Faulty.{dashed_role as dashed, given_role as given, gives as is_given_by, has_value as value_follows};
ghost use Rattle.mufom_words.specs.Faulty.{is_dashed as looks_dashed, is_same as same, is_wrong as wrong, may_follow as follows};
ghost use Rattle.mufom_words.specs.Faulty.{operand_at as operand_by, option_role as role_by, placed_from, reading_after as next_reading, rest_after as rest_by};
ghost use Rattle.mufom_words.specs.Faulty.{role_of as role_in, roles_in as all_roles, spells as is_spelled};

use crate::form::Form;
use crate::operands::{FileWord, file_word};
use crate::options::Setting;
use mufom_numbers::NoMemory;
use std::alloc::Global;

/// What an argument is.
#[derive(Clone, Copy, Debug, PartialEq, Eq)]
pub(crate) enum Role {
    /// A file, a bracket, a `+` or a count.
    Operand,
    /// `--`: all later arguments are operands.
    End,
    /// An option that takes no value.
    Flag(Setting),
    /// An option with its value in the same argument.
    Attached(Setting),
    /// An option whose value is the next argument.
    Detached(Setting),
    /// The value of the option before it.
    Value,
    /// An error.
    Wrong,
}

/// What the next argument may be.
#[derive(Clone, Copy, Debug, PartialEq, Eq)]
pub(crate) enum Reading {
    /// An option or an operand.
    Options,
    /// The value of an option.
    Value,
    /// An operand.
    Operands,
}

/// An operand, and the number of its argument, from 1 after the name of the command.
#[derive(Clone, Copy, Debug, PartialEq, Eq)]
pub(crate) struct PlacedOperand {
    pub place: u32,
    pub kind: FileWord,
}

/// Whether two options are the same.
pub(crate) fn is_same(one: Setting, other: Setting) -> bool
    ensures { result ≡ same one other }
{
    one.id() == other.id()
}

// Whether an argument with this role gives the option.
fn gives(setting: Setting, role: Role) -> bool
    ensures { result ≡ is_given_by setting role }
{
    match role {
        Role::Flag(own) | Role::Attached(own) | Role::Detached(own) => is_same(own, setting),
        _ => false,
    }
}

/// Whether the argument is an error.
pub(crate) fn is_wrong(role: Role) -> bool
    ensures { result ≡ wrong role }
{
    match role {
        Role::Wrong => true,
        _ => false,
    }
}

// What follows a prefix in an argument, if the argument begins with it.
fn rest_after<'a>(prefix: &str, word: &'a str) -> Option<&'a [u8]>
    ensures { option_map (λ rest. rest.now) result ≡ rest_by prefix.now word.now }
{
    let prefix = prefix.as_bytes();
    let word = word.as_bytes();
    if word.starts_with(prefix) {
        Some(&word[prefix.len()..])
    } else {
        None
    }
}

// Whether this may follow the spelling of the option in its argument.
fn may_follow(setting: Setting, rest: &[u8]) -> bool
    ensures { result ≡ follows setting rest.now }
{
    match rest {
        [] => true,
        [first, ..] => setting.is_short() || *first == b'=',
    }
}

// Whether the argument gives the option.
fn spells(word: &str, setting: Setting) -> bool
    ensures { result ≡ is_spelled word.now setting }
{
    match rest_after(setting.spelling(), word) {
        Some(rest) => may_follow(setting, rest),
        None => false,
    }
}

// Whether the argument is a `-` and more.
fn is_dashed(word: &str) -> bool
    ensures { result ≡ looks_dashed word.now }
{
    match word.as_bytes() {
        [first, _, ..] => *first == b'-',
        _ => false,
    }
}

// Whether the next argument can be the value of an option.
fn has_value(later: &[String]) -> bool
    ensures { result ≡ value_follows (map (λ word. string_bytes word) later.now) }
{
    match later {
        [word, ..] => !is_dashed(word.as_str()),
        [] => false,
    }
}

// The role of an argument that gives an option, by what follows the option in the argument.
fn option_role(setting: Setting, rest: &[u8], later: &[String]) -> Role
    ensures { result ≡ role_by setting rest.now (map (λ word. string_bytes word) later.now) }
{
    if setting.is_flag() {
        if rest.is_empty() {
            Role::Flag(setting)
        } else {
            Role::Wrong
        }
    } else if !rest.is_empty() {
        Role::Attached(setting)
    } else if has_value(later) {
        Role::Detached(setting)
    } else {
        Role::Wrong
    }
}

/// Whether an argument with one of these roles gives the option.
pub(crate) fn is_given(roles: &[Role], setting: Setting) -> bool
    ensures { result ≡ list_any (is_given_by setting) roles.now }
{
    roles.iter().any(|role| gives(setting, *role))
}

// The same, given the roles of the arguments before it.
fn given_role(before: &[Role], setting: Setting, word: &str, later: &[String]) -> Role
    ensures { result ≡ given before.now setting word.now (map (λ word. string_bytes word) later.now) }
{
    if !setting.may_repeat() && is_given(before, setting) {
        return Role::Wrong;
    }
    match rest_after(setting.spelling(), word) {
        Some(rest) => option_role(setting, rest, later),
        None => Role::Wrong,
    }
}

// The first of the options that the argument gives.
fn option_in(settings: &[Setting], word: &str) -> Option<Setting>
    ensures { result ≡ find (is_spelled word.now) settings.now }
{
    for setting in settings {
        if spells(word, *setting) {
            return Some(*setting);
        }
    }
    None
}

// The role of an argument that looks like an option.
fn dashed_role(settings: &[Setting], before: &[Role], word: &str, later: &[String]) -> Role
    ensures { result ≡ dashed settings.now before.now word.now (map (λ word. string_bytes word) later.now) }
{
    if word == "--" {
        return Role::End;
    }
    match option_in(settings, word) {
        Some(setting) => given_role(before, setting, word, later),
        None => Role::Wrong,
    }
}

// The role of an argument.
fn role_of(
    settings: &[Setting],
    reading: Reading,
    before: &[Role],
    word: &str,
    later: &[String],
) -> Role
    ensures { result ≡ role_in settings.now reading before.now word.now (map (λ word. string_bytes word) later.now) }
{
    match reading {
        Reading::Operands => Role::Operand,
        Reading::Value => Role::Value,
        Reading::Options if is_dashed(word) => dashed_role(settings, before, word, later),
        Reading::Options => Role::Operand,
    }
}

// What is read after an argument with this role.
fn reading_after(reading: Reading, role: Role) -> Reading
    ensures { result ≡ next_reading reading role }
{
    match (reading, role) {
        (Reading::Operands, _) | (_, Role::End) => Reading::Operands,
        (_, Role::Detached(_)) => Reading::Value,
        _ => Reading::Options,
    }
}

/// The roles of the arguments after the name of a command, up to the first error.
pub(crate) fn roles_in(alloc: Global, form: Form, words: &[String]) -> Result<Vec<Role>, NoMemory>
    ensures roles { IfOk result (λ roles. roles.items ≡ all_roles form (map (λ word. string_bytes word) words.now)) }
    ensures few { IfOk result (λ roles. length roles.items ≤ length words.now) }
{
    let settings = form.settings();
    let mut roles = Vec::new(alloc);
    let mut reading = Reading::Options;
    for index in 0..words.len() {
        let later = &words[index + 1..];
        let role = role_of(settings, reading, &roles, words[index].as_str(), later);
        roles.push(role)?;
        if is_wrong(role) {
            return Ok(roles);
        }
        reading = reading_after(reading, role);
    }
    Ok(roles)
}

// The operand that an argument with this role and number is, if it is one.
fn operand_at(role: Role, place: u32, word: &str) -> Option<PlacedOperand>
    ensures { result ≡ operand_by role place word.now }
{
    match role {
        Role::Operand => Some(PlacedOperand {
            place,
            kind: file_word(word),
        }),
        _ => None,
    }
}

/// The operands among the arguments after the name of a command, given their roles.
pub(crate) fn placed_operands(
    alloc: Global,
    roles: &[Role],
    words: &[String],
) -> Result<Vec<PlacedOperand>, NoMemory>
    requires { length words.now < 2 ^ 32 - 1 }
    ensures operands { IfOk result (λ placed. placed.items ≡ placed_from 1 roles.now (map (λ word. string_bytes word) words.now)) }
    ensures few { IfOk result (λ placed. length placed.items < 2 ^ 32) }
{
    let mut placed = Vec::new(alloc);
    let mut left = words;
    let mut place = 1;
    for role in roles {
        let [word, rest @ ..] = left else {
            return Ok(placed);
        };
        left = rest;
        if let Some(operand) = operand_at(*role, place, word.as_str()) {
            placed.push(operand)?;
        }
        place += 1;
    }
    Ok(placed)
}
