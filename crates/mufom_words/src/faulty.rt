//! The argument that an error in the arguments is about.

ghost use Rattle.std.specs.Prelude.{◌≡◌, ◌<◌, ◌-◌, ◌^◌, IfOk, false, length, map};
ghost use Rattle.std.specs.String.{string_bytes};
ghost use Rattle.mufom_words.specs.Faulty.{faulty_argument as faulty, faulty_by, first_mark as unnamed, first_misplaced as misplaced_from};
ghost use Rattle.mufom_words.specs.Faulty.{first_missing as missing, first_plus as plus_in, is_missing as lacks, is_plus as plus};
ghost use Rattle.mufom_words.specs.Faulty.{last_open as open_in, misplaced as misplaced_in, operand_place as place_of};
ghost use Rattle.mufom_words.specs.Faulty.{option_faulty, own_faulty as own, place_in, placed_from, roles_in as all_roles};
ghost use Rattle.mufom_words.specs.Faulty.{value_index as value_at, word_by, wrong_from};
ghost use Rattle.mufom_words.specs.Operands.{is_name as name};
ghost use Rattle.mufom_words.specs.Options.{usage_of};

use crate::command::Verb;
use crate::form::{Form, Operands};
use crate::help::own_verb;
use crate::operands::{FileWord, Walk, step};
use crate::options::Setting;
use crate::roles::{PlacedOperand, Role, is_given, is_same, is_wrong, placed_operands, roles_in};
use crate::stop::UsageFault;
use mufom_numbers::NoMemory;
use std::alloc::Global;

/// What an error in the arguments is about.
#[derive(Clone, Copy, Debug, PartialEq, Eq)]
pub enum FaultyArgument {
    /// The argument with this number, from 0.
    Word(u32),
    /// A required option that no argument gives.
    Missing(Setting),
    /// No argument, for example if no file is named.
    Nothing,
}

// ---- operands

// The place of an operand, if there is one.
fn place_of_first(operands: &[PlacedOperand]) -> Option<u32>
    ensures { result ≡ place_in operands.now }
{
    match operands {
        [operand, ..] => Some(operand.place),
        [] => None,
    }
}

fn is_plus(kind: FileWord) -> bool
    ensures { result ≡ plus kind }
{
    match kind {
        FileWord::Plus => true,
        _ => false,
    }
}

fn is_name(kind: FileWord) -> bool
    ensures { result ≡ name kind }
{
    match kind {
        FileWord::Name => true,
        _ => false,
    }
}

// The place of the first `+`.
fn first_plus(operands: &[PlacedOperand]) -> Option<u32>
    ensures { result ≡ plus_in operands.now }
{
    for operand in operands {
        if is_plus(operand.kind) {
            return Some(operand.place);
        }
    }
    None
}

// The place of the first operand that is not the name of a file.
fn first_mark(operands: &[PlacedOperand]) -> Option<u32>
    ensures { result ≡ unnamed operands.now }
{
    for operand in operands {
        if !is_name(operand.kind) {
            return Some(operand.place);
        }
    }
    None
}

// The place of the first operand that may not follow those before it.
fn first_misplaced(operands: &[PlacedOperand]) -> Option<u32>
    requires { length operands.now < 2 ^ 32 }
    ensures { result ≡ misplaced_from (Walk.Tree 0 false false) operands.now }
{
    let mut walk = Walk::Tree {
        depth: 0,
        opened: false,
        any: false,
    };
    for operand in operands {
        match step(walk, operand.kind) {
            Ok(next) => walk = next,
            Err(_) => return Some(operand.place),
        }
    }
    None
}

// The place of the innermost bracket that is not closed.
fn last_open(alloc: Global, operands: &[PlacedOperand]) -> Result<Option<u32>, NoMemory>
    ensures { IfOk result (λ place. place ≡ open_in operands.now) }
{
    let mut opened = Vec::new(alloc);
    for operand in operands {
        match operand.kind {
            FileWord::Opening => opened.push(operand.place)?,
            FileWord::Closing => {
                let _ = opened.pop();
            }
            FileWord::Plus | FileWord::Name => {}
        }
    }
    Ok(opened.pop())
}

// The place of an error in operands of this form.
fn misplaced(form: Operands, operands: &[PlacedOperand]) -> Option<u32>
    requires { length operands.now < 2 ^ 32 }
    ensures { result ≡ misplaced_in form operands.now }
{
    match form {
        Operands::GroupedFiles => first_misplaced(operands),
        Operands::OneFile | Operands::SomeFiles | Operands::OneCount => first_mark(operands),
    }
}

// The place of the operand that an error is about.
fn operand_place(
    alloc: Global,
    form: Operands,
    fault: UsageFault,
    operands: &[PlacedOperand],
) -> Result<Option<u32>, NoMemory>
    requires { length operands.now < 2 ^ 32 }
    ensures { IfOk result (λ place. place ≡ place_of form fault operands.now) }
{
    match fault {
        UsageFault::FileCount => Ok(place_of_first(operands.get(1..).unwrap_or(&[]))),
        UsageFault::OpenGroup => last_open(alloc, operands),
        UsageFault::BadMembers => Ok(misplaced(form, operands).or(first_plus(operands))),
        UsageFault::NoFile => Ok(None),
        UsageFault::BadCount => Ok(place_of_first(operands)),
        _ => Ok(misplaced(form, operands)),
    }
}

// ---- options

// The number of the argument with the value of an option: its own, or the next one.
fn value_number(setting: Setting, roles: &[Role]) -> Option<u32>
    requires { length roles.now < 2 ^ 32 - 1 }
    ensures { result ≡ value_at setting roles.now }
{
    for index in 0..roles.len() {
        match roles[index] {
            Role::Attached(own) if is_same(own, setting) => return Some(index as u32 + 1),
            Role::Detached(own) if is_same(own, setting) => return Some(index as u32 + 2),
            _ => {}
        }
    }
    None
}

// Whether the option is required, and no argument gives it.
fn is_missing(roles: &[Role], setting: Setting) -> bool
    ensures { result ≡ lacks roles.now setting }
{
    if setting.is_required() {
        !is_given(roles, setting)
    } else {
        false
    }
}

// The first required option, in the order of the command's options, that no argument gives.
fn first_missing(form: Form, roles: &[Role]) -> FaultyArgument
    ensures { result ≡ missing form roles.now }
{
    for setting in form.settings() {
        if is_missing(roles, *setting) {
            return FaultyArgument::Missing(*setting);
        }
    }
    FaultyArgument::Nothing
}

// The argument with this number.
fn word_at(number: Option<u32>) -> FaultyArgument
    ensures { result ≡ word_by number }
{
    match number {
        Some(number) => FaultyArgument::Word(number),
        None => FaultyArgument::Nothing,
    }
}

// The number of the first argument that is wrong.
fn first_wrong(roles: &[Role]) -> Option<u32>
    requires { length roles.now < 2 ^ 32 - 1 }
    ensures { result ≡ wrong_from 1 roles.now }
{
    let mut number = 1;
    for role in roles {
        if is_wrong(*role) {
            return Some(number);
        }
        number += 1;
    }
    None
}

// The argument that an error in the options is about.
fn wrong_option(form: Form, roles: &[Role]) -> FaultyArgument
    requires { length roles.now < 2 ^ 32 - 1 }
    ensures { result ≡ option_faulty form roles.now (wrong_from 1 roles.now) }
{
    match first_wrong(roles) {
        Some(number) => FaultyArgument::Word(number),
        None => first_missing(form, roles),
    }
}

// ---- all errors

// The argument that an error in the operands is about.
fn wrong_operand(
    alloc: Global,
    form: Form,
    roles: &[Role],
    words: &[String],
    fault: UsageFault,
) -> Result<FaultyArgument, NoMemory>
    requires { length words.now < 2 ^ 32 - 1 }
    ensures { let placed = placed_from 1 roles.now (map (λ word. string_bytes word) words.now) in
        IfOk result (λ found. found ≡ word_by (place_of (usage_of form).operands fault placed)) }
{
    let operands = placed_operands(alloc, roles, words)?;
    let place = operand_place(alloc, form.operands(), fault, &operands)?;
    Ok(word_at(place))
}

// The argument that an error in the arguments of a command is about.
fn wrong_in(
    alloc: Global,
    form: Form,
    words: &[String],
    fault: UsageFault,
) -> Result<FaultyArgument, NoMemory>
    requires { length words.now < 2 ^ 32 - 1 }
    ensures { let texts = map (λ word. string_bytes word) words.now in
        IfOk result (λ found. found ≡ faulty_by form (all_roles form texts) texts fault) }
{
    let roles = roles_in(alloc, form, words)?;
    match fault {
        UsageFault::BadWords => Ok(wrong_option(form, &roles)),
        UsageFault::LongName => Ok(word_at(value_number(Setting::Name, &roles))),
        UsageFault::BadByte => Ok(word_at(value_number(Setting::Fill, &roles))),
        UsageFault::BadAddress => Ok(word_at(value_number(Setting::At, &roles))),
        UsageFault::BadCount if form.operands() != Operands::OneCount => {
            Ok(word_at(value_number(Setting::Maus, &roles)))
        }
        _ => wrong_operand(alloc, form, &roles, words, fault),
    }
}

// The argument after `help` or `version` that is wrong: the first that is too many, or else the only one.
fn wrong_own(verb: Verb, words: &[String]) -> FaultyArgument
    ensures { result ≡ own verb (map (λ word. string_bytes word) words.now) }
{
    match verb {
        Verb::Version => FaultyArgument::Word(1),
        _ if words.len() > 1 => FaultyArgument::Word(2),
        _ => FaultyArgument::Word(1),
    }
}

/// The argument that an error in these arguments is about. `fault` is the error that
/// [`read_words`](crate::read_words) returns for them.
///
/// For example, `dump --pln p a` is `BadWords`, and the argument is the one with number 1. If a required
/// option is missing, the result is this option; if there is no file at all, it is nothing.
pub fn faulty_argument(
    alloc: Global,
    words: &[String],
    fault: UsageFault,
) -> Result<FaultyArgument, NoMemory>
    requires { length words.now < 2 ^ 32 }
    ensures { IfOk result (λ found. found ≡ faulty (map (λ word. string_bytes word) words.now) fault) }
{
    let [word, rest @ ..] = words else {
        return Ok(FaultyArgument::Nothing);
    };
    if let Some(verb) = own_verb(word.as_str()) {
        return Ok(wrong_own(verb, rest));
    }
    match Form::from_name(word.as_str()) {
        Some(form) => wrong_in(alloc, form, rest, fault),
        None => Ok(FaultyArgument::Word(0)),
    }
}
