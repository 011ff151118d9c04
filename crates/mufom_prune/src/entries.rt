//! The entries of a module by their numbers, and what its expressions mention.

ghost use Rattle.std.specs.Prelude.{◌≡◌, ◌++◌, ◌∷◌, [], ◌<◌, ◌^◌, flat_map, option_to_list, OnOk};
ghost use Rattle.mufom_prune.specs.Kept.{entry_of, mentions, all_mentions, item_trees, load_trees};
ghost use Rattle.mufom_prune.specs.Steps.{entry_count, token_mentions};

use mufom_expr::{Letter, Postfix, Token};
use mufom_loads::{Item, Load};
use mufom_module::Parts;
use mufom_numbers::{List, NoMemory};

// The entry that a variable names, if the module has it.
fn entry_of(parts: &Parts, letter: Letter, index: u32) -> Option<u32>
    requires { entry_count parts.now < 2 ^ 32 }
    ensures { result ≡ entry_of parts.now (letter, index) }
{
    let sections = parts.sections.len();
    let publics = parts.names.publics.len();
    let (first, count) = match letter {
        Letter::I => (sections, publics),
        Letter::X => (sections + publics, parts.names.references.len()),
        Letter::R | Letter::L | Letter::S | Letter::P => (0, sections),
    };
    if index as usize >= count {
        return None;
    }
    Some(first as u32 + index)
}

// Appends an entry, if there is one.
pub(crate) fn add_entry(entry: Option<u32>, all: &mut List<u32>) -> Result<(), NoMemory>
    ensures { OnOk result (all.new ≡ all.old ++ option_to_list entry) }
{
    match entry {
        Some(entry) => all.push(entry),
        None => Ok(()),
    }
}

// Appends the entry that a token names, if it names one.
fn add_token(parts: &Parts, token: Token, all: &mut List<u32>) -> Result<(), NoMemory>
    requires { entry_count parts.now < 2 ^ 32 }
    ensures { OnOk result (all.new ≡ all.old ++ token_mentions parts.now (token ∷ [])) }
{
    match token {
        Token::Var(letter, index) => add_entry(entry_of(parts, letter, index), all),
        Token::Number(_) => Ok(()),
        Token::Fun(_) => Ok(()),
    }
}

/// Appends the entries that an expression mentions.
pub(crate) fn add_mentions(
    parts: &Parts,
    value: &Postfix,
    all: &mut List<u32>,
) -> Result<(), NoMemory>
    requires { entry_count parts.now < 2 ^ 32 }
    ensures { OnOk result (all.new ≡ all.old ++ mentions parts.now value.now) }
{
    for token in value.tokens() {
        add_token(parts, *token, all)?;
    }
    Ok(())
}

// Appends the entries that an item mentions.
fn add_item(parts: &Parts, item: &Item, all: &mut List<u32>) -> Result<(), NoMemory>
    requires { entry_count parts.now < 2 ^ 32 }
    ensures { OnOk result (all.new ≡ all.old ++ all_mentions parts.now (item_trees item.now)) }
{
    match item {
        Item::Literal(_) => Ok(()),
        Item::Field { value, .. } => add_mentions(parts, value, all),
    }
}

// Appends the entries that items mention.
fn add_items(parts: &Parts, items: &[Item], all: &mut List<u32>) -> Result<(), NoMemory>
    requires { entry_count parts.now < 2 ^ 32 }
    ensures { OnOk result (all.new ≡ all.old ++ all_mentions parts.now (flat_map item_trees items.now)) }
{
    for item in items {
        add_item(parts, item, all)?;
    }
    Ok(())
}

/// Appends the entries that a load mentions.
pub(crate) fn add_load(parts: &Parts, load: &Load, all: &mut List<u32>) -> Result<(), NoMemory>
    requires { entry_count parts.now < 2 ^ 32 }
    ensures { OnOk result (all.new ≡ all.old ++ all_mentions parts.now (load_trees load.now)) }
{
    match load {
        Load::SetSection(_) => Ok(()),
        Load::SetPc { value, .. } => add_mentions(parts, value, all),
        Load::One(item) => add_item(parts, item, all),
        Load::Repeat { items, .. } => add_items(parts, items.as_slice(), all),
    }
}
