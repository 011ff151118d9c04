//! Finds the modules of a flat list that define names or refer to them.

ghost use Rattle.std.specs.Prelude.{◌≡◌, ◌+◌, ◌<◌, ◌^◌, [], IfOk, OnOk, length, map, replicate, take};
ghost use Rattle.mufom_explain.specs.Flat.{parts_of, wanted_names};
ghost use Rattle.mufom_explain.specs.Mentions.{defines_among, mention, mentions_of, refers_among};
ghost use Rattle.mufom_explain.specs.Noting.{IsFresh, Told, ends_with, noted, noted_for, same_mention, told_with};

use crate::mention::{Mention, MentionKind};
use crate::mentions::Mentions;
use crate::modules::FlatModule;
use crate::wanted::Wanted;
use mufom_names::{Public, Reference};
use mufom_numbers::{List, NoMemory};
use std::alloc::Global;

// Whether two mentions are the same.
fn same(mention: Mention, other: Mention) -> bool
    ensures { result ≡ same_mention mention other }
{
    let same_kind = match (mention.kind, other.kind) {
        (MentionKind::Public, MentionKind::Public) => true,
        (MentionKind::Reference, MentionKind::Reference) => true,
        _ => false,
    };
    mention.position == other.position && same_kind
}

// Whether this is the last of the mentions.
fn is_last(mentions: &[Mention], mention: Mention) -> bool
    ensures { result ≡ ends_with mentions.now mention }
{
    match mentions.last() {
        Some(last) => same(*last, mention),
        None => false,
    }
}

// Adds a mention, unless it is already the last one.
fn note(mentions: &mut List<Mention>, mention: Mention) -> Result<(), NoMemory>
    ensures { OnOk result (mentions.new ≡ noted mentions.old mention) }
{
    if is_last(mentions.as_slice(), mention) {
        return Ok(());
    }
    mentions.push(mention)
}

// Adds a mention to the list of a name, if the name is wanted.
fn note_name(
    lists: &mut Vec<List<Mention>>,
    wanted: &Wanted<'_>,
    name: &[u8],
    mention: Mention,
) -> Result<(), NoMemory>
    requires { length lists.old.items ≡ length (wanted_names wanted.now) }
    ensures count { OnOk result (length lists.new.items ≡ length lists.old.items) }
    ensures told { OnOk result ((told : Told) → lists.old.items ≡ map told (wanted_names wanted.now)
        → lists.new.items ≡ map (noted_for told name.now mention) (wanted_names wanted.now)) }
{
    let Some(place) = wanted.index.find(name) else {
        return Ok(());
    };
    note(&mut lists[place as usize], mention)?;
    Ok(())
}

// Adds a mention to the lists of the wanted names that publics have.
fn note_publics(
    lists: &mut Vec<List<Mention>>,
    wanted: &Wanted<'_>,
    position: u32,
    publics: &[Public],
) -> Result<(), NoMemory>
    requires { length lists.old.items ≡ length (wanted_names wanted.now) }
    ensures { OnOk result ((told : Told) → lists.old.items ≡ map told (wanted_names wanted.now)
        → IsFresh (mention position MentionKind.Public) told
        → lists.new.items ≡ map (told_with told (defines_among publics.now) (mention position MentionKind.Public)) (wanted_names wanted.now)) }
{
    let mention = Mention {
        position,
        kind: MentionKind::Public,
    };
    for public in publics {
        note_name(lists, wanted, public.name.as_slice(), mention)?;
    }
    Ok(())
}

// Adds a mention to the lists of the wanted names that references have.
fn note_references(
    lists: &mut Vec<List<Mention>>,
    wanted: &Wanted<'_>,
    position: u32,
    references: &[Reference],
) -> Result<(), NoMemory>
    requires { length lists.old.items ≡ length (wanted_names wanted.now) }
    ensures { OnOk result ((told : Told) → lists.old.items ≡ map told (wanted_names wanted.now)
        → IsFresh (mention position MentionKind.Reference) told
        → lists.new.items ≡ map (told_with told (refers_among references.now) (mention position MentionKind.Reference)) (wanted_names wanted.now)) }
{
    let mention = Mention {
        position,
        kind: MentionKind::Reference,
    };
    for reference in references {
        note_name(lists, wanted, reference.name.as_slice(), mention)?;
    }
    Ok(())
}

// Adds the mentions by the next module of a flat list.
fn note_module(
    lists: &mut Vec<List<Mention>>,
    wanted: &Wanted<'_>,
    flat: &[FlatModule<'_>],
    position: u32,
) -> Result<(), NoMemory>
    requires inside { position < length flat.now }
    requires before { lists.old.items ≡ map (mentions_of (take position (parts_of flat.now))) (wanted_names wanted.now) }
    ensures { OnOk result (lists.new.items ≡ map (mentions_of (take (position + 1) (parts_of flat.now))) (wanted_names wanted.now)) }
{
    let parts = flat[position as usize].parts;
    note_publics(lists, wanted, position, parts.names.publics.as_slice())?;
    note_references(lists, wanted, position, parts.names.references.as_slice())?;
    Ok(())
}

// `count` empty lists, one for each name.
fn empty_lists(alloc: Global, count: usize) -> Result<Vec<List<Mention>>, NoMemory>
    ensures { IfOk result (λ lists. lists.items ≡ replicate count []) }
{
    let mut lists = Vec::with_capacity(alloc, count)?;
    for _ in 0..count {
        lists.push(List::new(alloc))?;
    }
    Ok(lists)
}

// The mentions of each name by the modules of a flat list.
fn all_mentions(
    alloc: Global,
    wanted: &Wanted<'_>,
    flat: &[FlatModule<'_>],
) -> Result<Vec<List<Mention>>, NoMemory>
    requires { length flat.now < 2 ^ 32 }
    ensures { IfOk result (λ lists. lists.items ≡ map (mentions_of (parts_of flat.now)) (wanted_names wanted.now)) }
{
    let mut lists = empty_lists(alloc, wanted.names.len())?;
    for position in 0..flat.len() as u32 {
        note_module(&mut lists, wanted, flat, position)?;
    }
    Ok(lists)
}

/// Finds the mentions of the wanted names by the modules of a flat list. The time is proportional to the
/// number of names in the modules, and the memory to the number of mentions.
pub(crate) fn find_mentions<'a>(
    alloc: Global,
    wanted: Wanted<'a>,
    flat: &'a [FlatModule<'a>],
) -> Result<Mentions<'a>, NoMemory>
    requires { length flat.now < 2 ^ 32 }
    ensures wanted { IfOk result (λ mentions. mentions.wanted ≡ wanted.entry) }
    ensures flat { IfOk result (λ mentions. mentions.flat.now ≡ flat.now) }
{
    let mentions = all_mentions(alloc, &wanted, flat)?;
    Ok(Mentions {
        wanted,
        flat,
        mentions,
    })
}
