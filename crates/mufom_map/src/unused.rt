//! The entries of a plan's lists that place no section.

ghost use Rattle.std.specs.Prelude.{◌≡◌, ◌||◌, ℕ, List, IfOk, OnOk, flat_map, map};
ghost use Rattle.std.specs.List.{list_any};
ghost use Rattle.mufom_plan.specs.Names.{has_name};
ghost use Rattle.mufom_place.specs.Bases.{has_no_base};
ghost use Rattle.mufom_text.specs.Words.{each};
ghost use Rattle.mufom_map.specs.MapText.{unused_line, unused_lines};
ghost use Rattle.mufom_map.specs.Unused.{is_missing, missing_entries, waits_as};
ghost use Rattle.mufom_map.specs.UnusedLine.{missing_line};

use mufom_names::HashSeed;
use mufom_numbers::{Bytes, NoMemory};
use mufom_plan::{NameList, Region};
use mufom_sections::Section;
use mufom_text::{Output, counted, quoted};
use std::alloc::Global;

// ---- the names of sections

// The hash seed of an index of the names of sections.
fn seed_of(sections: &[Section]) -> HashSeed {
    let mut seed = HashSeed::new();
    for section in sections {
        seed.add_name(section.name.as_slice());
    }
    seed
}

// Whether the section has no base of its own.
fn has_no_base(section: &Section) -> bool
    ensures { result ≡ has_no_base section.now }
{
    section.base.is_none()
}

// Adds the name of a section, if it has no base of its own.
fn add_placed(names: &mut NameList, section: &Section) -> Result<(), NoMemory>
    ensures { OnOk result ((entry : List ℕ) → has_name names.new entry ≡ (has_name names.old entry || waits_as entry section.now)) }
{
    if has_no_base(section) {
        names.add(section.name.as_slice())?;
    }
    Ok(())
}

/// The names of the sections without a base of their own. The time is linear in the number of sections.
pub(crate) fn placed_names(alloc: Global, sections: &[Section]) -> Result<NameList, NoMemory>
    ensures { IfOk result (λ names. (entry : List ℕ) → has_name names entry ≡ list_any (waits_as entry) sections.now) }
{
    let mut names = NameList::new(alloc, seed_of(sections));
    for section in sections {
        add_placed(&mut names, section)?;
    }
    Ok(names)
}

// ---- lines

// Whether the entry, which is not `*`, is none of the names.
fn is_missing(names: &NameList, entry: &[u8]) -> bool
    ensures { result ≡ is_missing names.now entry.now }
{
    entry != b"*".as_slice() && !names.contains(entry)
}

fn unused_line<K: Output>(out: &mut K, position: usize, entry: &[u8])
    ensures { K.takes out.old out.new (unused_line position entry.now) }
{
    counted(out, b"unused region ", position as u128);
    out.put(b" ");
    quoted(out, entry);
    out.put(b"\n");
}

// The line of an entry, if no section is placed there.
fn entry_line<K: Output>(out: &mut K, names: &NameList, position: usize, entry: &Bytes)
    ensures { K.takes out.old out.new (missing_line names.now position entry.now) }
{
    if is_missing(names, entry.as_slice()) {
        unused_line(out, position, entry.as_slice());
    }
}

// The lines of the entries of a region that place no section.
fn region_entries<K: Output>(out: &mut K, names: &NameList, position: usize, region: &Region)
    ensures { K.takes out.old out.new (unused_lines position (missing_entries names.now region.now)) }
{
    for entry in region.sections.as_slice() {
        entry_line(out, names, position, entry);
    }
}

/// The lines of the entries that place no section. `names` are those of the sections that regions place.
pub(crate) fn unused_lines<K: Output>(out: &mut K, names: &NameList, regions: &[Region])
    ensures { K.takes out.old out.new (each unused_lines (map (missing_entries names.now) regions.now)) }
{
    for position in 0..regions.len() {
        region_entries(out, names, position, &regions[position]);
    }
}
