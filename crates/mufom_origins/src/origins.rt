//! Origins: the numbers of sections, public symbols and references of each module.

ghost use Rattle.std.specs.Prelude.{◌≡◌, ◌<◌, ◌≤◌, ◌^◌, ◌+◌, ◌++◌, drop, length, map, option_map, option_to_list, position, slice_get, take, nat_le};
ghost use Rattle.std.specs.Prelude.{ℕ, List as list, IfOk, OnOk};
ghost use Rattle.std.specs.List.Sorted.{IsNonDecreasing};
ghost use Rattle.mufom_origins.specs.Origins.{AreEnds, AreIndexed, count_of, counts_of, numbered, origin_of, origins_left, origins_of};
ghost use Rattle.mufom_origins.specs.Places.{HasEnded, at_positions, capped, ends_from, entries_before, place_in, set_marks, with_chosen};

use mufom_module::Module;
use mufom_numbers::{Bytes, NoMemory};
use std::alloc::Global;
use std::marker::Model;

/// The origin of a module's entries.
#[derive(Debug, Drop)]
pub struct Origin {
    /// The place of the module among all modules that were read.
    pub place: u32,
    /// The name of the module.
    pub name: Bytes,
    /// The number of its sections.
    pub sections: usize,
    /// The number of its publics.
    pub publics: usize,
    /// The number of its references.
    pub references: usize,
    /// Whether it has a start.
    pub has_start: bool,
}

/// The place from which an entry of a flat list comes.
#[derive(Clone, Copy, Debug, PartialEq, Eq)]
pub struct Place {
    /// The position of its module in the flat list, from 0.
    pub module: usize,
    /// Its position among the module's entries of the same kind, from 0.
    pub entry: usize,
}

// The entries that are counted.
#[derive(Clone, Copy)]
enum Kind {
    Sections,
    Publics,
    References,
}

/// The modules of a flat list, with the numbers of their entries. Contracts see it as the list of the
/// modules' origins.
#[derive(Drop)]
pub struct Origins {
    modules: Vec<Origin>,
    // The number of entries of a kind up to the end of each module.
    sections: Vec<usize>,
    publics: Vec<usize>,
    references: Vec<usize>,
}

impl Model for Origins {
    ghost use Rattle.std.specs.Prelude.{List};
    ghost use Rattle.mufom_origins.specs.declared.origins.Origin.{Origin};
    ghost use Rattle.mufom_origins.specs.Origins.{AreIndexed};

    ghost Value = { List Origin };

    ghost view = { λ o. o.modules.items };

    ghost invariant = { λ o. AreIndexed o.modules.items o.sections.items o.publics.items o.references.items };
}

// ---- the ends of a kind

// The number of a module's entries of a kind.
fn count_of(kind: Kind, origin: &Origin) -> usize
    ensures { result ≡ count_of kind origin.now }
{
    match kind {
        Kind::Sections => origin.sections,
        Kind::Publics => origin.publics,
        Kind::References => origin.references,
    }
}

// The number of entries of a kind up to the end of each module.
fn ends_of(alloc: Global, kind: Kind, modules: &[Origin]) -> Result<Vec<usize>, NoMemory>
    ensures { IfOk result (λ ends. AreEnds kind modules.now ends.items) }
{
    let mut ends = Vec::with_capacity(alloc, modules.len())?;
    let mut total: usize = 0;
    for origin in modules {
        total = total.saturating_add(count_of(kind, origin));
        ends.push(total)?;
    }
    Ok(ends)
}

// The number of ends that are not greater than `number`.
fn ended(ends: &[usize], number: usize) -> usize
    requires { IsNonDecreasing ends.now }
    ensures { HasEnded ends.now number result }
{
    ends.partition_point(
        |end: &usize| -> bool
            ensures { result ≡ nat_le end.now number }
        { *end <= number },
    )
}

// The number of entries before the module at a position.
fn entries_before(ends: &[usize], position: usize) -> usize
    requires { position < length ends.now }
    ensures { result ≡ entries_before 0 ends.now position }
{
    if position == 0 { 0 } else { ends[position - 1] }
}

// The place of the entry with a number.
fn place_of(ends: &[usize], number: u32) -> Option<Place>
    requires { IsNonDecreasing ends.now }
    ensures { (counts : list ℕ) → ends.now ≡ map capped (ends_from 0 counts) → result ≡ place_in counts number }
{
    let number = number as usize;
    let module = ended(ends, number);
    if module < ends.len() {
        let entry = number - entries_before(ends, module);
        Some(Place { module, entry })
    } else {
        None
    }
}

// ---- modules

// The origin of the module that was read at this place.
fn origin_of(alloc: Global, place: u32, module: &Module) -> Result<Origin, NoMemory>
    ensures { IfOk result (λ origin. origin ≡ origin_of (place, «module».now)) }
{
    let parts = module.parts();
    let name = Bytes::from_slice(alloc, parts.name.as_slice())?;
    Ok(Origin {
        place,
        name,
        sections: parts.sections.len(),
        publics: parts.names.publics.len(),
        references: parts.names.references.len(),
        has_start: parts.start.is_some(),
    })
}

// A copy of an origin.
fn copy_of(alloc: Global, origin: &Origin) -> Result<Origin, NoMemory>
    ensures { IfOk result (λ copy. copy ≡ origin.now) }
{
    let name = Bytes::from_slice(alloc, origin.name.as_slice())?;
    Ok(Origin {
        place: origin.place,
        name,
        sections: origin.sections,
        publics: origin.publics,
        references: origin.references,
        has_start: origin.has_start,
    })
}

// Appends a copy of the origin, if there is one.
fn push_copy(
    alloc: Global,
    origin: Option<&Origin>,
    copies: &mut Vec<Origin>,
) -> Result<(), NoMemory>
    ensures { OnOk result (copies.new.items ≡ copies.old.items ++ option_to_list (option_map (λ o. o.now) origin.entry)) }
{
    if let Some(origin) = origin {
        copies.push(copy_of(alloc, origin)?)?;
    }
    Ok(())
}

// Copies of the first modules.
fn copy_first(alloc: Global, modules: &[Origin], count: usize) -> Result<Vec<Origin>, NoMemory>
    ensures { IfOk result (λ copies. copies.items ≡ take count modules.now) }
{
    let mut copies = Vec::new(alloc);
    let count = count.min(modules.len());
    for origin in &modules[..count] {
        copies.push(copy_of(alloc, origin)?)?;
    }
    Ok(copies)
}

// The module at a position, if there is one.
fn origin_at(modules: &[Origin], position: u32) -> Option<&Origin>
    ensures { option_map (λ o. o.now) result ≡ slice_get modules.now position }
{
    modules.get(position as usize)
}

// Appends copies of the modules at these positions.
fn copy_chosen(
    alloc: Global,
    modules: &[Origin],
    chosen: &[u32],
    copies: &mut Vec<Origin>,
) -> Result<(), NoMemory>
    ensures { OnOk result (copies.new.items ≡ copies.old.items ++ at_positions modules.now chosen.now) }
{
    for position in chosen {
        push_copy(alloc, origin_at(modules, *position), copies)?;
    }
    Ok(())
}

// The number of set marks.
fn set_marks(marks: &[bool]) -> usize
    ensures { result ≡ set_marks marks.now }
{
    let mut count = 0;
    for mark in marks {
        if *mark {
            count += 1;
        }
    }
    count
}

// The first `count` marks, or all if there are fewer, and the others.
fn split_marks(marks: &[bool], count: usize) -> (&[bool], &[bool])
    ensures first { result.0.now ≡ take count marks.now }
    ensures others { result.1.now ≡ drop count marks.now }
{
    match marks.split_at_checked(count) {
        Some(both) => both,
        None => (marks, &[]),
    }
}

// A copy of an origin, with the sections and publics that these marks leave.
fn copy_left(
    alloc: Global,
    origin: &Origin,
    sections: &[bool],
    publics: &[bool],
) -> Result<Origin, NoMemory>
    ensures { IfOk result (λ copy. copy ≡ record origin.now { sections = set_marks sections.now; publics = set_marks publics.now }) }
{
    let mut copy = copy_of(alloc, origin)?;
    copy.sections = set_marks(sections);
    copy.publics = set_marks(publics);
    Ok(copy)
}

// The origins from a position on.
fn after_first(modules: &[Origin], count: usize) -> &[Origin]
    ensures { result.now ≡ drop count modules.now }
{
    modules.get(count..).unwrap_or(&[])
}

impl Origins {
    // These modules, with the ends of their entries.
    fn indexed(alloc: Global, modules: Vec<Origin>) -> Result<Origins, NoMemory>
        ensures { IfOk result (λ origins. origins ≡ modules.items) }
    {
        let sections = ends_of(alloc, Kind::Sections, &modules)?;
        let publics = ends_of(alloc, Kind::Publics, &modules)?;
        let references = ends_of(alloc, Kind::References, &modules)?;
        Ok(Origins {
            modules,
            sections,
            publics,
            references,
        })
    }

    /// Returns the origins of the modules of a command's files, in order: the place of a module is its
    /// position. Time and memory are proportional to the number of modules and the length of their names.
    pub fn of(alloc: Global, modules: &[Module]) -> Result<Origins, NoMemory>
        requires { length modules.now < 2 ^ 32 }
        ensures { IfOk result (λ origins. origins ≡ origins_of (numbered modules.now)) }
    {
        let mut origins = Vec::with_capacity(alloc, modules.len())?;
        for position in 0..modules.len() {
            origins.push(origin_of(alloc, position as u32, &modules[position])?)?;
        }
        Origins::indexed(alloc, origins)
    }

    /// Returns the origins of the first `roots` modules and of the selected others, whose positions are
    /// counted after the first ones. Time and memory are proportional to the number of modules and the length
    /// of their names.
    pub fn selected(&self, alloc: Global, roots: usize, chosen: &[u32]) -> Result<Origins, NoMemory>
        ensures { IfOk result (λ origins. origins ≡ with_chosen roots chosen.now self.now) }
    {
        let modules = self.modules.as_slice();
        let mut copies = copy_first(alloc, modules, roots)?;
        copy_chosen(alloc, after_first(modules, roots), chosen, &mut copies)?;
        Origins::indexed(alloc, copies)
    }

    /// Returns the origins of the sections and publics that are left of a link, given a mark for each of them
    /// in the order of the flat list, which is set if the entry is left. The entries that are left are
    /// numbered anew; references keep their numbers. Time and memory are proportional to the number of marks
    /// and modules and the length of the names.
    pub fn left(
        &self,
        alloc: Global,
        sections: &[bool],
        publics: &[bool],
    ) -> Result<Origins, NoMemory>
        ensures { IfOk result (λ origins. origins ≡ origins_left sections.now publics.now self.now) }
    {
        let mut copies = Vec::with_capacity(alloc, self.modules.len())?;
        let mut sections = sections;
        let mut publics = publics;
        for origin in self.modules.as_slice() {
            let (own_sections, later_sections) = split_marks(sections, origin.sections);
            let (own_publics, later_publics) = split_marks(publics, origin.publics);
            copies.push(copy_left(alloc, origin, own_sections, own_publics)?)?;
            sections = later_sections;
            publics = later_publics;
        }
        Origins::indexed(alloc, copies)
    }

    /// Returns the origin of each module, in the order of the flat list.
    pub fn as_slice(&self) -> &[Origin]
        ensures { result.now ≡ self.now }
    {
        self.modules.as_slice()
    }

    /// Returns the place from which the section with a flat number comes; `None` past the last section. The
    /// time grows with the logarithm of the number of modules. Does not allocate.
    pub fn section(&self, number: u32) -> Option<Place>
        ensures { result ≡ place_in (map (λ o. o.sections) self.now) number }
    {
        place_of(&self.sections, number)
    }

    /// Returns the place from which the public with a flat number comes; `None` past the last public. The
    /// time grows with the logarithm of the number of modules. Does not allocate.
    pub fn public(&self, number: u32) -> Option<Place>
        ensures { result ≡ place_in (map (λ o. o.publics) self.now) number }
    {
        place_of(&self.publics, number)
    }

    /// Returns the place from which the reference with a flat number comes; `None` past the last reference.
    /// The time grows with the logarithm of the number of modules. Does not allocate.
    pub fn reference(&self, number: u32) -> Option<Place>
        ensures { result ≡ place_in (map (λ o. o.references) self.now) number }
    {
        place_of(&self.references, number)
    }

    /// Returns the position of the first module with a start, in the flat list. Does not allocate.
    pub fn start(&self) -> Option<usize>
        ensures { result ≡ position (λ o. o.has_start) self.now }
    {
        self.modules.iter().position(|o| o.has_start)
    }
}
