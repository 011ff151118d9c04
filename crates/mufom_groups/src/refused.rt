//! The modules of the first list that cannot be linked, by their places.
//!
//! Files of the tree have one module each, and they come first. So the place of such a module among all modules
//! is the number of its file, and the members, which may be those of archives, have the places after them.

ghost use Rattle.std.specs.Prelude.{◌≡◌, ◌-◌, ◌+◌, ◌++◌, ◌≤◌, ◌<◌, ◌^◌, ℕ, length, map};
ghost use Rattle.std.specs.Prelude.{drop, take, is_some, option_map, All, IfOk, IfSome, IsNone, IsSome, None, OnOk};
ghost use Rattle.mufom_meaning.specs.Facts.{LinkFact};
ghost use Rattle.mufom_meaning.specs.Joined.{IsJoined};
ghost use Rattle.mufom_meaning.specs.LinkAnswer.{link_answer};
ghost use Rattle.mufom_meaning.specs.Staging.{AreValid};
ghost use Rattle.mufom_meaning.specs.StagingLaws.{total_weight};
ghost use Rattle.mufom_words.specs.Sound.{numbers_from, HasTree};
ghost use Rattle.mufom_words.specs.Tree.{groups, leaves, spelling, tree_of};
ghost use Rattle.mufom_groups.specs.declared.refused.FileRange.{FileRange};
ghost use Rattle.mufom_groups.specs.Groups.{most_weight};
ghost use Rattle.mufom_groups.specs.Linked.{first_name, linked};
ghost use Rattle.mufom_meaning.specs.Selection.{IsSelected};
ghost use Rattle.mufom_groups.specs.Refused.{files_between, refused_among, IsRanged, IsRefusedList, IsTreeOrFlat};
ghost use Rattle.mufom_groups.specs.Work.{stops};

use crate::linking::file_count;
use mufom_link::{LinkRefusal, link};
use mufom_module::Module;
use mufom_numbers::{List, NoMemory};
use mufom_select::select;
use mufom_words::Mark;
use std::alloc::Global;

/// Files with consecutive numbers, from `first` up to, but not including, `end`.
#[derive(Clone, Copy, Debug, PartialEq, Eq)]
pub(crate) struct FileRange {
    pub(crate) first: usize,
    pub(crate) end: usize,
}

// Carries out a mark, after `count` files: a file is counted, a group begins, or the innermost group closes.
// Returns the number of files after it. A closing bracket without an opening one, which the parser never
// produces, closes from the start.
fn range_after(
    mark: &Mark,
    count: usize,
    begun: &mut Vec<usize>,
    ranges: &mut Vec<FileRange>,
) -> Result<usize, NoMemory>
    requires { count + 1 < 2 ^ 64 }
    ensures { IfOk result (IsRanged mark.now count begun.old.items ranges.old.items begun.new.items ranges.new.items) }
{
    match mark {
        Mark::File(_) => Ok(count + 1),
        Mark::Open => {
            begun.push(count)?;
            Ok(count)
        }
        Mark::Close => {
            let first = begun.pop().unwrap_or(0);
            ranges.push(FileRange { first, end: count })?;
            Ok(count)
        }
    }
}

// The files of each group, in the order of the closing brackets.
fn group_ranges(alloc: Global, marks: &[Mark]) -> Result<Vec<FileRange>, NoMemory>
    requires spelled { spelling (tree_of marks.now) ≡ marks.now }
    requires numbered { leaves (tree_of marks.now) ≡ numbers_from 0 (length (leaves (tree_of marks.now))) }
    ensures ranges { IfOk result (λ ranges. map files_between ranges.items ≡ groups (tree_of marks.now)) }
    ensures inside { IfOk result (λ ranges. All (λ (range : FileRange). range.end ≤ length (leaves (tree_of marks.now))) ranges.items) }
{
    let mut ranges = Vec::new(alloc);
    let mut begun = Vec::new(alloc);
    let mut count = 0;
    for mark in marks {
        count = range_after(mark, count, &mut begun, &mut ranges)?;
    }
    Ok(ranges)
}

// The modules of a range of files; none if the range goes past the last file.
fn modules_between(modules: &[Module], range: FileRange) -> &[Module]
    requires { range.end ≤ length modules.now }
    ensures { result.now ≡ take (range.end - range.first) (drop range.first modules.now) }
{
    modules.get(range.first..range.end).unwrap_or(&[])
}

// The link of modules, under the name of the first; `None` if they cannot be linked.
fn link_of(alloc: Global, list: &[Module]) -> Result<Option<Module>, NoMemory>
    requires some { 0 < length list.now }
    requires valid { AreValid list.now }
    requires light { total_weight list.now ≤ most_weight }
    ensures linked { IfOk result (λ found. IfSome found (λ M. IsJoined M list.now (first_name list.now) × (link_answer list.now ≡ None))) }
    ensures refused { IfOk result (λ found. IsNone found → IsSome (link_answer list.now)) }
{
    let name = list[0].parts().name.as_slice();
    match link(alloc, list, name) {
        Ok(module) => Ok(Some(module)),
        Err(LinkRefusal::NoMemory) => Err(NoMemory),
        Err(_) => Ok(None),
    }
}

// Whether modules cannot be linked. An empty list can be.
fn is_refused(alloc: Global, list: &[Module]) -> Result<bool, NoMemory>
    requires valid { AreValid list.now }
    requires light { total_weight list.now ≤ most_weight }
    ensures { IfOk result (λ refused. refused ≡ is_some (link_answer list.now)) }
{
    if list.is_empty() {
        return Ok(false);
    }
    match link_of(alloc, list)? {
        Some(_) => Ok(false),
        None => Ok(true),
    }
}

// The first of these ranges whose modules cannot be linked.
fn refused_range(
    alloc: Global,
    ranges: &[FileRange],
    modules: &[Module],
) -> Result<Option<FileRange>, NoMemory>
    requires valid { AreValid modules.now }
    requires light { total_weight modules.now ≤ most_weight }
    requires inside { All (λ (range : FileRange). range.end ≤ length modules.now) ranges.now }
    ensures first { IfOk result (λ found. option_map files_between found
        ≡ option_map (λ p. p.0) (refused_among modules.now (map files_between ranges.now))) }
    ensures inside { IfOk result (λ found. IfSome found (λ (range : FileRange). range.end ≤ length modules.now)) }
{
    for range in ranges {
        if is_refused(alloc, modules_between(modules, *range))? {
            return Ok(Some(*range));
        }
    }
    Ok(None)
}

// The numbers of the files of a range.
fn numbers_of(alloc: Global, range: FileRange) -> Result<List<u32>, NoMemory>
    requires { range.end < 2 ^ 32 }
    ensures { IfOk result (λ files. files ≡ files_between range) }
{
    let mut files = List::new(alloc);
    let end = range.end.max(range.first);
    for number in range.first..end {
        files.push(number as u32)?;
    }
    Ok(files)
}

// Appends the numbers of the members at these positions; the first member has number `first`.
fn add_members(files: &mut List<u32>, first: usize, chosen: &[u32]) -> Result<(), NoMemory>
    requires { All (λ (position : ℕ). first + position < 2 ^ 32) chosen.now }
    ensures { OnOk result (files.new ≡ files.old ++ map (λ position. first + position) chosen.now) }
{
    for position in chosen {
        files.push(first as u32 + *position)?;
    }
    Ok(())
}

/// Returns the places of the modules of the flat list. The first `roots` modules are those of the tree; `chosen`
/// are the positions of the selected members after them.
pub fn flat_places(alloc: Global, roots: usize, chosen: &[u32]) -> Result<List<u32>, NoMemory>
    requires few { roots < 2 ^ 32 }
    requires members { All (λ (position : ℕ). roots + position < 2 ^ 32) chosen.now }
    ensures { IfOk result (λ files. files ≡ numbers_from 0 roots ++ map (λ position. roots + position) chosen.now) }
{
    let mut files = numbers_of(
        alloc,
        FileRange {
            first: 0,
            end: roots,
        },
    )?;
    add_members(&mut files, roots, chosen)?;
    Ok(files)
}

// Selects members for the modules of the tree; `None` if the tree cannot be linked.
fn selected_for(
    alloc: Global,
    tree: &[Module],
    members: &[Module],
) -> Result<Option<List<u32>>, NoMemory>
    requires some { 0 < length tree.now }
    requires valid { AreValid tree.now }
    requires light { total_weight tree.now ≤ most_weight }
    requires few { length members.now < 2 ^ 32 }
    ensures selected { IfOk result (λ found. IfSome found (λ chosen. IsSelected tree.now members.now chosen × (link_answer tree.now ≡ None))) }
    ensures refused { IfOk result (λ found. IsNone found → IsSome (link_answer tree.now)) }
{
    match link_of(alloc, tree)? {
        Some(module) => Ok(Some(select(alloc, &module, members)?)),
        None => Ok(None),
    }
}

// The numbers of the first `roots` files, which are those of the tree, or those of the flat list if the tree
// can be linked.
fn tree_or_flat(alloc: Global, roots: usize, modules: &[Module]) -> Result<List<u32>, NoMemory>
    requires some { 1 ≤ roots }
    requires within { roots ≤ length modules.now }
    requires few { length modules.now < 2 ^ 32 }
    requires valid { AreValid modules.now }
    requires light { total_weight modules.now ≤ most_weight }
    ensures { IfOk result (IsTreeOrFlat roots modules.now) }
{
    let (tree, members) = modules.split_at(roots);
    match selected_for(alloc, tree, members)? {
        Some(chosen) => flat_places(alloc, roots, chosen.as_slice()),
        None => flat_places(alloc, roots, &[]),
    }
}

/// Returns the places of the modules of the first list that cannot be linked: the first group that cannot
/// be linked, in the order of the closing brackets; otherwise the tree; otherwise the flat list. If
/// everything can be linked, they are those of the flat list.
///
/// Each group is linked from its own modules, so the time is that of one link for each level of brackets. The
/// memory is that of the largest of these links.
pub fn refused_places(
    alloc: Global,
    marks: &[Mark],
    modules: &[Module],
) -> Result<List<u32>, NoMemory>
    requires tree { HasTree marks.now (length modules.now) }
    requires some { 1 ≤ length (leaves (tree_of marks.now)) }
    requires few { length modules.now < 2 ^ 32 }
    requires valid { AreValid modules.now }
    requires light { total_weight modules.now ≤ most_weight }
    ensures list { IfOk result (λ files. (f : LinkFact) → linked (tree_of marks.now) modules.now (stops f)
        → IsRefusedList (tree_of marks.now) modules.now files f) }
    ensures few { IfOk result (λ files. length files ≤ length modules.now) }
{
    let ranges = group_ranges(alloc, marks)?;
    match refused_range(alloc, &ranges, modules)? {
        Some(range) => numbers_of(alloc, range),
        None => tree_or_flat(alloc, file_count(marks), modules),
    }
}
