//! Links the modules of a tree of files: each group when its bracket closes, then the roots, and then the roots
//! with the members that are selected for them.

ghost use Rattle.std.specs.Prelude.{◌≡◌, ◌+◌, ◌++◌, ◌<◌, ◌≤◌, ◌^◌, [], ◌∷◌, length, map, take, drop, slice_get, unwrap_or, None, IfOk, IfErr, IfSome, OnOk};
ghost use Rattle.std.specs.Vec.Iter.{into_iter_items};
ghost use Rattle.mufom_module.specs.Defects.{IsValid};
ghost use Rattle.mufom_module.specs.Written.{weight};
ghost use Rattle.mufom_place.specs.Facts.{first_some};
ghost use Rattle.mufom_meaning.specs.Joined.{IsJoined};
ghost use Rattle.mufom_meaning.specs.LinkAnswer.{link_answer};
ghost use Rattle.mufom_meaning.specs.Selection.{IsSelected, member_at, members_at};
ghost use Rattle.mufom_meaning.specs.Staging.{AreValid};
ghost use Rattle.mufom_meaning.specs.StagingLaws.{total_weight};
ghost use Rattle.mufom_link.specs.Refusals.{IsRefusalOf};
ghost use Rattle.mufom_words.specs.Sound.{numbers_from, HasTree};
ghost use Rattle.mufom_words.specs.Tree.{groups, leaves, spelling, tree_of};
ghost use Rattle.mufom_groups.specs.Linked.{first_name, linked_module, links, members, roots, tree_links};
ghost use Rattle.mufom_groups.specs.Work.{gives};
ghost use Rattle.mufom_groups.specs.Groups.{elements, files_of, last_of, most_weight, AreInPlaceOf, AreRootsLinked, BeginsWithLink, HasChosen, StopsWork};
ghost use Rattle.mufom_groups.specs.Groups.{HasRoot, IsClosed, IsLinkedFrom, IsNextOf, IsRefusedMark, IsTaken};

use mufom_link::{LinkRefusal, link_owned};
use mufom_module::Module;
use mufom_numbers::{Bytes, List};
use mufom_select::select;
use mufom_words::Mark;
use std::alloc::Global;
use std::vec::IntoIter;

// The name of a module.
fn name_of(module: &Module) -> &[u8]
    ensures name { result.now ≡ «module».now.name }
    ensures valid { IsValid «module».now }
{
    module.parts().name.as_slice()
}

// Adds a module to those that have been linked so far.
fn add(linked: &mut Vec<Module>, module: Module) -> Result<(), LinkRefusal>
    ensures ok { OnOk result (linked.new.items ≡ linked.old.items ++ «module» ∷ []) }
    ensures err { IfErr result (λ e. e ≡ LinkRefusal.NoMemory) }
{
    match linked.push(module) {
        Ok(()) => Ok(()),
        Err(_) => Err(LinkRefusal::NoMemory),
    }
}

// Adds a module, if there is one.
fn add_optional(linked: &mut Vec<Module>, module: Option<Module>) -> Result<(), LinkRefusal>
    ensures ok { OnOk result (linked.new.items ≡ linked.old.items ++ member_at «module») }
    ensures err { IfErr result (λ e. e ≡ LinkRefusal.NoMemory) }
{
    match module {
        Some(module) => add(linked, module),
        None => Ok(()),
    }
}

// Takes the next module, if there is one.
fn next_of(rest: &mut IntoIter<Module>) -> Option<Module>
    ensures { IsNextOf (into_iter_items rest.old) result (into_iter_items rest.new) }
{
    rest.next()
}

// Takes the next module. There must be one.
fn next_module(rest: &mut IntoIter<Module>) -> Module
    requires { 0 < length (into_iter_items rest.old) }
    ensures { into_iter_items rest.old ≡ result ∷ into_iter_items rest.new }
{
    match rest.next() {
        Some(module) => module,
        None => unreachable!(),
    }
}

// Takes the module after `count` others, which are dropped; `None` if there are no more.
fn module_after(rest: &mut IntoIter<Module>, count: usize) -> Option<Module>
    ensures item { result ≡ slice_get (into_iter_items rest.old) count }
    ensures rest { into_iter_items rest.new ≡ drop (count + 1) (into_iter_items rest.old) }
{
    for turn in 0..count {
        let _ = next_of(rest);
    }
    next_of(rest)
}

// Removes the modules from this position on from the list, and returns them.
fn take_from(linked: &mut Vec<Module>, start: usize) -> Result<Vec<Module>, LinkRefusal>
    requires { start ≤ length linked.old.items }
    ensures taken { IfOk result (λ group. group.items ≡ drop start linked.old.items) }
    ensures left { OnOk result (linked.new.items ≡ take start linked.old.items) }
    ensures err { IfErr result (λ e. e ≡ LinkRefusal.NoMemory) }
{
    match linked.split_off(start) {
        Ok(group) => Ok(group),
        Err(_) => Err(LinkRefusal::NoMemory),
    }
}

// The name of the first module.
fn copy_first_name(alloc: Global, list: &[Module]) -> Result<Bytes, LinkRefusal>
    requires { 0 < length list.now }
    ensures name { IfOk result (λ name. name ≡ first_name list.now) }
    ensures short { IfOk result (λ name. length name < 2 ^ 16) }
    ensures err { IfErr result (λ e. e ≡ LinkRefusal.NoMemory) }
{
    match Bytes::from_slice(alloc, name_of(&list[0])) {
        Ok(name) => Ok(name),
        Err(_) => Err(LinkRefusal::NoMemory),
    }
}

// Links the modules from this position on into one, which takes their place, under the name of the first of
// them.
fn link_from(alloc: Global, linked: &mut Vec<Module>, start: usize) -> Result<(), LinkRefusal>
    requires inside { start < length linked.old.items }
    requires light { total_weight linked.old.items ≤ most_weight }
    ensures ok { OnOk result (IsLinkedFrom start linked.old.items linked.new.items) }
    ensures refused { IfErr result (λ e. IsRefusalOf (drop start linked.old.items) e) }
{
    let group = take_from(linked, start)?;
    let name = copy_first_name(alloc, &group)?;
    add(linked, link_owned(alloc, group, name.as_slice())?)
}

// Closes the innermost open group, and links its modules.
fn close_group(
    alloc: Global,
    begun: &mut Vec<usize>,
    linked: &mut Vec<Module>,
) -> Result<(), LinkRefusal>
    requires { total_weight linked.old.items ≤ most_weight }
    ensures ok { OnOk result (IsClosed begun.old.items linked.old.items begun.new.items linked.new.items) }
    ensures refused { IfErr result (λ e. IsRefusalOf (drop (last_of begun.old.items) linked.old.items) e) }
{
    let start = begun.pop().unwrap_or(0);
    if start < linked.len() {
        link_from(alloc, linked, start)
    } else {
        Ok(())
    }
}

// Carries out a mark: a group begins or closes, or the next root is added for a file.
fn take_mark(
    alloc: Global,
    mark: &Mark,
    begun: &mut Vec<usize>,
    linked: &mut Vec<Module>,
    rest: &mut IntoIter<Module>,
) -> Result<(), LinkRefusal>
    requires left { HasRoot mark.now (into_iter_items rest.old) }
    requires light { total_weight linked.old.items ≤ most_weight }
    ensures ok { OnOk result (IsTaken mark.now begun.old.items linked.old.items (into_iter_items rest.old)
        begun.new.items linked.new.items (into_iter_items rest.new)) }
    ensures refused { IfErr result (λ e. IsRefusedMark mark.now begun.old.items linked.old.items e) }
{
    match mark {
        Mark::Open => match begun.push(linked.len()) {
            Ok(()) => Ok(()),
            Err(_) => Err(LinkRefusal::NoMemory),
        },
        Mark::File(_) => add(linked, next_module(rest)),
        Mark::Close => close_group(alloc, begun, linked),
    }
}

// Links each group of the marks when its bracket closes. Returns the modules of the elements at the top of
// the tree.
fn link_groups(
    alloc: Global,
    marks: &[Mark],
    roots: Vec<Module>,
) -> Result<Vec<Module>, LinkRefusal>
    requires spelled { spelling (tree_of marks.now) ≡ marks.now }
    requires numbered { leaves (tree_of marks.now) ≡ numbers_from 0 (length roots.items) }
    requires valid { AreValid roots.items }
    requires light { total_weight roots.items ≤ most_weight }
    ensures ok { IfOk result (λ linked. AreInPlaceOf linked.items (map (members_at roots.items) (elements (tree_of marks.now)))) }
    ensures light { IfOk result (λ linked. total_weight linked.items ≤ total_weight roots.items) }
    ensures linkable { IfOk result (λ _. first_some link_answer (map (members_at roots.items) (groups (tree_of marks.now))) ≡ None) }
    ensures refused { IfErr result (λ e. StopsWork (links (map (members_at roots.items) (groups (tree_of marks.now)))) e) }
{
    let mut rest = roots.into_iter();
    let mut linked = Vec::new(alloc);
    let mut begun = Vec::new(alloc);
    for mark in marks {
        take_mark(alloc, mark, &mut begun, &mut linked, &mut rest)?;
    }
    Ok(linked)
}

// 1 if the mark names a file, and 0 if it is a bracket.
fn own_files(mark: &Mark) -> usize
    ensures value { result ≡ length (files_of (mark.now ∷ [])) }
    ensures few { result ≤ 1 }
{
    match mark {
        Mark::File(_) => 1,
        Mark::Open | Mark::Close => 0,
    }
}

/// The number of files among the marks.
pub fn file_count(marks: &[Mark]) -> usize
    ensures { result ≡ length (files_of marks.now) }
{
    let mut count = 0;
    for mark in marks {
        count += own_files(mark);
    }
    count
}

// Adds the members that are selected for the roots, which are one module. Returns their positions.
fn add_members(
    alloc: Global,
    roots: &mut Vec<Module>,
    members: Vec<Module>,
) -> Result<List<u32>, LinkRefusal>
    requires one { length roots.old.items ≡ 1 }
    requires few { length members.items < 2 ^ 32 }
    ensures ok { IfOk result (λ chosen. HasChosen roots.old.items members.items chosen roots.new.items) }
    ensures err { IfErr result (λ e. e ≡ LinkRefusal.NoMemory) }
{
    let chosen = select(alloc, &roots[0], &members)?;
    let mut rest = members.into_iter();
    let mut passed = 0;
    let positions = chosen.as_slice();
    for position in positions {
        let position = *position as usize;
        add_optional(roots, module_after(&mut rest, position - passed))?;
        passed = position + 1;
    }
    Ok(chosen)
}

// The one module of a list.
fn only_of(list: Vec<Module>) -> Module
    requires { length list.items ≡ 1 }
    ensures { list.items ≡ result ∷ [] }
{
    next_module(&mut list.into_iter())
}

// Links the flat list under the name of its first module. That module is its own link, so a list of it alone
// is not linked again.
fn link_unnamed(alloc: Global, flat: Vec<Module>) -> Result<Module, LinkRefusal>
    requires begins { BeginsWithLink flat.items }
    requires some { 0 < length flat.items }
    requires light { total_weight flat.items ≤ most_weight }
    ensures joined { IfOk result (λ M. IsJoined M flat.items (first_name flat.items)) }
    ensures linkable { IfOk result (λ _. link_answer flat.items ≡ None) }
    ensures light { IfOk result (λ M. weight M < most_weight + 2 ^ 16) }
    ensures refused { IfErr result (λ e. IsRefusalOf flat.items e) }
{
    if flat.len() == 1 {
        Ok(only_of(flat))
    } else {
        let name = copy_first_name(alloc, &flat)?;
        link_owned(alloc, flat, name.as_slice())
    }
}

// Links the flat list, under the given name or that of the first module.
fn link_flat(alloc: Global, name: &Option<Bytes>, flat: Vec<Module>) -> Result<Module, LinkRefusal>
    requires begins { BeginsWithLink flat.items }
    requires some { 0 < length flat.items }
    requires short { IfSome name.now (λ given. length given < 2 ^ 16) }
    requires light { total_weight flat.items ≤ most_weight }
    ensures joined { IfOk result (λ M. IsJoined M flat.items (unwrap_or name.now (first_name flat.items))) }
    ensures linkable { IfOk result (λ _. link_answer flat.items ≡ None) }
    ensures light { IfOk result (λ M. weight M < most_weight + 2 ^ 16) }
    ensures refused { IfErr result (λ e. IsRefusalOf flat.items e) }
{
    match name {
        Some(name) => link_owned(alloc, flat, name.as_slice()),
        None => link_unnamed(alloc, flat),
    }
}

// Links the modules of the tree into one.
fn link_roots(alloc: Global, marks: &[Mark], roots: Vec<Module>) -> Result<Vec<Module>, LinkRefusal>
    requires spelled { spelling (tree_of marks.now) ≡ marks.now }
    requires some { 1 ≤ length (leaves (tree_of marks.now)) }
    requires numbered { leaves (tree_of marks.now) ≡ numbers_from 0 (length roots.items) }
    requires valid { AreValid roots.items }
    requires light { total_weight roots.items ≤ most_weight }
    ensures ok { IfOk result (λ linked. AreRootsLinked marks.now roots.items linked.items) }
    ensures refused { IfErr result (λ e. StopsWork (links (tree_links (tree_of marks.now) roots.items)) e) }
{
    let mut linked = link_groups(alloc, marks, roots)?;
    link_from(alloc, &mut linked, 0)?;
    Ok(linked)
}

/// The module into which modules are linked, and the members that it contains.
#[derive(Drop)]
pub struct LinkedModules {
    /// The link.
    pub module: Module,
    /// The number of modules of the tree.
    pub roots: usize,
    /// The positions of the members that were selected, among the modules after those of the tree.
    pub chosen: List<u32>,
}

/// Links modules: those of the tree that the marks spell, with each group linked first, and the members that
/// are selected for them, which are the modules after those of the tree. The link has the given name, or that
/// of the first module. Returns it with the positions of the members.
pub fn link_with_members(
    alloc: Global,
    marks: &[Mark],
    name: &Option<Bytes>,
    modules: List<Module>,
) -> Result<LinkedModules, LinkRefusal>
    requires tree { HasTree marks.now (length modules) }
    requires some { 1 ≤ length (leaves (tree_of marks.now)) }
    requires few { length modules < 2 ^ 32 }
    requires short { IfSome name.now (λ given. length given < 2 ^ 16) }
    requires valid { AreValid modules }
    requires light { total_weight modules ≤ most_weight }
    ensures ok { IfOk result (λ linked. linked_module (tree_of marks.now) name.now modules (gives linked.«module»)) }
    ensures count { IfOk result (λ linked. linked.roots ≡ length (leaves (tree_of marks.now))) }
    // The members are those that the modules of the tree need.
    ensures chosen { IfOk result (λ linked. IsSelected (roots (tree_of marks.now) modules)
        (members (tree_of marks.now) modules) linked.chosen) }
    // The link weighs little more than the greatest total weight of the modules of a run.
    ensures light { IfOk result (λ linked. weight linked.«module» < most_weight + 2 ^ 16) }
    ensures refused { IfErr result (λ e. StopsWork (linked_module (tree_of marks.now) name.now modules) e) }
{
    let roots = file_count(marks);
    let mut modules = modules.into_vec();
    let Ok(members) = modules.split_off(roots) else {
        return Err(LinkRefusal::NoMemory);
    };
    let mut linked = link_roots(alloc, marks, modules)?;
    let chosen = add_members(alloc, &mut linked, members)?;
    let module = link_flat(alloc, name, linked)?;
    Ok(LinkedModules {
        module,
        roots,
        chosen,
    })
}

/// Links modules, as [`link_with_members`] does, and returns the link alone.
pub fn link_modules(
    alloc: Global,
    marks: &[Mark],
    name: &Option<Bytes>,
    modules: List<Module>,
) -> Result<Module, LinkRefusal>
    requires tree { HasTree marks.now (length modules) }
    requires some { 1 ≤ length (leaves (tree_of marks.now)) }
    requires few { length modules < 2 ^ 32 }
    requires short { IfSome name.now (λ given. length given < 2 ^ 16) }
    requires valid { AreValid modules }
    requires light { total_weight modules ≤ most_weight }
    ensures ok { IfOk result (λ M. linked_module (tree_of marks.now) name.now modules (gives M)) }
    // The link weighs little more than the greatest total weight of the modules of a run.
    ensures light { IfOk result (λ M. weight M < most_weight + 2 ^ 16) }
    ensures refused { IfErr result (λ e. StopsWork (linked_module (tree_of marks.now) name.now modules) e) }
{
    match link_with_members(alloc, marks, name, modules) {
        Ok(linked) => Ok(linked.module),
        Err(refusal) => Err(refusal),
    }
}
