//! Finds the first public whose own mentions lead back to it.

ghost use Rattle.std.specs.Prelude.{◌≡◌, ◌<◌, ◌^◌, ◌↔◌, [], ◌∷◌, length, option_map, IfOk, OnOk, IsTrue};
ghost use Rattle.std.specs.List.{list_all};
ghost use Rattle.mufom_image_values.specs.Graph.{mentioned_in, mentions_of, AreWithin, IsClosed};
ghost use Rattle.mufom_place.specs.Facts.{first_some};
ghost use Rattle.mufom_meaning.specs.Facts.{cycle};
ghost use Rattle.mufom_meaning.specs.Flat.{public_names};
ghost use Rattle.mufom_meaning.specs.LocateAnswer.{cycle_at};
ghost use Rattle.mufom_image_values.specs.Evaluated.{IsGraph, graph_edges, public_count};
ghost use Rattle.mufom_image_values.specs.Circles.{number_at, is_down, leads_down, NeverRises, IsOnCircle, IsFirstOnCircle};
ghost use Rattle.mufom_image_values.specs.Circles.{search_of, with_position, followed};

use crate::components::Components;
use crate::graph::Graph;
use mufom_expr::Token;
use mufom_names::Public;
use mufom_numbers::NoMemory;
use std::alloc::Global;

fn number_of(numbers: &[u32], position: u32) -> u32
    ensures { result ≡ number_at numbers.now position }
{
    numbers.get(position as usize).copied().unwrap_or(0)
}

// Whether the mention leads down: to a smaller number, or also to an equal one unless `strictly`.
fn is_down(graph: &Graph<'_>, numbers: &[u32], own: u32, strictly: bool, token: Token) -> bool
    ensures { result ≡ is_down (number_at numbers.now) own strictly (mentioned_in graph.now.resolutions.now token) }
{
    match graph.mentioned(token) {
        Some(next) if strictly => number_of(numbers, next) < own,
        Some(next) => number_of(numbers, next) <= own,
        None => true,
    }
}

// Whether all mentions of the tokens lead down.
fn all_down(graph: &Graph<'_>, numbers: &[u32], own: u32, strictly: bool, tokens: &[Token]) -> bool
    ensures { result
        ≡ list_all (λ token. is_down (number_at numbers.now) own strictly (mentioned_in graph.now.resolutions.now token)) tokens.now }
{
    tokens
        .iter()
        .all(|token| is_down(graph, numbers, own, strictly, *token))
}

// Whether all mentions of the public lead down.
fn leads_down(graph: &Graph<'_>, numbers: &[u32], position: u32, strictly: bool) -> bool
    ensures { result ≡ leads_down (number_at numbers.now) (graph_edges graph.now) strictly position }
{
    let own = number_of(numbers, position);
    all_down(graph, numbers, own, strictly, graph.tokens(position))
}

// Whether no mention of any public leads up.
fn never_rises(graph: &Graph<'_>, numbers: &[u32]) -> bool
    requires { public_count graph.now < 2 ^ 32 }
    ensures { IsTrue result → NeverRises (number_at numbers.now) (graph_edges graph.now) }
{
    for position in 0..graph.publics().len() {
        if !leads_down(graph, numbers, position as u32, false) {
            return false;
        }
    }
    true
}

// Marks a position and adds it to those that are still to be followed, unless it is already marked.
fn mark(marks: &mut Vec<bool>, pending: &mut Vec<u32>, position: u32) -> Result<(), NoMemory>
    requires { position < length marks.old.items }
    ensures { OnOk result (search_of marks.new.items pending.new.items
        ≡ with_position (search_of marks.old.items pending.old.items) position) }
{
    if !marks[position as usize] {
        marks[position as usize] = true;
        pending.push(position)?;
    }
    Ok(())
}

// Marks each position that the tokens mention and that was not marked, and adds it to those that are still to
// be followed.
fn follow(
    graph: &Graph<'_>,
    tokens: &[Token],
    marks: &mut Vec<bool>,
    pending: &mut Vec<u32>,
) -> Result<(), NoMemory>
    requires { AreWithin (mentions_of graph.now.resolutions.now tokens.now) (length marks.old.items) }
    ensures { OnOk result (search_of marks.new.items pending.new.items
        ≡ followed (mentions_of graph.now.resolutions.now tokens.now) (search_of marks.old.items pending.old.items)) }
{
    for token in tokens {
        if let Some(next) = graph.mentioned(*token) {
            mark(marks, pending, next)?;
        }
    }
    Ok(())
}

// Whether a chain of mentions leads from a public back to it.
fn leads_back(alloc: Global, graph: &Graph<'_>, position: u32) -> Result<bool, NoMemory>
    requires inside { position < public_count graph.now }
    requires closed { IsClosed (graph_edges graph.now) (public_count graph.now) }
    ensures { IfOk result (λ back. IsTrue back ↔ IsOnCircle (graph_edges graph.now) position) }
{
    let mut marks = vec![in alloc; false; graph.publics().len()]?;
    let mut pending = Vec::new(alloc);
    follow(graph, graph.tokens(position), &mut marks, &mut pending)?;
    while let Some(public) = pending.pop() {
        follow(graph, graph.tokens(public), &mut marks, &mut pending)?;
    }
    Ok(marks[position as usize])
}

// The position of the first public that lies on a cycle of mentions. If no mention leads up, a public
// whose mentions all lead strictly down is on no cycle; with the numbers of the components, the first other public is on
// one.
fn first_on_circle(
    alloc: Global,
    graph: &Graph<'_>,
    components: &Components,
) -> Result<Option<u32>, NoMemory>
    requires few { public_count graph.now < 2 ^ 32 }
    requires closed { IsClosed (graph_edges graph.now) (public_count graph.now) }
    ensures { IfOk result (λ first. IsFirstOnCircle (graph_edges graph.now) (public_count graph.now) first) }
{
    let numbers = components.numbers.as_slice();
    let falling = never_rises(graph, numbers);
    for position in 0..graph.publics().len() {
        let position = position as u32;
        if falling && leads_down(graph, numbers, position, true) {
            continue;
        }
        if leads_back(alloc, graph, position)? {
            return Ok(Some(position));
        }
    }
    Ok(None)
}

/// Finds the first public, in order, whose own mentions lead back to it. The result is the same for any
/// components; with those of the graph the search starts from at most one public.
pub fn first_on_cycle<'a>(
    alloc: Global,
    graph: &Graph<'a>,
    components: &Components,
) -> Result<Option<&'a Public>, NoMemory>
    requires { IsGraph graph.now }
    ensures { IfOk result (λ first. first_some (cycle_at (graph.now.parts.now ∷ [])) (public_names (graph.now.parts.now ∷ []))
        ≡ option_map (λ public. cycle public.now.name) first) }
{
    match first_on_circle(alloc, graph, components)? {
        Some(position) => Ok(Some(&graph.publics()[position as usize])),
        None => Ok(None),
    }
}
