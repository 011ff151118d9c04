//! The weight of the absolute module of a location, computed without making the module. Sums stop at the
//! greatest 64-bit number; the weight of a location is below it.

ghost use Rattle.std.specs.Prelude.{◌≡◌, ℕ, ◌+◌, ◌<◌, ◌^◌, ◌∷◌, [], map, length, flat_map, option_map, sum_by};
ghost use Rattle.std.specs.List.{enumerate_from};
ghost use Rattle.mufom_expr.specs.Tree.{number};
ghost use Rattle.mufom_module.specs.Weights.{capped, load_weight, parts_weight, public_weight, start_weight};
ghost use Rattle.mufom_module.specs.Written.{weight};
ghost use Rattle.mufom_meaning.specs.Absolute.{absolute_of, absolute_public, loads_between, section_loads, with_section};
ghost use Rattle.mufom_located.specs.Located.{AreRuns, IsLocated};
ghost use Rattle.mufom_located.specs.Weighed.{literals_weight};

use crate::runs::{run_within, runs_between};
use mufom_meaning::{LocatedParts, PublicValue, Run, absolute_weighs, answers_are_facts};
use mufom_module::{debug_items_weight, notes_weight, sections_weight};
use mufom_numbers::limits::MOST_STRING_BYTES;
use mufom_sections::Section;

// The weight of the literals of some bytes, in bytes.
fn literals_weight(bytes: &[u8]) -> u64
    ensures { result ≡ capped (literals_weight bytes.now) }
{
    let mut rest = bytes;
    let mut total: u64 = 0;
    while !rest.is_empty() {
        let (chunk, after) = rest.split_at(rest.len().min(MOST_STRING_BYTES));
        total = total.saturating_add(10 + chunk.len() as u64);
        rest = after;
    }
    total
}

// The weight of the loads of the part of a run from one address up to another.
fn run_weight(run: &Run, from: u64, to: u128) -> u64
    ensures { (section : ℕ) → result ≡ capped (sum_by load_weight (loads_between section (run.now ∷ []) from to)) }
{
    let (_, bytes) = run_within(run, from, to);
    if bytes.is_empty() {
        return 0;
    }
    20u64.saturating_add(literals_weight(bytes))
}

// The weight of the loads of the parts of the runs from one address up to another.
fn runs_weight(runs: &[Run], from: u64, to: u128) -> u64
    ensures { (section : ℕ) → result ≡ capped (sum_by load_weight (loads_between section runs.now from to)) }
{
    let mut total: u64 = 0;
    for run in runs {
        total = total.saturating_add(run_weight(run, from, to));
    }
    total
}

// The weight of the loads of a section.
fn section_loads_weight(section: &Section, runs: &[Run]) -> u64
    requires { AreRuns runs.now }
    ensures { (number : ℕ) → result ≡ capped (sum_by load_weight (section_loads runs.now (number, section.now))) }
{
    let Some(base) = section.base else {
        return 0;
    };
    let end = base as u128 + section.size as u128;
    match runs_weight(runs_between(runs, base, end), base, end) {
        0 => 0,
        total => total.saturating_add(10),
    }
}

fn loads_weight(sections: &[Section], runs: &[Run]) -> u64
    requires { AreRuns runs.now }
    ensures { result ≡ capped (sum_by load_weight (flat_map (section_loads runs.now) (enumerate_from 0 sections.now))) }
{
    let mut total: u64 = 0;
    for section in sections {
        total = total.saturating_add(section_loads_weight(section, runs));
    }
    total
}

fn public_weight(public: &PublicValue) -> u64
    ensures { result ≡ capped (public_weight (absolute_public public.now)) }
{
    33u64
        .saturating_add(public.name.len() as u64)
        .saturating_add(notes_weight(public.notes.as_slice()))
}

fn publics_weight(publics: &[PublicValue]) -> u64
    ensures { result ≡ capped (sum_by public_weight (map absolute_public publics.now)) }
{
    let mut total: u64 = 0;
    for public in publics {
        total = total.saturating_add(public_weight(public));
    }
    total
}

fn start_weight(start: Option<u64>) -> u64
    ensures { result ≡ capped (start_weight (option_map number start)) }
{
    if start.is_some() { 13 } else { 0 }
}

// The weight of the header and of the ME record.
fn frame_weight(parts: &LocatedParts) -> u64
    ensures { result ≡ capped (156 + length parts.now.processor + length parts.now.name) }
{
    156u64
        .saturating_add(parts.processor.len() as u64)
        .saturating_add(parts.name.len() as u64)
}

// The weight of the parts of the absolute module, or the greatest 64-bit number if that is less.
fn absolute_weight(parts: &LocatedParts) -> u64
    requires { AreRuns parts.now.runs }
    ensures { result ≡ capped (parts_weight (absolute_of parts.now)) }
{
    frame_weight(parts)
        .saturating_add(sections_weight(parts.sections.as_slice()))
        .saturating_add(publics_weight(parts.publics.as_slice()))
        .saturating_add(debug_items_weight(parts.debug.as_slice()))
        .saturating_add(loads_weight(parts.sections.as_slice(), parts.runs.as_slice()))
        .saturating_add(start_weight(parts.start))
}

/// The weight of the absolute module of a location, in bytes. Does not allocate.
pub(crate) fn weight_of(parts: &LocatedParts) -> u64
    requires { IsLocated parts.now }
    ensures { result ≡ weight (absolute_of parts.now) }
{
    absolute_weighs();
    answers_are_facts();
    absolute_weight(parts)
}
