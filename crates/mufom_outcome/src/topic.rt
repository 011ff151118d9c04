//! The help topic for an outcome.

ghost use Rattle.std.specs.Prelude.{◌≡◌, map, option_map};
ghost use Rattle.std.specs.String.{string_bytes};
ghost use Rattle.mufom_outcome.specs.Topic.{bin_name as bin_text, build_name as build_text, command_name as named};
ghost use Rattle.mufom_outcome.specs.Topic.{link_name as link_text, locate_name as locate_text, place_name as place_text};
ghost use Rattle.mufom_outcome.specs.Topic.{plan_name as plan_text, refusal_name as refusal_text, topic_of as topic, txt_name as txt_text};
ghost use Rattle.mufom_outcome.specs.Outcomes.{cause_outcome};
ghost use Rattle.mufom_outcome.specs.Topic.{usage_topic as usage};

use crate::cause::Cause;
use crate::error_lines::{build_reason_name, defect_name, reason_name};
use crate::outcome::{BinRefusal, Outcome, Refusal};
use mufom_help::commands::command_topic;
use mufom_help::{command_list, topic_text};
use mufom_place::PlaceRefusal;
use mufom_plan::PlanRefusal;
use mufom_refusals::{BuildRefusal, LinkRefusal, LocateRefusal, TxtReason};

// The name of an error in a plan.
fn plan_name(refusal: PlanRefusal) -> &'static str
    ensures { result.now ≡ plan_text refusal }
{
    match refusal {
        PlanRefusal::Syntax => "Syntax",
        PlanRefusal::Shape { .. } => "Shape",
        PlanRefusal::Beyond(_) => "Beyond",
        PlanRefusal::TooLong => "TooLong",
        PlanRefusal::NoMemory => "",
    }
}

// The name of an error in linking.
fn link_name(refusal: &LinkRefusal) -> &'static str
    ensures { result.now ≡ link_text refusal.now }
{
    match refusal {
        LinkRefusal::Mismatch(_, _) => "Mismatch",
        LinkRefusal::Duplicate(_) => "Duplicate",
        LinkRefusal::DuplicateStart => "DuplicateStart",
        LinkRefusal::NoMemory => "",
    }
}

// The name of an error in placing sections.
fn place_name(refusal: PlaceRefusal) -> &'static str
    ensures { result.now ≡ place_text refusal }
{
    match refusal {
        PlaceRefusal::Unplaced(_) => "Unplaced",
        PlaceRefusal::Misfit { .. } => "Misfit",
        PlaceRefusal::Overlap(_, _) => "Overlap",
        PlaceRefusal::NoMemory => "",
    }
}

// The name of an error in locating.
fn locate_name(refusal: &LocateRefusal) -> &'static str
    ensures { result.now ≡ locate_text refusal.now }
{
    match refusal {
        LocateRefusal::Place(refusal) => place_name(*refusal),
        LocateRefusal::Undefined(_) => "Undefined",
        LocateRefusal::CommonUnplaced(_) => "CommonUnplaced",
        LocateRefusal::Cycle(_) => "Cycle",
        LocateRefusal::DivideByZero(_) => "DivideByZero",
        LocateRefusal::Overflow { .. } => "Overflow",
        LocateRefusal::LoadOutside { .. } => "LoadOutside",
        LocateRefusal::LoadedTwice(_) => "LoadedTwice",
        LocateRefusal::ImageLimit(_) => "ImageLimit",
        LocateRefusal::NoMemory => "",
    }
}

// The name of an error in what `bin` writes.
fn bin_name(refusal: &BinRefusal) -> &'static str
    ensures { result.now ≡ bin_text refusal.now }
{
    match refusal {
        BinRefusal::TooLong(_) => "TooLong",
        BinRefusal::Region(_) => "Region",
    }
}

// The name of an error in a TI-TXT text.
fn txt_name(reason: TxtReason) -> &'static str
    ensures { result.now ≡ txt_text reason }
{
    match reason {
        TxtReason::BadLine => "BadLine",
        TxtReason::NoAddress => "NoAddress",
        TxtReason::Beyond => "Beyond",
        TxtReason::Twice(_) => "Twice",
        TxtReason::AfterEnd => "AfterEnd",
        TxtReason::NoEnd => "NoEnd",
    }
}

// The name of an error in a listing.
fn build_name(refusal: BuildRefusal) -> &'static str
    ensures { result.now ≡ build_text refusal }
{
    match refusal {
        BuildRefusal::At { reason, .. } => build_reason_name(reason),
        BuildRefusal::Module(defect) => defect_name(defect),
        BuildRefusal::NoMemory => "",
    }
}

// The name of an error: the first word of its line that begins with a capital letter.
fn refusal_name(refusal: &Refusal) -> &'static str
    ensures { result.now ≡ refusal_text refusal.now }
{
    match refusal {
        Refusal::Read(_, refusal) => reason_name(refusal.reason),
        Refusal::InputLimit(_) => "InputLimit",
        Refusal::TooManyModules(_) => "TooManyModules",
        Refusal::TooManyFiles(_) => "TooManyFiles",
        Refusal::TooDeep(_) => "TooDeep",
        Refusal::Plan(refusal) => plan_name(*refusal),
        Refusal::Link(refusal) => link_name(refusal),
        Refusal::Locate(refusal, _) => locate_name(refusal),
        Refusal::SharedName(_) => "Duplicate",
        Refusal::Keep(_) => "Unknown",
        Refusal::Bin(refusal) => bin_name(refusal),
        Refusal::Text(refusal) => txt_name(refusal.reason),
        Refusal::Build(refusal) => build_name(*refusal),
    }
}

// The name of the command that a first word stands for; the word itself if it stands for none.
fn command_name(word: &str) -> &str
    ensures { result.now ≡ named word.now }
{
    match word {
        "help" | "--help" | "-h" => "help",
        "version" | "--version" | "-V" => "version",
        _ => word,
    }
}

// The text of the command that the arguments name, or the list of commands if they name none.
fn usage_topic(words: &[String]) -> &'static str
    ensures { result.now ≡ usage (map (λ word. string_bytes word) words.now) }
{
    match words {
        [first, ..] => match command_topic(command_name(first.as_str())) {
            Some(text) => text,
            None => command_list(),
        },
        [] => command_list(),
    }
}

// The help text on an outcome of a run with these arguments.
fn outcome_topic(words: &[String], outcome: &Outcome) -> Option<&'static str>
    ensures { option_map (λ text. text.now) result ≡ topic (map (λ word. string_bytes word) words.now) outcome.now }
{
    match outcome {
        Outcome::Refused(refusal) => topic_text(refusal_name(refusal)),
        Outcome::Usage(_) => Some(usage_topic(words)),
        Outcome::ReadFault(_) => topic_text("read"),
        _ => None,
    }
}

/// Returns the help text on the cause of a run's end with these arguments: that of the error for `Refused`,
/// that of the command for `Usage`, and the text `read` for `ReadFault`. Other outcomes have none.
pub fn topic_of(words: &[String], cause: &Cause<'_>) -> Option<&'static str>
    ensures { option_map (λ text. text.now) result ≡ topic (map (λ word. string_bytes word) words.now) (cause_outcome cause.now) }
{
    match cause {
        Cause::Outcome(outcome) => outcome_topic(words, outcome),
        Cause::Link(refusal) => topic_text(link_name(refusal)),
        Cause::Keep(_) => topic_text("Unknown"),
        Cause::SharedName(_) => topic_text("Duplicate"),
        Cause::Locate(refusal, _) => topic_text(locate_name(refusal)),
    }
}
