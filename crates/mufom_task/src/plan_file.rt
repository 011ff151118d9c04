//! Reads the plan that a task names.

ghost use Rattle.std.specs.Prelude.{◌≡◌, ◌∷◌, [], IfErr, IfOk, IfSome, OnSome, Ok, Some, option_to_list};
ghost use Rattle.mufom_host.specs.World.{GrowsBy, OnlyOpens};
ghost use Rattle.mufom_plan.specs.PlanText.{plan_of_text};
ghost use Rattle.mufom_meaning.specs.Absolute.{no_regions as without_regions};
ghost use Rattle.mufom_planned.specs.ReadPlans.{IsReadPlan};
ghost use Rattle.mufom_groups.specs.Work.{gives};
ghost use Rattle.mufom_task.specs.Reading.{plan_in};
ghost use Rattle.mufom_task.specs.InputsRead.{IsPlanAnswer, KeepsPlan, PlanStops};
ghost use Rattle.mufom_task.specs.Calls.{call_of};

use crate::task::Inputs;
use crate::unread::Unread;
use crate::whole_file::read_whole;
use mufom_host::Host;
use mufom_numbers::List;
use mufom_numbers::limits::MOST_PLAN_BYTES;
use mufom_outcome::{Input, Outcome, Refusal};
use mufom_plan::{Plan, PlanRefusal, read_plan};
use std::alloc::Global;

// The plan in these bytes, or the outcome of the run.
fn plan_of(alloc: Global, text: &[u8]) -> Result<Plan, Outcome>
    ensures ok { IfOk result (λ plan. plan_of_text text.now ≡ Ok plan) }
    ensures sound { IfOk result IsReadPlan }
    ensures stops { IfErr result (IsPlanAnswer (plan_of_text text.now)) }
{
    match read_plan(alloc, text) {
        Ok(plan) => Ok(plan),
        Err(PlanRefusal::NoMemory) => Err(Outcome::NoMemory),
        Err(refusal) => Err(Outcome::Refused(Refusal::Plan(refusal))),
    }
}

// Reads the plan of the file with this name.
fn read_plan_file<H: Host>(alloc: Global, name: &str, host: &mut H) -> Result<Plan, Unread>
    ensures read { IfOk result (λ plan. IfSome (H.meaning host.old).files (λ files. plan_in files (Some name.now) (gives plan))) }
    ensures sound { IfOk result IsReadPlan }
    ensures stops { IfErr result (λ unread. PlanStops (Some name.now) (call_of H.meaning H.faults host.old host.new) unread.outcome) }
    ensures text { IfErr result (λ unread. KeepsPlan (Some name.now) (H.meaning host.old).files unread.plan.items unread.outcome) }
    ensures opens { IfOk result (λ plan. GrowsBy (H.meaning host.old).opened (H.meaning host.new).opened (name.now ∷ [])) }
    ensures opened { OnSome (H.meaning host.new).opened (GrowsBy (H.meaning host.old).opened (H.meaning host.new).opened (name.now ∷ [])) }
    ensures only { OnlyOpens (H.meaning host.old) (H.meaning host.new) (H.faults host.old) (H.faults host.new) }
{
    let text = match read_whole(alloc, name, Input::Plan, MOST_PLAN_BYTES, host) {
        Ok(text) => text,
        Err(stop) => return Err(Unread::without_plan(alloc, stop)),
    };
    match plan_of(alloc, text.as_slice()) {
        Ok(plan) => Ok(plan),
        Err(stop) => Err(Unread {
            outcome: stop,
            plan: text,
        }),
    }
}

// The plan without regions.
fn no_regions(alloc: Global) -> Plan
    ensures { result ≡ without_regions }
{
    Plan {
        regions: List::new(alloc),
        symbols: List::new(alloc),
        keep: List::new(alloc),
    }
}

/// Reads the plan that the task names, or returns the one without regions if it names none.
pub(crate) fn read_plan_of<H: Host>(
    alloc: Global,
    inputs: &Inputs,
    host: &mut H,
) -> Result<Plan, Unread>
    ensures read { IfOk result (λ plan. IfSome (H.meaning host.old).files (λ files. plan_in files inputs.now.plan (gives plan))) }
    ensures sound { IfOk result IsReadPlan }
    ensures stops { IfErr result (λ unread. PlanStops inputs.now.plan (call_of H.meaning H.faults host.old host.new) unread.outcome) }
    ensures text { IfErr result (λ unread. KeepsPlan inputs.now.plan (H.meaning host.old).files unread.plan.items unread.outcome) }
    ensures opens { IfOk result (λ plan. GrowsBy (H.meaning host.old).opened (H.meaning host.new).opened (option_to_list inputs.now.plan)) }
    ensures opened { OnSome (H.meaning host.new).opened
        (GrowsBy (H.meaning host.old).opened (H.meaning host.new).opened (option_to_list inputs.now.plan)) }
    ensures only { OnlyOpens (H.meaning host.old) (H.meaning host.new) (H.faults host.old) (H.faults host.new) }
{
    match &inputs.plan {
        Some(name) => read_plan_file(alloc, name.as_str(), host),
        None => Ok(no_regions(alloc)),
    }
}
