//! The lines about a plan that is refused.

ghost use Rattle.std.specs.Prelude.{◌≡◌, ◌++◌, ℕ, List as list, Some, IfOk, IsSome};
ghost use Rattle.mufom_explain.specs.Lines.{plan_line};
ghost use Rattle.mufom_works.specs.PlanLines.{ArePlanLines, is_extra, is_syntax, key_of, key_part, plan_line_at};
ghost use Rattle.mufom_explain_text.specs.Told.{told_text};

use crate::explanation::Details;
use mufom_explain::plan_line;
use mufom_numbers::{Bytes, NoMemory, Text};
use mufom_plan::{PlanField, PlanRefusal};
use mufom_plan_faults::{extra_key, syntax_line};
use mufom_task::Inputs;
use mufom_text::{Output, counted, quoted};
use std::alloc::Global;

/// Puts the line of a plan with the number of one of its lines, as in `plan: "plan.toml" line 3`.
pub(crate) fn plan_line_at<K: Output>(out: &mut K, name: &Text, row: usize)
    ensures { K.takes out.old out.new (plan_line_at name.now row) }
{
    out.put(b"plan: ");
    quoted(out, name.as_str().as_bytes());
    counted(out, b" line ", row as u128);
    out.put(b"\n");
}

// Puts the line of a key, as in `key: "length"`.
fn key_line<K: Output>(out: &mut K, key: &Bytes)
    ensures { K.takes out.old out.new (key_part (Some key.now)) }
{
    out.put(b"key: ");
    quoted(out, key.as_slice());
    out.put(b"\n");
}

fn key_part<K: Output>(out: &mut K, key: &Option<Bytes>)
    ensures { K.takes out.old out.new (key_part key.now) }
{
    match key {
        Some(key) => key_line(out, key),
        None => {}
    }
}

/// Puts the line of a plan, and that of a key, if there is one.
pub(crate) fn plan_and_key<K: Output>(out: &mut K, name: &Text, key: &Option<Bytes>)
    ensures { K.takes out.old out.new (plan_line name.now ++ key_part key.now) }
{
    plan_line(out, name);
    key_part(out, key);
}

fn is_extra(field: PlanField) -> bool
    ensures { result ≡ is_extra field }
{
    matches!(field, PlanField::Extra)
}

fn is_syntax(refusal: PlanRefusal) -> bool
    ensures { result ≡ is_syntax refusal }
{
    matches!(refusal, PlanRefusal::Syntax)
}

// The key that an error in a plan is about, if it is one that a table may not have.
fn key_of(alloc: Global, text: &[u8], refusal: PlanRefusal) -> Result<Option<Bytes>, NoMemory>
    ensures { IfOk result (λ key. key ≡ key_of text.now refusal) }
{
    match refusal {
        PlanRefusal::Shape { table, field } => {
            if is_extra(field) {
                return extra_key(alloc, text, table);
            }
            Ok(None)
        }
        PlanRefusal::Syntax => Ok(None),
        PlanRefusal::Beyond(_) => Ok(None),
        PlanRefusal::TooLong => Ok(None),
        PlanRefusal::NoMemory => Ok(None),
    }
}

// The lines about a plan with this name.
fn named_plan_details<'a>(
    alloc: Global,
    name: &'a Text,
    text: &[u8],
    refusal: PlanRefusal,
) -> Result<Details<'a>, NoMemory>
    ensures { IfOk result (λ details. ArePlanLines name.now text.now refusal (told_text details)) }
{
    if is_syntax(refusal) {
        let row = syntax_line(alloc, text)?;
        return Ok(Details::PlanAt { name, row });
    }
    let key = key_of(alloc, text, refusal)?;
    Ok(Details::PlanKey { name, key })
}

/// Returns the lines about the plan of some inputs, whose text is refused. The inputs must name a plan. The only
/// error is out of memory.
pub(crate) fn refused_plan_details<'a>(
    alloc: Global,
    inputs: &'a Inputs,
    text: &[u8],
    refusal: PlanRefusal,
) -> Result<Details<'a>, NoMemory>
    requires { IsSome inputs.now.plan }
    ensures { IfOk result
        (λ details. (name : list ℕ) → inputs.now.plan ≡ Some name → ArePlanLines name text.now refusal (told_text details)) }
{
    match &inputs.plan {
        Some(name) => named_plan_details(alloc, name, text, refusal),
        None => unreachable!(),
    }
}
