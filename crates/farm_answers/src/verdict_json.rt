//! Verdicts as JSON.

ghost use Rattle.std.specs.Prelude.{◌≡◌, ◌<◌, IfOk, length};
ghost use Rattle.farm_answers.specs.Verdicts as spec;
ghost use Rattle.farm_answers.specs.Verdicts.{check_line};
ghost use Rattle.serde_json.specs.View.{members_view, view};

use crate::refusal_json::of_refusal;
use plan_verifier::{Accepted, Refusal};
use serde_json::{Map, Value, put};
use shown_text::{answer_line, text_value};
use std::alloc::{AllocError, Global};

/// A lane of an accepted plan, with its cost and its budget.
fn lane_value(alloc: Global, accepted: &Accepted, number: usize) -> Result<Value, AllocError>
    requires { number < length accepted.now.plan }
    ensures { IfOk result (λ value. view value ≡ spec.lane_data accepted.now number) }
{
    let lane = accepted.plan().lane(number);
    let cost = accepted.lane_cost(number);
    let mut members = Map::new(alloc);
    put(&mut members, alloc, "budget", Value::from(lane.budget()))?;
    put(&mut members, alloc, "cost", Value::from(cost))?;
    put(&mut members, alloc, "name", text_value(alloc, lane.name())?)?;
    Ok(Value::Object(members))
}

/// The lanes of an accepted plan.
fn lane_list(alloc: Global, accepted: &Accepted) -> Result<Value, AllocError>
    ensures { IfOk result (λ value. view value ≡ spec.lanes_data accepted.now) }
{
    let mut values = Vec::new(alloc);
    for number in 0..accepted.plan().lanes() {
        values.push(lane_value(alloc, accepted, number)?)?;
    }
    Ok(Value::Array(values))
}

/// The members of an acceptance.
fn of_accepted(alloc: Global, accepted: &Accepted) -> Result<Map<String, Value>, AllocError>
    ensures { IfOk result (λ members. members_view members.entries
        ≡ spec.accepted_members accepted.now) }
{
    let mut members = Map::new(alloc);
    let count = accepted.plan().count();
    put(&mut members, alloc, "count", Value::from(count))?;
    put(&mut members, alloc, "lanes", lane_list(alloc, accepted)?)?;
    put(
        &mut members,
        alloc,
        "verdict",
        Value::try_from_str(alloc, "accepted")?,
    )?;
    Ok(members)
}

/// The members of a verdict.
pub fn of_verdict(
    alloc: Global,
    verdict: &Result<Accepted, Refusal>,
) -> Result<Map<String, Value>, AllocError>
    ensures { IfOk result (λ members. members_view members.entries
        ≡ spec.verdict_members verdict.now) }
{
    match verdict {
        Ok(accepted) => of_accepted(alloc, accepted),
        Err(refusal) => of_refusal(alloc, refusal),
    }
}

/// Gives the line of a verdict: one JSON object, and a newline.
pub fn check_json(alloc: Global, verdict: &Result<Accepted, Refusal>) -> Result<Vec<u8>, AllocError>
    ensures { IfOk result (λ line. line.items ≡ check_line verdict.now) }
{
    let members = of_verdict(alloc, verdict)?;
    answer_line(alloc, &Value::Object(members))
}
