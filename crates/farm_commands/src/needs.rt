//! What is answered where it is drawn which build needs which.

ghost use Rattle.std.specs.Prelude.{◌≡◌, Ok};
ghost use Rattle.farm_answers.specs.Answers.{IsAnswered};
ghost use Rattle.farm_answers.specs.declared.status.TheConstants as status;
ghost use Rattle.farm_commands.specs.Needs.{AnswersNeeds, ShowsNeeds};
ghost use Rattle.farm_commands.specs.Pictures.{IsStatus};
ghost use Rattle.plan_reader.specs.TextsView.{texts_view};
ghost use Rattle.timed_run.specs.Beginning.{from_start};
ghost use Rattle.timed_run.specs.Timed.{IsTimedRun};
ghost use Rattle.timeline_pictures.specs.Built as spec;

use crate::timelines::timed_plan;
use farm_answers::{FINE, OutsideFault, REFUSED, show_verdict, write_answer};
use plan_reader::Texts;
use plan_verifier::{Accepted, check};
use report_sink::Sink;
use std::alloc::{AllocError, Global};
use std::mem::ManuallyDrop;
use std::thread::Threads;
use timed_farm::{PlanTime, accepted_timed_run};
use timeline_pictures::{first_unbuilt, needs_dot, needs_json, unbuilt_json, unbuilt_text};

/// Of which recipes the needs are drawn, of all if there is no name, and whether as JSON.
#[derive(Clone, Copy)]
pub struct NeedsShape<'a> {
    pub recipes: &'a [&'a str],
    pub json: bool,
}

/// The first of some names of which no lane of an accepted plan builds the recipe.
fn unbuilt<'a>(accepted: &Accepted, names: &[&'a str]) -> Option<&'a str>
    ensures { result ≡ spec.first_unbuilt accepted.now.universe accepted.now.plan names.now }
{
    first_unbuilt(accepted.universe(), accepted.plan(), names)
}

/// Gives the needs of builds in a timed run.
fn drawn(
    alloc: Global,
    accepted: &Accepted,
    time: &PlanTime,
    shape: NeedsShape<'_>,
) -> Result<Vec<u8>, AllocError>
    requires { IsTimedRun accepted.now.universe accepted.now.plan
        (from_start accepted.now.universe accepted.now.plan) time.now.run.events.items
        time.now.run.end }
{
    let run = timed_plan(accepted, time);
    if shape.json {
        needs_json(alloc, &run, shape.recipes)
    } else {
        needs_dot(alloc, &run, shape.recipes)
    }
}

/// Answers with the needs of builds of an accepted plan.
fn draw_needs<'a, S: Sink>(
    alloc: Global,
    accepted: &Accepted,
    shape: NeedsShape<'_>,
    out: &mut S,
) -> Result<u8, OutsideFault<'a>>
    ensures { IsAnswered (IsStatus status.FINE) (S.state out.old) (S.state out.new) result }
{
    let time = accepted_timed_run(alloc, accepted)?;
    let text = drawn(alloc, accepted, &time, shape)?;
    write_answer(out, &text, FINE)
}

/// Gives what refuses the name of a recipe that no lane builds, as JSON or not.
fn refusal(
    alloc: Global,
    accepted: &Accepted,
    name: &str,
    json: bool,
) -> Result<Vec<u8>, AllocError> {
    if json {
        unbuilt_json(alloc, name)
    } else {
        unbuilt_text(alloc, accepted.universe(), name)
    }
}

/// Refuses the name of a recipe that no lane of an accepted plan builds.
fn refuse_name<'a, S: Sink>(
    alloc: Global,
    accepted: &Accepted,
    name: &str,
    json: bool,
    out: &mut S,
) -> Result<u8, OutsideFault<'a>>
    ensures { IsAnswered (IsStatus status.REFUSED) (S.state out.old) (S.state out.new) result }
{
    let text = refusal(alloc, accepted, name, json)?;
    write_answer(out, &text, REFUSED)
}

/// Answers with the needs of builds of an accepted plan, or refuses a name.
fn answer_accepted<'a, S: Sink>(
    alloc: Global,
    accepted: &Accepted,
    shape: NeedsShape<'_>,
    out: &mut S,
) -> Result<u8, OutsideFault<'a>>
    ensures { IsAnswered (ShowsNeeds shape.entry.json shape.entry.recipes.now (Ok accepted.now))
        (S.state out.old) (S.state out.new) result }
{
    match unbuilt(accepted, shape.recipes) {
        Some(name) => refuse_name(alloc, accepted, name, shape.json, out),
        None => draw_needs(alloc, accepted, shape, out),
    }
}

/// Answers with which build needs which in the timed run of the plan that four texts stand for, of all
/// builds or of those of some recipes; where no lane builds a recipe of these names, with a refusal of
/// the first such name; and where the plan is not accepted, with the verdict. Gives the status.
///
/// # Errors
///
/// [`OutsideFault::OutOfMemory`] where memory is refused, and nothing is written then; and
/// [`OutsideFault::WriteFailed`] where the sink fails, with a first part of the answer.
pub fn answer_needs<'a, S: Sink>(
    rt: &(impl Threads + Sync),
    alloc: Global,
    texts: Texts<'_>,
    shape: NeedsShape<'_>,
    out: &mut S,
) -> Result<u8, OutsideFault<'a>>
    ensures { IsAnswered (AnswersNeeds shape.entry.json shape.entry.recipes.now
        (texts_view texts.entry)) (S.state out.old) (S.state out.new) result }
{
    let verdict = check(
        rt,
        alloc,
        texts.packages,
        texts.sources,
        texts.farm,
        texts.plan,
    );
    match verdict {
        Ok(accepted) => {
            // The program ends with its answer: what it has read goes with it, not piece by piece.
            let accepted = ManuallyDrop::new(accepted);
            answer_accepted(alloc, &*accepted, shape, out)
        }
        Err(refusal) => show_verdict(alloc, Err(refusal), shape.json, out),
    }
}
