//! What is answered where the timed run of a plan is shown.

ghost use Rattle.std.specs.Prelude.{◌≡◌};
ghost use Rattle.farm_answers.specs.Answers.{IsAnswered};
ghost use Rattle.farm_commands.specs.Pictures as spec;
ghost use Rattle.farm_commands.specs.Pictures.{AnswersTimeline, IsStatus};
ghost use Rattle.farm_answers.specs.declared.status.TheConstants as status;
ghost use Rattle.plan_reader.specs.TextsView.{texts_view};
ghost use Rattle.timed_run.specs.Beginning.{from_start};
ghost use Rattle.timed_run.specs.Path.{IsCriticalPath};
ghost use Rattle.timed_run.specs.Timed.{IsTimedRun};

use command_line::TimelineForm;
use farm_answers::{FINE, OutsideFault, show_verdict, write_answer};
use plan_reader::Texts;
use plan_verifier::{Accepted, check};
use report_sink::Sink;
use std::alloc::{AllocError, Global};
use std::mem::ManuallyDrop;
use std::thread::Threads;
use timed_farm::{PlanTime, accepted_timed_run};
use timeline::{Layout, TimedPlan, timeline_json, timeline_text};
use timeline_pictures::timeline_svg;

/// How a timed run is to be shown, and whether its critical path is shown whole.
#[derive(Clone, Copy)]
pub struct Shape {
    pub form: TimelineForm,
    pub full: bool,
}

/// Tells whether the answer is to be JSON.
fn is_json(form: TimelineForm) -> bool
    ensures { result ≡ spec.is_json form }
{
    match form {
        TimelineForm::Json => true,
        TimelineForm::Lines | TimelineForm::Bars | TimelineForm::Svg => false,
    }
}

/// A timed run with its plan.
pub fn timed_plan<'a>(accepted: &'a Accepted, time: &'a PlanTime) -> TimedPlan<'a> {
    TimedPlan {
        universe: accepted.universe(),
        plan: accepted.plan(),
        events: time.run.events.as_slice(),
        end: time.run.end,
        path: time.path.as_slice(),
    }
}

/// Gives the lines of a timed run.
fn told(
    alloc: Global,
    accepted: &Accepted,
    time: &PlanTime,
    layout: Layout,
) -> Result<Vec<u8>, AllocError>
    requires run { IsTimedRun accepted.now.universe accepted.now.plan
        (from_start accepted.now.universe accepted.now.plan) time.now.run.events.items
        time.now.run.end }
    requires path { IsCriticalPath accepted.now.universe accepted.now.plan
        (from_start accepted.now.universe accepted.now.plan) time.now.run.events.items
        time.now.run.end time.now.path.items }
{
    timeline_text(alloc, &timed_plan(accepted, time), layout)
}

/// Gives a timed run as JSON, or as a picture.
fn drawn(
    alloc: Global,
    accepted: &Accepted,
    time: &PlanTime,
    json: bool,
) -> Result<Vec<u8>, AllocError>
    requires run { IsTimedRun accepted.now.universe accepted.now.plan
        (from_start accepted.now.universe accepted.now.plan) time.now.run.events.items
        time.now.run.end }
    requires path { IsCriticalPath accepted.now.universe accepted.now.plan
        (from_start accepted.now.universe accepted.now.plan) time.now.run.events.items
        time.now.run.end time.now.path.items }
{
    let run = timed_plan(accepted, time);
    if json {
        timeline_json(alloc, &run)
    } else {
        timeline_svg(alloc, &run)
    }
}

/// Times an accepted plan, and gives the lines of its run.
fn time_as_lines(
    alloc: Global,
    accepted: &Accepted,
    layout: Layout,
) -> Result<Vec<u8>, AllocError> {
    let time = accepted_timed_run(alloc, accepted)?;
    told(alloc, accepted, &time, layout)
}

/// Times an accepted plan, and gives its run as JSON, or as a picture.
fn time_as_drawing(alloc: Global, accepted: &Accepted, json: bool) -> Result<Vec<u8>, AllocError> {
    let time = accepted_timed_run(alloc, accepted)?;
    drawn(alloc, accepted, &time, json)
}

/// Times an accepted plan, and gives its run as it is to be shown.
fn shown(alloc: Global, accepted: &Accepted, shape: Shape) -> Result<Vec<u8>, AllocError> {
    let full = shape.full;
    match shape.form {
        TimelineForm::Lines => time_as_lines(alloc, accepted, Layout { bars: false, full }),
        TimelineForm::Bars => time_as_lines(alloc, accepted, Layout { bars: true, full }),
        TimelineForm::Json => time_as_drawing(alloc, accepted, true),
        TimelineForm::Svg => time_as_drawing(alloc, accepted, false),
    }
}

/// Answers with the timed run of an accepted plan.
fn answer_accepted<'a, S: Sink>(
    alloc: Global,
    accepted: &Accepted,
    shape: Shape,
    out: &mut S,
) -> Result<u8, OutsideFault<'a>>
    ensures { IsAnswered (IsStatus status.FINE) (S.state out.old) (S.state out.new) result }
{
    let text = shown(alloc, accepted, shape)?;
    write_answer(out, &text, FINE)
}

/// Answers with the timed run of the plan that four texts stand for where it is accepted, else with
/// the verdict, and gives the status.
///
/// # Errors
///
/// [`OutsideFault::OutOfMemory`] where memory is refused, and nothing is written then; and
/// [`OutsideFault::WriteFailed`] where the sink fails, with a first part of the answer.
pub fn answer_timeline<'a, S: Sink>(
    rt: &(impl Threads + Sync),
    alloc: Global,
    texts: Texts<'_>,
    shape: Shape,
    out: &mut S,
) -> Result<u8, OutsideFault<'a>>
    ensures { IsAnswered (AnswersTimeline (spec.is_json shape.form) (texts_view texts.entry))
        (S.state out.old) (S.state out.new) result }
{
    let verdict = check(
        rt,
        alloc,
        texts.packages,
        texts.sources,
        texts.farm,
        texts.plan,
    );
    match verdict {
        Ok(accepted) => {
            // The program ends with its answer: what it has read goes with it, not piece by piece.
            let accepted = ManuallyDrop::new(accepted);
            answer_accepted(alloc, &*accepted, shape, out)
        }
        Err(refusal) => show_verdict(alloc, Err(refusal), is_json(shape.form), out),
    }
}
