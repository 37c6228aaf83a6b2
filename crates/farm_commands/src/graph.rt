//! What is answered where a plan is drawn.

ghost use Rattle.std.specs.Prelude.{◌≡◌, Err, IfOk};
ghost use Rattle.farm_answers.specs.Answers.{IsAnswered};
ghost use Rattle.farm_answers.specs.Answers.{farm_in};
ghost use Rattle.farm_commands.specs.Pictures.{AnswersGraph, Draws, DrawsPlan, IsStatus};
ghost use Rattle.farm_answers.specs.declared.status.TheConstants as status;
ghost use Rattle.plan_reader.specs.TextsView.{texts_view};
ghost use Rattle.plan_model.specs.Common.{count, IsSound};
ghost use Rattle.timed_run.specs.Beginning.{from_start};
ghost use Rattle.timed_run.specs.Path.{IsCriticalPath};
ghost use Rattle.timed_run.specs.Timed.{IsTimedRun};

use crate::timelines::timed_plan;
use farm_answers::{FINE, OutsideFault, REFUSED, show_verdict, write_answer};
use plan_reader::Texts;
use plan_verifier::{Accepted, Examined, Ready, Refusal, read_ready};
use report_sink::Sink;
use std::alloc::{AllocError, Global};
use std::mem::ManuallyDrop;
use std::thread::Threads;
use timed_farm::{PlanTime, accepted_timed_run};
use timeline_pictures::{DrawnPlan, plan_dot, plan_graph_json};

/// Gives a plan as a graph, as JSON or not.
fn drawn(alloc: Global, plan: &DrawnPlan<'_>, json: bool) -> Result<Vec<u8>, AllocError> {
    if json {
        plan_graph_json(alloc, plan)
    } else {
        plan_dot(alloc, plan)
    }
}

/// Gives an accepted plan with its timed run as a graph, as JSON or not.
fn drawn_run<'x>(
    alloc: Global,
    accepted: &'x Accepted,
    time: &'x PlanTime,
    json: bool,
) -> Result<Vec<u8>, AllocError>
    requires run { IsTimedRun accepted.now.universe accepted.now.plan
        (from_start accepted.now.universe accepted.now.plan) time.now.run.events.items
        time.now.run.end }
    requires path { IsCriticalPath accepted.now.universe accepted.now.plan
        (from_start accepted.now.universe accepted.now.plan) time.now.run.events.items
        time.now.run.end time.now.path.items }
{
    let plan = DrawnPlan {
        universe: accepted.universe(),
        plan: accepted.plan(),
        run: Some(timed_plan(accepted, time)),
        stuck: &[],
    };
    drawn(alloc, &plan, json)
}

/// Gives a plan as a graph whose lanes of these names are stuck, as JSON or not.
fn drawn_stuck<'x>(
    alloc: Global,
    examined: &'x Examined,
    lanes: &'x [Vec<u8>],
    json: bool,
) -> Result<Vec<u8>, AllocError> {
    let plan = DrawnPlan {
        universe: examined.universe(),
        plan: examined.plan(),
        run: None,
        stuck: lanes,
    };
    drawn(alloc, &plan, json)
}

/// Answers with an accepted plan as a graph.
fn draw_accepted<'a, S: Sink>(
    alloc: Global,
    accepted: &Accepted,
    json: bool,
    out: &mut S,
) -> Result<u8, OutsideFault<'a>>
    ensures { IsAnswered (IsStatus status.FINE) (S.state out.old) (S.state out.new) result }
{
    let time = accepted_timed_run(alloc, accepted)?;
    let text = drawn_run(alloc, accepted, &time, json)?;
    write_answer(out, &text, FINE)
}

/// Answers with a plan as a graph whose lanes of these names are stuck.
fn draw_stuck<'a, S: Sink>(
    alloc: Global,
    examined: &Examined,
    lanes: &[Vec<u8>],
    json: bool,
    out: &mut S,
) -> Result<u8, OutsideFault<'a>>
    ensures { IsAnswered (IsStatus status.REFUSED) (S.state out.old) (S.state out.new) result }
{
    let text = drawn_stuck(alloc, examined, lanes, json)?;
    write_answer(out, &text, REFUSED)
}

/// Answers with a plan as a graph that is refused because lanes are stuck, and with any other
/// refusal as it is.
fn draw_refused<'a, S: Sink>(
    alloc: Global,
    examined: &Examined,
    refusal: Refusal,
    json: bool,
    out: &mut S,
) -> Result<u8, OutsideFault<'a>>
    ensures { IsAnswered (Draws json (Err refusal)) (S.state out.old) (S.state out.new) result }
{
    match refusal {
        Refusal::Stuck { lanes } => draw_stuck(alloc, examined, lanes.as_slice(), json, out),
        refusal => show_verdict(alloc, Err(refusal), json, out),
    }
}

/// Answers with an examined plan as a graph, or with the refusal.
fn draw_examined<'a, S: Sink>(
    rt: &(impl Threads + Sync),
    alloc: Global,
    examined: Examined,
    json: bool,
    out: &mut S,
) -> Result<u8, OutsideFault<'a>>
    ensures { IsAnswered (DrawsPlan json (farm_in examined)) (S.state out.old) (S.state out.new)
        result }
{
    // The program ends with its answer: what it has read goes with it, and not piece by piece.
    let examined = ManuallyDrop::new(examined);
    match examined.verdict(rt, alloc) {
        Ok(grounds) => {
            let examined = ManuallyDrop::into_inner(examined);
            let accepted = ManuallyDrop::new(examined.accept(grounds));
            draw_accepted(alloc, &*accepted, json, out)
        }
        Err(refusal) => draw_refused(alloc, &*examined, refusal, json, out),
    }
}

/// Answers with what texts stand for as a graph, or with the refusal, by the rows of their universe.
fn draw_ready<'a, S: Sink>(
    rt: &(impl Threads + Sync),
    alloc: Global,
    ready: Ready,
    json: bool,
    out: &mut S,
) -> Result<u8, OutsideFault<'a>>
    requires counted { ready.planned.plan.count
        ≡ count ready.planned.universe ready.planned.plan.lanes }
    requires sound { IsSound ready.planned.universe ready.planned.plan.lanes }
    requires tables { IfOk ready.tables (λ tables. tables ≡ ready.planned.universe) }
    ensures { IsAnswered (DrawsPlan json (record {
      universe = ready.planned.universe;
      plan = ready.planned.plan.lanes;
    })) (S.state out.old) (S.state out.new) result }
{
    let Ready { planned, tables } = ready;
    let tables = tables?;
    let examined = Examined::by_tables(rt, alloc, planned, tables)?;
    draw_examined(rt, alloc, examined, json, out)
}

/// Answers with the plan that four texts stand for as a graph, with its critical path where it is
/// accepted, and with what holds its lanes up where they are stuck; else with the verdict; and
/// gives the status, which is that of the verdict.
///
/// # Errors
///
/// [`OutsideFault::OutOfMemory`] where memory is refused, and nothing is written then; and
/// [`OutsideFault::WriteFailed`] where the sink fails, with a first part of the answer.
pub fn answer_graph<'a, S: Sink>(
    rt: &(impl Threads + Sync),
    alloc: Global,
    texts: Texts<'_>,
    json: bool,
    out: &mut S,
) -> Result<u8, OutsideFault<'a>>
    ensures { IsAnswered (AnswersGraph json (texts_view texts.entry)) (S.state out.old)
        (S.state out.new) result }
{
    match read_ready(
        rt,
        alloc,
        texts.packages,
        texts.sources,
        texts.farm,
        texts.plan,
    ) {
        Ok(ready) => draw_ready(rt, alloc, ready, json, out),
        Err(refused) => show_verdict(alloc, Err(Refusal::from(refused)), json, out),
    }
}
