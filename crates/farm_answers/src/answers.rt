//! What is answered to four texts.

ghost use Rattle.std.specs.Prelude.{◌≡◌, true};
ghost use Rattle.std.specs.Option.{is_none};
ghost use Rattle.farm_answers.specs.Answers as spec;
ghost use Rattle.farm_answers.specs.Answers.{AnswersCheck, AnswersList, AnswersNumbered, AnswersStep, AnswersStepBy, AnswersVerdict, IsAnswered, IsJust, ShowsRun, ShowsVerdict};
ghost use Rattle.plan_reader.specs.TextsView.{texts_view};
ghost use Rattle.farm_report.specs.StateText.{step_text};
ghost use Rattle.plan_model.specs.Common.{count, IsSound};

use crate::fault::OutsideFault;
use crate::numbered::numbered_listing;
use crate::status::{FINE, REFUSED};
use crate::turns::read_turns;
use crate::verdict_json::check_json;
use deb_text::Fault;
use farm_core::{Outcome, run_schedule};
use farm_report::{write_check, write_step};
use plan_reader::{Planned, Texts, listing, read_texts};
use plan_verifier::{Accepted, Refusal, check};
use report_sink::{Sink, write_text};
use std::alloc::Global;
use std::mem::ManuallyDrop;
use std::thread::Threads;

/// The status of an answer that is fine, or a refusal.
pub fn status_of(fine: bool) -> u8
    ensures { result ≡ spec.status_of fine }
{
    if fine { FINE } else { REFUSED }
}

/// Writes an answer, and gives its status.
///
/// # Errors
///
/// [`OutsideFault::WriteFailed`] where the sink fails, with a first part of the answer.
pub fn write_answer<'a, S: Sink>(
    out: &mut S,
    text: &[u8],
    status: u8,
) -> Result<u8, OutsideFault<'a>>
    ensures { IsAnswered (IsJust text.now status) (S.state out.old) (S.state out.new) result }
{
    write_text(out, text)?;
    Ok(status)
}

/// Answers with a verdict. Want of memory is none.
///
/// # Errors
///
/// [`OutsideFault::OutOfMemory`] where the verdict is want of memory, and nothing is written then;
/// and [`OutsideFault::WriteFailed`] where the sink fails, with a first part of the answer.
pub fn answer_verdict<'a, S: Sink>(
    verdict: Result<Accepted, Refusal>,
    out: &mut S,
) -> Result<u8, OutsideFault<'a>>
    ensures { IsAnswered (AnswersVerdict verdict) (S.state out.old) (S.state out.new) result }
{
    // The program ends with its answer: what it has read goes with it, and not piece by piece.
    let verdict = ManuallyDrop::new(verdict);
    if matches!(&*verdict, Err(Refusal::Memory)) {
        return Err(OutsideFault::OutOfMemory);
    }
    write_check(out, &*verdict)?;
    Ok(status_of(verdict.is_ok()))
}

/// Answers with a verdict as JSON. Want of memory is none.
fn answer_json<'a, S: Sink>(
    alloc: Global,
    verdict: Result<Accepted, Refusal>,
    out: &mut S,
) -> Result<u8, OutsideFault<'a>>
    ensures { IsAnswered (ShowsVerdict true verdict) (S.state out.old) (S.state out.new) result }
{
    let verdict = ManuallyDrop::new(verdict);
    if matches!(&*verdict, Err(Refusal::Memory)) {
        return Err(OutsideFault::OutOfMemory);
    }
    let line = check_json(alloc, &*verdict)?;
    write_answer(out, &line, status_of(verdict.is_ok()))
}

/// Answers with a verdict, as JSON or not. Want of memory is none.
///
/// # Errors
///
/// As those of [`answer_verdict`], and want of memory for the JSON too.
pub fn show_verdict<'a, S: Sink>(
    alloc: Global,
    verdict: Result<Accepted, Refusal>,
    json: bool,
    out: &mut S,
) -> Result<u8, OutsideFault<'a>>
    ensures { IsAnswered (ShowsVerdict json verdict) (S.state out.old) (S.state out.new) result }
{
    if json {
        answer_json(alloc, verdict, out)
    } else {
        answer_verdict(verdict, out)
    }
}

/// Answers with the verdict on four texts, as one JSON object or not, and gives its status.
///
/// # Errors
///
/// [`OutsideFault::OutOfMemory`] where memory is refused, and nothing is written then; and
/// [`OutsideFault::WriteFailed`] where the sink fails, with a first part of the answer.
pub fn answer_check<'a, S: Sink>(
    rt: &(impl Threads + Sync),
    alloc: Global,
    texts: Texts<'_>,
    json: bool,
    out: &mut S,
) -> Result<u8, OutsideFault<'a>>
    ensures { IsAnswered (AnswersCheck json (texts_view texts.entry)) (S.state out.old)
        (S.state out.new) result }
{
    let verdict = check(
        rt,
        alloc,
        texts.packages,
        texts.sources,
        texts.farm,
        texts.plan,
    );
    show_verdict(alloc, verdict, json, out)
}

/// Answers with the listing of the plan that four texts stand for, or with their first fault, and
/// gives the status.
///
/// # Errors
///
/// [`OutsideFault::OutOfMemory`] where memory is refused, and nothing is written then; and
/// [`OutsideFault::WriteFailed`] where the sink fails, with a first part of the answer.
pub fn answer_list<'a, S: Sink>(
    alloc: Global,
    texts: Texts<'_>,
    out: &mut S,
) -> Result<u8, OutsideFault<'a>>
    ensures { IsAnswered (AnswersList (texts_view texts.entry)) (S.state out.old)
        (S.state out.new) result }
{
    let planned = match read_texts(alloc, texts.packages, texts.sources, texts.farm, texts.plan) {
        Ok(planned) => planned,
        Err(fault) => return answer_verdict(Err(Refusal::from(fault)), out),
    };
    let text = listing(alloc, &planned.universe, &planned.plan)?;
    write_answer(out, &text, FINE)
}

/// Answers as [`answer_list`], with the number of each instruction and the line of the plan's text
/// before each line.
///
/// # Errors
///
/// As those of [`answer_list`].
pub fn answer_numbered<'a, S: Sink>(
    alloc: Global,
    texts: Texts<'_>,
    out: &mut S,
) -> Result<u8, OutsideFault<'a>>
    ensures { IsAnswered (AnswersNumbered (texts_view texts.entry)) (S.state out.old)
        (S.state out.new) result }
{
    let planned = match read_texts(alloc, texts.packages, texts.sources, texts.farm, texts.plan) {
        Ok(planned) => planned,
        Err(fault) => return answer_verdict(Err(Refusal::from(fault)), out),
    };
    let text = numbered_listing(alloc, &planned.universe, &planned.plan)?;
    write_answer(out, &text, FINE)
}

/// Writes what a schedule of this length came to, and gives the status.
fn write_turns<'a, S: Sink>(
    out: &mut S,
    outcome: &Outcome<'_>,
    count: usize,
) -> Result<u8, OutsideFault<'a>>
    ensures { IsAnswered (IsJust (step_text outcome.now.core outcome.now.trap count)
        (spec.status_of (is_none outcome.now.trap))) (S.state out.old) (S.state out.new) result }
{
    write_step(out, outcome, count)?;
    Ok(status_of(outcome.trap.is_none()))
}

/// Lets the lanes of a plan take the turns of a schedule, and answers with what it comes to.
fn answer_turns<'a, S: Sink>(
    alloc: Global,
    planned: &Planned,
    schedule: &[u32],
    out: &mut S,
) -> Result<u8, OutsideFault<'a>>
    requires counted { planned.now.plan.count ≡ count planned.now.universe planned.now.plan.lanes }
    requires sound { IsSound planned.now.universe planned.now.plan.lanes }
    ensures { IsAnswered
        (ShowsRun planned.now.universe planned.now.plan.lanes schedule.now)
        (S.state out.old) (S.state out.new) result }
{
    let outcome = run_schedule(alloc, &planned.universe, &planned.plan, schedule)?;
    write_turns(out, &outcome, schedule.len())
}

/// Answers with the state that a schedule of lanes comes to, or with its first trap and the state
/// there, or with the first fault of the texts, and gives the status.
///
/// # Errors
///
/// [`OutsideFault::OutOfMemory`] where memory is refused, and nothing is written then; and
/// [`OutsideFault::WriteFailed`] where the sink fails, with a first part of the answer.
pub fn answer_step<'a, S: Sink>(
    alloc: Global,
    texts: Texts<'_>,
    schedule: &[u32],
    out: &mut S,
) -> Result<u8, OutsideFault<'a>>
    ensures { IsAnswered (AnswersStep schedule.now (texts_view texts.entry)) (S.state out.old)
        (S.state out.new) result }
{
    let planned = match read_texts(alloc, texts.packages, texts.sources, texts.farm, texts.plan) {
        Ok(planned) => planned,
        Err(first) => return answer_verdict(Err(Refusal::from(first)), out),
    };
    answer_turns(alloc, &planned, schedule, out)
}

/// Answers as [`answer_step`] by the schedule that is the text of a file.
///
/// # Errors
///
/// [`OutsideFault::BadSchedule`] where that text has a word that is no lane of the plan, and
/// nothing is written then; else as those of [`answer_step`].
pub fn answer_step_by<'a, S: Sink>(
    alloc: Global,
    texts: Texts<'_>,
    list: &[u8],
    out: &mut S,
) -> Result<u8, OutsideFault<'a>>
    ensures { IsAnswered (AnswersStepBy list.now (texts_view texts.entry)) (S.state out.old)
        (S.state out.new) result }
{
    let planned = match read_texts(alloc, texts.packages, texts.sources, texts.farm, texts.plan) {
        Ok(planned) => planned,
        Err(first) => return answer_verdict(Err(Refusal::from(first)), out),
    };
    let schedule = read_turns(alloc, &planned.plan, list)?;
    answer_turns(alloc, &planned, &schedule, out)
}
