//! What `status` answers: where a drive stands, by its journal.

ghost use Rattle.std.specs.Prelude.{◌≡◌, IfErr, IfOk, OnErr};
ghost use Rattle.drive_answers.specs.DriveAnswers.{sums_in};
ghost use Rattle.drive_answers.specs.Statuses.{AnswersStatus, IsCoreOf, IsFine, IsWhyNot, TellsFault, TellsPlan, TellsStanding, life_in};
ghost use Rattle.drive_journal.specs.Finding.{finding_in};
ghost use Rattle.drive_replay.specs.Following.{IsReached, life_of};
ghost use Rattle.farm_answers.specs.Answers.{IsAnswered, planned_in};
ghost use Rattle.plan_model.specs.Common.{count, IsPlan, IsSound};
ghost use Rattle.plan_reader.specs.TextsView.{texts_view};

use crate::faults::tell_misfit;
use crate::standing_facts::{Facts, Told};
use crate::standing_json::status_json;
use crate::standing_lines::status_lines;
use crate::standing_times::{Times, open_costs, times_of};
use drive_journal::{Found, Sums, Texts as JournalTexts, find, head_of, run_name_of};
use drive_replay::{Followed, Follower, ReplayFault, follow_to_end};
use drive_run::FIRST_ENTRY;
use farm_answers::{FINE, OUTSIDE, OutsideFault, show_verdict, write_answer};
use farm_universe::Universe;
use plan_reader::{Plan, Planned, Texts, read_texts};
use plan_verifier::{Accepted, Refusal, check};
use report_sink::Sink;
use std::alloc::{AllocError, Global};
use std::thread::Threads;

/// The texts of a drive, the text of its journal, and whether to answer by JSON.
#[derive(Clone, Copy)]
pub struct StatusTexts<'t> {
    pub texts: Texts<'t>,
    pub journal: &'t [u8],
    pub json: bool,
}

/// The digests of the texts.
fn sums_of(alloc: Global, texts: Texts<'_>) -> Result<Sums, AllocError>
    ensures { IfOk result (λ sums. sums ≡ sums_in (texts_view texts.entry)) }
{
    Sums::of(
        alloc,
        JournalTexts {
            packages: texts.packages,
            sources: texts.sources,
            farm: texts.farm,
            plan: texts.plan,
        },
    )
}

/// A journal as it was found, the digests of its texts, and whether to answer by JSON.
#[derive(Clone, Copy)]
struct Kept<'j> {
    sums: &'j Sums,
    found: Found<'j>,
    json: bool,
}

/// The core that has followed a journal, by what is found of it.
fn run_in<'a, 'j>(
    alloc: Global,
    universe: &'a Universe,
    plan: &'a Plan,
    found: Found<'j>,
) -> Result<Followed<'a, 'j>, ReplayFault>
    requires plan { IsPlan universe.now plan.now.lanes }
    requires counted { plan.now.count ≡ count universe.now plan.now.lanes }
    ensures life { IfOk result (λ run. life_in universe.now plan.now (finding_in found.entry)
        ≡ Ok (life_of run.follower)) }
    ensures misfit { IfErr result
        (IsWhyNot (life_in universe.now plan.now (finding_in found.entry))) }
    ensures reached { IfOk result (λ run. IsReached universe.now plan.now run.follower.core) }
{
    match found {
        Found::Fresh => follow_to_end(alloc, universe, plan, b"", FIRST_ENTRY),
        Found::Known { entries, .. } => follow_to_end(alloc, universe, plan, entries, FIRST_ENTRY),
        Found::Misfit(line) => Err(ReplayFault::Misfit(line)),
    }
}

/// The name of the run, if it has begun.
fn name_of(alloc: Global, kept: Kept<'_>) -> Result<Option<Vec<u8>>, AllocError> {
    match kept.found {
        Found::Known { run, .. } => Ok(Some(run_name_of(alloc, kept.sums, run)?)),
        _ => Ok(None),
    }
}

/// The text that says where a run stands, and when it ends, if that is known.
fn standing_text<'x>(
    alloc: Global,
    kept: Kept<'_>,
    universe: &'x Universe,
    plan: &'x Plan,
    facts: &Facts,
    times: Option<&'x Times>,
) -> Result<Vec<u8>, AllocError> {
    let name = name_of(alloc, kept)?;
    let told = Told {
        universe,
        plan,
        name: name.as_deref(),
        times,
    };
    if kept.json {
        status_json(alloc, told, facts)
    } else {
        status_lines(alloc, told, facts)
    }
}

/// Answers with where the run of an accepted plan stands, from which another may go on, and when it
/// ends.
fn answer_timed<'a, S: Sink>(
    alloc: Global,
    accepted: &Accepted,
    run: Follower<'_>,
    next_run: Option<&[u8]>,
    kept: Kept<'_>,
    out: &mut S,
) -> Result<u8, OutsideFault<'a>>
    requires reached { IsCoreOf accepted.now run.core }
    ensures { IsAnswered IsFine (S.state out.old) (S.state out.new) result }
{
    let mut run = run;
    let free = open_costs(alloc, &run)?;
    let facts = Facts::of(alloc, &mut run, next_run)?;
    let times = times_of(alloc, accepted, run.core, &free)?;
    let (universe, plan) = (accepted.universe(), accepted.plan());
    let text = standing_text(alloc, kept, universe, plan, &facts, Some(&times))?;
    write_answer(out, &text, FINE)
}

/// Answers with where the run of a plan stands that is not accepted.
fn answer_untimed<'a, S: Sink>(
    alloc: Global,
    planned: &Planned,
    run: Follower<'_>,
    next_run: Option<&[u8]>,
    kept: Kept<'_>,
    out: &mut S,
) -> Result<u8, OutsideFault<'a>>
    ensures { IsAnswered IsFine (S.state out.old) (S.state out.new) result }
{
    let mut run = run;
    let facts = Facts::of(alloc, &mut run, next_run)?;
    let text = standing_text(alloc, kept, &planned.universe, &planned.plan, &facts, None)?;
    write_answer(out, &text, FINE)
}

/// Tells the error output why a journal is not followed, and gives the status.
fn answer_fault<'a, S: Sink, E: Sink>(
    fault: ReplayFault,
    out: &mut S,
    errors: &mut E,
) -> Result<u8, OutsideFault<'a>>
    ensures told { IsAnswered (TellsFault fault) (S.state out.old) (S.state out.new) result }
    ensures quiet { OnErr result (E.state errors.new ≡ E.state errors.old) }
{
    match fault {
        ReplayFault::Misfit(line) => {
            let status = write_answer(out, b"", OUTSIDE)?;
            let _told = tell_misfit(line, errors);
            Ok(status)
        }
        ReplayFault::Memory => Err(OutsideFault::OutOfMemory),
    }
}

/// Answers with where a drive of an accepted plan stands.
fn answer_accepted<'a, S: Sink, E: Sink>(
    alloc: Global,
    accepted: &Accepted,
    kept: Kept<'_>,
    out: &mut S,
    errors: &mut E,
) -> Result<u8, OutsideFault<'a>>
    ensures told { IsAnswered (TellsPlan accepted.now.universe accepted.now.plan
        (finding_in kept.entry.found)) (S.state out.old) (S.state out.new) result }
    ensures quiet { OnErr result (E.state errors.new ≡ E.state errors.old) }
{
    accepted.keeps();
    match run_in(alloc, accepted.universe(), accepted.plan(), kept.found) {
        Ok(run) => answer_timed(alloc, accepted, run.follower, run.next_run, kept, out),
        Err(fault) => answer_fault(fault, out, errors),
    }
}

/// Answers with where a drive of a plan stands that is not accepted.
fn answer_planned<'a, S: Sink, E: Sink>(
    alloc: Global,
    planned: &Planned,
    kept: Kept<'_>,
    out: &mut S,
    errors: &mut E,
) -> Result<u8, OutsideFault<'a>>
    requires counted { planned.now.plan.count ≡ count planned.now.universe planned.now.plan.lanes }
    requires sound { IsSound planned.now.universe planned.now.plan.lanes }
    ensures told { IsAnswered (TellsPlan planned.now.universe planned.now.plan.lanes
        (finding_in kept.entry.found)) (S.state out.old) (S.state out.new) result }
    ensures quiet { OnErr result (E.state errors.new ≡ E.state errors.old) }
{
    match run_in(alloc, &planned.universe, &planned.plan, kept.found) {
        Ok(run) => answer_untimed(alloc, planned, run.follower, run.next_run, kept, out),
        Err(fault) => answer_fault(fault, out, errors),
    }
}

/// Answers with where a drive of texts stands of which no plan is accepted.
fn answer_unaccepted<'a, S: Sink, E: Sink>(
    alloc: Global,
    texts: Texts<'_>,
    kept: Kept<'_>,
    out: &mut S,
    errors: &mut E,
) -> Result<u8, OutsideFault<'a>>
    ensures told { IsAnswered (TellsStanding kept.entry.json (finding_in kept.entry.found)
        (planned_in (texts_view texts.entry))) (S.state out.old) (S.state out.new) result }
    ensures quiet { OnErr result (E.state errors.new ≡ E.state errors.old) }
{
    match read_texts(alloc, texts.packages, texts.sources, texts.farm, texts.plan) {
        Ok(planned) => answer_planned(alloc, &planned, kept, out, errors),
        Err(fault) => show_verdict(alloc, Err(Refusal::from(fault)), kept.json, out),
    }
}

/// Answers with where a drive of four texts stands, by what its journal is.
fn answer_kept<'a, S: Sink, E: Sink>(
    rt: &(impl Threads + Sync),
    alloc: Global,
    texts: Texts<'_>,
    kept: Kept<'_>,
    out: &mut S,
    errors: &mut E,
) -> Result<u8, OutsideFault<'a>>
    ensures told { IsAnswered (TellsStanding kept.entry.json (finding_in kept.entry.found)
        (planned_in (texts_view texts.entry))) (S.state out.old) (S.state out.new) result }
    ensures quiet { OnErr result (E.state errors.new ≡ E.state errors.old) }
{
    let verdict = check(
        rt,
        alloc,
        texts.packages,
        texts.sources,
        texts.farm,
        texts.plan,
    );
    match verdict {
        Ok(accepted) => answer_accepted(alloc, &accepted, kept, out, errors),
        Err(_) => answer_unaccepted(alloc, texts, kept, out, errors),
    }
}

/// Answers with where a drive of four texts stands, by what its journal has, as JSON or not, and
/// gives the status. When it ends is told of an accepted plan. A journal of other texts, and one that
/// the core cannot follow, is told to the error output, with its first line that does not fit.
///
/// # Errors
///
/// [`OutsideFault::OutOfMemory`] where memory is refused, and nothing is written then; and
/// [`OutsideFault::WriteFailed`] where the sink fails, with a first part of the answer.
pub fn answer_status<'a, S: Sink, E: Sink>(
    rt: &(impl Threads + Sync),
    alloc: Global,
    of: StatusTexts<'_>,
    out: &mut S,
    errors: &mut E,
) -> Result<u8, OutsideFault<'a>>
    ensures told { IsAnswered
        (AnswersStatus of.entry.json of.entry.journal.now (texts_view of.entry.texts))
        (S.state out.old) (S.state out.new) result }
    ensures quiet { OnErr result (E.state errors.new ≡ E.state errors.old) }
{
    let sums = sums_of(alloc, of.texts)?;
    let head = head_of(alloc, &sums)?;
    let kept = Kept {
        sums: &sums,
        found: find(head.as_slice(), of.journal),
        json: of.json,
    };
    answer_kept(rt, alloc, of.texts, kept, out, errors)
}
