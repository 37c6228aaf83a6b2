//! What is answered to a run of the farm.

ghost use Rattle.std.specs.Prelude.{◌≡◌, OnErr};
ghost use Rattle.farm_answers.specs.Answers.{IsAnswered};
ghost use Rattle.farm_answers.specs.FarmAnswers.{AnswersRun, ComesToEnd, RunsTo, ShowsEnd, StopsRun, TellsStop, stopped_line};
ghost use Rattle.farm_answers.specs.Files.{named};
ghost use Rattle.farm_executor.specs.FarmRuns.{IsFarmRun, IsStoppedRun};
ghost use Rattle.plan_reader.specs.TextsView.{texts_view};
ghost use Rattle.report_sink.specs.Sinks.{IsWritten};

use crate::answers::{answer_verdict, status_of};
use crate::fault::OutsideFault;
use crate::files::read_files;
use crate::source::Source;
use crate::status::OUTSIDE;
use command_line::Paths;
use farm_executor::{Bell, FarmRun, RunFault, Teller, run_farm};
use farm_report::write_run;
use plan_reader::Texts;
use plan_verifier::{Accepted, check};
use report_sink::{Sink, write_pieces};
use std::alloc::Global;
use std::io::Eprint;
use std::mem::ManuallyDrop;
use std::sync::Wait;
use std::thread::Threads;

/// Writes a run in which all lanes came to their ends, and gives the status.
///
/// # Errors
///
/// [`OutsideFault::WriteFailed`] where the sink fails, with a first part of the answer.
pub fn answer_end<'a, S: Sink>(run: &FarmRun, out: &mut S) -> Result<u8, OutsideFault<'a>>
    requires { IsFarmRun run.now.accepted run.now.chroots.items run.now.spent.items
        run.now.history.items }
    ensures { IsAnswered (ShowsEnd run.now.accepted) (S.state out.old) (S.state out.new) result }
{
    write_run(
        out,
        run.accepted.universe(),
        run.accepted.plan(),
        &run.chroots,
        &run.spent,
        &run.history,
    )?;
    Ok(status_of(true))
}

/// Says on the error output which lane could not be started, and gives the status.
fn tell_stop<E: Sink>(name: &[u8], errors: &mut E) -> u8
    ensures status { result ≡ OUTSIDE }
    ensures line { IsWritten (E.state errors.old) (E.state errors.new) (stopped_line name.now) }
{
    let head: &[u8] = b"portfarm: stopped 503 lane ";
    let _written = write_pieces(errors, &[head, name, b"\n"]);
    OUTSIDE
}

/// Tells of the lane of this number, which could not be started.
fn tell_stopped<E: Sink>(accepted: &Accepted, lane: u32, errors: &mut E) -> u8
    requires { (code : _) × (ends : _) × IsStoppedRun accepted.now ⊥ ends code lane }
    ensures status { result ≡ OUTSIDE }
    ensures line { (line : _) × TellsStop accepted.now line
        × IsWritten (E.state errors.old) (E.state errors.new) line }
{
    tell_stop(accepted.plan().lane(lane as usize).name(), errors)
}

/// Runs the lanes of an accepted plan, and answers with what has come of it.
fn run_accepted<'a, R: Threads + Wait + Eprint + Sync, S: Sink, E: Sink>(
    rt: &R,
    alloc: Global,
    accepted: Accepted,
    tells: bool,
    out: &mut S,
    errors: &mut E,
) -> Result<u8, OutsideFault<'a>>
    ensures end { ComesToEnd (ShowsEnd accepted) (TellsStop accepted) (S.state out.old)
        (S.state out.new) (E.state errors.old) (E.state errors.new) result }
    ensures quiet { OnErr result (E.state errors.new ≡ E.state errors.old) }
{
    // The program ends with its answer: what it has run goes with it, and not piece by piece.
    let accepted = ManuallyDrop::new(accepted);
    let bell = Bell::new(rt, alloc, accepted.plan().lanes())?;
    let gate = ManuallyDrop::new(Teller::new(rt, alloc, accepted.plan(), bell, tells)?);
    let ran = ManuallyDrop::new(run_farm(rt, alloc, ManuallyDrop::into_inner(accepted), &*gate));
    match &*ran {
        Ok(run) => answer_end(run, out),
        Err(RunFault::Stopped { lane, accepted, .. }) => Ok(tell_stopped(accepted, *lane, errors)),
        Err(RunFault::Memory) => Err(OutsideFault::OutOfMemory),
    }
}

/// Runs the lanes of the plan that four texts stand for where it is accepted, each in a thread of
/// its own, and answers with what has come of it, else with the refusal; and gives the status. A
/// lane that cannot be started is told on the error output, with status 3: nothing is written to
/// the output then, and all lanes that were started have ended. Where `tells` is set, the error
/// output of the machine is told meanwhile of each publication and of each lane that begins to
/// wait.
///
/// # Errors
///
/// [`OutsideFault::OutOfMemory`] where memory is refused, and nothing is written then; and
/// [`OutsideFault::WriteFailed`] where the sink fails, with a first part of the answer.
pub fn answer_run<'a, R: Threads + Wait + Eprint + Sync, S: Sink, E: Sink>(
    rt: &R,
    alloc: Global,
    texts: Texts<'_>,
    tells: bool,
    out: &mut S,
    errors: &mut E,
) -> Result<u8, OutsideFault<'a>>
    ensures end { ComesToEnd (AnswersRun (texts_view texts.entry))
        (StopsRun (texts_view texts.entry))
        (S.state out.old) (S.state out.new) (E.state errors.old) (E.state errors.new) result }
    ensures quiet { OnErr result (E.state errors.new ≡ E.state errors.old) }
{
    let verdict = check(
        rt,
        alloc,
        texts.packages,
        texts.sources,
        texts.farm,
        texts.plan,
    );
    match verdict {
        Ok(accepted) => run_accepted(rt, alloc, accepted, tells, out, errors),
        Err(refusal) => answer_verdict(Err(refusal), out),
    }
}

/// The files of the texts of a run, and whether it was asked to tell of the run.
#[derive(Clone, Copy)]
pub struct RunFiles<'a> {
    pub paths: Paths<'a>,
    pub progress: bool,
}

/// Runs the lanes of the plan of files.
///
/// # Errors
///
/// Those of [`read_files`] and of [`answer_run`].
pub fn run_files<'a, R: Threads + Wait + Eprint + Sync, F: Source, S: Sink, E: Sink>(
    rt: &R,
    alloc: Global,
    source: &F,
    of: RunFiles<'a>,
    out: &mut S,
    errors: &mut E,
) -> Result<u8, OutsideFault<'a>>
    ensures end { RunsTo (named (F.held source.now) (F.given source.now)) of.entry.paths
        (S.state out.old) (S.state out.new) (E.state errors.old) (E.state errors.new) result }
    ensures quiet { OnErr result (E.state errors.new ≡ E.state errors.old) }
{
    let files = read_files(alloc, source, of.paths)?;
    let tells = of.progress || source.is_watched();
    answer_run(rt, alloc, files.texts(), tells, out, errors)
}
