//! What is answered where a plan is drafted.

ghost use Rattle.std.specs.Prelude.{◌≡◌, IfErr, IfOk, OnErr};
ghost use Rattle.farm_answers.specs.Answers.{IsAnswered, IsReadFault, UnlessUnread};
ghost use Rattle.farm_commands.specs.Drafts.{AnswersDraft, AnswersLanes, TellsDraft};
ghost use Rattle.farm_answers.specs.Files.{AreCalled, AreFarmCalled, AreFarmFilesRead, OnFarmFiles, OnFiles, named};
ghost use Rattle.farm_commands.specs.View.{farm_in_files};
ghost use Rattle.plan_reader.specs.TextsView.{texts_view};

use command_line::{FarmPaths, Paths};
use draft_plan::{Drafted, Watch, draft_by_number, draft_by_sketch};
use farm_answers::{
    FINE, OUTSIDE, OutsideFault, REFUSED, Source, answer_verdict, read_file, read_files, say,
    write_answer,
};
use plan_reader::Texts;
use plan_verifier::Refusal;
use report_sink::Sink;
use std::alloc::Global;
use std::thread::Threads;

/// The three texts of the files of a farm.
#[derive(Drop)]
struct FarmFiles {
    packages: Vec<u8>,
    sources: Vec<u8>,
    farm: Vec<u8>,
}

impl FarmFiles {
    /// The texts, without a plan.
    fn texts(&self) -> Texts<'_>
        ensures { texts_view result ≡ farm_in_files self.now }
    {
        Texts {
            packages: &self.packages,
            sources: &self.sources,
            farm: &self.farm,
            plan: b"",
        }
    }
}

/// Reads the files of a farm, in the order of their names.
fn read_farm_files<'a, F: Source>(
    alloc: Global,
    source: &F,
    paths: FarmPaths<'a>,
) -> Result<FarmFiles, OutsideFault<'a>>
    ensures read { IfOk result (λ files.
        AreFarmFilesRead (named (F.held source.now) (F.given source.now)) paths.entry
        (farm_in_files files)) }
    ensures fault { IfErr result (IsReadFault (AreFarmCalled paths.entry)) }
{
    Ok(FarmFiles {
        packages: read_file(alloc, source, paths.packages)?,
        sources: read_file(alloc, source, paths.sources)?,
        farm: read_file(alloc, source, paths.farm)?,
    })
}

/// Writes what drafting came to, and gives the status. The error output tells what is left out, and
/// where the program has made a plan that does not stand.
fn tell_drafted<'a, S: Sink, E: Sink>(
    drafted: &Drafted,
    out: &mut S,
    errors: &mut E,
) -> Result<u8, OutsideFault<'a>>
    ensures answer { IsAnswered (TellsDraft drafted.now) (S.state out.old) (S.state out.new)
        result }
    ensures quiet { OnErr result (E.state errors.new ≡ E.state errors.old) }
{
    match drafted {
        Drafted::Plan { text, told, .. } => {
            let status = write_answer(out, text, FINE)?;
            Ok(say(errors, told, status))
        }
        Drafted::Refused(lines) => write_answer(out, lines, REFUSED),
        Drafted::Wrong(fault) => answer_verdict(Err(Refusal::from(*fault)), out),
        Drafted::Failed => {
            let status = write_answer(out, b"", OUTSIDE)?;
            let line = b"portfarm: a plan was drafted that does not stand\n";
            Ok(say(errors, line, status))
        }
    }
}

/// How a plan is drafted by a sketch, which stands in place of the plan.
#[derive(Clone, Copy)]
pub struct BySketch<'a> {
    pub paths: Paths<'a>,
    pub rest: bool,
    pub partial: bool,
}

/// How a plan is drafted by a number of lanes.
#[derive(Clone, Copy)]
pub struct ByNumber<'a> {
    pub paths: FarmPaths<'a>,
    pub lanes: u32,
    pub partial: bool,
}

/// Answers with a plan by the sketch of files, or with why there is none, and gives the status. The
/// source hears how far that has come.
///
/// # Errors
///
/// [`OutsideFault::CannotRead`] for the first file that cannot be read;
/// [`OutsideFault::OutOfMemory`] where memory is refused, and nothing is written then; and
/// [`OutsideFault::WriteFailed`] where the sink fails, with a first part of the answer.
pub fn draft_files<'a, F: Source + Watch, S: Sink, E: Sink>(
    rt: &(impl Threads + Sync),
    alloc: Global,
    source: &F,
    of: BySketch<'a>,
    out: &mut S,
    errors: &mut E,
) -> Result<u8, OutsideFault<'a>>
    ensures answer { UnlessUnread (AreCalled of.entry.paths) (S.state out.new ≡ S.state out.old)
        (IsAnswered (OnFiles (named (F.held source.now) (F.given source.now)) of.entry.paths
        (AnswersDraft of.entry.rest of.entry.partial)) (S.state out.old) (S.state out.new) result)
        result }
    ensures quiet { OnErr result (E.state errors.new ≡ E.state errors.old) }
{
    let files = read_files(alloc, source, of.paths)?;
    let drafted = draft_by_sketch(rt, alloc, files.texts(), of.rest, of.partial, source)?;
    tell_drafted(&drafted, out, errors)
}

/// Answers with a plan of so many lanes over the farm of files, or with why there is none, and
/// gives the status.
///
/// # Errors
///
/// As those of [`draft_files`].
pub fn draft_lanes<'a, F: Source + Watch, S: Sink, E: Sink>(
    rt: &(impl Threads + Sync),
    alloc: Global,
    source: &F,
    of: ByNumber<'a>,
    out: &mut S,
    errors: &mut E,
) -> Result<u8, OutsideFault<'a>>
    ensures answer { UnlessUnread (AreFarmCalled of.entry.paths) (S.state out.new ≡ S.state out.old)
        (IsAnswered (OnFarmFiles (named (F.held source.now) (F.given source.now)) of.entry.paths
        (AnswersLanes of.entry.lanes of.entry.partial)) (S.state out.old) (S.state out.new) result)
        result }
    ensures quiet { OnErr result (E.state errors.new ≡ E.state errors.old) }
{
    let files = read_farm_files(alloc, source, of.paths)?;
    let drafted = draft_by_number(rt, alloc, files.texts(), of.lanes, of.partial, source)?;
    tell_drafted(&drafted, out, errors)
}
