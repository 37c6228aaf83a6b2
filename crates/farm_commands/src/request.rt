//! What is answered to a request.

ghost use Rattle.std.specs.Prelude.{OnErr, ◌≡◌};
ghost use Rattle.farm_answers.specs.Answers.{AnswersCheck, AnswersListing, AnswersStep, AnswersStepBy, IsAnswered, UnlessUnread};
ghost use Rattle.farm_answers.specs.CertAnswers.{AnswersCert, AnswersVerifyCert, IsCertAnswered};
ghost use Rattle.drive_answers.specs.Statuses.{AnswersStatus};
ghost use Rattle.explain_answers.specs.CertExplained.{AnswersExplainCert};
ghost use Rattle.explain_answers.specs.Explanations.{AnswersExplain};
ghost use Rattle.farm_commands.specs.Needs.{AnswersNeeds};
ghost use Rattle.farm_commands.specs.Pictures.{AnswersGraph, AnswersTimeline, is_json};
ghost use Rattle.plan_reader.specs.TextsView.{texts_view};
ghost use Rattle.farm_answers.specs.Files.{AreCalled, AreCalledWith, IsInputName, OnFiles, OnFilesAndOne, named};
ghost use Rattle.farm_commands.specs.Requests as spec;
ghost use Rattle.farm_commands.specs.Requests.{IsRequestAnswered, IsRequestMet, OnInput};

use crate::{
    ByNumber, BySketch, NeedsShape, Shape, Watch, answer_graph, answer_needs, answer_timeline,
    draft_files, draft_lanes,
};
use command_line::{Paths, Request};
use drive_answers::{StatusTexts, answer_status};
use explain_answers::{answer_explain, answer_explain_cert};
use farm_answers::{
    OutsideFault, Source, answer_cert, answer_check, answer_list, answer_numbered, answer_step,
    answer_step_by, answer_verify_cert, read_file, read_files, read_input, say_none,
};
use plan_reader::{Texts, texts_of};
use report_sink::Sink;
use std::alloc::Global;
use std::thread::Threads;

/// The verdict on standard input.
fn check_input<'a, F: Source, S: Sink>(
    rt: &(impl Threads + Sync),
    alloc: Global,
    source: &F,
    out: &mut S,
) -> Result<u8, OutsideFault<'a>>
    ensures { UnlessUnread IsInputName (S.state out.new ≡ S.state out.old)
        (IsAnswered (OnInput (F.given source.now)) (S.state out.old) (S.state out.new) result)
        result }
{
    let input = read_input(alloc, source)?;
    answer_check(rt, alloc, texts_of(&input), false, out)
}

/// The verdict on the texts of files, as JSON or not.
fn check_files<'a, F: Source, S: Sink>(
    rt: &(impl Threads + Sync),
    alloc: Global,
    source: &F,
    paths: Paths<'a>,
    json: bool,
    out: &mut S,
) -> Result<u8, OutsideFault<'a>>
    ensures { UnlessUnread (AreCalled paths.entry) (S.state out.new ≡ S.state out.old)
        (IsAnswered
        (OnFiles (named (F.held source.now) (F.given source.now)) paths.entry (AnswersCheck json))
        (S.state out.old) (S.state out.new) result) result }
{
    let files = read_files(alloc, source, paths)?;
    answer_check(rt, alloc, files.texts(), json, out)
}

/// The verdict on the texts of files, and why it is one, as JSON or not.
fn explain_files<'a, F: Source, S: Sink>(
    rt: &(impl Threads + Sync),
    alloc: Global,
    source: &F,
    paths: Paths<'a>,
    json: bool,
    out: &mut S,
) -> Result<u8, OutsideFault<'a>>
    ensures { UnlessUnread (AreCalled paths.entry) (S.state out.new ≡ S.state out.old)
        (IsAnswered
        (OnFiles (named (F.held source.now) (F.given source.now)) paths.entry (AnswersExplain json))
        (S.state out.old) (S.state out.new) result) result }
{
    let files = read_files(alloc, source, paths)?;
    answer_explain(rt, alloc, files.texts(), json, out)
}

/// The verdict on a certificate of the plan of files, and why it is one. It is read behind these.
fn explain_cert_files<'a, F: Source, S: Sink>(
    rt: &(impl Threads + Sync),
    alloc: Global,
    source: &F,
    paths: Paths<'a>,
    cert: &'a str,
    out: &mut S,
) -> Result<u8, OutsideFault<'a>>
    ensures { UnlessUnread (AreCalledWith paths.entry cert.entry.now)
        (S.state out.new ≡ S.state out.old)
        (IsAnswered (OnFilesAndOne (named (F.held source.now) (F.given source.now)) paths.entry
        cert.entry.now AnswersExplainCert) (S.state out.old) (S.state out.new) result) result }
{
    let files = read_files(alloc, source, paths)?;
    let read = read_file(alloc, source, cert)?;
    answer_explain_cert(rt, alloc, files.texts(), &read, out)
}

/// The listing of a plan, with numbers or without.
fn answer_listing<'a, S: Sink>(
    alloc: Global,
    texts: Texts<'_>,
    number: bool,
    out: &mut S,
) -> Result<u8, OutsideFault<'a>>
    ensures { IsAnswered (AnswersListing number (texts_view texts.entry))
        (S.state out.old) (S.state out.new) result }
{
    if number {
        answer_numbered(alloc, texts, out)
    } else {
        answer_list(alloc, texts, out)
    }
}

/// The listing of the plan of files.
fn list_files<'a, F: Source, S: Sink>(
    alloc: Global,
    source: &F,
    paths: Paths<'a>,
    number: bool,
    out: &mut S,
) -> Result<u8, OutsideFault<'a>>
    ensures { UnlessUnread (AreCalled paths.entry) (S.state out.new ≡ S.state out.old)
        (IsAnswered
        (OnFiles (named (F.held source.now) (F.given source.now)) paths.entry
        (AnswersListing number))
        (S.state out.old) (S.state out.new) result) result }
{
    let files = read_files(alloc, source, paths)?;
    answer_listing(alloc, files.texts(), number, out)
}

/// The certificate of the plan of files.
fn cert_files<'a, F: Source, S: Sink, E: Sink>(
    rt: &(impl Threads + Sync),
    alloc: Global,
    source: &F,
    paths: Paths<'a>,
    out: &mut S,
    errors: &mut E,
) -> Result<u8, OutsideFault<'a>>
    ensures answer { UnlessUnread (AreCalled paths.entry) (S.state out.new ≡ S.state out.old)
        (IsCertAnswered
        (OnFiles (named (F.held source.now) (F.given source.now)) paths.entry AnswersCert)
        (S.state out.old) (S.state out.new) result) result }
    ensures quiet { OnErr result (E.state errors.new ≡ E.state errors.old) }
{
    let files = read_files(alloc, source, paths)?;
    answer_cert(rt, alloc, files.texts(), out, errors)
}

/// The verdict on a certificate of the plan of files, which is read behind these.
fn verify_files<'a, F: Source, S: Sink>(
    rt: &(impl Threads + Sync),
    alloc: Global,
    source: &F,
    paths: Paths<'a>,
    cert: &'a str,
    out: &mut S,
) -> Result<u8, OutsideFault<'a>>
    ensures { UnlessUnread (AreCalledWith paths.entry cert.entry.now)
        (S.state out.new ≡ S.state out.old)
        (IsAnswered (OnFilesAndOne (named (F.held source.now) (F.given source.now)) paths.entry
        cert.entry.now AnswersVerifyCert) (S.state out.old) (S.state out.new) result) result }
{
    let files = read_files(alloc, source, paths)?;
    let read = read_file(alloc, source, cert)?;
    answer_verify_cert(rt, alloc, files.texts(), &read, out)
}

/// What a schedule comes to over the plan of files.
fn step_files<'a, F: Source, S: Sink>(
    alloc: Global,
    source: &F,
    paths: Paths<'a>,
    schedule: &[u32],
    out: &mut S,
) -> Result<u8, OutsideFault<'a>>
    ensures { UnlessUnread (AreCalled paths.entry) (S.state out.new ≡ S.state out.old)
        (IsAnswered
        (OnFiles (named (F.held source.now) (F.given source.now)) paths.entry
        (AnswersStep schedule.now))
        (S.state out.old) (S.state out.new) result) result }
{
    let files = read_files(alloc, source, paths)?;
    answer_step(alloc, files.texts(), schedule, out)
}

/// What the schedule of a file comes to over the plan of files; it is read behind these.
fn step_by_files<'a, F: Source, S: Sink>(
    alloc: Global,
    source: &F,
    paths: Paths<'a>,
    list: &'a str,
    out: &mut S,
) -> Result<u8, OutsideFault<'a>>
    ensures { UnlessUnread (AreCalledWith paths.entry list.entry.now)
        (S.state out.new ≡ S.state out.old)
        (IsAnswered (OnFilesAndOne (named (F.held source.now) (F.given source.now)) paths.entry
        list.entry.now AnswersStepBy) (S.state out.old) (S.state out.new) result) result }
{
    let files = read_files(alloc, source, paths)?;
    let read = read_file(alloc, source, list)?;
    answer_step_by(alloc, files.texts(), &read, out)
}

/// The timed run of the plan of files.
fn timeline_files<'a, F: Source, S: Sink>(
    rt: &(impl Threads + Sync),
    alloc: Global,
    source: &F,
    paths: Paths<'a>,
    shape: Shape,
    out: &mut S,
) -> Result<u8, OutsideFault<'a>>
    ensures { UnlessUnread (AreCalled paths.entry) (S.state out.new ≡ S.state out.old)
        (IsAnswered
        (OnFiles (named (F.held source.now) (F.given source.now)) paths.entry
        (AnswersTimeline (is_json shape.form)))
        (S.state out.old) (S.state out.new) result) result }
{
    let files = read_files(alloc, source, paths)?;
    answer_timeline(rt, alloc, files.texts(), shape, out)
}

/// The plan of files as a graph.
fn graph_files<'a, F: Source, S: Sink>(
    rt: &(impl Threads + Sync),
    alloc: Global,
    source: &F,
    paths: Paths<'a>,
    json: bool,
    out: &mut S,
) -> Result<u8, OutsideFault<'a>>
    ensures { UnlessUnread (AreCalled paths.entry) (S.state out.new ≡ S.state out.old)
        (IsAnswered
        (OnFiles (named (F.held source.now) (F.given source.now)) paths.entry (AnswersGraph json))
        (S.state out.old) (S.state out.new) result) result }
{
    let files = read_files(alloc, source, paths)?;
    answer_graph(rt, alloc, files.texts(), json, out)
}

/// Which build of the plan of files needs which.
fn needs_files<'a, F: Source, S: Sink>(
    rt: &(impl Threads + Sync),
    alloc: Global,
    source: &F,
    paths: Paths<'a>,
    shape: NeedsShape<'_>,
    out: &mut S,
) -> Result<u8, OutsideFault<'a>>
    ensures { UnlessUnread (AreCalled paths.entry) (S.state out.new ≡ S.state out.old)
        (IsAnswered
        (OnFiles (named (F.held source.now) (F.given source.now)) paths.entry
        (AnswersNeeds shape.entry.json shape.entry.recipes.now))
        (S.state out.old) (S.state out.new) result) result }
{
    let files = read_files(alloc, source, paths)?;
    answer_needs(rt, alloc, files.texts(), shape, out)
}

/// The files of a drive: those of its texts, and its journal; and whether to answer by JSON.
#[derive(Clone, Copy)]
struct StatusFiles<'a> {
    paths: Paths<'a>,
    journal: &'a str,
    json: bool,
}

/// Where a drive of the plan of files stands, by its journal, which is read after these.
fn status_files<'a, F: Source, S: Sink, E: Sink>(
    rt: &(impl Threads + Sync),
    alloc: Global,
    source: &F,
    of: StatusFiles<'a>,
    out: &mut S,
    errors: &mut E,
) -> Result<u8, OutsideFault<'a>>
    ensures answer { UnlessUnread (AreCalledWith of.entry.paths of.entry.journal.now)
        (S.state out.new ≡ S.state out.old)
        (IsAnswered (OnFilesAndOne (named (F.held source.now) (F.given source.now)) of.entry.paths
        of.entry.journal.now (AnswersStatus of.entry.json)) (S.state out.old) (S.state out.new)
        result) result }
    ensures quiet { OnErr result (E.state errors.new ≡ E.state errors.old) }
{
    let files = read_files(alloc, source, of.paths)?;
    let read = read_file(alloc, source, of.journal)?;
    let of = StatusTexts {
        texts: files.texts(),
        journal: &read,
        json: of.json,
    };
    answer_status(rt, alloc, of, out, errors)
}

/// Tells whether a verdict or its explanation is asked for as JSON.
fn asks_json(request: &Request<'_>) -> bool
    ensures { result ≡ spec.asks_json request.now }
{
    match request {
        Request::Check { json, .. } => *json,
        Request::Explain { json, .. } => *json,
        _ => false,
    }
}

/// Answers to a request, but for what JSON says where there is no verdict.
fn answer_asked<'a, F: Source + Watch, S: Sink, E: Sink>(
    rt: &(impl Threads + Sync),
    alloc: Global,
    request: Request<'a>,
    source: &F,
    out: &mut S,
    errors: &mut E,
) -> Result<u8, OutsideFault<'a>>
    ensures answer { IsRequestMet (F.held source.now) (F.given source.now) request.entry
        (S.state out.old) (S.state out.new) result }
    ensures quiet { OnErr result (E.state errors.new ≡ E.state errors.old) }
{
    match request {
        Request::CheckInput => check_input(rt, alloc, source, out),
        Request::Check { paths, json } => check_files(rt, alloc, source, paths, json, out),
        Request::Explain { paths, json } => explain_files(rt, alloc, source, paths, json, out),
        Request::ExplainCert { cert, paths } => {
            explain_cert_files(rt, alloc, source, paths, cert, out)
        }
        Request::List { paths, number } => list_files(alloc, source, paths, number, out),
        Request::Cert(paths) => cert_files(rt, alloc, source, paths, out, errors),
        Request::VerifyCert { cert, paths } => { verify_files(rt, alloc, source, paths, cert, out) }
        Request::Step { schedule, paths } => step_files(alloc, source, paths, &schedule, out),
        Request::StepBy { list, paths } => step_by_files(alloc, source, paths, list, out),
        Request::Timeline { paths, form, full } => {
            timeline_files(rt, alloc, source, paths, Shape { form, full }, out)
        }
        Request::Graph { paths, json } => graph_files(rt, alloc, source, paths, json, out),
        Request::Needs {
            recipes,
            paths,
            json,
        } => {
            let shape = NeedsShape {
                recipes: &recipes,
                json,
            };
            needs_files(rt, alloc, source, paths, shape, out)
        }
        Request::Status {
            journal,
            paths,
            json,
        } => {
            let of = StatusFiles {
                paths,
                journal,
                json,
            };
            status_files(rt, alloc, source, of, out, errors)
        }
        Request::Draft {
            paths,
            rest,
            partial,
        } => {
            let of = BySketch {
                paths,
                rest,
                partial,
            };
            draft_files(rt, alloc, source, of, out, errors)
        }
        Request::DraftLanes {
            paths,
            lanes,
            partial,
        } => {
            let of = ByNumber {
                paths,
                lanes,
                partial,
            };
            draft_lanes(rt, alloc, source, of, out, errors)
        }
    }
}

/// Reads the texts that a request is about, all before the first is looked at, writes the answer to
/// them, and gives its status: 0, or 1 for a refusal or a trap. The error output says where a
/// certificate is longer than a text may be.
///
/// # Errors
///
/// [`OutsideFault::CannotRead`] where a file or standard input cannot be read, the first of them in
/// the order of the words, and [`OutsideFault::OutOfMemory`] where memory is refused: that is written
/// alone where a verdict is asked for as JSON, and else nothing. [`OutsideFault::BadSchedule`] where a
/// file of lanes has a word that is no lane of the plan: nothing is written then.
/// [`OutsideFault::CutShort`] where memory is refused while a verdict is explained, and the verdict is
/// written then, or while a certificate is written, with a first part of it. And
/// [`OutsideFault::WriteFailed`] where the sink fails, with a first part of the answer.
pub fn answer_request<'a, F: Source + Watch, S: Sink, E: Sink>(
    rt: &(impl Threads + Sync),
    alloc: Global,
    request: Request<'a>,
    source: &F,
    out: &mut S,
    errors: &mut E,
) -> Result<u8, OutsideFault<'a>>
    ensures answer { IsRequestAnswered (F.held source.now) (F.given source.now) request.entry
        (S.state out.old) (S.state out.new) result }
    ensures quiet { OnErr result (E.state errors.new ≡ E.state errors.old) }
{
    let json = asks_json(&request);
    let told = answer_asked(rt, alloc, request, source, out, errors);
    say_none(json, &told, out);
    told
}
