//! What is answered to a drive.

ghost use Rattle.std.specs.Prelude.{◌≡◌, OnErr};
ghost use Rattle.std.specs.Option.{option_map};
ghost use Rattle.deb_text.specs.Lines.{lines_of};
ghost use Rattle.drive_answers.specs.DriveAnswers.{AnswersDrive, DrivesTo, IsDriveTold, IsMisfitOf, TellsStop, head_in, kept_in};
ghost use Rattle.drive_run.specs.Driven.{IsMisfitIn};
ghost use Rattle.farm_answers.specs.FarmAnswers.{ShowsEnd};
ghost use Rattle.farm_answers.specs.Files.{named};
ghost use Rattle.plan_reader.specs.TextsView.{texts_view};

use crate::faults::{tell_no_run, tell_start};
use crate::kept::{run_kept, run_unkept};
use crate::machine::DriveSource;
use crate::ran::answer_driven;
use crate::setting::{Run, Setting, carry_out};
use command_line::Paths;
use drive_journal::Journal;
use farm_answers::{OutsideFault, answer_verdict, read_files};
use plan_verifier::{Accepted, check};
use report_sink::Sink;
use std::alloc::{AllocError, Global};
use std::io::Eprint;
use std::mem::ManuallyDrop;
use std::sync::Wait;
use std::thread::Threads;

/// The files of the texts of a drive, the name of its journal, and whether it was asked to tell of
/// the run.
#[derive(Clone, Copy)]
pub struct DriveFiles<'a> {
    pub paths: Paths<'a>,
    pub journal: Option<&'a str>,
    pub progress: bool,
}

/// Carries out a run, and answers with what it came to.
fn answer_run<
    'a,
    R: Threads + Wait + Eprint + Sync,
    F: DriveSource,
    J: Journal + Drop,
    S: Sink,
    E: Sink,
>(
    setting: &Setting<'_, '_, R, F>,
    accepted: Accepted,
    run: Run<J>,
    out: &mut S,
    errors: &mut E,
) -> Result<u8, OutsideFault<'a>>
    ensures told { IsDriveTold (ShowsEnd accepted) (TellsStop accepted
        (IsMisfitIn accepted (lines_of run.resumed.entries.items)) (S.state out.old)
        (S.state out.new)) (S.state out.new) (E.state errors.old) (E.state errors.new) result }
    ensures quiet { OnErr result (E.state errors.new ≡ E.state errors.old) }
{
    // The program ends with its answer: what it has run goes with it, and not piece by piece.
    let driven = ManuallyDrop::new(carry_out(setting, accepted, run, out));
    match &*driven {
        Ok(driven) => answer_driven(driven, out, errors),
        Err(fault) => tell_start(*fault, errors),
    }
}

/// Drives by the journal of this name.
fn drive_kept<'a, R: Threads + Wait + Eprint + Sync, F: DriveSource, S: Sink, E: Sink>(
    setting: &Setting<'_, '_, R, F>,
    accepted: Accepted,
    path: &str,
    out: &mut S,
    errors: &mut E,
) -> Result<u8, OutsideFault<'a>>
    ensures told { IsDriveTold (ShowsEnd accepted) (TellsStop accepted
        (IsMisfitOf accepted (head_in (texts_view setting.now.texts))
        (F.kept setting.now.source.now path.now)) (S.state out.old) (S.state out.new))
        (S.state out.new) (E.state errors.old) (E.state errors.new) result }
    ensures quiet { OnErr result (E.state errors.new ≡ E.state errors.old) }
{
    match run_kept(setting, path) {
        Ok(run) => answer_run(setting, accepted, run, out, errors),
        Err(none) => tell_no_run(none, errors),
    }
}

/// Drives without a journal.
fn drive_unkept<'a, R: Threads + Wait + Eprint + Sync, F: DriveSource, S: Sink, E: Sink>(
    setting: &Setting<'_, '_, R, F>,
    accepted: Accepted,
    out: &mut S,
    errors: &mut E,
) -> Result<u8, OutsideFault<'a>>
    ensures told { IsDriveTold (ShowsEnd accepted) (TellsStop accepted (λ _. ⊥) (S.state out.old)
        (S.state out.new)) (S.state out.new) (E.state errors.old) (E.state errors.new) result }
    ensures quiet { OnErr result (E.state errors.new ≡ E.state errors.old) }
{
    match run_unkept(setting) {
        Ok(run) => answer_run(setting, accepted, run, out, errors),
        Err(AllocError) => Err(OutsideFault::OutOfMemory),
    }
}

/// Drives the lanes of an accepted plan, by its journal where it has one.
fn drive_accepted<'a, R: Threads + Wait + Eprint + Sync, F: DriveSource, S: Sink, E: Sink>(
    setting: &Setting<'_, '_, R, F>,
    accepted: Accepted,
    journal: Option<&str>,
    out: &mut S,
    errors: &mut E,
) -> Result<u8, OutsideFault<'a>>
    ensures told { IsDriveTold (ShowsEnd accepted) (TellsStop accepted
        (IsMisfitOf accepted (head_in (texts_view setting.now.texts))
        (kept_in (F.kept setting.now.source.now) (option_map (λ name. name.now) journal.entry)))
        (S.state out.old) (S.state out.new))
        (S.state out.new) (E.state errors.old) (E.state errors.new) result }
    ensures quiet { OnErr result (E.state errors.new ≡ E.state errors.old) }
{
    match journal {
        Some(path) => drive_kept(setting, accepted, path, out, errors),
        None => drive_unkept(setting, accepted, out, errors),
    }
}

/// Drives the lanes of the plan that four texts stand for where it is accepted, else answers with
/// the refusal.
fn answer_drive<'a, R: Threads + Wait + Eprint + Sync, F: DriveSource, S: Sink, E: Sink>(
    setting: &Setting<'_, '_, R, F>,
    journal: Option<&str>,
    out: &mut S,
    errors: &mut E,
) -> Result<u8, OutsideFault<'a>>
    ensures told { AnswersDrive (texts_view setting.now.texts)
        (kept_in (F.kept setting.now.source.now) (option_map (λ name. name.now) journal.entry))
        (S.state out.old) (S.state out.new) (E.state errors.old) (E.state errors.new) result }
    ensures quiet { OnErr result (E.state errors.new ≡ E.state errors.old) }
{
    let texts = setting.texts;
    let verdict = check(
        setting.rt,
        setting.alloc,
        texts.packages,
        texts.sources,
        texts.farm,
        texts.plan,
    );
    match verdict {
        Ok(accepted) => drive_accepted(setting, accepted, journal, out, errors),
        Err(refusal) => answer_verdict(Err(refusal), out),
    }
}

/// Drives the lanes of the plan of files: a driver that reads the output and writes the input of
/// the machine does what they are to do, and the journal, where one is named, keeps what is done.
/// Gives the status: 0 where all lanes have come to their ends, 1 for a refusal, and 3 where the
/// run has stopped, or has not begun, which the error output is told.
///
/// # Errors
///
/// Those of [`read_files`]; [`OutsideFault::OutOfMemory`] where memory is refused; and
/// [`OutsideFault::WriteFailed`] where the output fails behind the run's end.
pub fn drive_files<'a, 'm, R: Threads + Wait + Eprint + Sync, F: DriveSource, S: Sink, E: Sink>(
    rt: &'m R,
    alloc: Global,
    source: &'m F,
    of: DriveFiles<'a>,
    out: &mut S,
    errors: &mut E,
) -> Result<u8, OutsideFault<'a>>
    ensures told { DrivesTo (named (F.held source.now) (F.given source.now))
        (kept_in (F.kept source.now) (option_map (λ name. name.now) of.entry.journal))
        of.entry.paths (S.state out.old) (S.state out.new) (E.state errors.old)
        (E.state errors.new) result }
    ensures quiet { OnErr result (E.state errors.new ≡ E.state errors.old) }
{
    let files = read_files(alloc, source, of.paths)?;
    let setting = Setting {
        rt,
        alloc,
        source,
        texts: files.texts(),
        tells: of.progress || source.is_watched(),
    };
    answer_drive(&setting, of.journal, out, errors)
}
