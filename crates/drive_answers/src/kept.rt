//! Runs that go on by a journal, or have none.

ghost use Rattle.std.specs.Prelude.{◌≡◌, [], IfErr, IfOk};
ghost use Rattle.drive_answers.specs.DriveAnswers.{head_in};
ghost use Rattle.drive_answers.specs.KeptRuns.{IsKeptRun, IsWhyNone};
ghost use Rattle.plan_reader.specs.TextsView.{texts_view};

use crate::machine::DriveSource;
use crate::setting::{Run, Setting, beginning_of, run_anew, run_by};
use drive_journal::{OpenFault, StoreFault, Unkept};
use std::alloc::AllocError;

/// Why there is no run by a journal.
#[derive(Clone, Copy)]
pub enum NoRun {
    /// It is not opened.
    Unopened(OpenFault),
    /// No run goes on by what it has, or memory ran out.
    Unkept(StoreFault),
}

/// The run of the journal of this name.
///
/// # Errors
///
/// [`NoRun`].
pub fn run_kept<R, F: DriveSource>(
    setting: &Setting<'_, '_, R, F>,
    path: &str,
) -> Result<Run<F::Journal>, NoRun>
    ensures run { IfOk result (λ run. IsKeptRun (head_in (texts_view setting.now.texts))
        (F.kept setting.now.source.now path.now) run.resumed) }
    ensures none { IfErr result (IsWhyNone (head_in (texts_view setting.now.texts))
        (F.kept setting.now.source.now path.now)) }
{
    let beginning = match beginning_of(setting) {
        Ok(beginning) => beginning,
        Err(AllocError) => return Err(NoRun::Unkept(StoreFault::Memory)),
    };
    match setting.source.open_journal(path) {
        Ok(journal) => match run_by(setting.alloc, &beginning, journal) {
            Ok(run) => Ok(run),
            Err(fault) => Err(NoRun::Unkept(fault)),
        },
        Err(fault) => Err(NoRun::Unopened(fault)),
    }
}

/// The run that has no journal.
pub fn run_unkept<R, F: DriveSource>(
    setting: &Setting<'_, '_, R, F>,
) -> Result<Run<Unkept>, AllocError>
    ensures { IfOk result (λ run. run.resumed.entries.items ≡ []) }
{
    let beginning = beginning_of(setting)?;
    run_anew(setting.alloc, &beginning)
}
