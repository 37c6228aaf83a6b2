//! A drive that is to begin.

ghost use Rattle.std.specs.Prelude.{◌≡◌, [], IfErr, IfOk};
ghost use Rattle.drive_answers.specs.DriveAnswers.{head_in};
ghost use Rattle.drive_journal.specs.HeadText.{head_text};
ghost use Rattle.drive_run.specs.Driven.{IsNotBegun, IsRan};
ghost use Rattle.drive_journal.specs.Resuming.{IsRefused, IsResumed};
ghost use Rattle.plan_reader.specs.TextsView.{texts_view};

use crate::begun::Beginning;
use crate::machine::DriveSource;
use drive_journal::{Journal, JournalFile, Resumed, StoreFault, Texts as DrivenTexts, Unkept};
use drive_run::{Began, Driven, StartFault, Streams, drive};
use plan_reader::Texts;
use plan_verifier::Accepted;
use report_sink::Sink;
use std::alloc::{AllocError, Global};
use std::io::Eprint;
use std::sync::Wait;

/// A drive of texts over a machine.
#[derive(Drop)]
pub struct Setting<'m, 't, R, F> {
    pub rt: &'m R,
    pub alloc: Global,
    pub source: &'m F,
    pub texts: Texts<'t>,
    pub tells: bool,
}

/// A run that begins or goes on, and where its journal goes.
#[derive(Drop)]
pub struct Run<J> {
    pub name: Vec<u8>,
    pub resumed: Resumed,
    pub journal: J,
}

/// The digests of the texts, and the stamp of a new run.
pub fn beginning_of<R, F: DriveSource>(
    setting: &Setting<'_, '_, R, F>,
) -> Result<Beginning, AllocError>
    ensures { IfOk result (λ b. head_text b.sums ≡ head_in (texts_view setting.now.texts)) }
{
    let texts = DrivenTexts {
        packages: setting.texts.packages,
        sources: setting.texts.sources,
        farm: setting.texts.farm,
        plan: setting.texts.plan,
    };
    Beginning::of(setting.alloc, texts, setting.source.nanoseconds())
}

/// The run of a journal.
///
/// # Errors
///
/// Those of [`resume`](drive_journal::resume).
pub fn run_by<J: JournalFile + Drop>(
    alloc: Global,
    beginning: &Beginning,
    journal: J,
) -> Result<Run<J>, StoreFault>
    ensures resumed { IfOk result (λ run. (stamp : _) × (new : _)
        × IsResumed (head_text beginning.now.sums) stamp (J.state journal) new run.resumed) }
    ensures refused { IfErr result (λ fault. (stamp : _) × (new : _)
        × IsRefused (head_text beginning.now.sums) stamp (J.state journal) new fault) }
{
    let mut journal = journal;
    match beginning.by(alloc, &mut journal) {
        Ok(resumed) => match beginning.name(alloc, &resumed) {
            Ok(name) => Ok(Run {
                name,
                resumed,
                journal,
            }),
            Err(AllocError) => Err(StoreFault::Memory),
        },
        Err(fault) => Err(fault),
    }
}

/// A run without a journal.
pub fn run_anew(alloc: Global, beginning: &Beginning) -> Result<Run<Unkept>, AllocError>
    ensures { IfOk result (λ run. run.resumed.entries.items ≡ []) }
{
    let resumed = beginning.anew(alloc)?;
    Ok(Run {
        name: beginning.name(alloc, &resumed)?,
        resumed,
        journal: Unkept,
    })
}

/// What is said to a person who may type the answers.
const TYPED: &str = "\
portfarm: answer each line by `done LANE NUMBER` or `failed LANE NUMBER`; `stop` ends the run
";

/// Says how to answer where a person may type.
fn tell_typed<R: Eprint, F: DriveSource>(setting: &Setting<'_, '_, R, F>) {
    if setting.source.is_typed() {
        let _written = eprint!(setting.rt; "{}", TYPED);
    }
}

/// Carries out a run, and gives what it came to.
///
/// # Errors
///
/// Those of [`drive`].
pub fn carry_out<R: Wait + Eprint, F: DriveSource, J: Journal + Drop, S: Sink>(
    setting: &Setting<'_, '_, R, F>,
    accepted: Accepted,
    run: Run<J>,
    out: &mut S,
) -> Result<Driven, StartFault>
    ensures ran { IfOk result (λ driven. IsRan accepted driven.ran) }
    ensures fault { IfErr result (IsNotBegun accepted run.resumed.entries.items (S.state out.old)
        (S.state out.new)) }
{
    tell_typed(setting);
    let Run {
        name,
        resumed,
        journal,
    } = run;
    let began = Began {
        name: name.as_slice(),
        farm: setting.texts.farm,
        entries: resumed.entries.as_slice(),
        tells: setting.tells,
    };
    let input = setting.source.answers(setting.alloc)?;
    let streams = Streams { input, journal };
    drive(setting.rt, setting.alloc, accepted, began, streams, out)
}
