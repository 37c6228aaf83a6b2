//! What is answered to a drive whose lanes have run.

ghost use Rattle.std.specs.Prelude.{◌≡◌, OnErr};
ghost use Rattle.drive_answers.specs.DriveAnswers.{IsDriveTold, TellsLane, TellsRan};
ghost use Rattle.drive_run.specs.Driven.{IsRan};
ghost use Rattle.farm_answers.specs.FarmAnswers.{ShowsEnd};
ghost use Rattle.farm_answers.specs.declared.status.TheConstants.{OUTSIDE};
ghost use Rattle.farm_executor.specs.FarmRuns.{IsStoppedRun};
ghost use Rattle.report_sink.specs.Sinks.{IsWritten};

use crate::faults::{tell_outside, tell_stop};
use drive_run::Driven;
use farm_answers::{OutsideFault, answer_end};
use farm_executor::{FarmRun, RunFault};
use plan_verifier::Accepted;
use report_sink::Sink;

/// Tells of the lane of this number, which is the cause of a stop, and gives the status.
fn tell_stopped<E: Sink>(code: u16, accepted: &Accepted, lane: u32, errors: &mut E) -> u8
    requires { (ends : _) × IsStoppedRun accepted.now (Unit {0}) ends code lane }
    ensures status { result ≡ OUTSIDE }
    ensures line { (line : _) × TellsLane accepted.now line
        × IsWritten (E.state errors.old) (E.state errors.new) line }
{
    tell_stop(code, accepted.plan().lane(lane as usize).name(), errors)
}

/// Answers with what the lanes came to.
fn answer_ran<'a, S: Sink, E: Sink>(
    ran: &Result<FarmRun, RunFault>,
    out: &mut S,
    errors: &mut E,
) -> Result<u8, OutsideFault<'a>>
    requires { (a : _) × IsRan a ran.now }
    ensures told { (a : _) → IsRan a ran.now → IsDriveTold (ShowsEnd a) (TellsLane a)
        (S.state out.new) (E.state errors.old) (E.state errors.new) result }
    ensures quiet { OnErr result (E.state errors.new ≡ E.state errors.old) }
{
    match ran {
        Ok(run) => answer_end(run, out),
        Err(
            RunFault::Stopped {
                code,
                lane,
                accepted,
                ..
            },
        ) => Ok(tell_stopped(*code, accepted, *lane, errors)),
        Err(RunFault::Memory) => Err(OutsideFault::OutOfMemory),
    }
}

/// Answers with what a drive came to: its end, or why it has none, which the error output is told.
///
/// # Errors
///
/// [`OutsideFault::OutOfMemory`] where memory was refused, and [`OutsideFault::WriteFailed`] where
/// the output fails behind the run's end.
pub fn answer_driven<'a, S: Sink, E: Sink>(
    driven: &Driven,
    out: &mut S,
    errors: &mut E,
) -> Result<u8, OutsideFault<'a>>
    requires { (a : _) × IsRan a driven.now.ran }
    ensures told { (a : _) → IsRan a driven.now.ran → IsDriveTold (ShowsEnd a) (TellsRan a)
        (S.state out.new) (E.state errors.old) (E.state errors.new) result }
    ensures quiet { OnErr result (E.state errors.new ≡ E.state errors.old) }
{
    match driven.fault {
        Some(fault) => Ok(tell_outside(fault, errors)),
        None => answer_ran(&driven.ran, out, errors),
    }
}
