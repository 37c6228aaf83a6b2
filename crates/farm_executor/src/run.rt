//! A whole run: each lane of an accepted plan, in a thread of its own.

ghost use Rattle.std.specs.Prelude.{◌≡◌, ◌<◌, ◌^◌, IfErr, IfOk, length};
ghost use Rattle.farm_executor.specs.FarmRuns.{IsFarmRun, IsFault, IsToldOf};
ghost use Rattle.farm_executor.specs.Ends.{HaveEnded};
ghost use Rattle.farm_executor.specs.Played.{IsPlayed};

use crate::causes::cause;
use crate::outcomes::{Outcomes, run_seats};
use chroot_state::Chroot;
use farm_archive::Publication;
use lane_runner::{Gate, LaneStop};
use plan_verifier::Accepted;
use std::alloc::{AllocError, Global};
use std::sync::Wait;
use std::thread::Threads;
use word_archive::SharedArchive;

/// A run that came to its end: of each lane, in file order, its chroot and the steps that it has
/// spent; and what was published, by serial.
#[derive(Drop)]
pub struct FarmRun {
    pub accepted: Accepted,
    pub chroots: Vec<Chroot>,
    pub spent: Vec<u64>,
    pub history: Vec<Publication>,
}

/// Why a run has no end.
#[derive(Drop)]
pub enum RunFault {
    /// The run stopped: a lane could not be started ([`NOT_STARTED`](crate::NOT_STARTED)), or its
    /// gate gave up ([`GAVE_UP`](lane_runner::GAVE_UP)). `lane` is the first lane of that code, in
    /// file order, and `ends` has the ends of all lanes.
    Stopped {
        code: u16,
        lane: u32,
        ends: Vec<LaneStop>,
        accepted: Accepted,
    },
    /// Memory was refused.
    Memory,
}

/// What was played: how the lanes ended, and what was published, by serial.
#[derive(Drop)]
pub struct Played {
    pub outcomes: Outcomes,
    pub history: Vec<Publication>,
}

/// Opens the archive of the plan, runs its lanes, and closes the archive.
fn run_archive<R: Threads + Wait + Sync, G: Gate + Sync>(
    rt: &R,
    alloc: Global,
    accepted: &Accepted,
    gate: &G,
) -> Result<Played, AllocError>
    ensures { IfOk result (λ p. IsPlayed accepted.now (G.may_give_up gate.now)
        p.outcomes.stops.items p.outcomes.chroots.items p.outcomes.spent.items p.history.items) }
{
    let (archive, seats) = SharedArchive::open(alloc, accepted)?;
    let (outcomes, seats) = run_seats(rt, alloc, accepted, gate, &archive, seats)?;
    let closed = archive.close(alloc, seats)?;
    Ok(Played {
        outcomes,
        history: closed.history,
    })
}

/// Tells what was played: an end, or a cause.
pub fn told(accepted: Accepted, played: Played) -> Result<FarmRun, RunFault>
    requires few { length played.outcomes.stops.items < 2 ^ 32 }
    ensures ended { IfOk result (λ run. (run.accepted ≡ accepted)
        × HaveEnded played.outcomes.stops.items × (run.chroots ≡ played.outcomes.chroots)
        × (run.spent ≡ played.outcomes.spent) × (run.history ≡ played.history)) }
    ensures stopped { IfErr result (IsToldOf accepted played.outcomes.stops.items) }
{
    let Played { outcomes, history } = played;
    let Outcomes {
        stops,
        chroots,
        spent,
    } = outcomes;
    match cause(stops.as_slice()) {
        Some((code, lane)) => Err(RunFault::Stopped {
            code,
            lane,
            ends: stops,
            accepted,
        }),
        None => Ok(FarmRun {
            accepted,
            chroots,
            spent,
            history,
        }),
    }
}

/// Runs the lanes of an accepted plan, each in a thread of its own, over one archive and one gate,
/// and joins them all. All memory for the lanes is taken before the first of them starts; what the
/// archive has come to is told once all have ended.
///
/// No lane meets a trap. That lanes run side by side, are woken and get on is not promised.
///
/// # Errors
///
/// [`RunFault::Stopped`] where a lane could not be started, or a lane's gate gave up: the archive
/// was halted then, and all lanes were joined. Over a gate that never gives up it is always
/// [`NOT_STARTED`](crate::NOT_STARTED). [`RunFault::Memory`] where memory is refused, also where a
/// lane had stopped. Nothing is left behind then.
pub fn run_farm<R: Threads + Wait + Sync, G: Gate + Sync>(
    rt: &R,
    alloc: Global,
    accepted: Accepted,
    gate: &G,
) -> Result<FarmRun, RunFault>
    ensures run { IfOk result (λ run. (run.accepted ≡ accepted)
        × IsFarmRun accepted run.chroots.items run.spent.items run.history.items) }
    ensures fault { IfErr result (IsFault accepted (G.may_give_up gate.now)) }
{
    accepted.keeps();
    let _lanes = accepted.plan().lanes();
    match run_archive(rt, alloc, &accepted, gate) {
        Ok(played) => told(accepted, played),
        Err(_) => Err(RunFault::Memory),
    }
}
