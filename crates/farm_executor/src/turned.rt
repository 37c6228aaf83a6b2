//! A whole run in one thread, whose lanes take their turns.

ghost use Rattle.std.specs.Prelude.{◌≡◌, ◌≤◌, ◌<◌, ◌^◌, [], ℕ, List, Some, None, true, false, IfErr, IfOk, IfSome, length, map, slice_get};
ghost use Rattle.std.specs.Vec.{vec_capacity};
ghost use Rattle.farm_executor.specs.FarmRuns.{IsFarmRun, IsFault, IsStoppedRun};
ghost use Rattle.farm_executor.specs.Played.{IsPlayed, WereRun};
ghost use Rattle.farm_executor.specs.Turned.{IsRested, IsStopIn};
ghost use Rattle.archive_laws.specs.Records.{Record};
ghost use Rattle.lane_runner.specs.Calls.{IsRunning};
ghost use Rattle.lane_runner.specs.OnWay.{IsEnded};
ghost use Rattle.lane_runner.specs.declared.run.TheConstants.{GAVE_UP};
ghost use Rattle.word_archive.specs.Seats.{opened_seats};

use crate::lanes::LaneEnd;
use crate::link::Link;
use crate::outcomes::{Outcomes, give_back};
use crate::providers::Providers;
use crate::run::{FarmRun, Played, RunFault, told};
use crate::turner::Turner;
use crate::turns::lanes_in_turns;
use lane_runner::{GAVE_UP, HALTED, LaneArchive, LaneStop, LaneTurns};
use plan_verifier::Accepted;
use std::alloc::{AllocError, Global};
use word_archive::{LaneSeats, SharedArchive};

/// A stop: the lane that is its cause, and how all lanes ended.
#[derive(Drop)]
struct Stop {
    lane: u32,
    ends: Vec<LaneStop>,
}

/// Tells whether a lane is at its end.
fn has_ended<E: LaneArchive + Drop>(lane: &LaneTurns<'_, E>) -> bool
    requires running { IsRunning lane.now.accepted.now lane.now.runner lane.now.chroot
        (E.about lane.now.end) (E.lane lane.now.end) (E.log lane.now.end) }
    ensures { result ≡ true → IsEnded lane.now.accepted.now.universe lane.now.accepted.now.plan
        lane.now.runner.lane lane.now.runner.spent lane.now.chroot (E.log lane.now.end) }
{
    lane.runner.has_ended(lane.accepted)
}

/// The first lane that is not at its end.
fn first_left<E: LaneArchive + Drop>(lanes: &[LaneTurns<'_, E>]) -> Option<u32>
    requires few { length lanes.now < 2 ^ 32 }
    requires running { (k : ℕ) (t : _) → slice_get lanes.now k ≡ Some t
        → IsRunning t.accepted.now t.runner t.chroot (E.about t.end) (E.lane t.end)
        (E.log t.end) }
    ensures none { result ≡ None → (k : ℕ) (t : _) → slice_get lanes.now k ≡ Some t
        → IsEnded t.accepted.now.universe t.accepted.now.plan t.runner.lane t.runner.spent
        t.chroot (E.log t.end) }
    ensures some { IfSome result (λ l. l < length lanes.now) }
{
    for number in 0..lanes.len() {
        if !has_ended(&lanes[number]) {
            return Some(number as u32);
        }
    }
    None
}

/// The lane that is the cause of a stop, if the lanes have stopped: the one that is told, or the
/// first that is not at its end.
fn cause_of<E: LaneArchive + Drop>(lanes: &[LaneTurns<'_, E>], told: Option<u32>) -> Option<u32>
    requires few { length lanes.now < 2 ^ 32 }
    requires running { (k : ℕ) (t : _) → slice_get lanes.now k ≡ Some t
        → IsRunning t.accepted.now t.runner t.chroot (E.about t.end) (E.lane t.end)
        (E.log t.end) }
    ensures none { result ≡ None → (k : ℕ) (t : _) → slice_get lanes.now k ≡ Some t
        → IsEnded t.accepted.now.universe t.accepted.now.plan t.runner.lane t.runner.spent
        t.chroot (E.log t.end) }
    ensures some { IfSome result (λ l. l < length lanes.now) }
{
    match told {
        Some(lane) if (lane as usize) < lanes.len() => Some(lane),
        _ => first_left(lanes),
    }
}

/// How a lane ended in a run that stopped.
fn stop_of<E: LaneArchive + Drop>(lane: &LaneTurns<'_, E>, is_cause: bool) -> LaneStop
    requires running { IsRunning lane.now.accepted.now lane.now.runner lane.now.chroot
        (E.about lane.now.end) (E.lane lane.now.end) (E.log lane.now.end) }
    ensures cause { is_cause ≡ true → result.code ≡ GAVE_UP }
    ensures other { is_cause ≡ false → IsRested result }
{
    let instruction = lane.runner.done.saturating_add(1);
    if is_cause {
        return LaneStop {
            code: GAVE_UP,
            instruction,
        };
    }
    if has_ended(lane) {
        return LaneStop {
            code: 0,
            instruction: 0,
        };
    }
    LaneStop {
        code: HALTED,
        instruction,
    }
}

/// How the lanes ended in a run that stopped. The memory for that was taken before.
fn stops_of<E: LaneArchive + Drop>(
    lanes: &[LaneTurns<'_, E>],
    cause: u32,
    mut stops: Vec<LaneStop>,
) -> Vec<LaneStop>
    requires running { (k : ℕ) (t : _) → slice_get lanes.now k ≡ Some t
        → IsRunning t.accepted.now t.runner t.chroot (E.about t.end) (E.lane t.end)
        (E.log t.end) }
    requires room { (stops.items ≡ []) × (length lanes.now ≤ vec_capacity stops) }
    ensures long { length result.items ≡ length lanes.now }
    ensures each { (k : ℕ) (e : _) → slice_get result.items k ≡ Some e
        → IsStopIn cause k e }
{
    for number in 0..lanes.len() {
        stops.push_reserved(stop_of(&lanes[number], number == cause as usize));
    }
    stops
}

/// A lane at its end, as one that was run.
fn end_of<E: LaneArchive + Drop>(lane: LaneTurns<'_, E>) -> LaneEnd<E>
    ensures stop { (result.stop.code ≡ 0) × (result.stop.instruction ≡ 0) }
    ensures spent { result.spent ≡ lane.entry.runner.spent }
    ensures chroot { result.chroot ≡ lane.entry.chroot }
    ensures end { result.end ≡ lane.entry.end }
{
    let LaneTurns {
        accepted: _,
        runner,
        chroot,
        end,
    } = lane;
    LaneEnd {
        stop: LaneStop {
            code: 0,
            instruction: 0,
        },
        spent: runner.spent,
        chroot,
        end,
    }
}

/// The lanes at their ends, as lanes that were run. The memory for that was taken before.
fn ends_of<E: LaneArchive + Drop>(
    lanes: Vec<LaneTurns<'_, E>>,
    mut ends: Vec<LaneEnd<E>>,
) -> Vec<LaneEnd<E>>
    requires room { (ends.items ≡ []) × (length lanes.items ≤ vec_capacity ends) }
    ensures long { length result.items ≡ length lanes.entry.items }
    ensures each { (k : ℕ) (t e : _) → slice_get lanes.entry.items k ≡ Some t
        → slice_get result.items k ≡ Some e → (e.stop.code ≡ 0) × (e.stop.instruction ≡ 0)
        × (e.spent ≡ t.runner.spent) × (e.chroot ≡ t.chroot) × (e.end ≡ t.end) }
{
    for lane in lanes {
        ends.push_reserved(end_of(lane));
    }
    ends
}

/// Lets all lanes take their turns, from their seats until all have come back, or the run stops.
fn turn_lanes<'a, T: Turner>(
    alloc: Global,
    accepted: &'a Accepted,
    turner: &mut T,
    archive: &'a SharedArchive<'_>,
    providers: &'a Providers,
    seats: LaneSeats,
) -> Result<Result<(Outcomes, LaneSeats), Stop>, AllocError>
    requires about { archive.now.accepted.now ≡ accepted.now }
    requires seats { seats ≡ opened_seats archive.now.table.shared.table_id
        archive.now.accepted.now }
    ensures same { IfOk result (λ r. IfOk r (λ o. (o.1.table ≡ seats.table)
        × (o.1.about ≡ seats.about))) }
    ensures were { IfOk result (λ r. IfOk r (λ o. (records : List Record)
        × (o.1.logs ≡ map (λ x. Some x) records)
        × WereRun accepted.now (Unit {0}) o.0.stops.items o.0.chroots.items o.0.spent.items
        o.1.stopped records)) }
    ensures stopped { IfOk result (λ r. IfErr r (λ s. IsStoppedRun accepted.now (Unit {0})
        s.ends.items GAVE_UP s.lane)) }
{
    let count = accepted.plan().lanes();
    let outcomes = Outcomes::with_room(alloc, count)?;
    let ends = Vec::with_capacity(alloc, count)?;
    let stops = Vec::with_capacity(alloc, count)?;
    let (mut lanes, seats) = lanes_in_turns(alloc, accepted, archive, providers, seats)?;
    let told = turner.take_turns(&mut lanes);
    if let Some(lane) = cause_of(&lanes, told) {
        let ends = stops_of(&lanes, lane, stops);
        return Ok(Err(Stop { lane, ends }));
    }
    Ok(Ok(give_back(ends_of(lanes, ends), seats, outcomes)))
}

/// Lets all lanes take their turns as [`turn_lanes`] does, over who provides each name.
fn turn_seats<T: Turner>(
    alloc: Global,
    accepted: &Accepted,
    turner: &mut T,
    archive: &SharedArchive<'_>,
    seats: LaneSeats,
) -> Result<Result<(Outcomes, LaneSeats), Stop>, AllocError>
    requires about { archive.now.accepted.now ≡ accepted.now }
    requires seats { seats ≡ opened_seats archive.now.table.shared.table_id
        archive.now.accepted.now }
    ensures same { IfOk result (λ r. IfOk r (λ o. (o.1.table ≡ seats.table)
        × (o.1.about ≡ seats.about))) }
    ensures were { IfOk result (λ r. IfOk r (λ o. (records : List Record)
        × (o.1.logs ≡ map (λ x. Some x) records)
        × WereRun accepted.now (Unit {0}) o.0.stops.items o.0.chroots.items o.0.spent.items
        o.1.stopped records)) }
    ensures stopped { IfOk result (λ r. IfErr r (λ s. IsStoppedRun accepted.now (Unit {0})
        s.ends.items GAVE_UP s.lane)) }
{
    let providers = Providers::of(alloc, accepted.universe())?;
    turn_lanes(alloc, accepted, turner, archive, &providers, seats)
}

/// Opens the archive of the plan, lets its lanes take their turns, and closes the archive, unless
/// the run stops.
fn turn_archive<T: Turner>(
    alloc: Global,
    accepted: &Accepted,
    turner: &mut T,
) -> Result<Result<Played, Stop>, AllocError>
    ensures played { IfOk result (λ r. IfOk r (λ p. IsPlayed accepted.now (Unit {0})
        p.outcomes.stops.items p.outcomes.chroots.items p.outcomes.spent.items p.history.items)) }
    ensures stopped { IfOk result (λ r. IfErr r (λ s. IsStoppedRun accepted.now (Unit {0})
        s.ends.items GAVE_UP s.lane)) }
{
    let (archive, seats) = SharedArchive::open(alloc, accepted)?;
    match turn_seats(alloc, accepted, turner, &archive, seats)? {
        Ok((outcomes, seats)) => {
            let closed = archive.close(alloc, seats)?;
            Ok(Ok(Played {
                outcomes,
                history: closed.history,
            }))
        }
        Err(stop) => Ok(Err(stop)),
    }
}

/// Tells what the lanes came to: an end, or a stop.
fn told_of(accepted: Accepted, turned: Result<Played, Stop>) -> Result<FarmRun, RunFault>
    requires few { length accepted.plan < 2 ^ 32 }
    requires played { IfOk turned (λ p. IsPlayed accepted (Unit {0}) p.outcomes.stops.items
        p.outcomes.chroots.items p.outcomes.spent.items p.history.items) }
    requires stopped { IfErr turned (λ s. IsStoppedRun accepted (Unit {0}) s.ends.items GAVE_UP
        s.lane) }
    ensures run { IfOk result (λ run. (run.accepted ≡ accepted)
        × IsFarmRun accepted run.chroots.items run.spent.items run.history.items) }
    ensures fault { IfErr result (IsFault accepted (Unit {0})) }
{
    accepted.keeps();
    match turned {
        Ok(played) => told(accepted, played),
        Err(Stop { lane, ends }) => Err(RunFault::Stopped {
            code: GAVE_UP,
            lane,
            ends,
            accepted,
        }),
    }
}

/// Runs the lanes of an accepted plan in one thread, over one archive: they take their turns as
/// `turner` lets them. What the archive has come to is told once all have ended.
///
/// No lane meets a trap. That lanes get on is not promised.
///
/// # Errors
///
/// [`RunFault::Stopped`] by [`GAVE_UP`] where the turner stops ahead of all ends: the lane that it
/// tells is the cause, or the first that is not at its end. [`RunFault::Memory`] where memory is
/// refused. Nothing is left behind then.
pub fn run_farm_in_turns<T: Turner>(
    alloc: Global,
    accepted: Accepted,
    turner: &mut T,
) -> Result<FarmRun, RunFault>
    ensures run { IfOk result (λ run. (run.accepted ≡ accepted)
        × IsFarmRun accepted run.chroots.items run.spent.items run.history.items) }
    ensures fault { IfErr result (IsFault accepted (Unit {0})) }
{
    accepted.keeps();
    let _lanes = accepted.plan().lanes();
    match turn_archive(alloc, &accepted, turner) {
        Ok(turned) => told_of(accepted, turned),
        Err(_) => Err(RunFault::Memory),
    }
}
