//! The lanes of a run that take their turns one by one.

ghost use Rattle.std.specs.Prelude.{◌≡◌, ℕ, Some, IfOk, length, slice_get};
ghost use Rattle.farm_executor.specs.LaneEnds.{IsReady};
ghost use Rattle.farm_executor.specs.Seated.{AreSameSeats, blank_seat};
ghost use Rattle.lane_runner.specs.Calls.{IsRunning};
ghost use Rattle.word_archive.specs.Seats.{opened_seats};

use crate::jobs::jobs;
use crate::lanes::LaneJob;
use crate::link::Link;
use crate::providers::Providers;
use lane_runner::{LaneArchive, LaneTurns};
use plan_verifier::Accepted;
use std::alloc::{AllocError, Global};
use word_archive::{LaneSeats, SharedArchive};

/// Lets lanes take their turns one by one.
fn in_turns<'a, E: LaneArchive + Drop>(
    alloc: Global,
    accepted: &'a Accepted,
    jobs: Vec<LaneJob<E>>,
) -> Result<Vec<LaneTurns<'a, E>>, AllocError>
    requires ready { (k : ℕ) (j : _) → slice_get jobs.items k ≡ Some j
        → IsReady accepted.now j.lane (E.about j.end) (E.lane j.end) j.chroot (E.log j.end) }
    ensures long { IfOk result (λ r. length r.items ≡ length jobs.items) }
    ensures each { IfOk result (λ r. (k : ℕ) (j : _) (t : _) → slice_get jobs.items k ≡ Some j
        → slice_get r.items k ≡ Some t → (t.end ≡ j.end)
        × IsRunning t.accepted.now t.runner t.chroot (E.about t.end) (E.lane t.end) (E.log t.end)) }
{
    let mut lanes = Vec::new(alloc);
    for job in jobs {
        let LaneJob { lane, chroot, end } = job;
        lanes.push(LaneTurns::new(accepted, lane, chroot, end))?;
    }
    Ok(lanes)
}

/// Makes the lanes of an accepted plan over its archive, each at its beginning. They take their
/// turns whenever their caller says so; their ends have their seats, which the caller gives back.
pub fn lanes_in_turns<'a, 'p>(
    alloc: Global,
    accepted: &'a Accepted,
    archive: &'a SharedArchive<'p>,
    providers: &'a Providers,
    seats: LaneSeats,
) -> Result<(Vec<LaneTurns<'a, Link<'a, 'p>>>, LaneSeats), AllocError>
    requires about { archive.now.accepted.now ≡ accepted.now }
    requires seats { seats ≡ opened_seats archive.now.table.shared.table_id
        archive.now.accepted.now }
    ensures long { IfOk result (λ r. length r.0.items ≡ length accepted.now.plan) }
    ensures each { IfOk result (λ r. (k : ℕ) (t : _) → slice_get r.0.items k ≡ Some t
        → t.end.seat ≡ blank_seat archive.now.table.shared.table_id accepted.now k) }
    ensures running { IfOk result (λ r. (k : ℕ) (t : _) → slice_get r.0.items k ≡ Some t
        → IsRunning t.accepted.now t.runner t.chroot t.end.seat.about t.end.seat.lane
        t.end.seat.log) }
    ensures seats { IfOk result (λ r. AreSameSeats seats r.1) }
{
    let (jobs, seats) = jobs(alloc, accepted, archive, providers, seats)?;
    Ok((in_turns(alloc, accepted, jobs)?, seats))
}
