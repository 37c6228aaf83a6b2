//! The lanes of a run before they start: each has its base chroot and its seat.

ghost use Rattle.std.specs.Prelude.{◌≡◌, ◌<◌, ◌≤◌, ◌^◌, [], ℕ, None, Some, IfOk, length, slice_get, slice_set};
ghost use Rattle.std.specs.Vec.{vec_capacity};
ghost use Rattle.farm_executor.specs.Seated.{AreLaneBases, AreSameSeats, IsJobOf, IsSeatedAt, blank_log_of};
ghost use Rattle.word_archive.specs.Seats.{opened_seats, seat_of};

use crate::lanes::LaneJob;
use crate::link::Link;
use crate::providers::Providers;
use chroot_state::Chroot;
use plan_verifier::Accepted;
use std::alloc::{AllocError, Global};
use word_archive::{LaneSeats, SharedArchive};

/// The base chroot of each lane.
pub fn base_chroots(alloc: Global, accepted: &Accepted) -> Result<Vec<Chroot>, AllocError>
    ensures { IfOk result (λ v. AreLaneBases accepted.now (length accepted.now.plan) v.items) }
{
    accepted.keeps();
    let universe = accepted.universe();
    let plan = accepted.plan();
    let mut chroots = Vec::new(alloc);
    for lane in 0..plan.lanes() {
        chroots.push(Chroot::open(alloc, universe, plan.lane(lane).base())?)?;
    }
    Ok(chroots)
}

/// Takes the seat of a lane.
fn seated_at<'a, 'p>(
    archive: &'a SharedArchive<'p>,
    providers: &'a Providers,
    seats: &mut LaneSeats,
    lane: usize,
    chroot: Chroot,
) -> LaneJob<Link<'a, 'p>>
    requires table { seats.old.table ≡ archive.now.table.shared.table_id }
    requires about { seats.old.about ≡ archive.now.accepted.now }
    requires lane { lane < 2 ^ 32 }
    requires there { slice_get seats.old.logs lane ≡ Some (blank_log_of seats.old.about lane) }
    ensures seats { seats.new ≡ record (seats.old) { logs = slice_set seats.old.logs lane None } }
    ensures job { IsSeatedAt seats.old.table seats.old.about lane chroot result.lane result.chroot
        result.end.seat }
{
    let Some(seat) = seats.take(lane) else {
        unreachable!()
    };
    LaneJob {
        lane: lane as u32,
        chroot,
        end: Link {
            archive,
            providers,
            seat,
        },
    }
}

/// Takes the seats of all lanes. The memory for the jobs was taken before.
fn seated<'a, 'p>(
    archive: &'a SharedArchive<'p>,
    providers: &'a Providers,
    mut seats: LaneSeats,
    chroots: Vec<Chroot>,
    mut jobs: Vec<LaneJob<Link<'a, 'p>>>,
) -> (Vec<LaneJob<Link<'a, 'p>>>, LaneSeats)
    requires few { length chroots.items < 2 ^ 32 }
    requires seats { seats ≡ opened_seats archive.now.table.shared.table_id
        archive.now.accepted.now }
    requires long { length chroots.items ≡ length seats.logs }
    requires room { (jobs.items ≡ []) × (length chroots.items ≤ vec_capacity jobs) }
    ensures long { length result.0.items ≡ length chroots.items }
    ensures each { (k : ℕ) (c : _) (j : _) → slice_get chroots.items k ≡ Some c
        → slice_get result.0.items k ≡ Some j
        → IsSeatedAt seats.table seats.about k c j.lane j.chroot j.end.seat }
    ensures seats { AreSameSeats seats result.1 }
{
    for chroot in chroots {
        let lane = jobs.len();
        jobs.push_reserved(seated_at(archive, providers, &mut seats, lane, chroot));
    }
    (jobs, seats)
}

/// Makes the lanes of a run, each with its base chroot and its seat.
pub fn jobs<'a, 'p>(
    alloc: Global,
    accepted: &Accepted,
    archive: &'a SharedArchive<'p>,
    providers: &'a Providers,
    seats: LaneSeats,
) -> Result<(Vec<LaneJob<Link<'a, 'p>>>, LaneSeats), AllocError>
    requires about { archive.now.accepted.now ≡ accepted.now }
    requires seats { seats ≡ opened_seats archive.now.table.shared.table_id
        archive.now.accepted.now }
    ensures long { IfOk result (λ r. length r.0.items ≡ length accepted.now.plan) }
    ensures each { IfOk result (λ r. (k : ℕ) (j : _) → slice_get r.0.items k ≡ Some j
        → IsJobOf archive.now.table.shared.table_id accepted.now k j.lane j.chroot j.end.seat) }
    ensures seats { IfOk result (λ r. AreSameSeats seats r.1) }
{
    let _lanes = accepted.plan().lanes();
    let chroots = base_chroots(alloc, accepted)?;
    let jobs = Vec::with_capacity(alloc, chroots.len())?;
    Ok(seated(archive, providers, seats, chroots, jobs))
}
