//! The lanes of a run, from their seats to their ends.

ghost use Rattle.std.specs.Prelude.{◌≡◌, ◌≤◌, [], ℕ, List, Some, IfOk, length, map, slice_get};
ghost use Rattle.std.specs.Vec.{vec_capacity};
ghost use Rattle.farm_executor.specs.Played.{WereRun};
ghost use Rattle.farm_executor.specs.Seated.{IsSeatOf};
ghost use Rattle.archive_laws.specs.Records.{Record};
ghost use Rattle.word_archive.specs.Seats.{opened_seats};

use crate::base::BaseSeat;
use crate::jobs::jobs;
use crate::lanes::LaneEnd;
use crate::link::Link;
use crate::providers::Providers;
use crate::scope::run_lanes;
use chroot_state::Chroot;
use lane_runner::{Gate, LaneStop};
use plan_verifier::Accepted;
use std::alloc::{AllocError, Global};
use std::sync::Wait;
use std::thread::Threads;
use word_archive::{LaneSeats, SharedArchive};

/// What came of the lanes of a run, in file order: how each ended, its chroot, and what it spent.
#[derive(Drop)]
pub struct Outcomes {
    pub stops: Vec<LaneStop>,
    pub chroots: Vec<Chroot>,
    pub spent: Vec<u64>,
}

impl Outcomes {
    /// Room for so many lanes.
    pub fn with_room(alloc: Global, lanes: usize) -> Result<Outcomes, AllocError>
        ensures stops { IfOk result (λ o. (o.stops.items ≡ []) × (lanes ≤ vec_capacity o.stops)) }
        ensures chroots { IfOk result (λ o. (o.chroots.items ≡ [])
            × (lanes ≤ vec_capacity o.chroots)) }
        ensures spent { IfOk result (λ o. (o.spent.items ≡ []) × (lanes ≤ vec_capacity o.spent)) }
    {
        Ok(Outcomes {
            stops: Vec::with_capacity(alloc, lanes)?,
            chroots: Vec::with_capacity(alloc, lanes)?,
            spent: Vec::with_capacity(alloc, lanes)?,
        })
    }
}

/// Takes all seats back, and puts the rest of the ends into the outcomes.
pub fn give_back(
    ends: Vec<LaneEnd<Link<'_, '_>>>,
    mut seats: LaneSeats,
    mut outcomes: Outcomes,
) -> (Outcomes, LaneSeats)
    requires seats { (k : ℕ) (e : _) → slice_get ends.items k ≡ Some e
        → IsSeatOf seats.table seats.about k e.end.seat }
    requires long { length ends.items ≡ length seats.logs }
    requires stops { (outcomes.stops.items ≡ [])
        × (length ends.items ≤ vec_capacity outcomes.stops) }
    requires chroots { (outcomes.chroots.items ≡ [])
        × (length ends.items ≤ vec_capacity outcomes.chroots) }
    requires spent { (outcomes.spent.items ≡ [])
        × (length ends.items ≤ vec_capacity outcomes.spent) }
    ensures stops { result.0.stops.items ≡ map (λ e. e.stop) ends.entry.items }
    ensures chroots { result.0.chroots.items ≡ map (λ e. e.chroot) ends.entry.items }
    ensures spent { result.0.spent.items ≡ map (λ e. e.spent) ends.entry.items }
    ensures seats { result.1
        ≡ record seats { logs = map (λ e. Some e.end.seat.log) ends.entry.items } }
{
    for end in ends {
        let LaneEnd {
            stop,
            spent,
            chroot,
            end,
        } = end;
        let Link {
            archive: _,
            providers: _,
            seat,
        } = end;
        seats.give(seat);
        outcomes.stops.push_reserved(stop);
        outcomes.chroots.push_reserved(chroot);
        outcomes.spent.push_reserved(spent);
    }
    (outcomes, seats)
}

/// Runs all lanes, from their seats until all have come back.
pub fn run_seats<R: Threads + Wait + Sync, G: Gate + Sync>(
    rt: &R,
    alloc: Global,
    accepted: &Accepted,
    gate: &G,
    archive: &SharedArchive<'_>,
    seats: LaneSeats,
) -> Result<(Outcomes, LaneSeats), AllocError>
    requires about { archive.now.accepted.now ≡ accepted.now }
    requires seats { seats ≡ opened_seats archive.now.table.shared.table_id
        archive.now.accepted.now }
    ensures same { IfOk result (λ r. (r.1.table ≡ seats.table) × (r.1.about ≡ seats.about)) }
    ensures were { IfOk result (λ r. (records : List Record)
        × (r.1.logs ≡ map (λ x. Some x) records)
        × WereRun accepted.now (G.may_give_up gate.now) r.0.stops.items r.0.chroots.items
        r.0.spent.items r.1.stopped records) }
{
    let outcomes = Outcomes::with_room(alloc, accepted.plan().lanes())?;
    let providers = Providers::of(alloc, accepted.universe())?;
    let (jobs, seats) = jobs(alloc, accepted, archive, &providers, seats)?;
    let base = BaseSeat { archive, seats };
    let (ends, base) = run_lanes(rt, alloc, accepted, gate, jobs, base)?;
    let BaseSeat { archive: _, seats } = base;
    Ok(give_back(ends, seats, outcomes))
}
