//! All lanes of a run, each in a thread of its own.

ghost use Rattle.std.specs.Prelude.{◌≡◌, ◌⊎◌, ◌≤◌, [], ℕ, Some, Err, IfOk, true, false, length, slice_get};
ghost use Rattle.std.specs.Vec.{vec_capacity};
ghost use Rattle.farm_executor.specs.LaneEnds.{IsEndOf, IsReady};
ghost use Rattle.farm_executor.specs.declared.causes.TheConstants.{NOT_STARTED};
ghost use Rattle.lane_runner.specs.Calls.{IsSameEnd};

use crate::base::Base;
use crate::causes::NOT_STARTED;
use crate::judged::Judged;
use crate::lanes::{LaneEnd, LaneJob, Setting, Started, join_all, start_all};
use lane_runner::{Gate, LaneArchive};
use std::alloc::{AllocError, Global};
use std::sync::Wait;
use std::sync::atomic::AtomicU64;
use std::thread;
use std::thread::{Scope, Threads};

/// Tells whether a lane was not started.
fn is_unstarted<E: LaneArchive + Drop, G: Gate>(started: &Started<E, G>) -> bool
    ensures { result ≡ true → (e : _) × (started.now ≡ Err e) × (e.stop.code ≡ NOT_STARTED) }
{
    match started {
        Ok(_) => false,
        Err(end) => end.stop.code == NOT_STARTED,
    }
}

/// Tells whether some lane was not started.
fn some_unstarted<E: LaneArchive + Drop, G: Gate>(handles: &[Started<E, G>]) -> bool
    ensures { result ≡ true → (k : ℕ) × (e : _) × (slice_get handles.now k ≡ Some (Err e))
        × (e.stop.code ≡ NOT_STARTED) }
{
    for number in 0..handles.len() {
        if is_unstarted(&handles[number]) {
            return true;
        }
    }
    false
}

/// What is made for the lanes of a run before the first of them starts: their jobs, a flag for
/// each, and room for their handles and their ends.
#[derive(Drop)]
pub struct Prepared<'s, E: LaneArchive + Drop, G: Gate> {
    pub refused: &'s [AtomicU64],
    pub jobs: Vec<LaneJob<E>>,
    pub handles: Vec<Started<E, G>>,
    pub ends: Vec<LaneEnd<E>>,
}

/// Starts the lanes, halts the archive where one was not started, and joins them.
pub fn in_scope<
    's,
    S,
    R: Threads + Wait + Sync,
    Q: Judged + Sync,
    B: Base + Drop,
    E: LaneArchive + Drop + Send + 's,
    G: Gate + Sync,
>(
    scope: &Scope<'s, S>,
    setting: &Setting<'s, R, Q, G>,
    prepared: Prepared<'s, E, G>,
    mut base: B,
) -> (Vec<LaneEnd<E>>, B)
    requires ready { (k : ℕ) (j : _) → slice_get prepared.jobs.items k ≡ Some j
        → IsReady (Q.plan setting.now.judged.now) j.lane (E.about j.end) (E.lane j.end) j.chroot
        (E.log j.end) }
    requires flags { length prepared.refused.now ≡ length prepared.jobs.items }
    requires handles { (prepared.handles.items ≡ [])
        × (length prepared.jobs.items ≤ vec_capacity prepared.handles) }
    requires ends { (prepared.ends.items ≡ [])
        × (length prepared.jobs.items ≤ vec_capacity prepared.ends) }
    ensures long { length result.0.items ≡ length prepared.entry.jobs.items }
    ensures each { (k : ℕ) (j : _) (e : _) → slice_get prepared.entry.jobs.items k ≡ Some j
        → slice_get result.0.items k ≡ Some e
        → IsSameEnd (E.home j.end) (E.about j.end) (E.lane j.end) (E.home e.end) (E.about e.end)
        (E.lane e.end)
        × IsEndOf (E.about j.end) (G.may_give_up setting.now.gate.now) j.lane j.chroot
        (E.log j.end) e.chroot (E.log e.end) e.stop e.spent }
    ensures base { (result.1 ≡ base) ⊎ (B.stops base result.1
        × ((k : ℕ) × (e : _) × (slice_get result.0.items k ≡ Some e)
        × (e.stop.code ≡ NOT_STARTED))) }
{
    let Prepared {
        refused,
        jobs,
        handles,
        ends,
    } = prepared;
    let handles = start_all(scope, setting, refused, jobs, handles);
    if some_unstarted(handles.as_slice()) {
        base.stop();
        setting.gate.ring();
    }
    (join_all(setting.rt, handles, ends), base)
}

/// A flag for each lane, not set.
fn flags(alloc: Global, lanes: usize) -> Result<Vec<AtomicU64>, AllocError>
    ensures { IfOk result (λ v. length v.items ≡ lanes) }
{
    let mut flags = Vec::new(alloc);
    for _ in 0..lanes {
        flags.push(AtomicU64::new(0))?;
    }
    Ok(flags)
}

/// Runs the lanes, each in a thread of its own, and joins them. All memory for them is taken before
/// the first of them starts.
///
/// # Errors
///
/// Where memory is refused. No lane has started then.
pub fn run_lanes<
    R: Threads + Wait + Sync,
    Q: Judged + Sync,
    B: Base + Drop,
    E: LaneArchive + Drop + Send,
    G: Gate + Sync,
>(
    rt: &R,
    alloc: Global,
    judged: &Q,
    gate: &G,
    jobs: Vec<LaneJob<E>>,
    base: B,
) -> Result<(Vec<LaneEnd<E>>, B), AllocError>
    requires ready { (k : ℕ) (j : _) → slice_get jobs.items k ≡ Some j
        → IsReady (Q.plan judged.now) j.lane (E.about j.end) (E.lane j.end) j.chroot (E.log j.end) }
    ensures long { IfOk result (λ r. length r.0.items ≡ length jobs.items) }
    ensures each { IfOk result (λ r. (k : ℕ) (j : _) (e : _) → slice_get jobs.items k ≡ Some j
        → slice_get r.0.items k ≡ Some e
        → IsSameEnd (E.home j.end) (E.about j.end) (E.lane j.end) (E.home e.end) (E.about e.end)
        (E.lane e.end)
        × IsEndOf (E.about j.end) (G.may_give_up gate.now) j.lane j.chroot (E.log j.end) e.chroot
        (E.log e.end) e.stop e.spent) }
    ensures base { IfOk result (λ r. (r.1 ≡ base) ⊎ (B.stops base r.1
        × ((k : ℕ) × (e : _) × (slice_get r.0.items k ≡ Some e)
        × (e.stop.code ≡ NOT_STARTED)))) }
{
    let lanes = jobs.len();
    let refused = flags(alloc, lanes)?;
    let handles: Vec<Started<E, G>> = Vec::with_capacity(alloc, lanes)?;
    let ends = Vec::with_capacity(alloc, lanes)?;
    let refused = refused.as_slice();
    Ok(thread::scope(
        thread::scope_env(),
        rt,
        |scope| -> (Vec<LaneEnd<E>>, B)
            requires ready { (k : ℕ) (j : _) → slice_get jobs.items k ≡ Some j
                → IsReady (Q.plan judged.now) j.lane (E.about j.end) (E.lane j.end) j.chroot
                (E.log j.end) }
            requires flags { length refused.now ≡ length jobs.items }
            requires handles { (handles.items ≡ []) × (length jobs.items ≤ vec_capacity handles) }
            requires ends { (ends.items ≡ []) × (length jobs.items ≤ vec_capacity ends) }
            ensures long { length result.0.items ≡ length jobs.items }
            ensures each { (k : ℕ) (j : _) (e : _) → slice_get jobs.items k ≡ Some j
                → slice_get result.0.items k ≡ Some e
                → IsSameEnd (E.home j.end) (E.about j.end) (E.lane j.end) (E.home e.end)
                (E.about e.end) (E.lane e.end)
                × IsEndOf (E.about j.end) (G.may_give_up gate.entry.now) j.lane j.chroot
                (E.log j.end) e.chroot (E.log e.end) e.stop e.spent }
            ensures base { (result.1 ≡ base) ⊎ (B.stops base result.1
                × ((k : ℕ) × (e : _) × (slice_get result.0.items k ≡ Some e)
                × (e.stop.code ≡ NOT_STARTED))) }
        {
            let setting = Setting { rt, judged, gate };
            let prepared = Prepared {
                refused,
                jobs,
                handles,
                ends,
            };
            in_scope(scope, &setting, prepared, base)
        },
    ))
}
