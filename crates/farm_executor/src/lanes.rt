//! A lane in a thread of its own.

ghost use Rattle.std.specs.Prelude.{◌≡◌, ◌≤◌, [], ℕ, Some, IfErr, IfOk, MatchResult, length, slice_get};
ghost use Rattle.std.specs.Vec.{vec_capacity};
ghost use Rattle.farm_executor.specs.LaneEnds.{IsEndOf, IsReady};
ghost use Rattle.lane_runner.specs.Calls.{IsSameEnd};

use crate::causes::NOT_STARTED;
use crate::judged::Judged;
use chroot_state::Chroot;
use lane_runner::{Gate, LaneArchive, LaneStop, run_lane};
use std::snapshot::Snapshot;
use std::sync::Wait;
use std::sync::atomic::{AtomicU64, Ordering};
use std::thread::{Promise, PromisedHandle, Scope, Threads};

/// A lane that is to be run: its number, its chroot, and its end of the archive.
#[derive(Drop)]
pub struct LaneJob<E> {
    pub lane: u32,
    pub chroot: Chroot,
    pub end: E,
}

/// A lane that was run: how it ended, with code 0 where it came to its end, what it spent, in
/// steps, and what it was given.
#[derive(Drop)]
pub struct LaneEnd<E> {
    pub stop: LaneStop,
    pub spent: u64,
    pub chroot: Chroot,
    pub end: E,
}

/// The end of a lane that never started.
fn never<E: LaneArchive>(job: LaneJob<E>) -> LaneEnd<E>
    ensures code { result.stop.code ≡ NOT_STARTED }
    ensures instruction { result.stop.instruction ≡ 0 }
    ensures chroot { result.chroot ≡ job.chroot }
    ensures end { result.end ≡ job.end }
{
    let LaneJob {
        lane: _,
        chroot,
        end,
    } = job;
    LaneEnd {
        stop: LaneStop {
            code: NOT_STARTED,
            instruction: 0,
        },
        spent: 0,
        chroot,
        end,
    }
}

/// Runs a lane.
fn run_job<R: Wait, Q: Judged, E: LaneArchive, G: Gate>(
    rt: &R,
    judged: &Q,
    gate: &G,
    job: LaneJob<E>,
) -> LaneEnd<E>
    requires ready { IsReady (Q.plan judged.now) job.lane (E.about job.end) (E.lane job.end)
        job.chroot
        (E.log job.end) }
    ensures same { IsSameEnd (E.home job.end) (E.about job.end) (E.lane job.end)
        (E.home result.end) (E.about result.end) (E.lane result.end) }
    ensures ended { IsEndOf (E.about job.end) (G.may_give_up gate.now) job.lane job.chroot
        (E.log job.end) result.chroot (E.log result.end) result.stop result.spent }
{
    let LaneJob {
        lane,
        mut chroot,
        mut end,
    } = job;
    let (stop, spent) = match run_lane(rt, judged.accepted(), lane, &mut chroot, &mut end, gate) {
        Ok(spent) => (
            LaneStop {
                code: 0,
                instruction: 0,
            },
            spent,
        ),
        Err(stop) => (stop, 0),
    };
    LaneEnd {
        stop,
        spent,
        chroot,
        end,
    }
}

/// The body of a lane's thread. Where the thread could not be made it is called on the spot, and
/// gives back what it owns.
fn lane_thread<R: Wait, Q: Judged, E: LaneArchive, G: Gate>(
    rt: &R,
    judged: &Q,
    gate: &G,
    refused: &AtomicU64,
    job: LaneJob<E>,
) -> LaneEnd<E>
    requires ready { IsReady (Q.plan judged.now) job.lane (E.about job.end) (E.lane job.end)
        job.chroot
        (E.log job.end) }
    ensures same { IsSameEnd (E.home job.end) (E.about job.end) (E.lane job.end)
        (E.home result.end) (E.about result.end) (E.lane result.end) }
    ensures ended { IsEndOf (E.about job.end) (G.may_give_up gate.now) job.lane job.chroot
        (E.log job.end) result.chroot (E.log result.end) result.stop result.spent }
{
    if refused.load(Ordering::SeqCst) != 0 {
        never(job)
    } else {
        run_job(rt, judged, gate, job)
    }
}

/// What all lanes of a run have in common: what their threads may do, the accepted plan, and the
/// gate.
#[derive(Drop)]
pub struct Setting<'s, R, Q, G> {
    pub rt: &'s R,
    pub judged: &'s Q,
    pub gate: &'s G,
}

/// The promise of a lane's thread: the end of this job, at this gate.
#[derive(Drop)]
pub struct EndOf<E: LaneArchive + Drop, G: Gate> {
    pub job: Snapshot<LaneJob<E>>,
    pub gate: Snapshot<G>,
}

impl<E: LaneArchive + Drop, G: Gate> Promise<LaneEnd<E>> for EndOf<E, G> {
    ghost kept_by = { λ p r. IsSameEnd (E.home p.job.value.end) (E.about p.job.value.end)
        (E.lane p.job.value.end) (E.home r.end) (E.about r.end) (E.lane r.end)
        × IsEndOf (E.about p.job.value.end) (G.may_give_up p.gate.value) p.job.value.lane
        p.job.value.chroot (E.log p.job.value.end) r.chroot (E.log r.end) r.stop r.spent };
}

/// A lane that runs in a thread, or the end of one whose thread could not be made.
pub type Started<E, G> = Result<PromisedHandle<LaneEnd<E>, EndOf<E, G>>, LaneEnd<E>>;

/// Starts a lane's thread.
fn start<
    's,
    S,
    R: Wait + Sync,
    Q: Judged + Sync,
    E: LaneArchive + Drop + Send + 's,
    G: Gate + Sync,
>(
    scope: &Scope<'s, S>,
    setting: &Setting<'s, R, Q, G>,
    refused: &'s AtomicU64,
    job: LaneJob<E>,
) -> Started<E, G>
    requires ready { IsReady (Q.plan setting.now.judged.now) job.lane (E.about job.end)
        (E.lane job.end) job.chroot (E.log job.end) }
    ensures { MatchResult result
        (λ h. (h.promise.job.value ≡ job) × (h.promise.gate.value ≡ setting.now.gate.now))
        (λ e. IsSameEnd (E.home job.end) (E.about job.end) (E.lane job.end) (E.home e.end)
        (E.about e.end) (E.lane e.end)
        × IsEndOf (E.about job.end) (G.may_give_up setting.now.gate.now) job.lane job.chroot
        (E.log job.end) e.chroot (E.log e.end) e.stop e.spent) }
{
    let rt = setting.rt;
    let judged = setting.judged;
    let gate = setting.gate;
    let promise = EndOf {
        job: Snapshot::of(&job),
        gate: Snapshot::of(gate),
    };
    match scope.spawn_with(promise, move || lane_thread(rt, judged, gate, refused, job)) {
        Ok(handle) => Ok(handle),
        Err(thread) => {
            refused.store(1, Ordering::SeqCst);
            Err((thread.value)())
        }
    }
}

/// Starts a lane's thread, where none before it has failed to start.
fn start_next<
    's,
    S,
    R: Wait + Sync,
    Q: Judged + Sync,
    E: LaneArchive + Drop + Send + 's,
    G: Gate + Sync,
>(
    scope: &Scope<'s, S>,
    setting: &Setting<'s, R, Q, G>,
    refused: &'s AtomicU64,
    failed: bool,
    job: LaneJob<E>,
) -> Started<E, G>
    requires ready { IsReady (Q.plan setting.now.judged.now) job.lane (E.about job.end)
        (E.lane job.end) job.chroot (E.log job.end) }
    ensures { MatchResult result
        (λ h. (h.promise.job.value ≡ job) × (h.promise.gate.value ≡ setting.now.gate.now))
        (λ e. IsSameEnd (E.home job.end) (E.about job.end) (E.lane job.end) (E.home e.end)
        (E.about e.end) (E.lane e.end)
        × IsEndOf (E.about job.end) (G.may_give_up setting.now.gate.now) job.lane job.chroot
        (E.log job.end) e.chroot (E.log e.end) e.stop e.spent) }
{
    if failed {
        refused.store(1, Ordering::SeqCst);
        return Err(lane_thread(setting.rt, setting.judged, setting.gate, refused, job));
    }
    start(scope, setting, refused, job)
}

/// Starts each lane, until one can't be started: from there on each lane ends as never started. The
/// memory for the handles was taken before.
pub fn start_all<
    's,
    S,
    R: Wait + Sync,
    Q: Judged + Sync,
    E: LaneArchive + Drop + Send + 's,
    G: Gate + Sync,
>(
    scope: &Scope<'s, S>,
    setting: &Setting<'s, R, Q, G>,
    refused: &'s [AtomicU64],
    jobs: Vec<LaneJob<E>>,
    mut handles: Vec<Started<E, G>>,
) -> Vec<Started<E, G>>
    requires ready { (k : ℕ) (j : _) → slice_get jobs.items k ≡ Some j
        → IsReady (Q.plan setting.now.judged.now) j.lane (E.about j.end) (E.lane j.end) j.chroot
        (E.log j.end) }
    requires flags { length refused.now ≡ length jobs.items }
    requires handles { (handles.items ≡ []) × (length jobs.items ≤ vec_capacity handles) }
    ensures long { length result.items ≡ length jobs.items }
    ensures each { (k : ℕ) (j : _) (h : _) → slice_get jobs.items k ≡ Some j
        → slice_get result.items k ≡ Some h → MatchResult h
        (λ p. (p.promise.job.value ≡ j) × (p.promise.gate.value ≡ setting.now.gate.now))
        (λ e. IsSameEnd (E.home j.end) (E.about j.end) (E.lane j.end) (E.home e.end)
        (E.about e.end) (E.lane e.end)
        × IsEndOf (E.about j.end) (G.may_give_up setting.now.gate.now) j.lane j.chroot
        (E.log j.end) e.chroot (E.log e.end) e.stop e.spent) }
{
    let mut failed = false;
    for job in jobs {
        let flag = &refused[handles.len()];
        let started = start_next(scope, setting, flag, failed, job);
        failed = started.is_err();
        handles.push_reserved(started);
    }
    handles
}

/// Joins a lane.
fn finish<R: Threads, E: LaneArchive + Drop, G: Gate>(rt: &R, started: Started<E, G>) -> LaneEnd<E>
    ensures refused { IfErr started (λ e. result ≡ e) }
    ensures ended { (j : _) (g : _) → MatchResult started
        (λ p. (p.promise.job.value ≡ j) × (p.promise.gate.value ≡ g))
        (λ e. IsSameEnd (E.home j.end) (E.about j.end) (E.lane j.end) (E.home e.end)
        (E.about e.end) (E.lane e.end)
        × IsEndOf (E.about j.end) (G.may_give_up g) j.lane j.chroot (E.log j.end)
        e.chroot (E.log e.end) e.stop e.spent)
        → IsSameEnd (E.home j.end) (E.about j.end) (E.lane j.end) (E.home result.end)
        (E.about result.end) (E.lane result.end)
        × IsEndOf (E.about j.end) (G.may_give_up g) j.lane j.chroot (E.log j.end)
        result.chroot (E.log result.end) result.stop result.spent }
{
    match started {
        Ok(handle) => handle.join(rt),
        Err(refused) => refused,
    }
}

/// Joins the lanes in their order. The memory for their ends was taken before.
pub fn join_all<R: Threads, E: LaneArchive + Drop, G: Gate>(
    rt: &R,
    handles: Vec<Started<E, G>>,
    mut ends: Vec<LaneEnd<E>>,
) -> Vec<LaneEnd<E>>
    requires { (ends.items ≡ []) × (length handles.items ≤ vec_capacity ends) }
    ensures long { length result.items ≡ length handles.items }
    ensures refused { (k : ℕ) (h : _) (r : _) → slice_get handles.items k ≡ Some h
        → slice_get result.items k ≡ Some r → IfErr h (λ e. r ≡ e) }
    ensures each { (k : ℕ) (h : _) (r : _) → slice_get handles.items k ≡ Some h
        → slice_get result.items k ≡ Some r → (j : _) (g : _) → MatchResult h
        (λ p. (p.promise.job.value ≡ j) × (p.promise.gate.value ≡ g))
        (λ e. IsSameEnd (E.home j.end) (E.about j.end) (E.lane j.end) (E.home e.end)
        (E.about e.end) (E.lane e.end)
        × IsEndOf (E.about j.end) (G.may_give_up g) j.lane j.chroot (E.log j.end)
        e.chroot (E.log e.end) e.stop e.spent)
        → IsSameEnd (E.home j.end) (E.about j.end) (E.lane j.end) (E.home r.end)
        (E.about r.end) (E.lane r.end)
        × IsEndOf (E.about j.end) (G.may_give_up g) j.lane j.chroot (E.log j.end)
        r.chroot (E.log r.end) r.stop r.spent }
{
    for started in handles {
        ends.push_reserved(finish(rt, started));
    }
    ends
}
