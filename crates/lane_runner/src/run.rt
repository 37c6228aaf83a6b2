//! A whole lane.

ghost use Rattle.std.specs.Prelude.{◌≡◌, ◌⊎◌, ◌<◌, ◌≤◌, ◌+◌, true, false, IfOk, IfErr, length};
ghost use Rattle.chroot_state.specs.Held.{IsHeld, opened};
ghost use Rattle.archive_laws.specs.Records.{after_halt};
ghost use Rattle.lane_runner.specs.Calls.{IsSameEnd};
ghost use Rattle.lane_runner.specs.OnWay.{IsFresh, IsEnded, IsStopped};
ghost use Rattle.lane_runner.specs.declared.run.TheConstants.{GAVE_UP, HALTED};
ghost use Rattle.plan_reader.specs.declared.error.TheConstants.{MOST_INSTRUCTIONS};
ghost use Rattle.plan_model.specs.Plan as plan;
ghost use Rattle.plan_verifier.specs.Accepted.{known_rows};

use crate::archive::LaneArchive;
use crate::gate::{Gate, Go, Place};
use crate::runner::Runner;
use crate::turn::Turn;
use chroot_state::Chroot;
use plan_verifier::Accepted;
use std::sync::Wait;

/// The lane's gate gave up.
pub const GAVE_UP: u16 = 501;

/// The archive was halted.
pub const HALTED: u16 = 502;

/// Why a lane stopped ahead of its end, and ahead of which of its instructions, counted from 1.
#[derive(Clone, Copy, Debug, PartialEq, Eq)]
pub struct LaneStop {
    pub code: u16,
    pub instruction: u32,
}

/// Halts the archive, and wakes the lanes that pause.
fn give_up<A: LaneArchive, G: Gate>(archive: &mut A, gate: &G, done: u32) -> LaneStop
    requires { done ≤ MOST_INSTRUCTIONS }
    ensures same { IsSameEnd (A.home archive.old) (A.about archive.old) (A.lane archive.old)
        (A.home archive.new) (A.about archive.new) (A.lane archive.new) }
    ensures log { A.log archive.new ≡ after_halt (A.log archive.old) }
    ensures stop { result ≡ record { code = GAVE_UP; instruction = done + 1 } }
{
    archive.halt();
    gate.ring();
    LaneStop {
        code: GAVE_UP,
        instruction: done + 1,
    }
}

/// Runs a lane from its beginning to its end, and answers with the steps that it has spent. It
/// takes no memory of its own, and may wait.
///
/// # Errors
///
/// [`GAVE_UP`] where the gate gives up. The archive is then halted. [`HALTED`] where the archive
/// was halted by another. The lane stands ahead of its instruction then, with the chroot of that
/// place.
pub fn run_lane<A: LaneArchive, G: Gate>(
    rt: &impl Wait,
    accepted: &Accepted,
    lane: u32,
    chroot: &mut Chroot,
    archive: &mut A,
    gate: &G,
) -> Result<u64, LaneStop>
    requires lane { lane < length accepted.now.plan }
    requires ours { (A.about archive.old ≡ accepted.now) × (A.lane archive.old ≡ lane) }
    requires chroot { (chroot.old ≡ opened accepted.now.universe
        (plan.lane accepted.now.plan lane).base) × IsHeld accepted.now.universe chroot.old }
    requires fresh { IsFresh accepted.now.universe (plan.lane accepted.now.plan lane)
        (A.log archive.old) }
    ensures same { IsSameEnd (A.home archive.old) (A.about archive.old) (A.lane archive.old)
        (A.home archive.new) (A.about archive.new) (A.lane archive.new) }
    ensures held { IsHeld accepted.now.universe chroot.new }
    ensures ended { IfOk result (λ spent. IsEnded accepted.now.universe accepted.now.plan lane spent
        chroot.new (A.log archive.new)) }
    ensures stopped { IfErr result (λ s. IsStopped accepted.now.universe accepted.now.plan
        (known_rows accepted.now) lane s.instruction chroot.new (A.log archive.new)) }
    ensures code { IfErr result (λ s. ((s.code ≡ GAVE_UP) × G.may_give_up gate.now
        × ((A.log archive.new).halted ≡ true)) ⊎ ((s.code ≡ HALTED)
        × ((A.log archive.new).saw ≡ true) × ((A.log archive.new).halted ≡ false))) }
    ensures quiet { IfOk result (λ spent. ((A.log archive.new).halted ≡ false)
        × ((A.log archive.new).saw ≡ false)) }
{
    let mut runner = Runner::new(accepted, lane, chroot, archive);
    let mut begun = false;
    for _ in rt.forever() {
        if runner.has_ended(accepted) {
            return Ok(runner.spent);
        }
        let instruction = runner.done + 1;
        let place = Place {
            accepted,
            chroot,
            lane,
            instruction,
        };
        if !begun && gate.before(place, archive) == Go::GiveUp {
            return Err(give_up(archive, gate, runner.done));
        }
        if archive.halted() {
            return Err(LaneStop {
                code: HALTED,
                instruction: runner.done + 1,
            });
        }
        match runner.turn(accepted, chroot, archive) {
            Turn::Moved => begun = false,
            Turn::Unpacked(variant) => {
                begun = false;
                let place = Place {
                    accepted,
                    chroot,
                    lane,
                    instruction,
                };
                if gate.unpacked(place, archive, variant) == Go::GiveUp {
                    return Err(give_up(archive, gate, runner.done));
                }
            }
            Turn::Branched(holds) => {
                begun = false;
                let place = Place {
                    accepted,
                    chroot,
                    lane,
                    instruction,
                };
                gate.branched(place, archive, holds);
            }
            Turn::Published(publication) => {
                gate.published(accepted, archive, publication);
                begun = runner.made > 0;
            }
            Turn::Waits => {
                if gate.pause(lane, runner.done + 1) == Go::GiveUp {
                    return Err(give_up(archive, gate, runner.done));
                }
                begun = true;
            }
        }
    }
    unreachable!()
}
