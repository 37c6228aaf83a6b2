//! A gate that may tell of a run.

ghost use Rattle.std.specs.Prelude.{◌≡◌, IfOk};
ghost use Rattle.lane_runner.specs.declared.gate.Go.TheVariants.{GiveUp};

use crate::told::Told;
use farm_archive::Publication;
use farm_universe::Variant;
use lane_runner::{Gate, Go, LaneArchive, Place};
use plan_reader::Plan;
use plan_verifier::Accepted;
use std::alloc::{AllocError, Global};
use std::io::Eprint;
use std::sync::{Mutex, Wait};

/// A gate that may tell of the run by lines on the error output of the machine: of each
/// publication, and of each lane that begins to wait. Else it is as the gate in it is. What it
/// tells is no part of any promise.
#[derive(Drop)]
pub struct Teller<'a, R: Wait, G: Gate + Drop> {
    rt: &'a R,
    gate: G,
    tells: bool,
    // held while a line is written, so that lines stand one behind the other
    told: Mutex<Told>,
}

impl<'a, R: Wait, G: Gate + Drop> Teller<'a, R, G> {
    /// A gate of a plan around this one, which tells of its run or does not.
    pub fn new(
        rt: &'a R,
        alloc: Global,
        plan: &Plan,
        gate: G,
        tells: bool,
    ) -> Result<Teller<'a, R, G>, AllocError>
        ensures { IfOk result (λ t. t.gate ≡ gate) }
    {
        let told = Told::new(alloc, plan)?;
        Ok(Teller {
            rt,
            gate,
            tells,
            told: Mutex::new(told),
        })
    }
}

impl<R: Wait + Eprint, G: Gate + Drop> Gate for Teller<'_, R, G> {
    ghost may_give_up = { λ t. G.may_give_up t.gate };

    fn before<A: LaneArchive>(&self, place: Place<'_>, end: &A) -> Go {
        self.gate.before(place, end)
    }

    fn unpacked<A: LaneArchive>(&self, place: Place<'_>, end: &A, variant: Variant) -> Go {
        self.gate.unpacked(place, end, variant)
    }

    fn branched<A: LaneArchive>(&self, place: Place<'_>, end: &A, holds: bool) {
        self.gate.branched(place, end, holds);
    }

    fn pause(&self, lane: u32, instruction: u32) -> Go {
        if self.tells {
            self.told
                .lock(self.rt)
                .tell_wait(self.rt, lane, instruction);
        }
        self.gate.pause(lane, instruction)
    }

    fn published<A: LaneArchive>(&self, accepted: &Accepted, end: &A, publication: Publication) {
        if self.tells {
            self.told
                .lock(self.rt)
                .tell_publication(self.rt, accepted, publication);
        }
        self.gate.published(accepted, end, publication);
    }

    fn ring(&self) {
        self.gate.ring();
    }
}
