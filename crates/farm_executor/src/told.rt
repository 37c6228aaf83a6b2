//! What is told of a run.

use farm_archive::Publication;
use plan_reader::{Plan, lane_name, name_of, version_of};
use plan_verifier::Accepted;
use std::alloc::{AllocError, Global};
use std::io::Eprint;

/// The name of a lane, and the instruction at which it was last told that it waits: 0 where that
/// was never told.
#[derive(Drop)]
struct ToldLane {
    name: Vec<u8>,
    waits_at: u32,
}

/// What was told of the lanes of a run, by lines on the error output of the machine: each
/// publication, and each lane that begins to wait.
#[derive(Drop)]
pub struct Told {
    lanes: Vec<ToldLane>,
}

impl Told {
    /// Nothing was told of the lanes of a plan.
    pub fn new(alloc: Global, plan: &Plan) -> Result<Told, AllocError> {
        let mut lanes = Vec::new(alloc);
        for number in 0..plan.lanes() {
            lanes.push(ToldLane {
                name: plan.lane(number).name().to_vec(alloc)?,
                waits_at: 0,
            })?;
        }
        Ok(Told { lanes })
    }

    /// Tells that a lane waits, unless that was told of this wait before.
    pub fn tell_wait<R: Eprint>(&mut self, rt: &R, lane: u32, instruction: u32) {
        let Some(told) = self.lanes.get_mut(lane as usize) else {
            return;
        };
        if told.waits_at != instruction {
            told.waits_at = instruction;
            let name = told.name.escape_ascii();
            let _written = eprintln!(rt; "lane {name} waits at instruction {instruction}");
        }
    }

    /// Tells of a publication.
    pub fn tell_publication<R: Eprint>(&self, rt: &R, accepted: &Accepted, output: Publication) {
        let Publication {
            serial,
            lane,
            variant,
        } = output;
        let universe = accepted.universe();
        let lane = lane_name(accepted.plan(), lane as usize).escape_ascii();
        let name = name_of(universe, variant.name).escape_ascii();
        let version = version_of(universe, variant).escape_ascii();
        let _written = eprintln!(rt; "lane {lane} published {name} {version} (serial {serial})");
    }
}
