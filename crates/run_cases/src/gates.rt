//! Gates at which lanes are held, or give up.

use crate::lines::{push_chroot, push_published};
use crate::manners::Manner;
use farm_archive::Publication;
use farm_universe::Variant;
use lane_runner::{Gate, Go, LaneArchive, Place};
use plan_verifier::Accepted;
use std::alloc::{AllocError, Global};
use std::sync::{Mutex, Wait};

/// How often a lane that is held looks whether it may go on, and how often the lanes of a run may
/// wait in vain.
const MOST: u64 = 1_000_000;

/// What a gate has seen of a run.
#[derive(Drop)]
struct Seen {
    /// How many instructions lanes have stood at.
    come: u64,
    /// Which lanes have begun, a bit each.
    begun: u64,
    /// How many lanes were held until the bell rings.
    held: u64,
    rings: u64,
    pauses: u64,
    /// The publications of the lane that is to stop, a line each, and its chroot.
    published: String,
    chroot: String,
}

impl Seen {
    /// Notes that a lane stands at an instruction.
    fn note(&mut self, place: Place<'_>) {
        self.come = self.come.saturating_add(1);
        self.begun |= bit_of(place.lane);
    }

    /// Notes the chroot of a lane.
    fn note_chroot(&mut self, place: Place<'_>) -> Result<(), AllocError> {
        self.chroot.clear();
        push_chroot(&mut self.chroot, place.accepted.universe(), place.chroot)
    }

    /// Tells whether a lane that stands at an instruction may go on.
    fn passes(&self, gate: Setting, lane: u32, instruction: u32) -> bool {
        match gate.manner {
            Manner::Together => self.come >= gate.lanes.saturating_mul(u64::from(instruction)),
            Manner::InTurn => {
                let next = lane.saturating_add(1);
                u64::from(next) >= gate.lanes || self.begun & bit_of(next) != 0
            }
            _ => !gate.manner.holds(lane, instruction) || self.rings > 0,
        }
    }
}

/// The bit of a lane.
fn bit_of(lane: u32) -> u64 {
    1u64.checked_shl(lane).unwrap_or(0)
}

impl Manner {
    /// Tells whether a lane is held ahead of an instruction until the bell rings.
    fn holds(self, lane: u32, instruction: u32) -> bool {
        match self {
            Manner::Pause { lane: other, held } => lane != other && instruction == held,
            Manner::Halts {
                lane: own,
                instruction: place,
            } => lane == own && instruction == place,
            _ => false,
        }
    }

    /// Tells whether a lane gives up ahead of an instruction.
    fn gives_up_before(self, lane: u32, instruction: u32) -> bool {
        match self {
            Manner::Before {
                lane: own,
                instruction: place,
            } => lane == own && instruction == place,
            Manner::Halts { lane: other, .. } => lane != other,
            _ => false,
        }
    }
}

/// What a gate does, with how many lanes.
#[derive(Clone, Copy)]
struct Setting {
    manner: Manner,
    lanes: u64,
}

/// A gate of a case. It gives up, too, where a lane has looked in vain too often, so that each case
/// ends.
#[derive(Drop)]
pub struct CaseGate<'a, R: Wait> {
    rt: &'a R,
    setting: Setting,
    seen: Mutex<Seen>,
}

impl<'a, R: Wait> CaseGate<'a, R> {
    /// A gate of a run of so many lanes.
    pub fn new(rt: &'a R, alloc: Global, manner: Manner, lanes: usize) -> CaseGate<'a, R> {
        let seen = Seen {
            come: 0,
            begun: 0,
            held: 0,
            rings: 0,
            pauses: 0,
            published: String::new(alloc),
            chroot: String::new(alloc),
        };
        let lanes = lanes as u64;
        CaseGate {
            rt,
            setting: Setting { manner, lanes },
            seen: Mutex::new(seen),
        }
    }

    /// Puts what it has seen of the lane that was to stop behind a text: its publications, a line
    /// each, and its chroot.
    pub fn push_seen(&self, text: &mut String) -> Result<(), AllocError> {
        let seen = self.seen.lock(self.rt);
        text.push_str(&seen.published)?;
        text.push_str(&seen.chroot)
    }

    /// Notes where a lane stands.
    fn note(&self, place: Place<'_>) -> Result<(), AllocError> {
        let mut seen = self.seen.lock(self.rt);
        seen.note(place);
        if self.setting.manner.holds(place.lane, place.instruction) {
            seen.held = seen.held.saturating_add(1);
        }
        if place.lane == self.setting.manner.lane() {
            seen.note_chroot(place)?;
        }
        Ok(())
    }

    /// Notes the chroot behind an unpack.
    fn note_unpacked(&self, place: Place<'_>) -> Result<(), AllocError> {
        self.seen.lock(self.rt).note_chroot(place)
    }

    /// Notes a publication of the lane that is to stop.
    fn note_published(&self, accepted: &Accepted, output: Publication) -> Result<(), AllocError> {
        if output.lane != self.setting.manner.lane() {
            return Ok(());
        }
        let mut seen = self.seen.lock(self.rt);
        push_published(&mut seen.published, accepted.universe(), output)
    }

    /// Holds a lane until it may go on, but not for ever.
    fn hold(&self, lane: u32, instruction: u32) -> Go {
        for _ in 0..MOST {
            if self
                .seen
                .lock(self.rt)
                .passes(self.setting, lane, instruction)
            {
                return Go::Continue;
            }
            std::thread::yield_now();
        }
        Go::GiveUp
    }

    /// Tells whether a lane that waits in vain gives up.
    fn gives_up_waiting(&self, lane: u32) -> bool {
        let mut seen = self.seen.lock(self.rt);
        seen.pauses = seen.pauses.saturating_add(1);
        let is_stop = match self.setting.manner {
            Manner::Pause { lane: own, .. } => lane == own && seen.held > 0,
            _ => false,
        };
        is_stop || seen.pauses >= MOST
    }
}

impl<R: Wait> Gate for CaseGate<'_, R> {
    ghost may_give_up = { λ _. Unit {0} };

    fn before<A: LaneArchive>(&self, place: Place<'_>, _end: &A) -> Go {
        let (lane, instruction) = (place.lane, place.instruction);
        if self.note(place).is_err() || self.setting.manner.gives_up_before(lane, instruction) {
            return Go::GiveUp;
        }
        self.hold(lane, instruction)
    }

    fn unpacked<A: LaneArchive>(&self, place: Place<'_>, _end: &A, _variant: Variant) -> Go {
        let (lane, instruction) = (place.lane, place.instruction);
        if self.setting.manner != (Manner::Unpacked { lane, instruction }) {
            return Go::Continue;
        }
        let _noted = self.note_unpacked(place);
        Go::GiveUp
    }

    fn pause(&self, lane: u32, _instruction: u32) -> Go {
        if self.gives_up_waiting(lane) {
            return Go::GiveUp;
        }
        std::thread::yield_now();
        Go::Continue
    }

    fn published<A: LaneArchive>(&self, accepted: &Accepted, _end: &A, output: Publication) {
        let _noted = self.note_published(accepted, output);
    }

    fn ring(&self) {
        let mut seen = self.seen.lock(self.rt);
        seen.rings = seen.rings.saturating_add(1);
    }
}
