//! The desks of the lanes of a run.

ghost use Rattle.std.specs.Prelude.{◌≡◌, IfOk, map};
ghost use Rattle.drive_run.specs.LaneDesks as spec;

use std::alloc::{AllocError, Global};
use std::marker::Model;

/// What a lane has asked for.
#[derive(Clone, Copy, PartialEq, Eq)]
pub enum Request {
    /// Nothing.
    Idle,
    /// The instruction of this number, and no answer has come.
    Open(u32),
    /// The instruction of this number: it is done, or it failed.
    Answered { number: u32, done: bool },
}

/// What a lane has asked for, and the least number that it may ask for next.
#[derive(Clone, Copy)]
pub struct LaneDesk {
    pub request: Request,
    pub least: u64,
}

/// Which lane of a run has asked for what. Lanes are numbered from 0 in file order, instructions
/// from 1; 0 stands for the lane's chroot.
#[derive(Drop)]
pub struct Desk {
    lanes: Vec<LaneDesk>,
}

impl Model for Desk {
    ghost use Rattle.drive_run.specs.LaneDesks.{Desks};

    ghost Value = { Desks };

    ghost view = { λ d. d.lanes.items };
}

/// More than the number of any instruction.
const NO_NUMBER: u64 = 1 << 32;

impl LaneDesk {
    /// Lets the lane ask for nothing more.
    fn close(&mut self)
        ensures { self.new ≡ spec.closed self.old }
    {
        self.least = self.least.max(NO_NUMBER);
    }
}

/// Lets no lane ask for anything more.
fn close_all(desks: &mut [LaneDesk])
    ensures { desks.new ≡ spec.stopped desks.old }
{
    for desk in desks.iter_mut() {
        desk.close();
    }
}

/// What a lane's desk is once its answer is read.
fn read(desk: LaneDesk) -> LaneDesk
    ensures { result ≡ spec.read desk desk.request }
{
    match desk.request {
        Request::Answered { number, done: true } => LaneDesk {
            request: Request::Idle,
            least: desk.least.max(u64::from(number) + 1),
        },
        Request::Answered { done: false, .. } => LaneDesk {
            request: Request::Idle,
            ..desk
        },
        _ => desk,
    }
}

impl Desk {
    /// A desk for each of these lanes, none of which has asked for anything. Of each the least
    /// number is given that it may ask for.
    pub fn new(alloc: Global, least: &[u64]) -> Result<Desk, AllocError>
        ensures { IfOk result (λ desk. desk ≡ map spec.idle least.now) }
    {
        let lanes = least
            .iter()
            .map(|least| LaneDesk {
                request: Request::Idle,
                least: *least,
            })
            .collect(alloc)?;
        Ok(Desk { lanes })
    }

    fn of(&self, lane: u32) -> LaneDesk
        ensures { result ≡ spec.desk_at self.now lane }
    {
        match self.lanes.get(lane as usize) {
            Some(desk) => *desk,
            None => LaneDesk {
                request: Request::Idle,
                least: 0,
            },
        }
    }

    /// What a lane has asked for.
    pub fn request(&self, lane: u32) -> Request
        ensures { result ≡ spec.request_at self.now lane }
    {
        self.of(lane).request
    }

    fn set(&mut self, lane: u32, request: Request)
        ensures { self.new ≡ spec.with_request self.old lane request }
    {
        let desk = self.of(lane);
        if let Some(place) = self.lanes.get_mut(lane as usize) {
            *place = LaneDesk { request, ..desk };
        }
    }

    fn may_ask(&self, lane: u32, number: u32) -> bool
        ensures { result ≡ spec.may_ask self.now lane number }
    {
        let desk = self.of(lane);
        matches!(desk.request, Request::Idle) && desk.least <= u64::from(number)
    }

    /// Notes that a lane asks for an instruction, if it has asked for nothing and that is not done,
    /// and tells whether it is so.
    #[tactic(auto, unfolding(crate::specs::LaneDesks::asked))]
    pub fn ask(&mut self, lane: u32, number: u32) -> bool
        ensures told { result ≡ spec.may_ask self.old lane number }
        ensures after { self.new ≡ spec.asked self.old lane number }
    {
        if !self.may_ask(lane, number) {
            return false;
        }
        self.set(lane, Request::Open(number));
        true
    }

    /// Takes an answer about an instruction, done or failed, if the lane has asked for it and has
    /// no answer yet, and tells whether it is so.
    #[tactic(auto, unfolding(crate::specs::LaneDesks::posted))]
    pub fn post(&mut self, lane: u32, number: u64, done: bool) -> bool
        ensures told { result ≡ spec.is_open_in (spec.request_at self.old lane) number }
        ensures after { self.new ≡ spec.posted self.old lane number done }
    {
        let Request::Open(open) = self.request(lane) else {
            return false;
        };
        if u64::from(open) != number {
            return false;
        }
        self.set(lane, Request::Answered { number: open, done });
        true
    }

    /// Gives a lane the answer to what it has asked for, once: whether that is done.
    #[tactic(auto, unfolding(crate::specs::LaneDesks::taken))]
    pub fn take(&mut self, lane: u32) -> Option<bool>
        ensures told { result ≡ spec.answer_in (spec.request_at self.old lane) }
        ensures after { self.new ≡ spec.taken self.old lane }
    {
        let desk = self.of(lane);
        if let Some(place) = self.lanes.get_mut(lane as usize) {
            *place = read(desk);
        }
        match desk.request {
            Request::Answered { done, .. } => Some(done),
            _ => None,
        }
    }

    /// Notes that a lane waits no more.
    #[tactic(auto, unfolding(crate::specs::LaneDesks::withdrawn))]
    pub fn withdraw(&mut self, lane: u32)
        ensures { self.new ≡ spec.withdrawn self.old lane }
    {
        self.set(lane, Request::Idle);
    }

    /// Lets no lane ask for anything more. What is asked for can still be answered.
    pub fn stop(&mut self)
        ensures { self.new ≡ spec.stopped self.old }
    {
        close_all(&mut self.lanes);
    }
}
