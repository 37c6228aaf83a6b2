//! A run of an accepted plan that a driver outside of this program carries out: its lanes, in one
//! thread, and which of them has asked for what.
//!
//! Proved, where `drive` returns: a run that came to its end is one of the plan, and one that
//! stopped tells the lane that is the cause (`IsRan`); a journal that does not fit is reported by
//! the first line that the core cannot follow, and nothing is written then (`IsNotBegun`). Lanes go
//! on as a `Turner` may. Each call of a desk leaves exactly the desks that are defined: an answer
//! reaches the lane that asked under its number alone, a lane has one request at most, what is done
//! is not asked again, and once a run stops nothing is. A step of a lane adds the line of what the
//! lane is to ask where it stands, or nothing (`IsAtMostAsked`): its chroot, what its instruction
//! says, or the unpack of what it has picked. What a journal notes as done is never asked again
//! (`AreNeverAsked`). An entry counts as kept only where the journal has its whole line, and has
//! kept it for good; a line is added by such an entry of its own lane and number. A failure that a
//! lane reads is kept so, or the journal may lose what it has taken (`IsNotedOrLost`); the times of
//! entries are not noted, since a drive has no clock. Not proved: when something is asked, ranks and
//! waking, and that `drive` returns.
#![tactic(auto)]

mod asking;
mod desk;
mod driven;
mod keeping;
mod known;
mod lanes;
mod laws;
mod lines;
mod office;
mod outcome;
mod question;
mod stage;
mod turns;

pub use desk::{Desk, Request};
pub use driven::{Began, Driven, FIRST_ENTRY, StartFault, Streams, drive};
pub use known::{Known, LaneWords, lane_words};
pub use lanes::{DrivenLanes, DriverStreams};
pub use laws::{answer_reaches_its_lane, done_is_not_asked, one_of_a_lane, stop_asks_nothing_more};
pub use office::Fault;
