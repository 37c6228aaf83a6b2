//! The archive as words that lanes on threads of their own share, with a seat for each lane.
//! Whenever no step is in progress, words and seats show a reachable state of the farm.
//!
//! Proved: each call with a seat is one atomic step that keeps the rule, and makes of the seat's
//! record what its clause says; a loaded word has what the lane knows, and nothing outside what may
//! be there (`bounds`); where all seats are in, `close` says that words, records and history show a
//! reachable state (`IsClosed`). Not proved: how soon a lane sees another's output.
#![tactic(auto)]

mod calls;
mod closed;
mod rule;
mod seats;
mod shared;

pub use closed::Closed;
pub use seats::{LaneSeat, LaneSeats};
pub use shared::SharedArchive;
