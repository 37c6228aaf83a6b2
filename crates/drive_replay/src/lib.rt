//! What a journal notes of the instructions of a plan, where the core can follow it, and the law by
//! which a run goes on: the order in which lanes come to the archive decides what they pick.
//!
//! Proved: a journal is followed exactly, or refused at the first line that the core cannot follow
//! (`followed_by`), also up to the line that ends it (`unended`); what is noted is of a run of the
//! core, which has made its picks and branches. In any other run in which lanes come to the archive
//! in the same order, each event leaves its lane the same, with the same pick or branch (`IsReplay`).
//! That a run which goes on keeps its journal's order is tested.
#![tactic(auto)]

mod follow;
mod journal;
mod notes;
mod standing;
mod steps;

pub use follow::Follower;
pub use journal::{Followed, ReplayFault, follow_journal, follow_to_end, replay};
pub use notes::{NOTHING, Note, Notes};
pub use standing::Standing;
