//! What a chroot may hold, as rows of words, and what an instruction does to it.
//!
//! Proved: `step` gives the first trap that an instruction may meet, or the may map after it, for
//! any rows where what is known is possible (`answer`); `MayHold::of_base`, `join` and
//! `phases_differ` are their definitions; `Doubts` miss nothing that may be unmet. Not proved: that
//! doubts are few, which only costs time.
#![tactic(auto)]

mod ahead;
mod base;
mod build;
mod configure;
mod doubts;
mod entries;
mod instruction;
mod join;
mod members;
mod needed;
mod numbers;
pub mod pick;
mod sets;
mod settled;
mod space;
mod state;
mod unpack;
mod withdraw;
mod write;

pub use ahead::meets_ahead;
pub use configure::configure_members;
pub use doubts::Doubts;
pub use instruction::{ArchiveWords, LaneOf, step};
pub use sets::{has_bit, variant_count};
pub use space::greatest_size;
pub use state::MayHold;
pub use withdraw::remove_members;
