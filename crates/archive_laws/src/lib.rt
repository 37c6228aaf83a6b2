//! The laws that running threads rest on, over definitions alone: what holds of a farm that the
//! words of its archive and the records of its lanes show, whenever no step is in progress; what a
//! load, a draw, an output and a halt make of a lane's record; and how a lane goes on over the words
//! that it loads.
//!
//! Proved: from a world that shows a reachable state each archive step, load and output of a lane
//! leads to such a world (`one_archive_step`; of an annotated plan `loads_reach`, `outputs_reach`),
//! no step of an annotated plan meets a trap there (`worlds_are_ready`), and where all lanes are at
//! their ends the state is finished. The words that a lane of an annotated plan loads are within
//! what is known and possible (`loads_are_in_bounds`), and over such words it meets no trap
//! (`no_trap_within_bounds`); local instructions lead it to the same archive step, and its next
//! output is the one by number. That words in memory keep to this is proved in word_archive.
#![tactic(auto)]

pub mod laws;
pub mod worlds;
