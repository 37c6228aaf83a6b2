//! What explains the verdict on a plan, for a person and for a script: notes, and the lines that
//! spell them.
//!
//! Proved: `lane_notes` gives exactly the notes of the first hazard of each lane and what `remove`
//! may leave, `stuck_notes` the notes of the places where the lanes stand once none goes on
//! (`ShowsStuck`), and `waits_notes` those of the waits of a plan, as data, memory apart. Laws say
//! that each hazard is told, that the first note is on the instruction of the refusal, and that
//! notes on stuck lanes are on its lanes. How notes and warnings are spelled is only tested, and so
//! is which further lines stand below a reason.
#![tactic(auto)]

pub mod entries;
mod further;
mod lanes;
mod left;
mod note;
mod origins;
mod stuck;
mod subject;
pub mod text;
mod variants;
mod waits;
mod why;

pub use further::Further;
pub use lanes::{each_hazard_is_told, lane_notes, notes_begin_with_the_verdict};
pub use left::push_left;
pub use note::{Group, Note, NotePlace, Told};
pub use stuck::{notes_are_on_the_stuck, stuck_notes};
pub use subject::{Publication, Publications};
pub use variants::{is_initial, is_known, satisfies};
pub use waits::waits_notes;
