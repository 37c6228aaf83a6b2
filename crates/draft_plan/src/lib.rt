//! Plans that are drafted: what is wanted, the plan as a text, and why there is none.
//!
//! Proved: a text that is given out is accepted by `check` on the four texts, and has the lanes and
//! builds that are wanted (`AnswersSketch`, `AnswersNumber`); `sketch_of` gives exactly what the
//! lanes of a plan are a sketch of; where `follows` says yes, the plan is what was wanted
//! (`Follows`). Not proved: that it says yes of every such plan, that there is no plan where none is
//! given, and the lines that say why; command_cases and the model hold these.
#![tactic(auto)]

mod about;
mod causes;
mod chain;
mod circle;
mod comments;
mod drafted;
mod following;
mod lane;
mod lanes;
mod lists;
mod looked;
mod plan_text;
mod refused;
mod sketch;
mod stuck;
mod through;
mod wanted;
mod wish;
mod wished;
mod written;

pub use about::About;
pub use draft_lanes::Watch;
pub use drafted::{Drafted, draft_by_number, draft_by_sketch};
pub use following::follows;
pub use lane::LaneParts;
pub use refused::{left_out_note, length_note, no_chroot_note, overrun_note, refusal_note};
pub use sketch::sketch_of;
pub use stuck::stuck_note;
pub use wished::{Wanted, WantedLane};
