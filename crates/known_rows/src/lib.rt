//! What each lane of a plan knows of the archive at each place: the variants that are there whatever
//! the other lanes have done.
//!
//! Proved: `knowledge` finds the greatest known rows (`IsGreatest`), and `Known` and `Outputs`
//! answer exactly for each place. Not proved: how fast, and how many threads help.
#![tactic(auto)]

mod by_name;
mod clock;
mod column;
mod columns;
mod entries;
mod entry_sources;
mod first_hits;
mod initial;
mod known;
mod known_outputs;
mod marks;
mod outputs;
mod plan_rows;
mod points;
mod supply;
mod visit;
mod words;

pub use entries::Entries;
pub use initial::initial_row;
pub use known::{Known, KnownWords};
pub use outputs::Outputs;
pub use plan_rows::knowledge;
