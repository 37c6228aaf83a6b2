//! The laws of a chain of runs, over definitions alone: a run stops, and a farm of its own goes on
//! where it has stopped, with what stays of the archive and the recipes that are left.
//!
//! Proved, of a farm whose archive begins with what the run has left (`IsContinuation`): the archive
//! of each of its states is that, and what was published since (`ends_meet`, `stays_there`). Nothing
//! is published twice (`published_once`). If it has the recipes that are left (`IsLeft`), what was
//! wanted is there in the end (`nothing_forgotten`). A plan that is accepted is safe there, whatever
//! was before (`goes_on_safely`), since a turn looks at the archive alone (`archive_alone`). The same
//! holds of a chain of such legs, in which what one has published is there in each later one unless
//! it was withdrawn (`chains_compose`). A chain of two legs is worked out (`two_legs`).
//!
//! That the state of a journal is reached is proved in drive_replay. That texts make such a farm is
//! not proved: no command rests on these laws yet.
#![tactic(auto)]

pub mod example;
pub mod laws;
