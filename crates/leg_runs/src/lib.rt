//! The legs of a chain of runs, each of texts of its own: what one stands for, and whether it goes on
//! where another has stopped.
//!
//! Proved: `read_leg` gives the farm and the plan of four texts in the state that a journal leads to,
//! up to its end, with the digest of its lines, the field `After` of its farm text and what that
//! withdraws (`IsRunOf`). `goes_on_from` tells exactly whether a leg goes on where another has stopped
//! (`GoesOnFrom`): its farm names that run and the lines of its journal, what was withdrawn stays so,
//! and its archive begins with what the run has left there and what came by hand, without what is
//! withdrawn.
#![tactic(auto)]

mod fields;
mod fits;
mod leg;
mod listed;
mod sum;

pub use fits::{goes_on_from, is_next, names_run};
pub use leg::{Leg, LegFault, LegTexts, Said, planned_of, read_leg};
pub use sum::journal_sum;
