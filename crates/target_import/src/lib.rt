//! An import of a wish that leaves a choice: builds are chosen for its targets, and the explicit wish
//! that tells of them is imported as one of a person is.
//!
//! Proved by the contract of `import_for_targets`: texts that are given out are those of the explicit
//! wish and of the indexes, as `import` promises them (`AreForTargets`).
//!
//! Not proved: that little is chosen, and what the lines of the refusals 706, 708 and 709 say; cases hold
//! that.
#![tactic(auto)]

mod asked;
mod call;
mod explicit;
mod forbid;
mod notes;
mod unmet_targets;

pub use call::import_for_targets;
pub use import_wish::leaves_a_choice;
