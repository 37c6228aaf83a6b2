//! The wish of an import: a farm text that leaves out what the indexes say.
//!
//! Proved: what a wish says, or the first fault of a paragraph at its line (`wish_at`), memory
//! apart; what each build has that is chosen for targets (`choice_of`); and whether a text leaves a
//! choice (`leaves_choice`).
#![tactic(auto)]

mod choice;
mod chroot;
mod error;
mod fields;
mod head;
mod lists;
mod recipe;
mod targets;
mod wish;

pub use choice::{leaves_a_choice, leaves_choice};
pub use chroot::{MOST_CAPACITY, WishedChroot, read_chroot};
pub use error::{NO_OUTPUT, NO_TARGET, TWICE, UNKNOWN_OUTPUT, UNKNOWN_SOURCE};
pub use head::{Head, read_head};
pub use recipe::{MOST_SIZE, Way, WishedRecipe, WishedSource, read_recipe};
pub use targets::{Common, EveryBuild, Finish, Wanted, read_every, read_wanted};
pub use wish::{Wish, WishItems, read_wish};
