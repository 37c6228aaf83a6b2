//! A wish for two architectures: what it says, and the same wish in the names of one, as an import
//! reads it.
//!
//! Proved, memory apart: what the first paragraph says, or its first fault (`cross_head_at`), and what
//! a recipe or a base chroot does (`cross_recipe_at`, `cross_chroot_at`); a wish that is read says so as
//! a whole (`cross_wish_at`). Not proved: the line and the words of a refusal, the encoded wish, and the
//! notes. Cases hold these.
#![tactic(auto)]

mod about;
mod chroot;
mod entries;
mod head;
mod recipe;
mod wish;
mod wish_notes;
mod wish_text;

pub use chroot::CrossChroot;
pub use entries::seen;
pub use head::CrossHead;
pub use recipe::CrossRecipe;
pub use wish::{CrossItems, CrossWish, read_cross_wish};
pub use wish_notes::push_wish_notes;
pub use wish_text::{SPREAD, encoded_wish};
