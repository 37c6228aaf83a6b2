//! Which builds are chosen for targets, and what is told of them: the explicit wish, which is one without
//! targets, and the lines on the choice.
//!
//! Proved, memory apart, of builds that are chosen (`IsChosen`): each needs only what builds ahead of it
//! in their order give, by the numbers that stage_builds gives to packages; and each goal has a build of
//! its source among them that is whole or light and gives all that the goal asks for. A goal stands for
//! each source of a package that the targets are made of. So nothing that chooses has to be believed.
//!
//! Not proved: what targets are made of, that few builds are chosen, that there is no way where none is
//! found, and what the texts say; cases hold that.
#![tactic(auto)]

mod answer;
mod candidates;
mod choosing;
mod components;
mod dropped;
mod goal;
mod members;
mod recipe_names;
mod summary;
mod table;
mod task;
mod wish_text;
mod words;

pub use answer::{Answer, NoAnswer, choose_again, choose_for_targets};
pub use candidates::{choosable, own_name};
pub use choosing::{Answered, Choosing, Chosen};
pub use dropped::dropped_needs;
pub use goal::{Goal, are_met, meets};
pub use members::UnmetTarget;
pub use recipe_names::{ChosenRecipe, chosen_recipes};
pub use summary::{Summary, summary_of};
pub use table::push_table;
pub use task::task_of;
pub use wish_text::{WishHead, WishedBase, push_wish};
