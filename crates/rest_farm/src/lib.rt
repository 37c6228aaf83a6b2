//! What is left of a run that has stopped: the archive of the farm that goes on, and its recipes.
//!
//! Proved: what becomes of each recipe is exactly what the rules say of it (`all_fates`), and so are
//! the first word that is refused (`first_fault`), the first thing that a recipe gives and an open
//! publish may have published (`first_clash`), the archive as a list (`archive_items`) and what came
//! into it by hand (`brought_items`). `goes_on` tells exactly whether the universe of a farm goes on
//! where a run has stopped (`IsContinuation` of leg_laws): its archive has what stays and no more,
//! nothing that stays is lost, and no recipe gives what is withdrawn. Packages are compared by name
//! and version. Texts that `judge` calls right are read by every command as such a farm, whose
//! recipes are exactly those that are left, in their order; those that it refuses have that first
//! fault.
//!
//! Not here: the texts of the farm that goes on, and its sketch (rest_texts).
#![tactic(auto)]

mod archive;
mod continuation;
mod fate;
mod item;
mod items;
mod judgement;
mod left;
mod names;
mod pending;
mod words;

pub use archive::{archive_items, brought_items};
pub use continuation::{Ahead, goes_on};
pub use fate::{Fate, RecipeFacts, RecipeNames, WantedRecipe, all_fates, fate_in, fate_of};
pub use item::Item;
pub use items::Items;
pub use judgement::{Claims, Judged, RestTexts, judge};
pub use left::{initial_items, known_item, left_items};
pub use names::{Name, Names};
pub use pending::first_clash;
pub use words::{RecipeWord, RefusedWord, SaidWord, WordFault, WordRules, first_fault};
