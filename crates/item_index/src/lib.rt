//! The alternatives of relation fields, listed under the names in them.
//!
//! Proved: what is added is listed under its name, with its place in the field, and what was listed
//! stays so; `Item::of` is the alternative at that place. Not proved: that nothing else is listed
//! under a name (whoever looks tests what is found), and how fast that is.
#![tactic(auto)]

mod index;
mod item;

pub use index::ItemIndex;
pub use item::Item;
