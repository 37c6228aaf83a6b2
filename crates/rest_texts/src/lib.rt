//! The texts of a farm that goes on where a run has stopped, and a sketch of its lanes.
//!
//! Proved by the contract of `rest_after`: texts that are given out are read by every command, as a
//! farm that goes on where a journal has led the run of four texts (`IsRestAfter`); `rest_of` is the
//! same of a run that has followed its journal. The archive begins with what the run has left there
//! and what came by hand, without what is withdrawn, and nothing of that is lost; what came by hand is
//! named by words, what words withdraw is withdrawn, and no recipe gives it; and the recipes are those
//! that are left of some, in their order, those that are built by now at no cost.
//!
//! Not proved, and held by cases: that these are the recipes of the given text, and what the run has
//! built of them; how texts and lines are spelled; which paragraphs of packages come from the old text;
//! the sketch; and why there is no such farm.
#![tactic(auto)]

mod after;
mod archives;
mod control;
mod farm_text;
mod lists;
mod notes;
mod packages;
mod past;
mod pending;
mod rest;
mod settled;
mod sketch;
mod stop;
mod wanted;
mod words;

pub use after::{After, FIRST_ENTRY, Run, rest_after};
pub use packages::HEAD;
pub use rest::{Given, Rest, Stopped, rest_of};
pub use words::Said;
