//! The lines by which a driver is asked, those by which it answers, and the words of each recipe
//! beside its name, which the requests repeat.
//!
//! Proved: the text of each request (`instruction_line`, `unpack_line`, `open_line`), what a line of
//! a driver says (`answer_of`), and what is heard of a reader whose bytes are known (`heard`);
//! `read_recipe_words` gives the words of each recipe as its paragraph has them
//! (`all_recipe_words`), memory apart.
#![tactic(auto)]

mod answer;
mod input;
mod paragraph;
mod request;
mod texts;

pub use answer::{Answer, lane_named, read_answer};
pub use input::{Heard, Input};
pub use request::{Head, write_instruction, write_open, write_unpack};
pub use texts::read_recipe_words;
