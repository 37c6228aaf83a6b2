//! What the readers of control data share: faults, byte classes, cuts, lines, words, numbers and
//! pieces.
//!
//! Proved: each call is its definition: lines, cuts, words, names and numbers of 1 to 15 digits;
//! `next_line`, `next_part` and `next_word` give what comes first, and what is left is shorter;
//! what is appended is exactly the pieces. Not proved: that a call succeeds where there is memory.
#![tactic(auto)]

mod classes;
mod cuts;
mod fault;
pub mod files;
mod lines;
mod numbers;
mod pieces;
mod same;
mod words;

pub use classes::{Class, all_in, begins_with, has};
pub use cuts::{cut_at_first, cut_at_last, next_part, skip_front, split_front, trim};
pub use fault::{Fault, MEMORY};
pub use lines::{Line, is_blank_line, is_comment, next_line};
pub use numbers::{is_number, number_of, read_number};
pub use pieces::push_pieces;
pub use same::is_same_text;
pub use words::{is_head, is_name, is_word, next_word};
