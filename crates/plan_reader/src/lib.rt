//! The plan of a farm: how the four texts are cut from standard input, and how the last of them is
//! read as lanes of instructions over the universe of the other three.
//!
//! Proved: `texts_of` cuts standard input into exactly the four texts; `assemble` and
//! `assemble_side_by_side` give exactly the plan of a text, or its first fault with its line, memory
//! apart (`plan_of`), and from which lines its instructions come (`lines_of`); such a plan keeps
//! what the laws ask (`IsPlan`) and has its count of events; `read_texts` gives exactly the universe
//! and the plan of four texts, or their first fault (`planned_of`); `listing`, and what appends a
//! line of it, give exactly its text. Not proved: how many threads read, how fast, and what memory a
//! text takes.
#![tactic(auto)]

mod again;
mod assembly;
mod blocks;
mod copies;
mod error;
mod events;
mod files;
mod form;
mod input;
mod instructions;
mod landing;
mod lane;
mod line_reading;
mod names;
mod origin;
mod placing;
mod plan;
mod planned;
mod print;
mod reader;
mod recipe_numbers;
mod relations;
mod said;
mod same;
mod side;
mod side_by_side;
mod variants;

pub use error::{
    BAD_LINE, FILE, LineError, MOST_INSTRUCTIONS, MOST_LANES, NAME_TAKEN, NAME_TWICE, NO_PLAN,
    OVER_LIMIT, PUBLISHED_TWICE, UNCLOSED, UNKNOWN_BLOCK, UNKNOWN_NAME,
};
pub use files::file_name;
pub use form::{Form, LaneHead, Wording, read_form};
pub use input::{Texts, texts_of};
pub use instructions::push_instruction;
pub use lane::Lane;
pub use origin::{Origin, PlanLines};
pub use plan::{Plan, lane_name};
pub use plan_model::{Instruction, Members};
pub use planned::{Planned, read_texts};
pub use print::{inside_behind, listing, margin, push_lane_line};
pub use reader::assemble;
pub use relations::{push_entry, push_relation};
pub use side_by_side::assemble_side_by_side;
pub use variants::{name_of, push_variant, version_of};
