//! What the words of portfarm's command line ask for.
//!
//! Proved: `read_schedule` reads a list of lanes exactly, or says that it is not one; without words
//! the verdict on standard input is asked for; what `read_words` asks for is asked for by the command
//! of the first word, and help by a word that asks for help; the files that it names are among the
//! words, and a schedule or the name of a journal is what a word ends with. Not proved, since clap
//! decides it: which options are set, which words are wrong, and what is said then (command_cases).
#![tactic(auto)]

mod after;
mod among;
mod certificates;
mod command;
mod drive;
mod forms;
mod help;
mod import;
mod named;
mod pictures;
mod request;
mod schedule;

pub use after::{AfterFiles, AfterWords, NewPaths, RecipeOption, RecipeSaid};
pub use command::INPUT;
pub use import::ImportWords;
pub use request::{Asked, FarmPaths, Paths, Request, TimelineForm, WordsFault, read_words};
pub use schedule::{ScheduleFault, read_lane, read_schedule, space_lanes};
