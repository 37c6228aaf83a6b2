//! Bytes as lines and JSON show them: names of files, lines and values that an answer repeats.
//!
//! Proved: `write_escaped` and `write_quoted` write exactly the bytes that the definitions say, or a
//! first part of them where a sink fails; the line of a JSON answer is serde_json's text of the
//! value and a newline; a text is exactly the string, and its lines exactly the list of strings,
//! with U+FFFD for what is not UTF-8, memory apart. What a note shows (`push_escaped`, `push_value`,
//! `shown`) is only tested.
#![tactic(auto)]

mod escapes;
mod lines;
mod texts;

pub use escapes::{push_escaped, push_value, shown, write_escaped, write_quoted};
pub use lines::{answer_line, line_list};
pub use texts::text_value;
