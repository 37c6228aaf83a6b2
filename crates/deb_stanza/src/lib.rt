//! Control data: the paragraphs of a text and their fields, as Debian Policy 5.1 has them.
//!
//! Proved: `Paragraphs::read` and `plain_lines` give exactly the paragraphs or lines of a text, or
//! its first fault with its line (105, then 101 to 104), memory apart; `field`, `count` and
//! `line_of` are their definitions, and so are `numbered_lines`, the lines that are no comments, and
//! `from_field` and `item_line`, the own line of a field and of an item of its value. Not proved:
//! how fast a text is read, and what memory the names of a long paragraph take.
#![tactic(auto)]

mod draft;
mod error;
mod fields;
mod key;
mod names;
mod own_lines;
mod paragraphs;
mod plain;
mod table;

pub use deb_text::Fault;
pub use error::{
    BAD_FIELD_NAME, CONTINUES_NO_FIELD, FIELD_TWICE, MOST_BYTES, NO_COLON, TEXT_TOO_LONG,
};
pub use own_lines::{OwnLine, from_field, item_line, numbered_lines};
pub use paragraphs::Paragraphs;
pub use plain::{Lines, plain_lines};
