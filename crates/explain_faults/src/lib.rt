//! What to say of a text that is refused, and what the notes and warnings on texts are made of.
//!
//! Proved: `farm_note` and `index_limit` give exactly what their definitions do, memory apart
//! (`farm_found`, `item_in`, `index_limit`), and the own line of an item, too (`farm_item_line`);
//! `line_at` and `is_of_field` are their definitions. The word that `word_note` tells, and the line
//! that `plan_note` does, are those of their definitions (`word_told`, `line_told`). Of a text with a
//! fault `read_paragraphs` and `Entries` give nothing, else what it stands for (`paragraphs_read`,
//! `relations_in`). Which cause and which field are told, which names are near another, and how notes
//! are spelled, is only tested.
#![tactic(auto)]

mod base_causes;
mod farm_faults;
mod fault_note;
mod field_notes;
mod found;
mod found_words;
mod near;
mod paragraph;
mod paragraphs;
mod parts;
mod plan_causes;
mod plan_lines;
mod spelling;
mod word_set;

pub use farm_faults::{farm_note, index_limit};
pub use fault_note::{exchanged_look, push_fault_note, push_look};
pub use field_notes::{BASE_FIELDS, FARM_FIELDS, Field, RECIPE_FIELDS, field_note, is_of_field};
pub use found::{FaultFacts, FaultNote};
pub use near::{NearNames, is_near_or_longer};
pub use paragraph::Paragraph;
pub use paragraphs::{Entries, read_paragraphs};
pub use plan_lines::{first_words, line_at, plan_note, word_note};
pub use spelling::{Piece, Pushed, say};
pub use word_set::WordSet;
