//! The fields of one paragraph of control data: names, numbers, and values that may be absent.
//!
//! Proved: what each field says, or its fault (`name_at`, `number_up_to`), memory apart.
#![tactic(auto)]

mod error;
mod fields;
mod paragraph;

pub use error::{ABSENT, BAD_VALUE};
pub use fields::{or_text, read_name, read_number_in};
pub use paragraph::Paragraph;
