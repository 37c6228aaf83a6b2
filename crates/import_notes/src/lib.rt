//! What `import` tells of a farm, as lines: counts, notes, and refusals.
//!
//! Proved: the lines on a farm have a note on each entry that nothing in it meets, and no other such
//! notes (`HasNotes` of import_farm). How notes and refusals are worded, and which others there are,
//! cases hold.
#![tactic(auto)]

mod counts;
mod exact_notes;
mod faults;
mod foreign;
mod import_lines;
mod notes;
mod refusals;
mod shares;
mod source_hints;
mod wish_notes;

pub use import_lines::ImportLines;
