//! Laws that exact verdicts rest on, over the definitions of universes and plans alone.
//!
//! Proved: there are greatest known rows, and a plan with any annotation is safe under them
//! (`greatest_is_annotation`); a plan is safe or has one first unsafe instruction
//! (`safe_or_first_unsafe`, `first_unsafe_is_one`); the stuck lanes are one list, empty where there
//! is an order (`stuck_are_one`, `orders_leave_none_stuck`); tests of the inclusions are exact.
//!
//! Of clocks, which are known rows as counts of each lane's outputs: those that keep to the
//! inclusions have rows that do (`clocks_keep_rows`), such rows lie within those of their clocks
//! (`rows_have_clocks`), and the greatest clocks have the greatest rows
//! (`greatest_clocks_are_greatest`). That the greatest clocks are found is proved in known_rows.
#![tactic(auto)]

pub mod clocks;
pub mod known;
pub mod rows;
pub mod safety;
pub mod stuck;
