//! Why no builds lead to targets, as lines: needs that nothing can meet (708), or a circle of sources and
//! what would break it (709).
//!
//! Proved is only that all of it is safe and ends. What the lines say cases hold.
#![tactic(auto)]

mod circle;
mod given;
mod hints;
mod hopeless;
mod looked;
mod needs;
mod obstacles;
mod spelled;

pub use given::Asked;
pub use obstacles::obstacle_lines;
pub use spelled::{push_block_package, push_number, push_package};
