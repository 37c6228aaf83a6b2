//! Pictures of a plan: its timed run for a browser, its builds as a graph, joined by its waits, and
//! which build needs which.
//!
//! Proved: which name is the first of some recipes that no lane builds; of all else that it is safe
//! and ends. command_cases and the model hold nodes and edges; how the picture looks was seen in a
//! browser.
#![tactic(auto)]

mod arrows;
mod bars;
mod bits;
mod dot;
mod dot_of_needs;
mod drawing;
mod drawn;
mod edges;
mod frame;
mod graph;
mod json;
mod json_of_needs;
mod legend;
mod marks;
mod needs;
mod needs_graph;
mod nodes;
mod pieces;
mod scale;
mod sources;
mod stock;
mod style;
mod svg;
mod titles;
mod unbuilt;
mod xml;

pub use dot::plan_dot;
pub use dot_of_needs::needs_dot;
pub use drawn::DrawnPlan;
pub use json::plan_graph_json;
pub use json_of_needs::needs_json;
pub use svg::timeline_svg;
pub use unbuilt::{first_unbuilt, unbuilt_json, unbuilt_text};
