//! What a timed run shows, as lines of text and as JSON: the times of its lanes, what each wait
//! waits for, and how much later a build could end.
//!
//! Proved: when a lane ends, and how long it is busy and idle (`AreLanes`). All else is proved to be
//! safe and to end; command_cases and the model hold what it says.
#![tactic(auto)]

mod archive;
mod bars;
mod best;
mod bounds;
mod builds;
mod causes;
mod counts;
mod critical_path;
mod events;
mod facts;
mod givers;
mod json;
mod lane_lines;
mod lanes;
mod marks;
mod members;
mod slack;
mod story;
mod text;
mod timed_plan;
mod verbs;

pub use counts::push_count;
pub use facts::Facts;
pub use givers::{Giver, Givers};
pub use json::timeline_json;
pub use lanes::{LaneFacts, LaneTime};
pub use text::{Layout, timeline_text};
pub use timed_plan::{TimedPlan, waited};
